// Clauses (stage 5): the clause set of a matrix in negation form, conjunctive or disjunctive.
// The raw clauses are counted first, by one look at each word; a set is made only where the counts are within the limits, clause by clause
// with no set between, and the distinct atoms are ranked once, so that literals and clauses compare as numbers.
#![tactic(auto)]

mod atoms;
mod plan;
pub mod set;
mod sets;

ghost use Rattle.std.specs.Prelude.{◌≡◌, true, ◌≤◌, length};
ghost use Rattle.definitions.specs.Limits.{house};
ghost use Rattle.definitions.specs.Syntax.{Formula};
ghost use Rattle.definitions.specs.Laws.Shapes.{ready};
ghost use Rattle.text.specs.Words.{tokens, code};
ghost use Rattle.clauses.specs.Laying.{marked};
ghost use Rattle.clauses.specs.Stage.{Fits, Outcome};

use atoms::Matrix;
use set::Set;
use text::names::Spellings;
use text::table::Table;

// The raw clauses or their literals are more than a set has room for.
#[derive(Clone, Copy)]
pub struct TooMany;

// The clause set of the matrix in some words, conjunctive or disjunctive. Conjunctive, P(x) ⇔ Q(y) in negation form gives {P(x), ¬Q(y)} and
// {Q(y), ¬P(x)}. Where the raw clauses or their literals are too many (refusal 8) the set has no clause and no atom. Of more words than a table
// has the first are looked at.
pub fn clauses<'a>(
    conjunctive: bool,
    words: &[u64],
    spellings: Spellings<'a>,
    set: &mut Set,
) -> Result<(), TooMany>
    ensures fits { Fits set.new }
    ensures sizes { (length set.new.atoms.nodes ≡ length set.old.atoms.nodes) × (length set.new.literals ≡ length set.old.literals)
        × (length set.new.index ≡ length set.old.index) }
    ensures stage { (f : Formula) → length words.now ≤ house.weight → tokens spellings.entry.text.now spellings.entry.made.now words.now ≡ code f
        → ready f ≡ true → Outcome spellings.entry.text.now spellings.entry.made.now words.now (marked conjunctive) f set.new result }
{
    set.count = 0;
    set.atoms.used = 0;
    let words = &words[..words.len().min(Table::WEIGHT)];
    let mut plan = [0u64; Table::WEIGHT];
    let p = plan::lay_out(words, conjunctive, &mut plan);
    let root = plan::first(&plan[p..]);
    let many = plan::clauses(root) as usize;
    if many > Set::CLAUSES || plan::literals(root) as usize > Set::LITERALS {
        return Err(TooMany);
    }
    let matrix = Matrix { words, spellings };
    matrix.collect(&mut set.atoms);
    plan::label(matrix, set.atoms.words(), &mut plan[p..]);
    sets::gather(&plan[p..], many, set);
    Ok(())
}
