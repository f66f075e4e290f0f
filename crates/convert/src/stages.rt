// The stages that the conversions pass, of a rule that was read. Each function refuses, or hands its tables to the next. Where a stage writes
// made names they and the rule text are lent apart, and not as `Spellings`.
ghost use Rattle.std.specs.Prelude.{◌≡◌, true, ◌*◌, ◌≤◌, length};
ghost use Rattle.definitions.specs.Bytes.{Bytes};
ghost use Rattle.definitions.specs.Syntax.{Formula, weight};
ghost use Rattle.definitions.specs.RuleText.{written};
ghost use Rattle.definitions.specs.Limits.{house, published};
ghost use Rattle.definitions.specs.Prenex.{Prenex, formula, no_block};
ghost use Rattle.definitions.specs.Skolem.{Skolemised, skolemise as skolem_form, skolem_formula, zero_counts};
ghost use Rattle.definitions.specs.Clauses.{raw, clauses as clause_set, listing};
ghost use Rattle.definitions.specs.Convert.{refused_if, given, too_many, stage, as_clauses, through_skolem, snf, to_simplified, to_nnf, to_pnf, pnf_to_snf};
ghost use Rattle.definitions.specs.Laws.Shapes.{ready};
ghost use Rattle.text.specs.Words.{tokens, code};
ghost use Rattle.text.specs.Tables.{words_of};
ghost use Rattle.text.specs.Prefixes.{prefix_code};
ghost use Rattle.clauses.specs.Laying.{marked};
ghost use Rattle.prenex.specs.Stage.{held};
ghost use Rattle.skolem.specs.Shape.{prenex_shape};
ghost use Rattle.skolem.specs.Parts.{Parts};
ghost use Rattle.convert.specs.Answers.{named, Answered, Shows, ShowsTree};
ghost use Rattle.convert.specs.Stages.{Rule, Prenexes, Tame, Narrow, Joined, ending, of_skolem_stage};

use crate::{Conversion, Refusal};
use clauses::set::Set;
use listing::source::Source;
use listing::write_listing;
use negation::negation_form;
use prenex::prenex_into;
use skolem::counters::Counters;
use skolem::shape::{Shape, has_hash, shape_of, split};
use skolem::skolemise;
use text::names::Spellings;
use text::runs;
use text::table::Table;
use writer::write;

// What follows stage 3: the Skolem form's text, or one of its two clause sets. A value and not a closure: the functions that hand it on
// would each have to say what the closure promises.
#[derive(Clone, Copy)]
pub(crate) enum Last {
    Form,
    Conjunctive,
    Disjunctive,
}

// Writes the formula of some words to the front of out, if there is room for it.
fn show(words: &[u64], spellings: Spellings, out: &mut [u8]) -> Result<usize, Refusal>
    ensures { (f : Formula) → tokens spellings.entry.text.now spellings.entry.made.now words.now ≡ code f → Shows (written f) out.old result out.new }
{
    write(words, spellings, out).ok_or(Refusal::Room)
}

// Puts the words of a matrix behind those of its blocks. What has no room there is left out.
fn join(blocks: &mut Table, matrix: &[u64])
    ensures { Joined blocks.old matrix.now blocks.new }
{
    let from = blocks.used.min(Table::WEIGHT);
    let size = matrix.len().min(Table::WEIGHT - from);
    let end = from + size;
    runs::copy(&mut blocks.nodes[from..end], &matrix[..size]);
    blocks.used = end;
}

// Stage 1: it refuses nothing.
fn simplified(rule: &[u64], spellings: Spellings, out: &mut [u8]) -> Result<usize, Refusal>
    ensures { (f : Formula) → Rule spellings.entry.text.now rule.now f → ShowsTree to_simplified f out.old result out.new }
{
    let mut form = Table::empty();
    simplify::simplify(rule, spellings, &mut form);
    show(form.words(), spellings, out)
}

// Stage 4.
fn negated(rule: &[u64], spellings: Spellings, out: &mut [u8]) -> Result<usize, Refusal>
    ensures { (f : Formula) → Rule spellings.entry.text.now rule.now f → ShowsTree to_nnf f out.old result out.new }
{
    let mut form = Table::empty();
    negation_form(rule, &mut form)?;
    show(form.words(), spellings, out)
}

// Stages 1 and 2, into two tables: how many bytes of `made` the made names use.
fn outward(
    rule: &[u64],
    text: &[u8],
    made: &mut [u8],
    prefix: &mut Table,
    matrix: &mut Table,
) -> Result<usize, prenex::Unmade>
    ensures { Prenexes text.now made.old rule.now made.new (held result prefix.new matrix.new) }
{
    let mut simple = Table::empty();
    simplify::simplify(rule, Spellings { text, made }, &mut simple);
    prenex_into(simple.words(), text, made, prefix, matrix)
}

// The prenex form.
fn prenexed(rule: &[u64], text: &[u8], made: &mut [u8], out: &mut [u8]) -> Result<usize, Refusal>
    ensures { published house ≤ length made.old → (f : Formula) → Rule text.now rule.now f → ShowsTree to_pnf f out.old result out.new }
{
    let mut prefix = Table::empty();
    let mut matrix = Table::empty();
    outward(rule, text, made, &mut prefix, &mut matrix)?;
    join(&mut prefix, matrix.words());
    show(prefix.words(), Spellings { text, made }, out)
}

// Stage 5 of a matrix in negation form, and its listing.
fn listed(
    conjunctive: bool,
    matrix: &[u64],
    spellings: Spellings,
    out: &mut [u8],
) -> Result<usize, Refusal>
    ensures { (g : Formula) → ready g ≡ true → length matrix.now ≤ house.weight
        → tokens spellings.entry.text.now spellings.entry.made.now matrix.now ≡ code g
        → Answered (refused_if (too_many house (raw (marked conjunctive) g)) 8 5 (given (listing (clause_set (marked conjunctive) g))))
        out.old result out.new }
{
    let mut set = Set::empty();
    clauses::clauses(conjunctive, matrix, spellings, &mut set)?;
    let source = Source {
        atoms: set.atoms.words(),
        literals: &set.literals,
        index: set.front(),
        words: matrix,
        spellings,
    };
    write_listing(source, out).ok_or(Refusal::Room)
}

// Stages 4 and 5 of a matrix.
fn clausal(
    conjunctive: bool,
    matrix: &[u64],
    spellings: Spellings,
    out: &mut [u8],
) -> Result<usize, Refusal>
    ensures { (m : Formula) → no_block m ≡ true → Narrow m → tokens spellings.entry.text.now spellings.entry.made.now matrix.now ≡ code m
        → Answered (as_clauses house (marked conjunctive) m) out.old result out.new }
{
    let mut form = Table::empty();
    negation_form(matrix, &mut form)?;
    listed(conjunctive, form.words(), spellings, out)
}

// What follows stage 3.
fn ended(
    last: Last,
    blocks: &mut Table,
    body: &[u64],
    spellings: Spellings,
    out: &mut [u8],
) -> Result<usize, Refusal>
    ensures { (s : Skolemised) → weight (skolem_formula s) ≤ house.weight → no_block s.matrix ≡ true → Narrow s.matrix → blocks.old.used ≤ house.weight
        → tokens spellings.entry.text.now spellings.entry.made.now (words_of blocks.old) ≡ prefix_code s.prefix
        → tokens spellings.entry.text.now spellings.entry.made.now body.now ≡ code s.matrix
        → Answered (ending last s) out.old result out.new }
{
    match last {
        Last::Form => {
            join(blocks, body);
            show(blocks.words(), spellings, out)
        }
        Last::Conjunctive => clausal(true, body, spellings, out),
        Last::Disjunctive => clausal(false, body, spellings, out),
    }
}

// Stage 3 of a prenex form, of whose blocks `prefix` has the words, and of whose matrix `matrix`, and what follows. The first `used` bytes of
// `made` are its made names.
fn skolem_stage(
    last: Last,
    prefix: &[u64],
    matrix: &[u64],
    used: usize,
    text: &[u8],
    made: &mut [u8],
    out: &mut [u8],
) -> Result<usize, Refusal>
    ensures { published house ≤ length made.old → used ≤ 25 * house.weight → (p : Prenex) → Tame (formula p)
        → Parts text.now made.old used prefix.now matrix.now p
        → Answered (stage house 3 (skolem_formula (skolem_form p zero_counts)) (ending last (skolem_form p zero_counts))) out.old result out.new }
{
    let mut blocks = Table::empty();
    let mut body = Table::empty();
    skolemise(
        prefix,
        matrix,
        text,
        made,
        used,
        Counters::start(),
        &mut blocks,
        &mut body,
    )?;
    ended(
        last,
        &mut blocks,
        body.words(),
        Spellings { text, made },
        out,
    )
}

// Stages 1 to 3, with refusal 5 before them, and what follows.
fn skolemised(
    last: Last,
    rule: &[u64],
    text: &[u8],
    made: &mut [u8],
    out: &mut [u8],
) -> Result<usize, Refusal>
    ensures { published house ≤ length made.old → (f : Formula) → Rule text.now rule.now f
        → Answered (through_skolem house f (ending last (snf f))) out.old result out.new }
{
    if has_hash(rule, Spellings { text, made }) {
        return Err(Refusal::Hash);
    }
    let mut prefix = Table::empty();
    let mut matrix = Table::empty();
    let used = outward(rule, text, made, &mut prefix, &mut matrix)?;
    skolem_stage(last, prefix.words(), matrix.words(), used, text, made, out)
}

// Whether a shape is a prenex form's.
fn is_prenex(shape: Shape) -> bool
    ensures { result ≡ prenex_shape shape }
{
    matches!(shape, Shape::Skolem | Shape::Prenex)
}

// Stage 3 of a rule in prenex form, with refusals 4 and 5 before it.
fn of_prenex(rule: &[u64], text: &[u8], made: &mut [u8], out: &mut [u8]) -> Result<usize, Refusal>
    ensures { published house ≤ length made.old → (f : Formula) → Rule text.now rule.now f → ShowsTree pnf_to_snf f out.old result out.new }
{
    if !is_prenex(shape_of(rule)) {
        return Err(Refusal::Shape);
    }
    if has_hash(rule, Spellings { text, made }) {
        return Err(Refusal::Hash);
    }
    let (prefix, matrix) = split(rule);
    skolem_stage(Last::Form, prefix, matrix, 0, text, made, out)
}

// Stages 4 and 5 of a rule in Skolem form, with refusal 4 before them.
fn of_skolem(
    conjunctive: bool,
    rule: &[u64],
    spellings: Spellings,
    out: &mut [u8],
) -> Result<usize, Refusal>
    ensures { (f : Formula) → Rule spellings.entry.text.now rule.now f → Answered (of_skolem_stage conjunctive f) out.old result out.new }
{
    match shape_of(rule) {
        Shape::Other | Shape::Prenex => Err(Refusal::Shape),
        Shape::Skolem => {
            let (_, matrix) = split(rule);
            clausal(conjunctive, matrix, spellings, out)
        }
    }
}

// The stages that a conversion passes. A match and no closure: the caller names the conversion.
#[tactic(auto, unfolding(definitions::specs::Convert::convert_tree))]
pub(crate) fn staged(
    which: Conversion,
    rule: &[u64],
    text: &[u8],
    made: &mut [u8],
    out: &mut [u8],
) -> Result<usize, Refusal>
    ensures { published house ≤ length made.old → (f : Formula) → Rule text.now rule.now f → ShowsTree (named which) f out.old result out.new }
{
    match which {
        Conversion::Simplify => simplified(rule, Spellings { text, made }, out),
        Conversion::Nnf => negated(rule, Spellings { text, made }, out),
        Conversion::Pnf => prenexed(rule, text, made, out),
        Conversion::Snf => skolemised(Last::Form, rule, text, made, out),
        Conversion::Cnf => skolemised(Last::Conjunctive, rule, text, made, out),
        Conversion::Dnf => skolemised(Last::Disjunctive, rule, text, made, out),
        Conversion::PnfSnf => of_prenex(rule, text, made, out),
        Conversion::SnfCnf => of_skolem(true, rule, Spellings { text, made }, out),
        Conversion::SnfDnf => of_skolem(false, rule, Spellings { text, made }, out),
    }
}
