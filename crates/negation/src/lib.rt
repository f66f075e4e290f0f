// Negation form (stage 4) over node tables. A run reads the words of a formula and writes those of its form behind the words of a table.
// It stops at the first word without room, and every run above it returns at once: at most a table of words is written, also where an iff
// chain's form is exponentially large, and between two of them lie no more calls than a few for each level of the rule.
// The functions that call themselves borrow the words and the table; none has an array of its own.
#![tactic(auto)]

ghost use Rattle.std.specs.Prelude.{ℕ, ◌+◌, ◌/◌, ◌≤◌, ◌<◌, ◌≡◌, not, List, [], ◌∷◌, ◌++◌, map, length, MatchResult};
ghost use Rattle.definitions.specs.Bytes.{Bytes};
ghost use Rattle.definitions.specs.Syntax.{Name, Formula};
ghost use Rattle.definitions.specs.Negation.{nnf as nnf_of, push_negation as push_not_of};
ghost use Rattle.text.specs.Kinds.{number};
ghost use Rattle.text.specs.Words.{token, sign, var_token, code, kind_of_word, count_of};
ghost use Rattle.negation.specs.Runs.{Read, Blank, Safe, Runs, Copies, Turns, signed};
ghost use Rattle.negation.specs.Stage.{Negated};

use text::kind::Kind;
use text::table::{Full, Table};
use text::word::{arguments, count, kind_of};

// The word with another kind.
fn with_kind(word: u64, kind: Kind) -> u64
    ensures { (kind_of_word result ≡ number kind) × (result / 16 ≡ word / 16) }
{
    word / 16 * 16 + u64::from(kind)
}

// The next word with its kind, and the words behind it.
fn read(words: &[u64]) -> Result<(Kind, u64, &[u64]), Full>
    ensures { MatchResult result (λ r. Read words.now r.0 r.1 r.2.now) (λ _. Blank words.now) }
{
    let (word, rest) = words.split_first().ok_or(Full)?;
    let kind = kind_of(*word).ok_or(Full)?;
    Ok((kind, *word, rest))
}

// What a run gives: the words that are left behind those that it read. Full: the table had no room for a word, or the words are no formula's.
type Rest<'a> = Result<&'a [u64], Full>;

// Copies the next `due` terms, with all that is inside them. A block's variables are such terms too.
fn terms<'a>(words: &'a [u64], due: usize, out: &mut Table) -> Rest<'a>
    requires { due < 64 }
    ensures safe { Safe words.now out.old result out.new }
    ensures does { Copies words.now out.old result out.new due (λ T M. []) }
{
    let mut rest = words;
    let mut left = due;
    // How many words the terms have shows only as they are read: no range says it.
    while left > 0 {
        let (word, behind) = rest.split_first().ok_or(Full)?;
        out.push(*word)?;
        rest = behind;
        left = left - 1 + arguments(*word);
    }
    Ok(rest)
}

// Writes a word, and behind it the next `due` terms: an atom, a constant with none, or a block without its body.
fn with_terms<'a>(words: &'a [u64], word: u64, due: usize, out: &mut Table) -> Rest<'a>
    requires { due < 64 }
    ensures safe { Safe words.now out.old result out.new }
    ensures does { Copies words.now out.old result out.new due (λ T M. token T M word ∷ []) }
{
    out.push(word)?;
    terms(words, due, out)
}

// The same under a negation's word: a negated atom.
fn negated<'a>(words: &'a [u64], word: u64, due: usize, out: &mut Table) -> Rest<'a>
    requires { due < 64 }
    ensures safe { Safe words.now out.old result out.new }
    ensures does { Copies words.now out.old result out.new due (λ T M. sign 2 0 [] ∷ token T M word ∷ []) }
{
    out.push(u64::from(Kind::Not))?;
    with_terms(words, word, due, out)
}

// The next formula in negation form.
#[cycle(forms)]
fn nnf<'a>(words: &'a [u64], out: &mut Table) -> Rest<'a>
    ensures safe { Safe words.now out.old result out.new }
    ensures does { Turns words.now out.old result out.new nnf_of }
{
    let (kind, word, rest) = read(words)?;
    match kind {
        Kind::Top | Kind::Bottom => with_terms(rest, word, 0, out),
        Kind::Not => push_not(rest, out),
        Kind::And => both(rest, Kind::And, false, false, out),
        Kind::Or => both(rest, Kind::Or, false, false, out),
        Kind::Implies => both(rest, Kind::Or, true, false, out),
        Kind::Iff => four(rest, Kind::And, Kind::Or, true, out),
        Kind::Equals => with_terms(rest, word, 2, out),
        Kind::All | Kind::Exists => block(rest, word, false, out),
        Kind::Predicate => with_terms(rest, word, count(word), out),
        Kind::Function | Kind::Variable | Kind::Constant => Err(Full),
    }
}

// The negation of the next formula in negation form.
#[cycle(forms)]
fn push_not<'a>(words: &'a [u64], out: &mut Table) -> Rest<'a>
    ensures safe { Safe words.now out.old result out.new }
    ensures does { Turns words.now out.old result out.new push_not_of }
{
    let (kind, word, rest) = read(words)?;
    match kind {
        Kind::Top => with_terms(rest, u64::from(Kind::Bottom), 0, out),
        Kind::Bottom => with_terms(rest, u64::from(Kind::Top), 0, out),
        Kind::Not => nnf(rest, out),
        Kind::And => both(rest, Kind::Or, true, true, out),
        Kind::Or => both(rest, Kind::And, true, true, out),
        Kind::Implies => both(rest, Kind::And, false, true, out),
        Kind::Iff => four(rest, Kind::Or, Kind::And, false, out),
        Kind::Equals => negated(rest, word, 2, out),
        Kind::All => block(rest, with_kind(word, Kind::Exists), true, out),
        Kind::Exists => block(rest, with_kind(word, Kind::All), true, out),
        Kind::Predicate => negated(rest, word, count(word), out),
        Kind::Function | Kind::Variable | Kind::Constant => Err(Full),
    }
}

// The next formula, or its negation, in negation form.
#[cycle(forms)]
fn side<'a>(words: &'a [u64], neg: bool, out: &mut Table) -> Rest<'a>
    ensures safe { Safe words.now out.old result out.new }
    ensures does { Turns words.now out.old result out.new (signed neg) }
{
    if neg {
        push_not(words, out)
    } else {
        nnf(words, out)
    }
}

// A node of a kind over the next two formulae, each negated where its flag is set.
#[cycle(forms)]
fn both<'a>(words: &'a [u64], kind: Kind, left: bool, right: bool, out: &mut Table) -> Rest<'a>
    ensures safe { Safe words.now out.old result out.new }
    ensures does { (T M : Bytes) (a b : Formula) → Runs (token T M) words.now out.old result out.new (code a ++ code b)
        (token T M (number kind) ∷ (code (signed left a) ++ code (signed right b))) }
{
    out.push(u64::from(kind))?;
    let rest = side(words, left, out)?;
    side(rest, right, out)
}

// A node over two nodes, each over the next two formulae: the first formula is negated in the first node or, where `neg` is not set, in
// the second; the second formula the other way round.
#[cycle(forms)]
fn four<'a>(words: &'a [u64], outer: Kind, inner: Kind, neg: bool, out: &mut Table) -> Rest<'a>
    ensures safe { Safe words.now out.old result out.new }
    ensures does { (T M : Bytes) (a b : Formula) → Runs (token T M) words.now out.old result out.new (code a ++ code b)
        (token T M (number outer) ∷ ((token T M (number inner) ∷ (code (signed neg a) ++ code (signed (not neg) b)))
        ++ (token T M (number inner) ∷ (code (signed (not neg) a) ++ code (signed neg b))))) }
{
    out.push(u64::from(outer))?;
    both(words, inner, neg, !neg, out)?;
    both(words, inner, !neg, neg, out)
}

// A block with the word `word` over the variables and the formula that are next.
#[cycle(forms)]
fn block<'a>(words: &'a [u64], word: u64, neg: bool, out: &mut Table) -> Rest<'a>
    ensures safe { Safe words.now out.old result out.new }
    ensures does { (T M : Bytes) (vs : List Name) (a : Formula) → length vs ≡ count_of word
        → Runs (token T M) words.now out.old result out.new (map var_token vs ++ code a) (token T M word ∷ (map var_token vs ++ code (signed neg a))) }
{
    let rest = with_terms(words, word, count(word), out)?;
    side(rest, neg, out)
}

// The negation form of the formula at the front of the words, written to out: of ¬(P(x) ⇔ Q(y)) it makes (P(x) ∧ ¬Q(y)) ∨ (¬P(x) ∧ Q(y)).
// Words behind the formula are not read. Full: the form has more words than a table. Where no formula begins nothing is said but that the
// count stays in the table, and the array keeps its length.
pub fn negation_form(words: &[u64], out: &mut Table) -> Result<(), Full>
    ensures { Negated words.now out.old out.new result }
{
    out.used = 0;
    nnf(words, out)?;
    Ok(())
}
