// The nine conversions: a rule's text in, the text of a form out.
#![tactic(auto)]

ghost use Rattle.std.specs.Prelude.{◌≡◌, ◌≤◌, length};
ghost use Rattle.definitions.specs.Bytes.{Bytes};
ghost use Rattle.definitions.specs.Limits.{house, published};
ghost use Rattle.definitions.specs.Convert.{to_simplified, to_nnf, to_pnf, to_snf, to_cnf, to_dnf, pnf_to_snf, snf_to_cnf, snf_to_dnf};
ghost use Rattle.convert.specs.declared.Refusal.TheVariants.{Weight, Clauses};
ghost use Rattle.convert.specs.Answers.{meaning, refused, misread, unprenexed, unskolemised, number_of, place_of, named, Meets, Gives};

use crate::stages::staged;
use clauses::TooMany;
use reader::{Flaw, read_into};
use text::table::{Full, Table};

mod stages;

// The published size of the work buffer.
pub const WORK: usize = 32768;

// Which conversion.
#[derive(Clone, Copy)]
pub enum Conversion {
    Simplify,
    Nnf,
    Pnf,
    Snf,
    Cnf,
    Dnf,
    PnfSnf,
    SnfCnf,
    SnfDnf,
}

// Why there is no text. specs/Answers.antt gives document 01's number and place for each.
#[derive(Clone, Copy)]
pub enum Refusal {
    Room,
    Malformed(usize),
    Large(usize),
    Shape,
    Hash,
    Name(usize),
    Weight(usize),
    Clauses,
    Work,
}

impl Refusal {
    // Its number, never 0.
    pub fn number(self) -> u64
        ensures { result ≡ number_of (refused self) }
    {
        match self {
            Refusal::Room => 1,
            Refusal::Malformed(_) => 2,
            Refusal::Large(_) => 3,
            Refusal::Shape => 4,
            Refusal::Hash => 5,
            Refusal::Name(_) => 6,
            Refusal::Weight(_) => 7,
            Refusal::Clauses => 8,
            Refusal::Work => 9,
        }
    }

    // Its line, its stage or 0.
    pub fn place(self) -> usize
        ensures { result ≡ place_of (refused self) }
    {
        match self {
            Refusal::Malformed(line) | Refusal::Large(line) => line,
            Refusal::Name(stage) | Refusal::Weight(stage) => stage,
            Refusal::Clauses => 5,
            Refusal::Room | Refusal::Shape | Refusal::Hash | Refusal::Work => 0,
        }
    }
}

// What is wrong with a text.
impl From<Flaw> for Refusal {
    ghost from_gives = { λ flaw refusal. refusal ≡ misread flaw };

    fn from(flaw: Flaw) -> Refusal {
        match flaw {
            Flaw::Malformed(line) => Refusal::Malformed(line),
            Flaw::Large(line) => Refusal::Large(line),
        }
    }
}

// Why stage 2 gives no form.
impl From<prenex::Unmade> for Refusal {
    ghost from_gives = { λ unmade refusal. refusal ≡ unprenexed unmade.fate };

    fn from(unmade: prenex::Unmade) -> Refusal {
        match unmade.fate {
            prenex::Fate::Heavy => Refusal::Weight(2),
            prenex::Fate::Long => Refusal::Name(2),
            // Does not come up: work has its published size.
            prenex::Fate::Unfit => Refusal::Work,
        }
    }
}

// Why stage 3 gives none.
impl From<skolem::Unmade> for Refusal {
    ghost from_gives = { λ unmade refusal. refusal ≡ unskolemised unmade.fate };

    fn from(unmade: skolem::Unmade) -> Refusal {
        match unmade.fate {
            skolem::Fate::Heavy => Refusal::Weight(3),
            // Does not come up: work has its published size.
            skolem::Fate::NoRoom => Refusal::Work,
        }
    }
}

// Why stage 4 gives none: the other stages tell a full table by errors of their own.
impl From<Full> for Refusal {
    ghost from_gives = { λ _ refusal. refusal ≡ Weight 4 };

    fn from(_: Full) -> Refusal {
        Refusal::Weight(4)
    }
}

// Why stage 5 gives no clause set.
impl From<TooMany> for Refusal {
    ghost from_gives = { λ _ refusal. refusal ≡ Clauses };

    fn from(_: TooMany) -> Refusal {
        Refusal::Clauses
    }
}

// The refusal's number, 0 where there is a text.
pub fn number_of(answer: Result<usize, Refusal>) -> u64
    ensures { result ≡ number_of (meaning answer) }
{
    match answer {
        Ok(_) => 0,
        Err(refusal) => refusal.number(),
    }
}

// The text's length, or the refusal's line, stage or 0.
pub fn place_of(answer: Result<usize, Refusal>) -> usize
    ensures { result ≡ place_of (meaning answer) }
{
    match answer {
        Ok(length) => length,
        Err(refusal) => refusal.place(),
    }
}

// A rule's text to a form's, where work is long enough.
fn inside(which: Conversion, text: &[u8], made: &mut [u8], out: &mut [u8]) -> Result<usize, Refusal>
    ensures { published house ≤ length made.old → Gives (named which) text.now out.old result out.new }
{
    let mut rule = Table::empty();
    read_into(text, &mut rule)?;
    staged(which, rule.words(), text, made, out)
}

// The conversion that is named: its answer, the form's text in out, work all zero. Refusal 9 comes before all else and leaves work as it is.
pub fn convert(
    which: Conversion,
    text: &[u8],
    out: &mut [u8],
    work: &mut [u8],
) -> Result<usize, Refusal>
    ensures { Meets (named which) text.now out.old work.old result out.new work.new }
{
    if work.len() < WORK {
        return Err(Refusal::Work);
    }
    let answer = inside(which, text, work, out);
    work.fill(0);
    answer
}

// The simplified form. (⊤ ∧ P(x)) gives P(x).
pub fn simplify(text: &[u8], out: &mut [u8], work: &mut [u8]) -> Result<usize, Refusal>
    ensures { Meets to_simplified text.now out.old work.old result out.new work.new }
{
    convert(Conversion::Simplify, text, out, work)
}

// The negation form. ¬(P(x) ⇔ Q(y)) gives (P(x) ∧ ¬Q(y)) ∨ (¬P(x) ∧ Q(y)).
pub fn nnf(text: &[u8], out: &mut [u8], work: &mut [u8]) -> Result<usize, Refusal>
    ensures { Meets to_nnf text.now out.old work.old result out.new work.new }
{
    convert(Conversion::Nnf, text, out, work)
}

// The prenex form. (∀ x. P(x)) ∧ ∃ x. Q(x) gives ∀ x. ∃ x`. (P(x) ∧ Q(x`)).
pub fn pnf(text: &[u8], out: &mut [u8], work: &mut [u8]) -> Result<usize, Refusal>
    ensures { Meets to_pnf text.now out.old work.old result out.new work.new }
{
    convert(Conversion::Pnf, text, out, work)
}

// The Skolem form. ∀ x. ∃ y. P(x, y) gives ∀ x. P(x, f#0(x)).
pub fn snf(text: &[u8], out: &mut [u8], work: &mut [u8]) -> Result<usize, Refusal>
    ensures { Meets to_snf text.now out.old work.old result out.new work.new }
{
    convert(Conversion::Snf, text, out, work)
}

// The conjunctive clause set of a rule. P(x) ⇔ Q(y) gives {P(x), ¬Q(y)} and {Q(y), ¬P(x)}.
pub fn cnf(text: &[u8], out: &mut [u8], work: &mut [u8]) -> Result<usize, Refusal>
    ensures { Meets to_cnf text.now out.old work.old result out.new work.new }
{
    convert(Conversion::Cnf, text, out, work)
}

// The disjunctive clause set of a rule. P(x) ⇒ Q(y) gives {Q(y)} and {¬P(x)}.
pub fn dnf(text: &[u8], out: &mut [u8], work: &mut [u8]) -> Result<usize, Refusal>
    ensures { Meets to_dnf text.now out.old work.old result out.new work.new }
{
    convert(Conversion::Dnf, text, out, work)
}

// The Skolem form of a rule that is in prenex form already.
pub fn pnf_snf(text: &[u8], out: &mut [u8], work: &mut [u8]) -> Result<usize, Refusal>
    ensures { Meets pnf_to_snf text.now out.old work.old result out.new work.new }
{
    convert(Conversion::PnfSnf, text, out, work)
}

// The conjunctive clause set of a rule that is in Skolem form already.
pub fn snf_cnf(text: &[u8], out: &mut [u8], work: &mut [u8]) -> Result<usize, Refusal>
    ensures { Meets snf_to_cnf text.now out.old work.old result out.new work.new }
{
    convert(Conversion::SnfCnf, text, out, work)
}

// The disjunctive clause set of a rule that is in Skolem form already.
pub fn snf_dnf(text: &[u8], out: &mut [u8], work: &mut [u8]) -> Result<usize, Refusal>
    ensures { Meets snf_to_dnf text.now out.old work.old result out.new work.new }
{
    convert(Conversion::SnfDnf, text, out, work)
}
