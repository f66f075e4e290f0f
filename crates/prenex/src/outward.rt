// The walk over a rule: its blocks go to the prefix and all else to the matrix, in reading order, an iff as two implications. Behind both
// sides of a binary node stands the renaming. Recursion goes along the rule's depth alone.
// The rule text and the made names are lent apart, and not as `Spellings`: these functions write made names.
ghost use Rattle.std.specs.Prelude.{◌≡◌, ℕ, ◌≤◌, ◌<◌, length, List, OnOk};
ghost use Rattle.definitions.specs.Bytes.{Bytes};
ghost use Rattle.definitions.specs.Limits.{house};
ghost use Rattle.definitions.specs.Syntax.{Formula};
ghost use Rattle.text.specs.Kinds.{number};
ghost use Rattle.text.specs.Words.{Token, kind_of_word, code};
ghost use Rattle.prenex.specs.Writing.{Plain, Reads, Extends, Appends};
ghost use Rattle.prenex.specs.Outward.{Begins, Runs, RunsBoth, pair_side, iff_side, Ended, Turned};

use crate::rename::{Part, merge};
use crate::weight::weigh;
use crate::write::{Stop, block, copy, put};
use text::kind::Kind;
use text::names::Spellings;
use text::table::Table;
use text::word::{count, has_kind, kind_of};

// The head of a block, as the sign has it: its kind and how many variables it has.
fn turned(word: u64, flip: bool) -> u64
    requires { (7 < kind_of_word word) × (kind_of_word word ≤ 9) }
    ensures { Turned word flip result }
{
    let variables = 16 * (count(word) as u64);
    if has_kind(word, Kind::All) == flip {
        u64::from(Kind::Exists) + variables
    } else {
        u64::from(Kind::All) + variables
    }
}

// Where the formula at src[at] ends.
fn end_of(src: &[u64], at: usize) -> Result<usize, Stop>
    requires { length src.now ≤ house.weight }
    ensures { Ended src.now at result }
{
    match weigh(src, at) {
        Some(whole) => Ok(whole.next),
        None => Err(Stop::Unfit),
    }
}

// The atom at src[at], copied behind the matrix.
fn atom(src: &[u64], at: usize, matrix: &mut Table) -> Result<(), Stop>
    requires { (matrix.old.used ≤ house.weight) × (length src.now ≤ house.weight) }
    ensures { OnOk result (Extends matrix.old matrix.new)
        × ((T : Bytes) (f : Formula) (rest : List Token) → Plain src.now → Reads T src.now at (code f) rest
        → Appends T matrix.old matrix.new result (code f)) }
{
    let next = end_of(src, at)?;
    copy(src, at, next, matrix)
}

// The formula at src[at] with its blocks out, behind prefix and matrix.
#[cycle(four_outward_pair)]
pub(crate) fn outward(
    text: &[u8],
    made: &mut [u8],
    src: &[u64],
    at: usize,
    flip: bool,
    prefix: &mut Table,
    matrix: &mut Table,
) -> Result<(), Stop>
    requires { Begins made.old prefix.old matrix.old × (length src.now ≤ house.weight) }
    ensures { Runs text.now made.old prefix.old matrix.old src.now at flip made.new prefix.new matrix.new result }
{
    if at >= src.len() {
        return Err(Stop::Unfit);
    }
    let word = src[at];
    let Some(kind) = kind_of(word) else {
        return Err(Stop::Unfit);
    };
    match kind {
        Kind::Top | Kind::Bottom | Kind::Equals | Kind::Predicate => atom(src, at, matrix),
        Kind::Not => {
            put(u64::from(Kind::Not), matrix)?;
            outward(text, made, src, at + 1, !flip, prefix, matrix)
        }
        Kind::And | Kind::Or => {
            let left = at + 1;
            let right = end_of(src, left)?;
            pair(
                text, made, src, left, right, kind, flip, flip, prefix, matrix,
            )
        }
        Kind::Implies => {
            let left = at + 1;
            let right = end_of(src, left)?;
            let turn = !flip;
            pair(
                text, made, src, left, right, kind, turn, flip, prefix, matrix,
            )
        }
        Kind::Iff => {
            let left = at + 1;
            let right = end_of(src, left)?;
            four(text, made, src, left, right, flip, prefix, matrix)
        }
        Kind::All | Kind::Exists => {
            let variables = count(word);
            let head = turned(word, flip);
            block(text, made, src, at + 1, variables, head, prefix)?;
            outward(text, made, src, at + 1 + variables, flip, prefix, matrix)
        }
        Kind::Function | Kind::Variable | Kind::Constant => Err(Stop::Unfit),
    }
}

// A node of the kind `head` over the formulae at src[left] and src[right]: both sides, and each renamed apart from the other.
#[cycle(four_outward_pair)]
fn pair(
    text: &[u8],
    made: &mut [u8],
    src: &[u64],
    left: usize,
    right: usize,
    head: Kind,
    turn: bool,
    flip: bool,
    prefix: &mut Table,
    matrix: &mut Table,
) -> Result<(), Stop>
    requires { Begins made.old prefix.old matrix.old × (length src.now ≤ house.weight) }
    ensures { RunsBoth text.now made.old prefix.old matrix.old src.now left right made.new prefix.new matrix.new result
        (pair_side text.now (number head) turn flip) }
{
    let first = prefix.used;
    put(u64::from(head), matrix)?;
    let from = matrix.used;
    outward(text, made, src, left, turn, prefix, matrix)?;
    let part = Part {
        first,
        last: prefix.used,
        from,
        to: matrix.used,
    };
    outward(text, made, src, right, flip, prefix, matrix)?;
    merge(Spellings { text, made }, prefix, matrix, part)?;
    Ok(())
}

// An iff over the formulae at src[left] and src[right], written out: left to right, and right to left, joined by and. Not one function
// with `pair` over two closures: each would have to be lent all the buffers, which is no plainer.
#[cycle(four_outward_pair)]
fn four(
    text: &[u8],
    made: &mut [u8],
    src: &[u64],
    left: usize,
    right: usize,
    flip: bool,
    prefix: &mut Table,
    matrix: &mut Table,
) -> Result<(), Stop>
    requires { Begins made.old prefix.old matrix.old × (length src.now ≤ house.weight) }
    ensures { RunsBoth text.now made.old prefix.old matrix.old src.now left right made.new prefix.new matrix.new result
        (iff_side text.now flip) }
{
    let head = Kind::Implies;
    let first = prefix.used;
    put(u64::from(Kind::And), matrix)?;
    let from = matrix.used;
    pair(
        text, made, src, left, right, head, !flip, flip, prefix, matrix,
    )?;
    let part = Part {
        first,
        last: prefix.used,
        from,
        to: matrix.used,
    };
    pair(
        text, made, src, right, left, head, !flip, flip, prefix, matrix,
    )?;
    merge(Spellings { text, made }, prefix, matrix, part)?;
    Ok(())
}
