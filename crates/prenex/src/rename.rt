// Renaming: at a binary node each block's variable that is free in the other side gets a new name. The tables' words change in place; the
// made names are only read.
ghost use Rattle.std.specs.Prelude.{◌≡◌, Bool, cond, map, ℕ, ◌*◌, ◌+◌, ◌≤◌, ◌<◌, length, get_or};
ghost use Rattle.definitions.specs.Limits.{house};
ghost use Rattle.definitions.specs.Names.{mem};
ghost use Rattle.definitions.specs.Prenex.{fresh as fresh_name};
ghost use Rattle.text.specs.Words.{kind_of_word};
ghost use Rattle.text.specs.Prefixes.{names};
ghost use Rattle.prenex.specs.Walk.{put};
ghost use Rattle.prenex.specs.Tables.{slot_size, Slot, Known, AllKnown, Ready};
ghost use Rattle.prenex.specs.Renaming.{spelled, read, is_spelled, all_names, Named, Bounds, Spot, RenamesAt, Walks, apart_side, held, Halves, both_apart};

use crate::write;
use crate::write::{TooLong, size};
use text::kind::Kind;
use text::names::Spellings;
use text::table::Table;
use text::word::has_kind;

// The longest name that a variable may have, as a word tells it.
const NAME: u64 = write::NAME as u64;

// What a side has of the two tables: prefix[first..last] and matrix[from..to].
#[derive(Clone, Copy)]
pub struct Part {
    pub first: usize,
    pub last: usize,
    pub from: usize,
    pub to: usize,
}

// Whether a variable of the spelling of `word` stands among these words.
fn occurs<'a>(spellings: Spellings<'a>, words: &[u64], word: u64) -> bool
    ensures { result ≡ mem (spelled spellings.entry word) (names (read spellings.entry words.now)) }
{
    words
        .iter()
        .any(|other| spellings.same_variable(word, *other))
}

// Whether one stands among the words of three runs.
fn taken<'a>(
    spellings: Spellings<'a>,
    bound: &[u64],
    mine: &[u64],
    others: &[u64],
    word: u64,
) -> bool
    ensures { result ≡ mem (spelled spellings.entry word)
        (all_names (read spellings.entry bound.now) (read spellings.entry mine.now) (read spellings.entry others.now)) }
{
    occurs(spellings, bound, word)
        || occurs(spellings, mine, word)
        || occurs(spellings, others, word)
}

// Puts the variable `new` for each variable among these words that is spelled as `old`.
fn put_name<'a>(spellings: Spellings<'a>, words: &mut [u64], old: u64, new: u64)
    requires { kind_of_word new ≡ 12 }
    ensures { (read spellings.entry words.new
        ≡ map (put (spelled spellings.entry old) (spelled spellings.entry new)) (read spellings.entry words.old))
        × ((n : ℕ) → Known n new → AllKnown n words.old → AllKnown n words.new) }
{
    for word in words.iter_mut() {
        if spellings.same_variable(old, *word) {
            *word = new;
        }
    }
}

// Puts `new` for `old` among the words of a matrix, unless one of the blocks `inner` binds it again.
fn rebind<'a>(spellings: Spellings<'a>, inner: &[u64], matrix: &mut [u64], old: u64, new: u64)
    requires { kind_of_word new ≡ 12 }
    ensures { (read spellings.entry matrix.new
        ≡ cond (mem (spelled spellings.entry old) (names (read spellings.entry inner.now)))
        (read spellings.entry matrix.old)
        (map (put (spelled spellings.entry old) (spelled spellings.entry new)) (read spellings.entry matrix.old)))
        × ((n : ℕ) → Known n new → AllKnown n matrix.old → AllKnown n matrix.new) }
{
    if !occurs(spellings, inner, old) {
        put_name(spellings, matrix, old, new);
    }
}

// A new name for a variable in its slot: as many of the slot's backticks as it takes until it is none of those in three runs; all of the
// slot where that would be over 24 bytes.
fn fresh<'a>(
    spellings: Spellings<'a>,
    bound: &[u64],
    mine: &[u64],
    others: &[u64],
    word: u64,
) -> u64
    ensures { (at : ℕ) → at < house.weight → slot_size * house.weight ≤ length spellings.entry.made.now → Slot spellings.entry.made.now at word
        → Named spellings.entry.text.now spellings.entry.made.now at
        (fresh_name (all_names (read spellings.entry bound.now) (read spellings.entry mine.now) (read spellings.entry others.now))
        (spelled spellings.entry word)) result }
{
    let mut new = word;
    // Until a name is free: no range says when.
    while size(new) <= NAME {
        if !taken(spellings, bound, mine, others, new) {
            return new;
        }
        new += 2048;
    }
    new
}

// Renames the variable at prefix[at], of the block that begins at `low`, where it is free in the other side, whose prefix stands behind
// its own. Changes nothing where its new name would be over 24 bytes.
fn one<'a>(
    spellings: Spellings<'a>,
    prefix: &mut [u64],
    low: usize,
    at: usize,
    matrix: &mut [u64],
    mine: Part,
    other: Part,
) -> Result<(), TooLong>
    requires { Spot spellings.made.now prefix.old matrix.old low at mine.last other.last mine.from mine.to other.from other.to }
    ensures { RenamesAt spellings.entry.text.now spellings.entry.made.now prefix.old other.last matrix.old
        low at mine.last other.last mine.from mine.to other.from other.to prefix.new matrix.new (spelled spellings.entry (get_or prefix.old at 0)) result }
{
    let word = prefix[at];
    let others = &matrix[other.from..other.to];
    if !occurs(spellings, others, word) {
        return Ok(());
    }
    if occurs(spellings, &prefix[mine.last..other.last], word) {
        return Ok(());
    }
    let new = fresh(
        spellings,
        &prefix[low..other.last],
        &matrix[mine.from..mine.to],
        others,
        word,
    );
    if size(new) > NAME {
        return Err(TooLong);
    }
    rebind(
        spellings,
        &prefix[at + 1..mine.last],
        &mut matrix[mine.from..mine.to],
        word,
        new,
    );
    prefix[at] = new;
    Ok(())
}

// Renames a side's variables that are free in the other side, in their blocks and in the side's matrix. The other side's prefix stands
// behind its own.
fn side<'a>(
    spellings: Spellings<'a>,
    prefix: &mut [u64],
    matrix: &mut [u64],
    mine: Part,
    other: Part,
) -> Result<(), TooLong>
    requires { Bounds spellings.made.now prefix.old matrix.old mine.last other.last mine.from mine.to other.from other.to
        × (mine.first ≤ mine.last) }
    ensures { Walks spellings.entry.text.now spellings.entry.made.now prefix.old other.last matrix.old
        mine.first mine.last mine.from mine.to prefix.new matrix.new
        (apart_side spellings.entry.text.now spellings.entry.made.now prefix.old matrix.old
        mine.first mine.last other.last mine.from mine.to other.from other.to) result }
{
    let mut low = mine.first;
    for at in mine.first..mine.last {
        if has_kind(prefix[at], Kind::Variable) {
            one(spellings, prefix, low, at, matrix, mine, other)?;
        } else {
            low = at + 1;
        }
    }
    Ok(())
}

// Both sides of a binary node renamed apart: the left against the right with its prefix, then the right against the left side's matrix.
// The right side is what stands behind the left one in the tables.
pub(crate) fn merge<'a>(
    spellings: Spellings<'a>,
    prefix: &mut Table,
    matrix: &mut Table,
    left: Part,
) -> Result<(), TooLong>
    requires { Ready spellings.made.now prefix.old.nodes prefix.old.used matrix.old.nodes
        × Halves left.first left.last prefix.old.used left.from left.to matrix.old.used }
    ensures { (prefix.new.used ≡ prefix.old.used) × (matrix.new.used ≡ matrix.old.used)
        × Walks spellings.entry.text.now spellings.entry.made.now prefix.old.nodes prefix.old.used matrix.old.nodes
        left.first prefix.old.used left.from matrix.old.used prefix.new.nodes matrix.new.nodes
        (both_apart (held spellings.entry.text.now spellings.entry.made.now prefix.old.nodes matrix.old.nodes left.first left.last left.from left.to)
        (held spellings.entry.text.now spellings.entry.made.now prefix.old.nodes matrix.old.nodes left.last prefix.old.used left.to matrix.old.used)) result }
{
    let right = Part {
        first: left.last,
        last: prefix.used,
        from: left.to,
        to: matrix.used,
    };
    side(spellings, &mut prefix.nodes, &mut matrix.nodes, left, right)?;
    let bare = Part {
        first: right.last,
        last: right.last,
        from: left.from,
        to: left.to,
    };
    side(spellings, &mut prefix.nodes, &mut matrix.nodes, right, bare)
}
