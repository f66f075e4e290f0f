// How long the listing is, if that is at most a room: each function takes the room that is left.
// `clause` and `listing` stay two loops: one for both would take a closure, whose clauses are longer than a loop.
ghost use Rattle.definitions.specs.Clauses.{counted_line};
ghost use Rattle.writer.specs.Writer.{Measured};
ghost use Rattle.listing.specs.Texts.{literal_in, clause_in, set_in};

use crate::source::{Source, sign};

// A line of a word and a number.
fn line(word: &[u8], n: u64, room: usize) -> Option<usize>
    ensures { Measured (counted_line word.now n) room result }
{
    let size = word.len() + writer::decimal_size(n) + 2;
    if size > room { None } else { Some(size) }
}

// A literal: `pos` or `neg`, the end of that line, and the atom's text.
fn literal(source: Source<'_>, number: u64, room: usize) -> Option<usize>
    ensures { Measured (literal_in source.entry number) room result }
{
    let signed = sign(number).len();
    let left = room.checked_sub(signed)?;
    let size = writer::measure(source.atom(number), source.spellings, left)?;
    Some(signed + size)
}

// A clause, as the numbers of its literals.
fn clause(source: Source<'_>, numbers: &[u64], room: usize) -> Option<usize>
    ensures { Measured (clause_in source.entry numbers.now) room result }
{
    let mut size = line(b"clause", numbers.len() as u64, room)?;
    for &number in numbers {
        size += literal(source, number, room - size)?;
    }
    Some(size)
}

// The whole listing.
pub fn listing(source: Source<'_>, room: usize) -> Option<usize>
    ensures { Measured (set_in source.entry) room result }
{
    let mut size = line(b"clauses", source.index.len() as u64, room)?;
    for &word in source.index {
        size += clause(source, source.numbers(word), room - size)?;
    }
    Some(size)
}
