// The listing, written piece by piece where there is room for it; each function gives the place behind what it wrote.
// `clause` and `listing` stay two loops, as in sizes.
ghost use Rattle.std.specs.Prelude.{◌+◌, ◌≤◌, length};
ghost use Rattle.definitions.specs.Clauses.{counted_line};
ghost use Rattle.writer.specs.Writer.{Wrote};
ghost use Rattle.listing.specs.Texts.{literal_in, clause_in, set_in};

use crate::source::{Source, sign};

const TAB: u8 = b'\t';

const LF: u8 = b'\n';

// A line of a word and a number.
fn line(out: &mut [u8], at: usize, word: &[u8], n: u64) -> usize
    requires { at + length (counted_line word.now n) ≤ length out.old }
    ensures { Wrote out.old at (counted_line word.now n) out.new result }
{
    let named = writer::put_run(out, at, word);
    let tabbed = writer::put_byte(out, named, TAB);
    let counted = writer::put_decimal(out, tabbed, n);
    writer::put_byte(out, counted, LF)
}

// A literal: its sign, and its atom's text.
fn literal(out: &mut [u8], at: usize, source: Source<'_>, number: u64) -> usize
    requires { at + length (literal_in source number) ≤ length out.old }
    ensures { Wrote out.old at (literal_in source.entry number) out.new result }
{
    let signed = writer::put_run(out, at, sign(number));
    writer::put_nodes(source.atom(number), source.spellings, out, signed)
}

// A clause, as the numbers of its literals.
fn clause(out: &mut [u8], at: usize, source: Source<'_>, numbers: &[u64]) -> usize
    requires { at + length (clause_in source numbers.now) ≤ length out.old }
    ensures { Wrote out.old at (clause_in source.entry numbers.now) out.new result }
{
    let mut next = line(out, at, b"clause", numbers.len() as u64);
    for &number in numbers {
        next = literal(out, next, source, number);
    }
    next
}

// The whole listing, to the front of out.
pub fn listing(out: &mut [u8], source: Source<'_>) -> usize
    requires { length (set_in source) ≤ length out.old }
    ensures { Wrote out.old 0 (set_in source.entry) out.new result }
{
    let mut next = line(out, 0, b"clauses", source.index.len() as u64);
    for &word in source.index {
        next = clause(out, next, source, source.numbers(word));
    }
    next
}
