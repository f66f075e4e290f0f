// What is printed: the `done` line, a rule with its result or its refusal, or that the file is refused.
ghost use Rattle.std.specs.Prelude.{◌≡◌, true, false, [], ◌∷◌, ◌++◌, ◌+◌, ◌≤◌, ◌<◌, length};
ghost use Rattle.definitions.specs.Bytes.{Bytes, LF as lf};
ghost use Rattle.definitions.specs.Limits.{house, lent};
ghost use Rattle.definitions.specs.Convert.{Conversion as Form, work_after};
ghost use Rattle.definitions.specs.Program.{conversion_word, done_word, field_line, refusal};
ghost use Rattle.writer.specs.Writer.{Wrote};
ghost use Rattle.convert.specs.Answers.{named};
ghost use Rattle.stream.specs.Machine.{at, name_kept, text_kept, print_bytes, print_work, result_bytes, rule_print, last_early, due_print, last_print};
ghost use Rattle.stream.specs.Pushing.{print_room, Put, Prints};

use crate::machine::{Early, LABEL, State, name};
use convert::Conversion;
use text::names;

const TAB: u8 = 9;

const LF: u8 = 10;

// What is lent for a result, and with a rule line of at most 30 bytes before it.
const LENT: usize = 65536;

pub const ROOM: usize = 65566;

// Writes a line: a word with its tab, and a field. Gives the place behind it.
fn put_line(out: &mut [u8], start: usize, word: &[u8], field: &[u8]) -> usize
    requires { start + (length word.now + length field.now) < length out.old }
    ensures { Wrote out.old start (word.now ++ (field.now ++ (lf ∷ []))) out.new result }
{
    let behind = writer::put_run(out, start, word);
    let end = writer::put_run(out, behind, field);
    writer::put_byte(out, end, LF)
}

// Writes `refused` TAB number TAB place: at most 50 bytes.
fn put_refusal(out: &mut [u8], start: usize, number: u64, place: u64) -> usize
    requires { start + 50 ≤ length out.old }
    ensures { Wrote out.old start (refusal number place) out.new result }
{
    let first = writer::put_run(out, start, b"refused\t");
    let second = writer::put_decimal(out, first, number);
    let third = writer::put_byte(out, second, TAB);
    let fourth = writer::put_decimal(out, third, place);
    writer::put_byte(out, fourth, LF)
}

// Writes what a conversion gives of a text: its result, or `refused` with number and place.
fn put_result(
    out: &mut [u8],
    start: usize,
    conversion: Conversion,
    text: &[u8],
    work: &mut [u8],
) -> usize
    requires { start + lent ≤ length out.old }
    ensures { Wrote out.old start (result_bytes (named conversion) text.now (length work.old)) out.new result × (work.new ≡ work_after house work.old) }
{
    let end = start + LENT;
    match convert::convert(conversion, text, &mut out[start..end], work) {
        Ok(size) => start + size,
        Err(refusal) => put_refusal(out, start, refusal.number(), refusal.place() as u64),
    }
}

// Writes a rule with a good label: its line and its result.
fn put_rule(
    out: &mut [u8],
    conversion: Conversion,
    kept: &[u8],
    label: usize,
    end: usize,
    work: &mut [u8],
) -> usize
    requires { print_room ≤ length out.old }
    ensures { Put (rule_print (named conversion) true (name_kept kept.now label) (text_kept kept.now label end)) out.old work.old result out.new work.new }
{
    let name = names::clip(kept, 0, label.min(LABEL));
    let text = names::clip(kept, label, end.saturating_sub(label));
    let start = put_line(out, 0, b"rule\t", name);
    put_result(out, start, conversion, text, work)
}

// Writes a rule with a bad label: it is printed as `?` and refused, and the text is not looked at.
fn put_unnamed(out: &mut [u8]) -> usize
    requires { print_room ≤ length out.old }
    ensures { (c : Form) (name text w : Bytes) → Put (rule_print c false name text) out.old w result out.new w }
{
    let start = put_line(out, 0, b"rule\t", b"?");
    put_refusal(out, start, 2, 0)
}

// Writes the `done` line.
fn put_done(out: &mut [u8], conversion: Conversion) -> usize
    requires { print_room ≤ length out.old }
    ensures { Wrote out.old 0 (field_line done_word (conversion_word (named conversion))) out.new result }
{
    put_line(out, 0, b"done\t", name(conversion))
}

// Writes what is left at the end of the input where no rule line can begin.
fn put_early(out: &mut [u8], before: Early) -> usize
    requires { print_room ≤ length out.old }
    ensures { (c : Form) (w : Bytes) → Put (last_early c before) out.old w result out.new w }
{
    match before {
        Early::First { .. } | Early::Refused => put_refusal(out, 0, 2, 0),
        Early::Label { .. } => put_unnamed(out),
    }
}

// Prints what is due where `rule` TAB is complete: the `done` line, or the rule before. Of `rule` four bytes are kept. Gives how many
// bytes were printed. Where out is shorter than ROOM nothing is printed.
pub fn due(state: State, kept: &[u8], out: &mut [u8], work: &mut [u8]) -> usize
    ensures { Prints (due_print (at state kept.now)) out.old work.old result out.new work.new }
{
    if out.len() < ROOM {
        return 0;
    }
    match state {
        State::First { .. } | State::Refused | State::Label { .. } | State::Poised { .. } => 0,
        State::Second { conversion, .. } => put_done(out, conversion),
        State::Text {
            conversion,
            label,
            size,
            ..
        } => put_rule(out, conversion, kept, label, size.saturating_sub(4), work),
        State::Skipped { .. } => put_unnamed(out),
    }
}

// Prints what is left at the end of the input, as `due` does. A second line that has begun is no rule line.
pub fn last(state: State, kept: &[u8], out: &mut [u8], work: &mut [u8]) -> usize
    ensures { Prints (last_print (at state kept.now)) out.old work.old result out.new work.new }
{
    if out.len() < ROOM {
        return 0;
    }
    match state {
        State::First { .. } | State::Refused => put_refusal(out, 0, 2, 0),
        State::Second {
            conversion,
            matched: 0,
        } => put_done(out, conversion),
        State::Second { .. } => put_refusal(out, 0, 2, 0),
        State::Label { .. } | State::Skipped { .. } => put_unnamed(out),
        State::Text {
            conversion,
            label,
            size,
            ..
        } => put_rule(out, conversion, kept, label, size, work),
        State::Poised { before, .. } => put_early(out, before),
    }
}
