// The writer of rule text, and the pieces that it is made of: a byte, a run of bytes, a number, the lines of words.
// Words are a slice of any table, and of any length: a clause listing writes thousands of runs out of one table.
#![tactic(auto)]

ghost use Rattle.std.specs.Prelude.{◌≡◌, [], ◌∷◌, ℕ, ◌+◌, ◌≤◌, ◌<◌, length};
ghost use Rattle.definitions.specs.Bytes.{Bytes, TAB, decimal};
ghost use Rattle.text.specs.Kinds.{number};
ghost use Rattle.text.specs.Words.{token};
ghost use Rattle.writer.specs.Writer.{keyword_of, after, end as line_end, name_in, body_in, text_in, Wrote, Puts, Measured, Writes};

use text::kind::Kind;
use text::names::Spellings;
use text::runs;
use text::word::{count, kind_of};

const TAB: u8 = b'\t';

const LF: u8 = b'\n';

// Writes one byte at `at`, and gives the place behind it; where out ends before, it writes nothing and gives `at`.
pub fn put_byte(out: &mut [u8], at: usize, byte: u8) -> usize
    ensures { Puts out.old at (byte ∷ []) out.new result }
{
    if at >= out.len() {
        return at;
    }
    out[at] = byte;
    at + 1
}

// Writes a run of bytes at `at`, and gives the place behind it; where there is no room for all of it, it writes nothing and gives `at`.
#[tactic(auto, using(crate::proofs::Copies::puts_part))]
pub fn put_run(out: &mut [u8], at: usize, run: &[u8]) -> usize
    ensures { Puts out.old at run.now out.new result }
{
    let Some(room) = out.len().checked_sub(at) else {
        return at;
    };
    if run.len() > room {
        return at;
    }
    let end = at + run.len();
    runs::copy(&mut out[at..end], run);
    end
}

// How many digits a number has in decimal.
pub fn decimal_size(n: u64) -> usize
    ensures { (result ≡ length (decimal n)) × (result ≤ 20) }
{
    match n.checked_ilog10() {
        Some(power) => power as usize + 1,
        None => 1,
    }
}

// Writes a number for which there is room: the digits before the last one, then that one. At most 20 calls deep.
fn put_digits(out: &mut [u8], at: usize, n: u64) -> usize
    requires { at + length (decimal n) ≤ length out.old }
    ensures { Wrote out.old at (decimal n) out.new result }
{
    if n < 10 {
        return put_byte(out, at, b'0' + n as u8);
    }
    let next = put_digits(out, at, n / 10);
    put_byte(out, next, b'0' + (n % 10) as u8)
}

// Writes a number in decimal at `at`, and gives the place behind it; where there is no room for it, it writes nothing and gives `at`.
pub fn put_decimal(out: &mut [u8], at: usize, n: u64) -> usize
    ensures { Puts out.old at (decimal n) out.new result }
{
    let Some(room) = out.len().checked_sub(at) else {
        return at;
    };
    if decimal_size(n) > room {
        return at;
    }
    put_digits(out, at, n)
}

// The keyword of a kind.
#[tactic(auto, unfolding(crate::specs::Writer::keyword_of))]
fn keyword(kind: Kind) -> &'static [u8]
    ensures { (result.now ≡ keyword_of (number kind)) × (length result.now ≤ 4) }
{
    match kind {
        Kind::Top => b"top",
        Kind::Bottom => b"bot",
        Kind::Not => b"not",
        Kind::And => b"and",
        Kind::Or => b"or",
        Kind::Implies => b"imp",
        Kind::Iff => b"iff",
        Kind::Equals => b"eq",
        Kind::All => b"all",
        Kind::Exists => b"ex",
        Kind::Predicate => b"pred",
        Kind::Function => b"fun",
        Kind::Variable => b"var",
        Kind::Constant => b"con",
    }
}

// How many variables are due on the line behind a word, where `left` were due before it.
fn due(word: u64, left: usize) -> usize
    ensures { (T M : Bytes) → result ≡ after left (token T M word) }
{
    if left > 0 {
        return left - 1;
    }
    let Some(kind) = kind_of(word) else {
        return 0;
    };
    match kind {
        Kind::All | Kind::Exists => count(word),
        _ => 0,
    }
}

// How long the end of a line is, where `left` variables are due: nothing as long as one is.
#[tactic(auto, using(crate::proofs::Tokens::end_none, crate::proofs::Tokens::end_line))]
fn end_size(left: usize) -> usize
    ensures { (result ≡ length (line_end left)) × (result ≤ 1) }
{
    usize::from(left == 0)
}

// How much TAB and the spelling of a word's symbol are.
#[tactic(auto, using(crate::proofs::Tokens::short))]
fn name_size(spellings: Spellings<'_>, word: u64) -> usize
    ensures { (result ≡ 1 + length (name_in spellings.entry word)) × (result ≤ 64) }
{
    1 + spellings.of(word).len()
}

// How much a word writes, where `left` variables are due, up to the end of the line.
fn body_size(spellings: Spellings<'_>, word: u64, left: usize) -> usize
    ensures { (result ≡ length (body_in spellings.entry left word)) × (result ≤ 134) }
{
    if left > 0 {
        return name_size(spellings, word);
    }
    let Some(kind) = kind_of(word) else {
        return name_size(spellings, word);
    };
    let key = keyword(kind).len();
    match kind {
        Kind::Predicate | Kind::Function => {
            key + name_size(spellings, word) + 1 + decimal_size(count(word) as u64)
        }
        Kind::Variable | Kind::Constant => key + name_size(spellings, word),
        _ => key,
    }
}

// How long the text of words is, if that is at most `room`.
pub fn measure(words: &[u64], spellings: Spellings<'_>, room: usize) -> Option<usize>
    ensures { Measured (text_in spellings.entry words.now) room result }
{
    let mut left = 0;
    let mut size = 0;
    for &word in words {
        let next = due(word, left);
        let more = body_size(spellings, word, left) + end_size(next);
        if more > room - size {
            return None;
        }
        size += more;
        left = next;
    }
    Some(size)
}

// Writes TAB and the spelling of a word's symbol, for which there is room.
fn put_name(out: &mut [u8], at: usize, spellings: Spellings<'_>, word: u64) -> usize
    requires { at + length (TAB ∷ name_in spellings word) ≤ length out.old }
    ensures { Wrote out.old at (TAB ∷ name_in spellings.entry word) out.new result }
{
    let next = put_byte(out, at, TAB);
    put_run(out, next, spellings.of(word))
}

// Writes TAB and a number, for which there is room.
fn put_count(out: &mut [u8], at: usize, n: u64) -> usize
    requires { at + length (TAB ∷ decimal n) ≤ length out.old }
    ensures { Wrote out.old at (TAB ∷ decimal n) out.new result }
{
    let next = put_byte(out, at, TAB);
    put_decimal(out, next, n)
}

// Writes what a word writes where `left` variables are due, up to the end of the line; there is room for it.
fn put_body(out: &mut [u8], at: usize, spellings: Spellings<'_>, word: u64, left: usize) -> usize
    requires { at + length (body_in spellings left word) ≤ length out.old }
    ensures { Wrote out.old at (body_in spellings.entry left word) out.new result }
{
    if left > 0 {
        return put_name(out, at, spellings, word);
    }
    let Some(kind) = kind_of(word) else {
        return put_name(out, at, spellings, word);
    };
    let next = put_run(out, at, keyword(kind));
    match kind {
        Kind::Predicate | Kind::Function => {
            let named = put_name(out, next, spellings, word);
            put_count(out, named, count(word) as u64)
        }
        Kind::Variable | Kind::Constant => put_name(out, next, spellings, word),
        _ => next,
    }
}

// Ends the line where no variable is due any more.
#[tactic(auto, using(crate::proofs::Tokens::end_none, crate::proofs::Tokens::end_line, crate::specs::PutLaws::puts_nothing))]
fn put_end(out: &mut [u8], at: usize, left: usize) -> usize
    ensures { Puts out.old at (line_end left) out.new result }
{
    if left > 0 {
        return at;
    }
    put_byte(out, at, LF)
}

// Writes the text of words, for which there is room, and gives the place behind it.
fn fill(words: &[u64], spellings: Spellings<'_>, out: &mut [u8], at: usize) -> usize
    requires { at + length (text_in spellings words.now) ≤ length out.old }
    ensures { Wrote out.old at (text_in spellings.entry words.now) out.new result }
{
    let mut left = 0;
    let mut next = at;
    for &word in words {
        next = put_body(out, next, spellings, word, left);
        left = due(word, left);
        next = put_end(out, next, left);
    }
    next
}

// Writes the text of words at `at`, and gives the place behind it; where there is no room for all of it, it writes nothing and gives `at`.
pub fn put_nodes(words: &[u64], spellings: Spellings<'_>, out: &mut [u8], at: usize) -> usize
    ensures { Puts out.old at (text_in spellings.entry words.now) out.new result }
{
    let Some(room) = out.len().checked_sub(at) else {
        return at;
    };
    if measure(words, spellings, room).is_none() {
        return at;
    }
    fill(words, spellings, out, at)
}

// Writes the rule text of a formula's words to the front of out; where out is too short for it, out is unchanged.
// So that nothing is written then, the text is measured first.
pub fn write(words: &[u64], spellings: Spellings<'_>, out: &mut [u8]) -> Option<usize>
    ensures { Writes (text_in spellings.entry words.now) out.old out.new result }
{
    let size = measure(words, spellings, out.len())?;
    fill(words, spellings, out, 0);
    Some(size)
}
