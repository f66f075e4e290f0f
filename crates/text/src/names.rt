// Names: whether two are one, which comes first, and the spelling of a symbol.
ghost use Rattle.std.specs.Prelude.{◌≡◌, true, false, take, drop};
ghost use Rattle.definitions.specs.Bytes.{same};
ghost use Rattle.text.specs.Words.{spell, token, same_variable};
ghost use Rattle.text.specs.Names.{Compared};

use crate::kind::Kind;
use crate::word::has_kind;
use std::cmp::Ordering;

// Whether the last eight bytes of two names differ: those in which names that are alike mostly do. False where a name has fewer.
fn differ_behind(a: &[u8], b: &[u8]) -> bool
    ensures { result ≡ true → same a.now b.now ≡ false }
{
    match (a.last_chunk::<8>(), b.last_chunk::<8>()) {
        (Some(last), Some(other)) => last != other,
        _ => false,
    }
}

// Whether two names are one: std's answer, in words of the definitions. Their ends are looked at first: hundreds of names that are alike
// but for their last bytes were what took time.
pub fn same_name(a: &[u8], b: &[u8]) -> bool
    ensures { result ≡ same a.now b.now }
{
    !differ_behind(a, b) && a == b
}

// Which of two names comes first (document 01's minus one, zero or one): by bytes, and a name that the other begins with before that one.
pub fn compare(a: &[u8], b: &[u8]) -> Ordering
    ensures { Compared a.now b.now result }
{
    a.cmp(b)
}

// The part of s from `at` on, at most `len` long: nothing where s ends before.
pub fn clip<'a>(s: &'a [u8], at: usize, len: usize) -> &'a [u8]
    ensures { result.now ≡ take len (drop at s.now) }
{
    let rest = &s[at.min(s.len())..];
    &rest[..len.min(rest.len())]
}

// What symbols are spelled in: the rule text, and the names that the stages made.
#[derive(Clone, Copy)]
pub struct Spellings<'a> {
    pub text: &'a [u8],
    pub made: &'a [u8],
}

impl<'a> Spellings<'a> {
    // The spelling of a word's symbol: a part of the rule text or of the made names, chosen by the symbol's origin mark.
    // It is clipped where the word points past the end, so any word has one.
    pub fn of(self, word: u64) -> &'a [u8]
        ensures { result.now ≡ spell self.entry.text.now self.entry.made.now word }
    {
        let at = (word / 131072 % 4294967296) as usize;
        let len = (word / 2048 % 64) as usize;
        if word / 1024 % 2 == 1 {
            return clip(self.made, at, len);
        }
        clip(self.text, at, len)
    }

    // Whether two symbols are spelled the same. Two symbols may share a spelling, so symbols are never compared as numbers.
    pub fn same(self, a: u64, b: u64) -> bool
        ensures { result ≡ same (spell self.entry.text.now self.entry.made.now a) (spell self.entry.text.now self.entry.made.now b) }
    {
        same_name(self.of(a), self.of(b))
    }

    // Whether `other` is a variable that is spelled as `word`.
    pub fn same_variable(self, word: u64, other: u64) -> bool
        ensures { result ≡ same_variable (spell self.entry.text.now self.entry.made.now word) (token self.entry.text.now self.entry.made.now other) }
    {
        has_kind(other, Kind::Variable) && self.same(word, other)
    }
}
