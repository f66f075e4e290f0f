// A word of the node table, as far as the stages look into it (specs/Words.antt says what a word is).
ghost use Rattle.std.specs.Prelude.{◌≡◌, ◌<◌, eqb, MatchOption};
ghost use Rattle.definitions.specs.Bytes.{Bytes};
ghost use Rattle.text.specs.Kinds.{number};
ghost use Rattle.text.specs.Words.{token, behind, kind_of_word, count_of};

use crate::kind::Kind;

// The kind of a word, if its lowest four bits are a kind's number.
pub fn kind_of(word: u64) -> Option<Kind>
    ensures { MatchOption result (13 < kind_of_word word) (λ kind. kind_of_word word ≡ number kind) }
{
    Kind::try_from(word % 16).ok()
}

// Whether a word is of a kind.
pub fn has_kind(word: u64, kind: Kind) -> bool
    ensures { result ≡ eqb (kind_of_word word) (number kind) }
{
    word % 16 == u64::from(kind)
}

// The count of a word: a predicate's or a function's arguments, a block's variables.
pub fn count(word: u64) -> usize
    ensures { (result ≡ count_of word) × (result < 64) }
{
    (word / 16 % 64) as usize
}

// How many terms stand behind a term's word: a function's arguments.
pub fn arguments(word: u64) -> usize
    ensures { ((T M : Bytes) → result ≡ behind (token T M word)) × (result < 64) }
{
    if has_kind(word, Kind::Function) {
        return count(word);
    }
    0
}
