// What is asked of a rule's words before the stage, and its blocks and its matrix, apart.
ghost use Rattle.std.specs.Prelude.{◌≡◌, not, ◌≤◌, length};
ghost use Rattle.std.specs.List.{list_any};
ghost use Rattle.definitions.specs.Bytes.{Bytes};
ghost use Rattle.definitions.specs.Syntax.{Formula};
ghost use Rattle.definitions.specs.Skolem.{holds_hash, hash_free};
ghost use Rattle.text.specs.Words.{token, tokens, kind_of_word, code};
ghost use Rattle.skolem.specs.Shape.{between, blocks_size, hashed as hashed_token, Shaped, Splits};

use text::kind::Kind;
use text::names::Spellings;
use text::word::{count, has_kind, kind_of};

// Whether a name has `#`.
fn hash_in(name: &[u8]) -> bool
    ensures { result ≡ holds_hash name.now }
{
    name.contains(&b'#')
}

// Whether a word is a constant or a function with `#` in its name.
fn hashed(spellings: Spellings, word: u64) -> bool
    ensures { result ≡ hashed_token (token spellings.entry.text.now spellings.entry.made.now word) }
{
    match kind_of(word) {
        Some(Kind::Function | Kind::Constant) => hash_in(spellings.of(word)),
        _ => false,
    }
}

// Whether one of some words is. This chain and the two below are functions of their own: inside their callers `grind` stops at its limit.
fn any_hashed(words: &[u64], spellings: Spellings) -> bool
    ensures { result ≡ list_any (λ w. hashed_token (token spellings.entry.text.now spellings.entry.made.now w)) words.now }
{
    words.iter().any(|word| hashed(spellings, *word))
}

// Whether a constant or a function of a formula has `#` in its name (refusal 5).
pub fn has_hash(words: &[u64], spellings: Spellings) -> bool
    ensures { (f : Formula) → tokens spellings.entry.text.now spellings.entry.made.now words.now ≡ code f → result ≡ not (hash_free f) }
{
    any_hashed(words, spellings)
}

// Whether a word is a block's.
fn is_block(word: u64) -> bool
    ensures { result ≡ between 8 9 (kind_of_word word) }
{
    matches!(kind_of(word), Some(Kind::All | Kind::Exists))
}

// Whether one of some words is a block's.
fn any_block(words: &[u64]) -> bool
    ensures { result ≡ list_any (λ w. between 8 9 (kind_of_word w)) words.now }
{
    words.iter().any(|word| is_block(*word))
}

// Whether one of some words is an exists block's.
fn any_exists(words: &[u64]) -> bool
    ensures { result ≡ list_any (λ w. between 9 9 (kind_of_word w)) words.now }
{
    words.iter().any(|word| has_kind(*word, Kind::Exists))
}

// How many of the words the blocks have that their formula begins with.
fn blocks_end(words: &[u64]) -> usize
    ensures { (result ≤ length words.now) × ((T M : Bytes) → result ≡ blocks_size 0 (tokens T M words.now)) }
{
    let mut end = 0;
    // Block by block, in steps of unequal length.
    while end < words.len() && is_block(words[end]) {
        end += 1 + count(words[end]);
    }
    end.min(words.len())
}

// A formula in two parts: its blocks, and its matrix. Words of no formula are cut somewhere.
pub fn split(words: &[u64]) -> (&[u64], &[u64])
    ensures { Splits words.now result.0.now result.1.now }
{
    words.split_at(blocks_end(words))
}

// The shape of a formula: Skolem, prenex but not Skolem, or neither.
#[derive(Clone, Copy)]
pub enum Shape {
    Skolem,
    Prenex,
    Other,
}

// The shape of a formula (refusal 4).
pub fn shape_of(words: &[u64]) -> Shape
    ensures { (T M : Bytes) (f : Formula) → tokens T M words.now ≡ code f → Shaped f result }
{
    let (blocks, matrix) = split(words);
    if any_block(matrix) {
        Shape::Other
    } else if any_exists(blocks) {
        Shape::Prenex
    } else {
        Shape::Skolem
    }
}
