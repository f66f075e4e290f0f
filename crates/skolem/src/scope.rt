// The scope of the Skolem terms: the free variables, and the entries of forall blocks that no later block binds.
ghost use Rattle.std.specs.Prelude.{◌≡◌, false, [], ◌≤◌, ◌<◌, length, take, drop};
ghost use Rattle.std.specs.List.{list_any};
ghost use Rattle.definitions.specs.Bytes.{Bytes};
ghost use Rattle.text.specs.Words.{spell, token, tokens, count as count_behind};
ghost use Rattle.text.specs.Prefixes.{names as names_of};
ghost use Rattle.skolem.specs.Pass.{binds as binds_name, most, push as pushed, is_new, gather, blank_word, survey as survey_of};

use text::kind::Kind;
use text::names::Spellings;
use text::table::Table;
use text::word::{count, has_kind};

// The first `used` words are the scope: an array, since the project has no heap.
#[derive(Drop)]
pub struct Scope {
    words: [u64; Scope::MOST],
    used: usize,
    ghost few: { used ≤ most },
}

impl Scope {
    // One more than a function may have arguments: so many entries are kept.
    const MOST: usize = Table::ARGUMENTS + 1;

    // No entries yet.
    fn empty() -> Scope
        ensures { take result.used result.words ≡ [] }
    {
        Scope {
            words: [0u64; Scope::MOST],
            used: 0,
        }
    }

    // The entries, in the order in which they were put.
    pub fn entries(&self) -> &[u64]
        ensures { result.now ≡ take self.now.used self.now.words }
    {
        &self.words[..self.used]
    }

    // Puts a word behind the others, if there are not as many as are kept.
    fn push(&mut self, word: u64)
        ensures { take self.new.used self.new.words ≡ pushed (take self.old.used self.old.words) word }
    {
        if self.used < Scope::MOST {
            self.words[self.used] = word;
            self.used += 1;
        }
    }
}

// Whether one of words[from..] is a variable that is spelled as `word`.
fn binds(words: &[u64], from: usize, spellings: Spellings, word: u64) -> bool
    ensures { result ≡ list_any (λ w. binds_name (spell spellings.entry.text.now spellings.entry.made.now word)
        (token spellings.entry.text.now spellings.entry.made.now w)) (drop from words.now) }
{
    words
        .iter()
        .skip(from)
        .any(|other| spellings.same_variable(word, *other))
}

// Whether a word of the matrix is a variable that no block binds and that is not in the scope yet.
#[tactic(auto, using(crate::proofs::WordLaws::mem_any))]
fn is_free(prefix: &[u64], scope: &[u64], spellings: Spellings, word: u64) -> bool
    ensures { result ≡ is_new (names_of (tokens spellings.entry.text.now spellings.entry.made.now prefix.now))
        (names_of (tokens spellings.entry.text.now spellings.entry.made.now scope.now)) (token spellings.entry.text.now spellings.entry.made.now word) }
{
    has_kind(word, Kind::Variable)
        && !binds(prefix, 0, spellings, word)
        && !binds(scope, 0, spellings, word)
}

// The free variables: the variables of the matrix that no block binds, each once.
pub fn free_variables(prefix: &[u64], matrix: &[u64], spellings: Spellings) -> Scope
    ensures { take result.used result.words ≡ gather (token spellings.entry.text.now spellings.entry.made.now)
        (names_of (tokens spellings.entry.text.now spellings.entry.made.now prefix.now)) [] matrix.now }
{
    let mut scope = Scope::empty();
    for word in matrix {
        if is_free(prefix, scope.entries(), spellings, *word) {
            scope.push(*word);
        }
    }
    scope
}

// How many variables stand behind a block's word.
fn block_size(word: u64) -> usize
    ensures { (result < 64) × ((T M : Bytes) → result ≡ count_behind (token T M word)) }
{
    if has_kind(word, Kind::Variable) {
        0
    } else {
        count(word)
    }
}

// The head of a term on n entries of the scope, still without a name.
fn blank(n: usize) -> u64
    requires { n ≤ most }
    ensures { result ≡ blank_word n }
{
    let kind = if n == 0 {
        Kind::Constant
    } else {
        Kind::Function
    };
    u64::from(kind) + 16 * (n as u64)
}

// Goes over the prefix: the heads are its words, with a head without a name for each variable of an exists block; the entries of forall
// blocks that no later block binds go into the scope.
pub fn survey(prefix: &[u64], spellings: Spellings, heads: &mut [u64], scope: &mut Scope)
    requires { length heads.old ≡ length prefix.now }
    ensures { survey_of (token spellings.entry.text.now spellings.entry.made.now) blank_word 0 false (take scope.old.used scope.old.words) prefix.now
        ≡ record { heads = heads.new; scope = take scope.new.used scope.new.words } }
{
    let mut left: usize = 0;
    let mut exists = false;
    for i in 0..prefix.len() {
        let word = prefix[i];
        heads[i] = word;
        if left == 0 {
            left = block_size(word);
            exists = has_kind(word, Kind::Exists);
        } else {
            if exists {
                heads[i] = blank(scope.entries().len());
            } else if !binds(prefix, i + left, spellings, word) {
                scope.push(word);
            }
            left -= 1;
        }
    }
}
