// What the pass writes: the forall blocks, and the matrix with a term for each variable that an exists block binds.
ghost use Rattle.std.specs.Prelude.{◌≡◌, [], ◌∷◌, map, ◌≤◌, length};
ghost use Rattle.text.specs.Words.{spell, token};
ghost use Rattle.skolem.specs.Pass.{binds, pick, whole, put_in, filled, stays as stays_in};
ghost use Rattle.skolem.specs.Filling.{Adds, Keeps};

use text::kind::Kind;
use text::names::Spellings;
use text::table::Table;
use text::word::{arguments, has_kind, kind_of};

// Writes one word behind the first `used`, unless there is no room or it is a function of more than 32 arguments.
fn put(word: u64, out: &mut [u64], used: usize) -> Option<usize>
    ensures { Adds out.old used out.new result (word ∷ []) }
{
    if used >= out.len() || arguments(word) > Table::ARGUMENTS {
        return None;
    }
    out[used] = word;
    Some(used + 1)
}

// What the variables of a matrix become: the entries of the prefix, their heads, and the scope, whose first words are the arguments of a
// head that is a function.
#[derive(Clone, Copy)]
pub struct Terms<'a> {
    pub prefix: &'a [u64],
    pub heads: &'a [u64],
    pub scope: &'a [u64],
    pub spellings: Spellings<'a>,
    ghost paired: { length heads.now ≡ length prefix.now },
}

impl<'a> Terms<'a> {
    // The head that a variable of the matrix belongs to: that of the last entry of the prefix which has its name, or the variable itself.
    fn head(self, word: u64) -> u64
        ensures { result ≡ pick word (map (λ b. binds (spell self.entry.spellings.text.now self.entry.spellings.made.now word)
            (token self.entry.spellings.text.now self.entry.spellings.made.now b)) self.entry.prefix.now) self.entry.heads.now }
    {
        for i in (0..self.prefix.len()).rev() {
            if self.spellings.same_variable(word, self.prefix[i]) {
                return self.heads[i];
            }
        }
        word
    }

    // Writes a head, and behind a function's as many of the scope as it has arguments.
    fn put_term(self, head: u64, out: &mut [u64], used: usize) -> Option<usize>
        ensures { Adds out.old used out.new result (whole (token self.entry.spellings.text.now self.entry.spellings.made.now) self.entry.scope.now head) }
    {
        let mut end = put(head, out, used)?;
        for word in &self.scope[..arguments(head).min(self.scope.len())] {
            end = put(*word, out, end)?;
        }
        Some(end)
    }

    // Writes what a word of the matrix becomes: a variable the term that it belongs to, any other word itself.
    fn put_entry(self, word: u64, out: &mut [u64], used: usize) -> Option<usize>
        ensures { Adds out.old used out.new result (put_in (token self.entry.spellings.text.now self.entry.spellings.made.now)
            self.entry.scope.now self.entry.prefix.now self.entry.heads.now word) }
    {
        if has_kind(word, Kind::Variable) {
            self.put_term(self.head(word), out, used)
        } else {
            put(word, out, used)
        }
    }

    // Writes what a matrix becomes, to the front of a table that has room for so many words.
    pub fn fill(self, matrix: &[u64], out: &mut [u64]) -> Option<usize>
        ensures { Adds out.old 0 out.new result (filled (token self.entry.spellings.text.now self.entry.spellings.made.now)
            self.entry.scope.now self.entry.prefix.now self.entry.heads.now matrix.now) }
    {
        let mut end = 0;
        for word in matrix {
            end = self.put_entry(*word, out, end)?;
        }
        Some(end)
    }
}

// Whether a head stays in the prefix: a forall block's word, or a variable.
fn stays(head: u64) -> bool
    ensures { result ≡ stays_in (token [] [] head) }
{
    matches!(kind_of(head), Some(Kind::All | Kind::Variable))
}

// Writes the forall blocks among the heads to the front of a table.
pub fn foralls(heads: &[u64], out: &mut [u64]) -> usize
    requires { length heads.now ≤ length out.old }
    ensures { Keeps heads.now out.new result }
{
    let mut n = 0;
    for head in heads {
        if stays(*head) {
            out[n] = *head;
            n += 1;
        }
    }
    n
}
