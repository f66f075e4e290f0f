// What a listing is read from. Parts are clipped where their words end, so that no source asks for a refusal.
ghost use Rattle.std.specs.Prelude.{◌≡◌, length};
ghost use Rattle.clauses.specs.Ranks.{part as part_of};
ghost use Rattle.listing.specs.Texts.{sign_line, atom_words};

use clauses::set::part;
use text::names::Spellings;

// Clauses, and what their numbers point into: the index in use into the literals, these into the atoms in use by rank, atoms into the words
// of a matrix, and these into the spellings. Of a set they are `set.front()`, `&set.literals` and `set.atoms.words()`.
#[derive(Clone, Copy)]
pub struct Source<'a> {
    pub atoms: &'a [u64],
    pub literals: &'a [u64],
    pub index: &'a [u64],
    pub words: &'a [u64],
    pub spellings: Spellings<'a>,
}

impl<'a> Source<'a> {
    // The numbers of a clause's literals.
    pub(crate) fn numbers(self, word: u64) -> &'a [u64]
        ensures { result.now ≡ part_of self.entry.literals.now word }
    {
        part(self.literals, word)
    }

    // The words of a literal's atom.
    pub(crate) fn atom(self, number: u64) -> &'a [u64]
        ensures { result.now ≡ atom_words self.entry.words.now self.entry.atoms.now number }
    {
        let rank = (number % 1024) as usize;
        part(self.words, self.atoms.get(rank).copied().unwrap_or(0))
    }
}

// The line of a literal's sign.
pub(crate) fn sign(number: u64) -> &'static [u8]
    ensures { (result.now ≡ sign_line number) × (length result.now ≡ 4) }
{
    if number >= 1024 { b"neg\n" } else { b"pos\n" }
}
