// A clause set, which later steps read. Part words are start + 4096 * length.

ghost use Rattle.std.specs.Prelude.{◌≡◌, replicate, take};
ghost use Rattle.definitions.specs.Limits.{house};
ghost use Rattle.clauses.specs.Ranks.{part as part_of};

use text::table::Table;

// The atoms are parts of the words of a matrix, in their order. A literal is its atom's rank, and 1,024 more if it is negative. The first
// `count` of the index are parts of the literals, the clauses in their order.
#[derive(Drop)]
pub struct Set {
    pub atoms: Table,
    pub literals: [u64; Set::LITERALS],
    pub index: [u64; Set::CLAUSES],
    pub count: usize,
}

impl Set {
    // The raw literals of a clause set together.
    pub const LITERALS: usize = 2048;

    // The raw clauses of a clause set.
    pub const CLAUSES: usize = 256;

    // The set of no clause. A set is 26 kilobytes: it is lent, and not moved again.
    pub fn empty() -> Set
        ensures { result ≡ record {
          atoms = record { nodes = replicate house.weight 0; used = 0 };
          literals = replicate house.literals 0;
          index = replicate house.clauses 0;
          count = 0;
        } }
    {
        Set {
            atoms: Table::empty(),
            literals: [0u64; Set::LITERALS],
            index: [0u64; Set::CLAUSES],
            count: 0,
        }
    }

    // The index in use: all of it, where more clauses are said to be.
    pub fn front(&self) -> &[u64]
        ensures { result.now ≡ take self.now.count self.now.index }
    {
        &self.index[..self.count.min(Set::CLAUSES)]
    }
}

// The part of some words that a part word names, clipped where they end.
pub fn part(words: &[u64], word: u64) -> &[u64]
    ensures { result.now ≡ part_of words.now word }
{
    let start = (word % 4096) as usize;
    let rest = &words[start.min(words.len())..];
    &rest[..rest.len().min((word / 4096) as usize)]
}
