// The node table: a formula as words in preorder (specs/Words.antt says what a word is).
ghost use Rattle.std.specs.Prelude.{◌≡◌, ◌<◌, ◌≤◌, [], ◌∷◌, ◌++◌, eqb, length, replicate, MatchResult};
ghost use Rattle.definitions.specs.Limits.{house};
ghost use Rattle.text.specs.Tables.{words_of, pushed};

// A table has no room for a word.
#[derive(Clone, Copy)]
pub struct Full;

// The first `used` of the nodes are words of a formula; what stands behind them means nothing.
#[derive(Drop)]
pub struct Table {
    pub nodes: [u64; Table::WEIGHT],
    pub used: usize,
}

impl Table {
    // The weight of a rule, and of what a stage makes of it.
    pub const WEIGHT: usize = 1024;

    // The depth of a rule, terms included.
    pub const DEPTH: usize = 64;

    // The arguments of a predicate or a function.
    pub const ARGUMENTS: usize = 32;

    // The table with nothing in it.
    pub fn empty() -> Table
        ensures { result ≡ record { nodes = replicate house.weight 0; used = 0 } }
    {
        Table {
            nodes: [0u64; Table::WEIGHT],
            used: 0,
        }
    }

    // The words that are in use: all of them, where more are said to be.
    pub fn words(&self) -> &[u64]
        ensures { result.now ≡ words_of self.now }
    {
        &self.nodes[..self.used.min(Table::WEIGHT)]
    }

    // Puts a word behind those that are in use. A full table stays as it is.
    pub fn push(&mut self, word: u64) -> Result<(), Full>
        ensures { MatchResult result
            (λ _. (self.old.used < house.weight) × (self.new ≡ pushed self.old word) × (words_of self.new ≡ words_of self.old ++ (word ∷ [])))
            (λ _. (house.weight ≤ self.old.used) × (self.new ≡ self.old)) }
    {
        if self.used >= Table::WEIGHT {
            return Err(Full);
        }
        self.nodes[self.used] = word;
        self.used += 1;
        Ok(())
    }

    // Whether there are as many words as a table has.
    fn is_long(words: &[u64]) -> bool
        ensures { result ≡ eqb (length words.now) house.weight }
    {
        words.len() == Table::WEIGHT
    }

    // Whether a lent array has the length that its type gives it. It always has; the function stays for callers that ask (docs/PROMISES.md).
    pub fn is_whole(nodes: &[u64; Table::WEIGHT]) -> bool
        ensures { result ≡ eqb (length nodes.now) house.weight }
    {
        Table::is_long(nodes)
    }
}
