// The free variables of a table's formula that are asked for, in one list: each name found so far stands there once, and what a block's
// body added is sifted when the block ends. Names are told apart by their spellings, never by their symbols. A block asks for its own only:
// to list all names again at each block around them took 200 ms where 57 blocks are nested.
#![tactic(auto)]

ghost use Rattle.std.specs.Prelude.{◌≡◌, List, ◌++◌, map, ◌+◌, ◌≤◌, ◌<◌, length};
ghost use Rattle.definitions.specs.Limits.{house};
ghost use Rattle.definitions.specs.Syntax.{Name, Formula, Terms, count as count_terms};
ghost use Rattle.definitions.specs.Names.{mem, free as free_of, terms_vars, union, without};
ghost use Rattle.text.specs.Words.{var_token, code, terms_code, spell};
ghost use Rattle.substitution.specs.Runs.{spells, Sifts, Notes, Spans, Within, Safe, Finds, Lists};

use text::kind::Kind;
use text::names::Spellings;
use text::table::Table;
use text::word::{arguments, count, has_kind, kind_of};

// How many words the `due` terms at the front take, with all that is inside them: all words where the terms break off.
pub fn terms_span(words: &[u64], due: usize) -> usize
    ensures { Spans words.now due result }
{
    let mut left = due;
    for (read, word) in words.iter().enumerate() {
        if left == 0 {
            return read;
        }
        if left > words.len() - read {
            return words.len();
        }
        left = left - 1 + arguments(*word);
    }
    words.len()
}

// Whether one of the words is spelled as `word` is.
fn among(spellings: Spellings, words: &[u64], word: u64) -> bool
    ensures { result ≡ mem (spell spellings.entry.text.now spellings.entry.made.now word)
        (spells spellings.entry.text.now spellings.entry.made.now words.now) }
{
    words.iter().any(|w| spellings.same(word, *w))
}

// Of the list's words from `from` on keeps, in their order, those whose names are not among the bound ones. What stood before stays.
fn sift(spellings: Spellings, bound: &[u64], list: &mut Table, from: usize)
    requires { (from ≤ list.now.used) × (list.now.used ≤ house.weight) }
    ensures { Sifts spellings.entry.text.now spellings.entry.made.now bound.now list.old.nodes from list.old.used list.new.nodes list.new.used }
{
    let mut kept = from;
    for next in from..list.used {
        let word = list.nodes[next];
        if among(spellings, bound, word) {
            continue;
        }
        list.nodes[kept] = word;
        kept += 1;
    }
    list.used = kept;
}

// What is looked for, and where: the variables whose names are asked for, in the words.
#[derive(Clone, Copy)]
struct Search<'a> {
    spellings: Spellings<'a>,
    asked: &'a [u64],
    words: &'a [u64],
}

impl<'a> Search<'a> {
    // Adds `word` to the list if it is a variable that is asked for and that is not there yet.
    fn note(self, word: u64, list: &mut Table)
        requires { list.now.used < house.weight }
        ensures { Notes self.entry.spellings.text.now self.entry.spellings.made.now self.entry.asked.now word
            list.old.nodes list.old.used list.new.nodes list.new.used }
    {
        if !has_kind(word, Kind::Variable) {
            return;
        }
        if !among(self.spellings, self.asked, word) {
            return;
        }
        if among(self.spellings, &list.nodes[..list.used], word) {
            return;
        }
        list.nodes[list.used] = word;
        list.used += 1;
    }

    // Adds the variables of the `due` terms from `at` on, with all that is inside them; gives the place behind them.
    fn terms(self, at: usize, due: usize, list: &mut Table) -> usize
        requires { Within self.words.now at list.now.used }
        ensures safe { Safe self.entry.words.now at list.old.nodes list.old.used list.new.nodes result list.new.used }
        ensures does { (ts : Terms) → count_terms ts ≡ due → Finds self.entry at list.old list.new result (terms_code ts) (terms_vars ts) }
    {
        let next = at + terms_span(&self.words[at..], due);
        for word in &self.words[at..next] {
            self.note(*word, list);
        }
        next
    }

    // Adds the free variables of the formula at `at`; gives the place behind it. Where there is no formula, the run goes on behind a word or
    // ends.
    #[cycle(block_both_collect)]
    fn collect(self, at: usize, list: &mut Table) -> usize
        requires { Within self.words.now at list.now.used }
        ensures safe { Safe self.entry.words.now at list.old.nodes list.old.used list.new.nodes result list.new.used }
        ensures does { (f : Formula) → Finds self.entry at list.old list.new result (code f) (free_of f) }
    {
        if at >= self.words.len() {
            return at;
        }
        let word = self.words[at];
        let below = at + 1;
        match kind_of(word) {
            Some(Kind::Top | Kind::Bottom) => below,
            Some(Kind::Not) => self.collect(below, list),
            Some(Kind::And | Kind::Or | Kind::Implies | Kind::Iff) => self.both(below, list),
            Some(Kind::Equals) => self.terms(below, 2, list),
            Some(Kind::All | Kind::Exists) => self.block(below, count(word), list),
            Some(Kind::Predicate) => self.terms(below, count(word), list),
            Some(Kind::Function | Kind::Variable | Kind::Constant) | None => below,
        }
    }

    // Adds the free variables of the two formulae from `at` on; gives the place behind them.
    #[cycle(block_both_collect)]
    fn both(self, at: usize, list: &mut Table) -> usize
        requires { Within self.words.now at list.now.used }
        ensures safe { Safe self.entry.words.now at list.old.nodes list.old.used list.new.nodes result list.new.used }
        ensures does { (a b : Formula) → Finds self.entry at list.old list.new result (code a ++ code b) (union (free_of a) (free_of b)) }
    {
        let middle = self.collect(at, list);
        self.collect(middle, list)
    }

    // Adds the free variables of the formula behind the `many` variables from `at` on, without these; gives the place behind it.
    #[cycle(block_both_collect)]
    fn block(self, at: usize, many: usize, list: &mut Table) -> usize
        requires { Within self.words.now at list.now.used }
        ensures safe { Safe self.entry.words.now at list.old.nodes list.old.used list.new.nodes result list.new.used }
        ensures does { (vs : List Name) (f : Formula) → length vs ≡ many
            → Finds self.entry at list.old list.new result (map var_token vs ++ code f) (without vs (free_of f)) }
    {
        if many > self.words.len() - at {
            return self.words.len();
        }
        let body = at + many;
        let before = list.used;
        let next = self.collect(body, list);
        sift(self.spellings, &self.words[at..body], list, before);
        next
    }
}

// The free variables of the nodes' formula whose names are asked for, each once, by first occurrence: their words are the list's. There are
// none where there are more nodes than a table has.
pub fn free_among(spellings: Spellings, asked: &[u64], nodes: &[u64], list: &mut Table)
    ensures { Lists spellings.entry.text.now spellings.entry.made.now asked.now nodes.now list.old.nodes list.new.nodes list.new.used }
{
    list.used = 0;
    if nodes.len() > Table::WEIGHT {
        return;
    }
    let search = Search {
        spellings,
        asked,
        words: nodes,
    };
    search.collect(0, list);
}
