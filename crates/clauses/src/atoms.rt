// The distinct atoms of a matrix in their order, and the rank of each.
ghost use Prim.Native.Nat.{ℕ, ◌+◌, ◌-◌, ◌<◌, ◌≤◌};
ghost use Rattle.std.specs.Prelude.{◌≡◌, true, cond, List, map, leb, length, drop, get_or};
ghost use Rattle.std.specs.List.Sorted.{IsSearchInRange};
ghost use Rattle.definitions.specs.Bytes.{Bytes};
ghost use Rattle.definitions.specs.Limits.{house};
ghost use Rattle.definitions.specs.Order.{Atom, insert, set_of};
ghost use Rattle.text.specs.Names.{ordering};
ghost use Rattle.text.specs.Tables.{words_of};
ghost use Rattle.text.specs.Words.{token, kind_of_word};
ghost use Rattle.clauses.specs.Laying.{atomic as atomic_kind};
ghost use Rattle.clauses.specs.Ranks.{behind as behind_token, class as class_of, cmp_token, due as due_after};
ghost use Rattle.clauses.specs.Ranks.{cmp_places, cmp_parts, part_word, spots, rank as rank_among};
ghost use Rattle.clauses.specs.Search.{Falls, Finds, at_place};
ghost use Rattle.clauses.specs.Each.{Each};
ghost use Rattle.clauses.specs.Sets.{Spelled};

use crate::sets;
use std::cmp::Ordering;
use text::kind::Kind;
use text::names::Spellings;
use text::table::Table;
use text::{names, word};

// A predicate comes before an equation; variable, constant, application. No other kind stands where two words are compared.
fn class(word: u64) -> u64
    ensures { result ≡ class_of (kind_of_word word) }
{
    match word::kind_of(word) {
        Some(Kind::Predicate) => 0,
        Some(Kind::Equals) => 1,
        Some(Kind::Variable) => 2,
        Some(Kind::Constant) => 3,
        _ => 4,
    }
}

// Two words by their kinds, and then by their names.
fn word_order<'a>(spellings: Spellings<'a>, s: u64, t: u64) -> Ordering
    ensures { ordering result
        ≡ cmp_token (token spellings.entry.text.now spellings.entry.made.now s) (token spellings.entry.text.now spellings.entry.made.now t) }
{
    match class(s).cmp(&class(t)) {
        Ordering::Equal => names::compare(spellings.of(s), spellings.of(t)),
        decided => decided,
    }
}

// How many terms stand behind a word.
fn behind(word: u64) -> usize
    ensures { ((T M : Bytes) → result ≡ behind_token (token T M word)) × (result < 64) }
{
    match word::kind_of(word) {
        Some(Kind::Equals) => 2,
        Some(Kind::Variable) => 0,
        _ => word::count(word),
    }
}

// How many terms are due, where d were due and m and n more stand behind the two words: all of them, or those that both have.
fn due(d: usize, m: usize, n: usize) -> usize
    requires { (d ≤ 100000) × (m < 64) × (n < 64) }
    ensures { (result ≡ due_after d m n) × (result ≤ d + 63) }
{
    if m == n { d + m } else { m.min(n) }
}

// Whether a word is an atom's first.
pub fn atomic(word: u64) -> bool
    ensures { result ≡ atomic_kind (kind_of_word word) }
{
    matches!(word::kind_of(word), Some(Kind::Predicate | Kind::Equals))
}

// Where what stands before `at` ends: at a formula's first word, and else where it ended before.
fn end_before(word: u64, at: usize, end: usize) -> usize
    ensures { result ≡ cond (leb (kind_of_word word) 10) at end }
{
    match word::kind_of(word) {
        Some(Kind::Function | Kind::Variable | Kind::Constant) | None => end,
        Some(_) => at,
    }
}

// A matrix: its words, at most a table's, and what their symbols are spelled in.
#[derive(Clone, Copy)]
pub struct Matrix<'a> {
    pub words: &'a [u64],
    pub spellings: Spellings<'a>,
    ghost fits: { length words.now ≤ house.weight },
}

impl<'a> Matrix<'a> {
    // The words from a place on.
    fn from(self, at: usize) -> &'a [u64]
        ensures { result.now ≡ drop at self.entry.words.now }
    {
        let words = self.words;
        &words[at.min(words.len())..]
    }

    // The order of the atoms at two places: word by word, with a count of the terms that are due, and the answer for where they all are the
    // same.
    fn order(self, a: usize, b: usize) -> Ordering
        ensures { ordering result ≡ cmp_places self.entry.spellings.text.now self.entry.spellings.made.now self.entry.words.now a b }
    {
        let mut left = 1;
        let mut same = Ordering::Equal;
        for (&s, &t) in self.from(a).iter().zip(self.from(b)) {
            if left == 0 {
                break;
            }
            let order = word_order(self.spellings, s, t);
            if order.is_ne() {
                return order;
            }
            let (m, n) = (behind(s), behind(t));
            left = due(left - 1, m, n);
            same = m.cmp(&n).then(same);
        }
        same
    }

    // Where the atom at `at` stands among sorted ones, or is to be put.
    fn find(self, atoms: &[u64], at: usize) -> Result<usize, usize>
        ensures bound { IsSearchInRange result (length atoms.now) }
        ensures does { let T = self.entry.spellings.text.now in let M = self.entry.spellings.made.now in let S = self.entry.words.now in
            Falls (at_place T M S at) atoms.now → Finds (at_place T M S at) atoms.now result }
    {
        atoms.binary_search_by(|part| self.order(at, (*part % 4096) as usize).reverse())
    }

    // Puts the atom of a part into a sorted table.
    fn add_atom(self, part: u64, atoms: &mut Table)
        requires { atoms.old.used < house.weight }
        ensures safe { (atoms.new.used ≤ atoms.old.used + 1) × (length atoms.new.nodes ≡ length atoms.old.nodes) }
        ensures does { let T = self.entry.spellings.text.now in let M = self.entry.spellings.made.now in let S = self.entry.words.now in
            Falls (cmp_parts T M S part) (words_of atoms.old) → words_of atoms.new ≡ insert (cmp_parts T M S) part (words_of atoms.old) }
    {
        if let Err(at) = self.find(atoms.words(), (part % 4096) as usize) {
            let used = atoms.used;
            sets::shift(&mut atoms.nodes, at, used, part);
            atoms.used = used + 1;
        }
    }

    // The distinct atoms, sorted: the words are gone through from the last to the first, and an atom ends where the next formula begins.
    pub fn collect(self, atoms: &mut Table)
        ensures safe { (atoms.new.used ≤ length self.entry.words.now) × (length atoms.new.nodes ≡ length atoms.old.nodes) }
        ensures does { let T = self.entry.spellings.text.now in let M = self.entry.spellings.made.now in let S = self.entry.words.now in
            (found : List Atom) → Each (Spelled T M S) (spots 0 (map kind_of_word S)) found
            → words_of atoms.new ≡ set_of (cmp_parts T M S) (spots 0 (map kind_of_word S)) }
    {
        let words = self.words;
        atoms.used = 0;
        let mut end = words.len();
        for at in (0..words.len()).rev() {
            let word = words[at];
            if atomic(word) {
                self.add_atom(at as u64 + 4096 * (end - at) as u64, atoms);
            }
            end = end_before(word, at, end);
        }
    }

    // The rank of the atom at a place: where it stands among the sorted ones. Their number, if it is none of them.
    pub fn rank(self, atoms: &[u64], at: usize) -> usize
        ensures safe { result ≤ length atoms.now }
        ensures does { let T = self.entry.spellings.text.now in let M = self.entry.spellings.made.now in let S = self.entry.words.now in
            Falls (at_place T M S at) atoms.now → result ≡ rank_among T M S atoms.now at }
    {
        self.find(atoms, at).unwrap_or(atoms.len())
    }
}
