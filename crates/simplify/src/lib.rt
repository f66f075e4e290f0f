// Stage 1: the simplified form of a formula, parts first. A node's place is left or written, its parts are written behind it, and
// then their first words tell what becomes of the node: a gap is closed by moving a run of words down. A run writes no more words than it
// reads, so there is always room and nothing is refused.
#![tactic(auto)]

ghost use Rattle.std.specs.Prelude.{◌≡◌, List, ◌∷◌, ◌++◌, map, ◌+◌, ◌≤◌, ◌<◌, length, set, MatchOption};
ghost use Rattle.definitions.specs.Bytes.{Bytes};
ghost use Rattle.definitions.specs.Limits.{house};
ghost use Rattle.definitions.specs.Syntax.{Name, Op, Quant, Formula, Terms, count as count_terms};
ghost use Rattle.definitions.specs.Names.{keep, free as free_of};
ghost use Rattle.definitions.specs.Simplify.{simplify as simplify_of, turn as turn_of, tidy as tidy_of, over_kept};
ghost use Rattle.text.specs.Kinds.{number};
ghost use Rattle.text.specs.Words.{Token, var_token, code, terms_code, kind_of_word, op_kind, block_kind};
ghost use Rattle.substitution.specs.Runs.{Within, Safe as Copies};
ghost use Rattle.simplify.specs.Parts.{Moves, Becomes, settled, Ruled, Joins, Pastes, Binds, Reduces, Writes, Safe};
ghost use Rattle.simplify.specs.Stage.{Simplified};

use substitution::{free_among, terms_span};
use text::kind::Kind;
use text::names::Spellings;
use text::runs;
use text::table::Table;
use text::word::{count, kind_of};

// What a constant makes of the part beside it: that part, its simplified negation, or a constant. A value, so that the laws are proved apart
// from the table that they change.
#[derive(Clone, Copy)]
pub enum Law {
    Other,
    Turned,
    Top,
    Bottom,
}

// How far a run came: the next word to read, and the place behind what it wrote. That place is no table's length yet: a part is written behind
// places that are still to be filled, and moved down over those that stay empty.
#[derive(Clone, Copy)]
struct Went {
    next: usize,
    used: usize,
}

// Writes the words into out from `at` on; gives the place behind them.
fn paste(words: &[u64], out: &mut [u64; Table::WEIGHT], at: usize) -> usize
    requires { at + length words.now ≤ house.weight }
    ensures { Pastes words.now out.old at out.new result }
{
    let end = at + words.len();
    runs::copy(&mut out[at..end], words);
    end
}

// Moves out[from..end] down to `to`; gives the place behind it.
fn shift(out: &mut [u64; Table::WEIGHT], to: usize, from: usize, end: usize) -> usize
    requires { (to ≤ from) × (from ≤ end) × (end ≤ house.weight) }
    ensures { Moves out.old to from end out.new result }
{
    out.copy_within(from..end, to);
    to + (end - from)
}

// Writes the constant of this kind at out[to]; gives the place behind it.
fn put(out: &mut [u64; Table::WEIGHT], kind: Kind, to: usize) -> usize
    requires { to < house.weight }
    ensures { (out.new ≡ set out.old to (number kind)) × (result ≡ to + 1) }
{
    out[to] = u64::from(kind);
    to + 1
}

// The simplified negation of the simplified formula in out[from..end], from `to` on; gives the place behind it.
fn turn(out: &mut [u64; Table::WEIGHT], to: usize, from: usize, end: usize) -> usize
    requires { (to < from) × (from ≤ end) × (end ≤ house.weight) }
    ensures { Becomes out.old to from end out.new result turn_of }
{
    if from >= end {
        return end;
    }
    match kind_of(out[from]) {
        Some(Kind::Top) => put(out, Kind::Bottom, to),
        Some(Kind::Bottom) => put(out, Kind::Top, to),
        Some(Kind::Not) => shift(out, to, from + 1, end),
        _ => {
            let behind = put(out, Kind::Not, to);
            shift(out, behind, from, end)
        }
    }
}

// The constant that a word is, if it is one.
fn constant_in(word: u64) -> Option<Kind>
    ensures { MatchOption result (1 < kind_of_word word) (λ kind. (kind_of_word word ≡ number kind) × (number kind ≤ 1)) }
{
    kind_of(word).filter(|kind| matches!(kind, Kind::Top | Kind::Bottom))
}

// The law for a binary node of this kind with a constant on the left, or else on the right.
fn law_for(kind: Kind, constant: Kind, left: bool) -> Law
    ensures { Ruled (number kind) (number constant) left result }
{
    match (kind, constant, left) {
        (Kind::And, Kind::Bottom, _) => Law::Bottom,
        (Kind::Or, Kind::Top, _)
        | (Kind::Implies, Kind::Top, false)
        | (Kind::Implies, Kind::Bottom, true) => Law::Top,
        (Kind::Implies, Kind::Bottom, false) | (Kind::Iff, Kind::Bottom, _) => Law::Turned,
        _ => Law::Other,
    }
}

// What a law makes of the part in out[from..end], from `to` on; gives the place behind it.
fn settle(out: &mut [u64; Table::WEIGHT], law: Law, to: usize, from: usize, end: usize) -> usize
    requires { (to < from) × (from ≤ end) × (end ≤ house.weight) }
    ensures { Becomes out.old to from end out.new result (settled law) }
{
    match law {
        Law::Other => shift(out, to, from, end),
        Law::Turned => turn(out, to, from, end),
        Law::Top => put(out, Kind::Top, to),
        Law::Bottom => put(out, Kind::Bottom, to),
    }
}

// A binary node at out[at] over the simplified parts out[at + 1..middle] and out[middle..end], simplified; gives the place behind it.
fn tidy(out: &mut [u64; Table::WEIGHT], kind: Kind, at: usize, middle: usize, end: usize) -> usize
    requires { (at < middle) × (middle ≤ end) × (end ≤ house.weight) }
    ensures { Joins out.old (number kind) at middle end out.new result }
{
    if middle >= end {
        return end;
    }
    if let Some(constant) = constant_in(out[at + 1]) {
        return settle(out, law_for(kind, constant, true), at, middle, end);
    }
    if let Some(constant) = constant_in(out[middle]) {
        return settle(out, law_for(kind, constant, false), at, at + 1, middle);
    }
    end
}

// A block over the kept variables, if there are any, and the body out[first..end], from `used` on; gives the place behind it.
// The second test is never true of a formula: each free variable stands once, so a block keeps no more of them than it has.
fn bind(
    kind: Kind,
    kept: &[u64],
    out: &mut [u64; Table::WEIGHT],
    used: usize,
    first: usize,
    end: usize,
) -> usize
    requires { (used < first) × (first ≤ used + 64) × (first ≤ end) × (end ≤ house.weight) }
    ensures { Binds (number kind) kept.now out.old used first end out.new result }
{
    if kept.is_empty() {
        return shift(out, used, first, end);
    }
    if kept.len() >= first - used {
        return end;
    }
    out[used] = u64::from(kind) + 16 * (kept.len() as u64);
    let body = paste(kept, out, used + 1);
    shift(out, body, first, end)
}

// What is simplified: the words, and how their names are spelled.
#[derive(Clone, Copy)]
struct Source<'a> {
    spellings: Spellings<'a>,
    words: &'a [u64],
}

impl<'a> Source<'a> {
    // Copies the word at `at`, and the `due` terms behind it with all that is inside them.
    fn copy(self, at: usize, due: usize, out: &mut [u64; Table::WEIGHT], used: usize) -> Went
        requires { Within self.words.now at used × (at < length self.words.now) }
        ensures safe { Copies self.entry.words.now at out.old used out.new result.next result.used }
        ensures does { (T M : Bytes) (t : Token) (ts : Terms) → count_terms ts ≡ due
            → Reduces T M self.entry.words.now at used out.new result.next result.used (t ∷ terms_code ts) (t ∷ terms_code ts) }
    {
        let next = at + 1 + terms_span(&self.words[at + 1..], due);
        Went {
            next,
            used: paste(&self.words[at..next], out, used),
        }
    }

    // The simplified form of the formula at `at`, written from `used` on. Where there is no formula, the run goes on behind a word or ends.
    #[cycle(block_joined_opposite_reduce)]
    fn reduce(
        self,
        at: usize,
        out: &mut [u64; Table::WEIGHT],
        used: usize,
        list: &mut Table,
    ) -> Went
        requires { Within self.words.now at used }
        ensures safe { Safe self.entry.words.now at out.old used list.old.nodes out.new list.new.nodes result.next result.used }
        ensures does { (f : Formula) → Writes self.entry at used out.new result (code f) (code (simplify_of f)) }
    {
        if at >= self.words.len() {
            return Went { next: at, used };
        }
        let word = self.words[at];
        match kind_of(word) {
            Some(Kind::Top | Kind::Bottom) => self.copy(at, 0, out, used),
            Some(Kind::Not) => self.opposite(at + 1, out, used, list),
            Some(kind @ (Kind::And | Kind::Or | Kind::Implies | Kind::Iff)) => {
                self.joined(kind, at + 1, out, used, list)
            }
            Some(Kind::Equals) => self.copy(at, 2, out, used),
            Some(kind @ (Kind::All | Kind::Exists)) => {
                self.block(kind, count(word), at + 1, out, used, list)
            }
            Some(Kind::Predicate) => self.copy(at, count(word), out, used),
            Some(Kind::Function | Kind::Variable | Kind::Constant) | None => Went {
                next: at + 1,
                used,
            },
        }
    }

    // The simplified negation of the formula at `at`: it is simplified behind the place of its `not`, and turned.
    #[cycle(block_joined_opposite_reduce)]
    fn opposite(
        self,
        at: usize,
        out: &mut [u64; Table::WEIGHT],
        used: usize,
        list: &mut Table,
    ) -> Went
        requires { Within self.words.now at (used + 1) }
        ensures safe { Safe self.entry.words.now at out.old used list.old.nodes out.new list.new.nodes result.next result.used }
        ensures does { (f : Formula) → Writes self.entry at used out.new result (code f) (code (turn_of (simplify_of f))) }
    {
        let Went { next, used: end } = self.reduce(at, out, used + 1, list);
        Went {
            next,
            used: turn(out, used, used + 1, end),
        }
    }

    // A binary node of this kind over the two formulae from `at` on, simplified.
    #[cycle(block_joined_opposite_reduce)]
    fn joined(
        self,
        kind: Kind,
        at: usize,
        out: &mut [u64; Table::WEIGHT],
        used: usize,
        list: &mut Table,
    ) -> Went
        requires { Within self.words.now at (used + 1) }
        ensures safe { Safe self.entry.words.now at out.old used list.old.nodes out.new list.new.nodes result.next result.used }
        ensures does { (o : Op) (f g : Formula) → op_kind o ≡ number kind → Writes self.entry at used out.new result
            (code f ++ code g) (code (tidy_of o (simplify_of f) (simplify_of g))) }
    {
        let first = put(out, kind, used);
        let Went { next, used: middle } = self.reduce(at, out, first, list);
        let Went { next, used: end } = self.reduce(next, out, middle, list);
        Went {
            next,
            used: tidy(out, kind, used, middle, end),
        }
    }

    // A block of this kind over the `many` variables and the formula from `at` on, simplified: places for its word and its variables are
    // left before the body, and it keeps those of the simplified body's free variables that it binds.
    #[cycle(block_joined_opposite_reduce)]
    fn block(
        self,
        kind: Kind,
        many: usize,
        at: usize,
        out: &mut [u64; Table::WEIGHT],
        used: usize,
        list: &mut Table,
    ) -> Went
        requires { Within self.words.now at (used + 1) × (many < 64) }
        ensures safe { Safe self.entry.words.now at out.old used list.old.nodes out.new list.new.nodes result.next result.used }
        ensures does { (q : Quant) (vs : List Name) (f : Formula) → block_kind q ≡ number kind → length vs ≡ many
            → Writes self.entry at used out.new result
            (map var_token vs ++ code f) (code (over_kept q (keep vs (free_of (simplify_of f))) (simplify_of f))) }
    {
        if many > self.words.len() - at {
            return Went {
                next: self.words.len(),
                used,
            };
        }
        let body = at + many;
        let first = used + 1 + many;
        let Went { next, used: end } = self.reduce(body, out, first, list);
        let bound = &self.words[at..body];
        free_among(self.spellings, bound, &out[first..end], list);
        Went {
            next,
            used: bind(kind, list.words(), out, used, first, end),
        }
    }
}

// The simplified form of the formula that the words are, written to the front of out. Words that are no formula's give some words; more words
// than a table has give none.
pub fn simplify(words: &[u64], spellings: Spellings, out: &mut Table)
    ensures { Simplified spellings.entry.text.now spellings.entry.made.now words.now out.old out.new }
{
    out.used = 0;
    if words.len() > Table::WEIGHT {
        return;
    }
    let source = Source { spellings, words };
    let went = source.reduce(0, &mut out.nodes, 0, &mut Table::empty());
    out.used = went.used;
}
