// Plans: the raw clauses of a matrix, counted, and found one by one.
ghost use Prim.Native.Nat.{ℕ, zero, suc, ◌+◌, ◌*◌, ◌<◌, ◌≤◌};
ghost use Rattle.std.specs.Prelude.{◌≡◌, cond, List, [], ◌∷◌, ◌++◌, map, length, drop, get_or, set};
ghost use Rattle.definitions.specs.Limits.{house};
ghost use Rattle.text.specs.Words.{kind_of_word};
ghost use Rattle.clauses.specs.Plans.{Plan, made as made_of, plan_word, form_of, size_of, clauses_of, literals_of, number_of, words};
ghost use Rattle.clauses.specs.Forms.{bits};
ghost use Rattle.clauses.specs.Laying.{marked, sum_word, product_word, joined_word, leaf_word, laid_before, laid};
ghost use Rattle.clauses.specs.Ranks.{rank as rank_among, relabelled};
ghost use Rattle.clauses.specs.Search.{Findable};
ghost use Rattle.clauses.specs.Each.{All};
ghost use Rattle.clauses.specs.Steps.{Laid, Walked};

use crate::atoms::Matrix;
use crate::sets::Clause;
use text::kind::Kind;
use text::table::Table;
use text::word;

// What a word of a plan makes: no clause or the empty one, a literal's clause, the clauses of two plans one after the other, or each clause of
// one plan joined to each of another.
#[derive(Clone, Copy)]
pub enum Form {
    Constant,
    Leaf,
    Sum,
    Product,
}

impl From<Form> for u64 {
    ghost from_gives = { λ form result. result ≡ bits form };

    fn from(form: Form) -> u64 {
        form as u64
    }
}

impl Form {
    // The form of a plan's word: its lowest two bits.
    fn of(word: u64) -> Form
        ensures { bits result ≡ form_of word }
    {
        match word % 4 {
            0 => Form::Constant,
            1 => Form::Leaf,
            2 => Form::Sum,
            _ => Form::Product,
        }
    }
}

// One past the larger limit of the raw counts: a count that reaches it is too large, and how large does not matter.
const PAST: u64 = 2049;

// What a negative literal's number has more than its atom's.
const NEGATIVE: u64 = 1024;

// The first word of a plan; 0 where there is none.
pub fn first(plan: &[u64]) -> u64
    ensures { result ≡ get_or plan.now 0 0 }
{
    plan.first().copied().unwrap_or(0)
}

// What stands behind the first plan of some words.
fn behind(plan: &[u64]) -> &[u64]
    ensures { result.now ≡ drop (size_of (get_or plan.now 0 0)) plan.now }
{
    let end = size(first(plan)) as usize;
    &plan[end.min(plan.len())..]
}

fn size(word: u64) -> u64
    ensures { (result ≡ size_of word) × (result < 2048) }
{
    word / 4 % 2048
}

pub fn clauses(word: u64) -> u64
    ensures { (result ≡ clauses_of word) × (result < 4096) }
{
    word / 8192 % 4096
}

pub fn literals(word: u64) -> u64
    ensures { (result ≡ literals_of word) × (result < 4096) }
{
    word / 33554432 % 4096
}

fn number(word: u64) -> u64
    ensures { result ≡ number_of word }
{
    word / 137438953472
}

fn word(form: Form, size: u64, clauses: u64, literals: u64, number: u64) -> u64
    requires { (size < 4096) × (clauses < 4096) × (literals < 4096) × (number < 4096) }
    ensures { result ≡ plan_word (bits form) size clauses literals number }
{
    u64::from(form) + 4 * (size + 2048 * (clauses + 4096 * (literals + 4096 * number)))
}

fn leaf(number: u64) -> u64
    requires { number < 4096 }
    ensures { result ≡ leaf_word number }
{
    word(Form::Leaf, 1, 1, 1, number)
}

// One empty clause, or no clause.
fn constant(empty: bool) -> u64
    ensures { result ≡ plan_word 0 1 (cond empty 1 0) 0 0 }
{
    word(Form::Constant, 1, u64::from(empty), 0, 0)
}

// The word of the clauses of two plans one after the other.
fn sum(a: u64, b: u64) -> u64
    ensures { result ≡ sum_word a b }
{
    let count = (clauses(a) + clauses(b)).min(PAST);
    let total = (literals(a) + literals(b)).min(PAST);
    word(Form::Sum, 1 + (size(a) + size(b)), count, total, 0)
}

// The word of each clause of one plan joined to each of another. Nothing times anything is nothing, however large.
fn product(a: u64, b: u64) -> u64
    ensures { result ≡ product_word a b }
{
    let count = (clauses(a) * clauses(b)).min(PAST);
    let total = (literals(a) * clauses(b) + literals(b) * clauses(a)).min(PAST);
    word(Form::Product, 1 + (size(a) + size(b)), count, total, 0)
}

// The word for the first two plans of some words, which are added or multiplied.
fn joined(adds: bool, plans: &[u64]) -> u64
    ensures { result ≡ joined_word (cond adds 2 3) (get_or plans.now 0 0) (get_or plans.now (size_of (get_or plans.now 0 0)) 0) }
{
    let a = first(plans);
    let b = first(behind(plans));
    if adds { sum(a, b) } else { product(a, b) }
}

// Puts one word before those from `p` on; gives its place. A plan grows towards the front of its array, so it goes by where it begins.
fn push(word: u64, plan: &mut [u64; Table::WEIGHT], p: usize) -> usize
    requires { (0 < p) × (p ≤ house.weight) }
    ensures { Laid p plan.new result (word ∷ drop p plan.old) }
{
    plan[p - 1] = word;
    p - 1
}

// Puts the word of a negative literal in its atom's place.
fn negate(word: u64, plan: &mut [u64; Table::WEIGHT], p: usize) -> usize
    requires { p ≤ house.weight }
    ensures { Laid p plan.new result (set (drop p plan.old) 0 word) }
{
    if p < Table::WEIGHT {
        plan[p] = word;
    }
    p
}

// Lays out one word of a matrix before what stands behind it, from `p` on; gives the place where the plan begins now. Conjunctive, top is no
// clause and bottom one empty clause, `and` adds and `or` multiplies; disjunctive the reverse.
fn lay(word: u64, at: usize, conjunctive: bool, plan: &mut [u64; Table::WEIGHT], p: usize) -> usize
    requires { (0 < p) × (p ≤ house.weight) × (at < house.weight) }
    ensures { Laid p plan.new result (laid_before (marked conjunctive) at (kind_of_word word) (drop p plan.old)) }
{
    let Some(kind) = word::kind_of(word) else {
        return p;
    };
    match kind {
        Kind::Top => push(constant(!conjunctive), plan, p),
        Kind::Bottom => push(constant(conjunctive), plan, p),
        Kind::Not => negate(leaf(NEGATIVE + (at as u64 + 1)), plan, p),
        Kind::And => push(joined(conjunctive, &plan[p..]), plan, p),
        Kind::Or => push(joined(!conjunctive, &plan[p..]), plan, p),
        Kind::Predicate | Kind::Equals => push(leaf(at as u64), plan, p),
        Kind::Implies
        | Kind::Iff
        | Kind::All
        | Kind::Exists
        | Kind::Function
        | Kind::Variable
        | Kind::Constant => p,
    }
}

// Lays out the plan of a matrix from its last word to its first: a look at each word, whatever the counts. Gives the place of its first word.
pub fn lay_out(matrix: &[u64], conjunctive: bool, plan: &mut [u64; Table::WEIGHT]) -> usize
    requires { length matrix.now ≤ house.weight }
    ensures { (result ≤ house.weight) × (drop result plan.new ≡ laid (marked conjunctive) 0 (map kind_of_word matrix.now)) }
{
    let mut p = Table::WEIGHT;
    for at in (0..matrix.len()).rev() {
        p = lay(matrix[at], at, conjunctive, plan, p);
    }
    p
}

// A word with the rank of its literal's atom in place of the atom's place.
fn relabel<'a>(matrix: Matrix<'a>, atoms: &[u64], word: u64) -> u64
    requires { length atoms.now ≤ house.weight }
    ensures { let T = matrix.entry.spellings.text.now in let M = matrix.entry.spellings.made.now in let S = matrix.entry.words.now in
        Findable T M S atoms.now word → result ≡ relabelled (rank_among T M S atoms.now) word }
{
    match Form::of(word) {
        Form::Leaf => {
            let place = number(word) % 2048;
            let rank = matrix.rank(atoms, (place % 1024) as usize);
            leaf(1024 * (place / 1024) + rank as u64)
        }
        Form::Constant | Form::Sum | Form::Product => word,
    }
}

// Puts ranks for places, in the words of a plan.
pub fn label<'a>(matrix: Matrix<'a>, atoms: &[u64], plan: &mut [u64])
    requires { length atoms.now ≤ house.weight }
    ensures { let T = matrix.entry.spellings.text.now in let M = matrix.entry.spellings.made.now in let S = matrix.entry.words.now in
        (length plan.new ≡ length plan.old)
        × (All (Findable T M S atoms.now) plan.old → plan.new ≡ map (relabelled (rank_among T M S atoms.now)) plan.old) }
{
    for word in plan.iter_mut() {
        *word = relabel(matrix, atoms, *word);
    }
}

// Puts the literals of the raw clause k of a plan, the first of some words, into a sorted clause. Under a sum k is one of the first plan's
// clauses, or one of the second's; under a product it is a pair of them.
pub fn walk(plan: &[u64], k: usize, clause: &mut Clause)
    requires { length plan.now ≤ house.weight }
    ensures { (p : Plan) (rest : List ℕ) → plan.now ≡ words p ++ rest → k < length (made_of p) → k < 2049
        → Walked clause.old.numbers clause.old.used clause.new.numbers clause.new.used (get_or (made_of p) k []) }
{
    let Some((&word, left)) = plan.split_first() else {
        return;
    };
    match Form::of(word) {
        Form::Constant => {}
        Form::Leaf => clause.add(number(word)),
        Form::Sum => {
            let before = clauses(first(left)) as usize;
            if k < before {
                walk(left, k, clause);
            } else {
                walk(behind(left), k - before, clause);
            }
        }
        Form::Product => {
            let right = behind(left);
            let many = clauses(first(right)) as usize;
            if many > 0 {
                walk(left, k / many, clause);
                walk(right, k % many, clause);
            }
        }
    }
}
