// Sorted tables without repeats, filled by insertion: the literals of a clause, and the clauses.
ghost use Prim.Native.Nat.{ℕ, ◌+◌, ◌*◌, ◌/◌, ◌%◌, ◌-◌, ◌<◌, ◌≤◌, compare};
ghost use Rattle.std.specs.Prelude.{◌≡◌, List, [], ◌∷◌, ◌++◌, length, take, drop, get_or};
ghost use Rattle.definitions.specs.Limits.{house};
ghost use Rattle.definitions.specs.Order.{insert};
ghost use Rattle.clauses.specs.Plans.{Plan, made as made_of, words};
ghost use Rattle.clauses.specs.Ranks.{part as part_of};
ghost use Rattle.clauses.specs.Search.{Falls};
ghost use Rattle.clauses.specs.Sets.{entries, cmp_numbers, sets_of};
ghost use Rattle.clauses.specs.Steps.{total, Within, Grows};

use crate::plan;
use crate::set::{Set, part};
use std::cmp::Ordering;
use text::table::Table;

// Puts a number at the place i of the first n, and moves those from there on up by one.
pub fn shift(out: &mut [u64], i: usize, n: usize, x: u64)
    requires { (i ≤ n) × (n < length out.old) }
    ensures { (length out.new ≡ length out.old) × (take (n + 1) out.new ≡ take i out.old ++ (x ∷ drop i (take n out.old))) }
{
    out.copy_within(i..n, i + 1);
    out[i] = x;
}

// A sorted clause: the first `used` are the numbers of its literals.
#[derive(Drop)]
pub struct Clause {
    pub numbers: [u64; Table::WEIGHT],
    pub used: usize,
    ghost fits: { used ≤ house.weight },
    ghost whole: { length numbers ≡ house.weight },
}

impl Clause {
    // The clause of no literal.
    pub fn empty() -> Clause
        ensures { result.used ≡ 0 }
    {
        Clause {
            numbers: [0u64; Table::WEIGHT],
            used: 0,
        }
    }

    // The numbers of its literals.
    fn literals(&self) -> &[u64]
        ensures { (result.now ≡ take self.now.used self.now.numbers) × (length result.now ≡ self.now.used) }
    {
        let numbers = &self.numbers[..];
        &numbers[..self.used]
    }

    // Puts a literal in its place. A full clause is left as it is.
    pub fn add(&mut self, x: u64)
        ensures { self.old.used < house.weight → Falls (compare x) (take self.old.used self.old.numbers)
            → take self.new.used self.new.numbers ≡ insert compare x (take self.old.used self.old.numbers) }
    {
        let used = self.used;
        if used >= Table::WEIGHT {
            return;
        }
        if let Err(at) = self.literals().binary_search(&x) {
            shift(&mut self.numbers, at, used, x);
            self.used = used + 1;
        }
    }
}

// Puts the clause of a word into the sorted clauses of a set. From the front, and not by halves: so the clause holds of clauses in any order.
fn add_clause(set: &mut Set, word: u64)
    requires { set.old.count < house.clauses }
    ensures safe { (set.new.count ≤ set.old.count + 1) × (set.new.atoms ≡ set.old.atoms) × (set.new.literals ≡ set.old.literals) }
    ensures sizes { length set.new.index ≡ length set.old.index }
    ensures within { (used : ℕ) → Within used (take set.old.count set.old.index) → word % 4096 + word / 4096 ≤ used
        → Within used (take set.new.count set.new.index) }
    ensures does { entries set.new ≡ insert cmp_numbers (part_of set.old.literals word) (entries set.old) }
{
    let n = set.count;
    let clause = part(&set.literals, word);
    for i in 0..n {
        match clause.cmp(part(&set.literals, set.index[i])) {
            Ordering::Less => {
                shift(&mut set.index, i, n, word);
                set.count = n + 1;
                return;
            }
            Ordering::Equal => return,
            Ordering::Greater => {}
        }
    }
    shift(&mut set.index, n, n, word);
    set.count = n + 1;
}

// Puts the raw clause k of a plan into a set, whose literals are the first `used`; gives how many they are then.
fn grow(plan: &[u64], k: usize, clause: &mut Clause, set: &mut Set, used: usize) -> usize
    requires { (length plan.now ≤ house.weight) × (set.old.count < house.clauses) × (used ≤ house.literals) }
    ensures safe { (set.new.count ≤ set.old.count + 1) × (result ≤ house.literals) × (set.new.atoms ≡ set.old.atoms) }
    ensures sizes { (length set.new.literals ≡ length set.old.literals) × (length set.new.index ≡ length set.old.index) }
    ensures does { (a : Plan) (rest : List ℕ) → plan.now ≡ words a ++ rest → k < length (made_of a) → k < 2049
        → Grows set.old used set.new result (get_or (made_of a) k []) }
{
    clause.used = 0;
    plan::walk(plan, k, clause);
    let size = clause.used;
    if size > Set::LITERALS - used {
        return used;
    }
    let end = used + size;
    set.literals[used..end].copy_from_slice(clause.literals());
    add_clause(set, used as u64 + 4096 * size as u64);
    end
}

// Gives a set all n raw clauses of a plan, in place of those that it had, the last first.
pub fn gather(plan: &[u64], n: usize, set: &mut Set)
    requires { (length plan.now ≤ house.weight) × (n ≤ house.clauses) }
    ensures safe { (set.new.count ≤ n) × (set.new.atoms ≡ set.old.atoms) }
    ensures sizes { (length set.new.literals ≡ length set.old.literals) × (length set.new.index ≡ length set.old.index) }
    ensures does { (a : Plan) (rest : List ℕ) → plan.now ≡ words a ++ rest → n ≡ length (made_of a) → total (made_of a) ≤ house.literals
        → entries set.new ≡ sets_of (made_of a) }
{
    let mut clause = Clause::empty();
    let mut used = 0;
    set.count = 0;
    for k in (0..n).rev() {
        used = grow(plan, k, &mut clause, set, used);
    }
}
