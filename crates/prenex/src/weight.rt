// What a rule weighs once its blocks are out, known before any name is made. Each node is visited once.
ghost use Rattle.std.specs.Prelude.{◌≡◌, ◌+◌, ◌-◌, ◌≤◌, ◌<◌, length};
ghost use Rattle.definitions.specs.Limits.{house};
ghost use Rattle.prenex.specs.Weights.{clamped, Ends, Atom, Weighs};

use text::kind::Kind;
use text::table::Table;
use text::word::{arguments, count, kind_of};

// Where a formula ends, and what it weighs once its blocks are out, told as 1,025 where that is more.
#[derive(Clone, Copy)]
pub struct Weighed {
    pub next: usize,
    pub weight: usize,
}

// A weight up to 1,024, and 1,025 for any that is larger.
fn clamp(n: usize) -> usize
    ensures { result ≡ clamped n }
{
    n.min(Table::WEIGHT + 1)
}

// Where the `due` terms from `at` on end; None if the source ends before they do.
fn terms(src: &[u64], at: usize, due: usize) -> Option<usize>
    requires { (at ≤ length src.now) × (length src.now ≤ house.weight) × (due < 64) }
    ensures { Ends src.now at due result }
{
    let mut next = at;
    let mut left = due;
    // How many words the terms have shows only as they are read: no range says it.
    while left > 0 {
        if next >= src.len() {
            return None;
        }
        left = left - 1 + arguments(src[next]);
        next += 1;
    }
    Some(next)
}

// An atom that begins at `at`, with `due` terms behind its word. It weighs as much as it has words.
fn atom(src: &[u64], at: usize, due: usize) -> Option<Weighed>
    requires { (at < length src.now) × (length src.now ≤ house.weight) × (due < 64) }
    ensures { Atom src.now at due result }
{
    let next = terms(src, at + 1, due)?;
    Some(Weighed {
        next,
        weight: next - at,
    })
}

// The formula at `at`: where it ends, and what it weighs once its blocks are out. None if there is no formula.
pub(crate) fn weigh(src: &[u64], at: usize) -> Option<Weighed>
    requires { length src.now ≤ house.weight }
    ensures { Weighs src.now at result }
{
    if at >= src.len() {
        return None;
    }
    let word = src[at];
    match kind_of(word)? {
        Kind::Top | Kind::Bottom => Some(Weighed {
            next: at + 1,
            weight: 1,
        }),
        Kind::Not => {
            let part = weigh(src, at + 1)?;
            Some(Weighed {
                next: part.next,
                weight: clamp(1 + part.weight),
            })
        }
        Kind::And | Kind::Or | Kind::Implies => {
            let left = weigh(src, at + 1)?;
            let right = weigh(src, left.next)?;
            Some(Weighed {
                next: right.next,
                weight: clamp(1 + left.weight + right.weight),
            })
        }
        // two implications, joined by and
        Kind::Iff => {
            let left = weigh(src, at + 1)?;
            let right = weigh(src, left.next)?;
            Some(Weighed {
                next: right.next,
                weight: clamp(3 + 2 * (left.weight + right.weight)),
            })
        }
        Kind::Equals => atom(src, at, 2),
        Kind::All | Kind::Exists => {
            let variables = count(word);
            let part = weigh(src, at + 1 + variables)?;
            Some(Weighed {
                next: part.next,
                weight: clamp(1 + variables + part.weight),
            })
        }
        Kind::Predicate => atom(src, at, count(word)),
        Kind::Function | Kind::Variable | Kind::Constant => None,
    }
}
