// Prenex form (stage 2): the blocks of a rule come out to its front, in reading order. Prefix and matrix are kept apart, each in a table of
// its own: the prefix of (∀ x. P(x)) ∧ ∃ x. Q(x) is ∀ x. ∃ x`, and its matrix P(x) ∧ Q(x`).
#![tactic(auto)]

mod outward;
mod rename;
mod weight;
mod write;

ghost use Rattle.std.specs.Prelude.{◌≡◌, ◌≤◌, ◌*◌, ltb, replicate};
ghost use Rattle.definitions.specs.Limits.{house};
ghost use Rattle.definitions.specs.Prenex.{longest};
ghost use Rattle.text.specs.Prefixes.{names};
ghost use Rattle.prenex.specs.Renaming.{read};
ghost use Rattle.prenex.specs.Stage.{fate_of, long_variable, held, Prenexes};

use crate::outward::outward as walk;
use crate::weight::weigh;
use crate::write::{NAME, SLOT, Stop};
use text::kind::Kind;
use text::names::Spellings;
use text::table::Table;
use text::word::has_kind;

// Why there is no prenex form in the tables: it weighs over 1,024 (refusal 7); it has a variable over 24 bytes (refusal 6); or what was lent
// does not do: no room for the made names, or words that are no rule.
#[derive(Clone, Copy)]
pub enum Fate {
    Heavy,
    Long,
    Unfit,
}

// Prefix and matrix, and how many bytes of the made names they use.
#[derive(Drop)]
pub struct Prenexed {
    pub prefix: Table,
    pub matrix: Table,
    pub made: usize,
}

// No form: why, and how many bytes of the made names were used until then.
#[derive(Clone, Copy)]
pub struct Unmade {
    pub made: usize,
    pub fate: Fate,
}

impl From<Stop> for Fate {
    ghost from_gives = { λ stop fate. fate ≡ fate_of stop };

    fn from(stop: Stop) -> Fate {
        match stop {
            Stop::Unfit => Fate::Unfit,
            Stop::Long => Fate::Long,
        }
    }
}

// Whether a word is a variable with a name over 24 bytes.
fn is_long<'a>(spellings: Spellings<'a>, word: u64) -> bool
    ensures { result ≡ long_variable spellings.entry.text.now spellings.entry.made.now word }
{
    has_kind(word, Kind::Variable) && spellings.of(word).len() > NAME
}

// Whether there is such a word among these.
fn lengthy<'a>(spellings: Spellings<'a>, words: &[u64]) -> bool
    ensures { result ≡ ltb house.name (longest (names (read spellings.entry words.now))) }
{
    words.iter().any(|word| is_long(spellings, *word))
}

// A refusal before any name is made.
fn untouched(fate: Fate) -> Unmade
    ensures { result ≡ record { made = 0; fate = fate } }
{
    Unmade { made: 0, fate }
}

// Empties a table, in its place.
fn empty(table: &mut Table)
    ensures { table.new ≡ record { nodes = replicate house.weight 0; used = 0 } }
{
    table.nodes.fill(0);
    table.used = 0;
}

// The prenex form of the rule that these words begin with, into two tables that are lent: its blocks outward, in reading order, and renamed
// where they have to be. The weight is known first (7), then the names (6). Made names go to `made`, 25 bytes for each word of the prefix; it
// gives how many of its bytes they use.
pub fn prenex_into(
    words: &[u64],
    text: &[u8],
    made: &mut [u8],
    prefix: &mut Table,
    matrix: &mut Table,
) -> Result<usize, Unmade>
    ensures stage { Prenexes text.now made.old words.now made.new (held result prefix.new matrix.new) }
    ensures room { (prefix.new.used ≤ house.weight) × (matrix.new.used ≤ house.weight) }
{
    empty(prefix);
    empty(matrix);
    if words.len() > Table::WEIGHT || made.len() < SLOT * Table::WEIGHT {
        return Err(untouched(Fate::Unfit));
    }
    let Some(rule) = weigh(words, 0) else {
        return Err(untouched(Fate::Unfit));
    };
    if rule.weight > Table::WEIGHT {
        return Err(untouched(Fate::Heavy));
    }
    let own = &words[..rule.next];
    let walked = walk(text, made, own, 0, false, prefix, matrix);
    let used = SLOT * prefix.used;
    if let Err(stop) = walked {
        matrix.used = 0;
        return Err(Unmade {
            made: used,
            fate: Fate::from(stop),
        });
    }
    let spellings = Spellings { text, made };
    if lengthy(spellings, prefix.words()) || lengthy(spellings, matrix.words()) {
        return Err(Unmade {
            made: used,
            fate: Fate::Long,
        });
    }
    Ok(used)
}

// The same, in tables of its own.
pub fn prenex(words: &[u64], text: &[u8], made: &mut [u8]) -> Result<Prenexed, Unmade>
    ensures { Prenexes text.now made.old words.now made.new result }
{
    let mut prefix = Table::empty();
    let mut matrix = Table::empty();
    let made = prenex_into(words, text, made, &mut prefix, &mut matrix)?;
    Ok(Prenexed {
        prefix,
        matrix,
        made,
    })
}
