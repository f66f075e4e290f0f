// The names of the heads: `c#k` or `f#k`, written behind the made names.
ghost use Rattle.std.specs.Prelude.{◌∷◌};
ghost use Rattle.definitions.specs.Bytes.{decimal};
ghost use Rattle.skolem.specs.Naming.{Names, Entitles, NamesAll};

use crate::counters::Counters;
use crate::{Fate, Unmade};
use text::kind::Kind;
use text::word::kind_of;

// The bytes of a name: a letter, `#` and five digits.
const LONGEST: usize = 7;

// A name starts before this: a word has 32 bits for its start.
const FAR: usize = 4294967296;

// A head's word with its name, and where the made names end then.
#[derive(Drop)]
pub struct Named {
    pub word: u64,
    pub at: usize,
}

// Writes the letter, `#` and the number at `at`, and gives the head's word with that name. It writes nothing where there are not seven
// bytes left, or where the number has more than five digits.
fn name(made: &mut [u8], at: usize, letter: u8, number: u64, head: u64) -> Option<Named>
    ensures { Names made.old at (letter ∷ 35 ∷ decimal number) number head made.new result }
{
    if number > Counters::LAST || at >= FAR || at + LONGEST > made.len() {
        return None;
    }
    let hash = writer::put_byte(made, at, letter);
    let digits = writer::put_byte(made, hash, b'#');
    let end = writer::put_decimal(made, digits, number);
    let word = head % 1024 + 1024 + 2048 * ((end - at) as u64) + 131072 * (at as u64);
    Some(Named { word, at: end })
}

// A word with the name that it draws, where the made names end then, and the counters then.
#[derive(Drop)]
pub struct Entitled {
    pub word: u64,
    pub at: usize,
    pub counters: Counters,
}

// Draws the name of a head, a constant's or a function's; any other word is left as it is. It writes nothing where there is no room.
fn entitle(made: &mut [u8], at: usize, word: u64, counters: Counters) -> Result<Entitled, Unmade>
    ensures { Entitles made.old at word counters made.new result }
{
    let (letter, (number, counters)) = match kind_of(word) {
        Some(Kind::Constant) => (b'c', counters.constant()),
        Some(Kind::Function) => (b'f', counters.function()),
        _ => return Ok(Entitled { word, at, counters }),
    };
    match name(made, at, letter, number, word) {
        Some(named) => Ok(Entitled {
            word: named.word,
            at: named.at,
            counters,
        }),
        None => Err(Unmade {
            made: at,
            counters,
            fate: Fate::NoRoom,
        }),
    }
}

// Names the heads in turn, behind the first `start` made bytes: where the made names end then, and the counters then. It stops where there
// is no room for a name.
pub fn name_all(
    heads: &mut [u64],
    made: &mut [u8],
    start: usize,
    counters: Counters,
) -> Result<(usize, Counters), Unmade>
    ensures { NamesAll heads.old made.old start counters heads.new made.new result }
{
    let mut at = start;
    let mut counters = counters;
    for head in heads.iter_mut() {
        let entitled = entitle(made, at, *head, counters)?;
        *head = entitled.word;
        at = entitled.at;
        counters = entitled.counters;
    }
    Ok((at, counters))
}
