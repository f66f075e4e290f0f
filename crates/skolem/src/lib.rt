// Skolem form (stage 3) of a prenex form whose blocks and matrix stand apart, in one pass: its forall blocks, and its matrix with a term for
// each variable that an exists block binds.
#![tactic(auto)]

ghost use Rattle.skolem.specs.Stage.{Skolemises};

use crate::counters::Counters;
use crate::matrix::Terms;
use text::names::Spellings;
use text::table::Table;

pub mod counters;
mod heads;
mod matrix;
mod scope;
pub mod shape;

// Why there is no form: it is too large (refusal 7), or there is no room for its names.
#[derive(Clone, Copy)]
pub enum Fate {
    Heavy,
    NoRoom,
}

// A form is made: where the made names end, and the counters then.
#[derive(Drop)]
pub struct Skolemised {
    pub made: usize,
    pub counters: Counters,
}

// No form: why, where the made names end, and the counters then.
#[derive(Drop)]
pub struct Unmade {
    pub made: usize,
    pub counters: Counters,
    pub fate: Fate,
}

// The Skolem form of a prenex form, of whose blocks `prefix` has the words, and of whose matrix `matrix`. Its forall blocks go to `blocks`, its
// matrix to `body`, each to the front. The names of its constants and functions, `c#k` and `f#k`, are drawn from the counters and written to
// `made` behind its first `used` bytes; seven bytes are enough for each entry of the prefix, and numbers up to 65,535. `Heavy` where the form
// weighs over 1,024 or has a function of more than 32 arguments. Without a form what the tables hold means nothing, but they count no more
// words than a table has. The prefix and both buffers are lent for one lifetime, since a term is made of all three.
pub fn skolemise<'a>(
    prefix: &'a [u64],
    matrix: &[u64],
    text: &'a [u8],
    made: &'a mut [u8],
    used: usize,
    counters: Counters,
    blocks: &mut Table,
    body: &mut Table,
) -> Result<Skolemised, Unmade>
    ensures { Skolemises text.now made.old used counters prefix.now matrix.now blocks.old body.old
        made.new blocks.new body.new result }
{
    blocks.used = 0;
    body.used = 0;
    if prefix.len() > Table::WEIGHT || matrix.len() > Table::WEIGHT {
        return Err(Unmade {
            made: used,
            counters,
            fate: Fate::NoRoom,
        });
    }
    let mut table = [0u64; Table::WEIGHT];
    let heads = &mut table[..prefix.len()];
    let spellings = Spellings { text, made };
    let mut scope = scope::free_variables(prefix, matrix, spellings);
    scope::survey(prefix, spellings, heads, &mut scope);
    let (end, counters) = heads::name_all(heads, made, used, counters)?;
    let kept = matrix::foralls(heads, &mut blocks.nodes);
    let terms = Terms {
        prefix,
        heads,
        scope: scope.entries(),
        spellings: Spellings { text, made },
    };
    match terms.fill(matrix, &mut body.nodes[..Table::WEIGHT - kept]) {
        Some(filled) => {
            blocks.used = kept;
            body.used = filled;
            Ok(Skolemised {
                made: end,
                counters,
            })
        }
        None => Err(Unmade {
            made: end,
            counters,
            fate: Fate::Heavy,
        }),
    }
}
