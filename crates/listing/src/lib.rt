// The clause listing: `clauses` with their number, each clause as `clause` with its number of literals, each literal as `pos` or `neg` and
// its atom's rule text. All of it is measured first, so that out is unchanged where it is too short.
#![tactic(auto)]

mod puts;
mod sizes;
pub mod source;

ghost use Rattle.listing.specs.Lists.{Lists};

use crate::source::Source;

// Writes the listing of clauses to the front of out; where out is too short for it, out is unchanged. The set {P(x), ¬Q(y)} gives `clauses` 1,
// `clause` 2, `pos`, P(x), `neg`, Q(y).
pub fn write_listing(source: Source<'_>, out: &mut [u8]) -> Option<usize>
    ensures { Lists source.entry out.old out.new result }
{
    let size = sizes::listing(source, out.len())?;
    puts::listing(out, source);
    Some(size)
}
