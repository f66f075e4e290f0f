// Writing behind the two tables: words behind the matrix, blocks behind the prefix. Nothing is written past a table's end.
ghost use Rattle.std.specs.Prelude.{◌≡◌, true, false, List, [], ◌∷◌, ℕ, ◌+◌, ◌*◌, ◌≤◌, ◌<◌, length, OnOk};
ghost use Rattle.std.proofs.Math.Seq.{paste};
ghost use Rattle.definitions.specs.Bytes.{Bytes};
ghost use Rattle.definitions.specs.Limits.{house};
ghost use Rattle.text.specs.Words.{Token, is_made, kind_of_word, size_of, token};
ghost use Rattle.prenex.specs.Tables.{padded, slot_size, Places};
ghost use Rattle.prenex.specs.Writing.{Plain, Reads, Extends, Appends, Lays, Blocks};
ghost use Rattle.prenex.specs.declared.write.Stop.TheVariants.{Long};

use text::kind::Kind;
use text::names::clip;
use text::runs;
use text::table::Table;

// The longest name that a variable may have.
pub(crate) const NAME: usize = 24;

// The bytes of a slot: the longest name, and the backtick that is one too many.
pub(crate) const SLOT: usize = NAME + 1;

// Why a run stops: there is no room or no formula, or a name is over 24 bytes.
#[derive(Clone, Copy)]
pub enum Stop {
    Unfit,
    Long,
}

// A name is over 24 bytes.
#[derive(Clone, Copy)]
pub struct TooLong;

impl From<TooLong> for Stop {
    ghost from_gives = { λ _ stop. stop ≡ Long };

    fn from(_: TooLong) -> Stop {
        Stop::Long
    }
}

// How many bytes a word's spelling has, as the word tells it.
pub(crate) fn size(word: u64) -> u64
    ensures { result ≡ size_of word }
{
    word / 2048 % 64
}

// A word as it points into the rule text: so does every word of a rule, and none changes.
fn plain(word: u64) -> u64
    ensures { (is_made result ≡ false) × (is_made word ≡ false → result ≡ word) }
{
    if word / 1024 % 2 == 1 {
        word - 1024
    } else {
        word
    }
}

// Writes one word behind the matrix.
pub(crate) fn put(word: u64, matrix: &mut Table) -> Result<(), Stop>
    requires { (matrix.old.used ≤ house.weight) × (is_made word ≡ false) }
    ensures { OnOk result (Extends matrix.old matrix.new) × ((T : Bytes) → Appends T matrix.old matrix.new result (token T [] word ∷ [])) }
{
    if matrix.used >= Table::WEIGHT {
        return Err(Stop::Unfit);
    }
    matrix.nodes[matrix.used] = word;
    matrix.used += 1;
    Ok(())
}

// Copies src[at..next] behind the matrix.
pub(crate) fn copy(src: &[u64], at: usize, next: usize, matrix: &mut Table) -> Result<(), Stop>
    requires { (at ≤ next) × (next ≤ length src.now) × (length src.now ≤ house.weight) × (matrix.old.used ≤ house.weight) }
    ensures { OnOk result (Extends matrix.old matrix.new)
        × ((T : Bytes) (l rest : List Token) → Plain src.now → Reads T src.now at l rest → next ≡ at + length l
        → Appends T matrix.old matrix.new result l) }
{
    if matrix.used + (next - at) > Table::WEIGHT {
        return Err(Stop::Unfit);
    }
    for word in &src[at..next] {
        matrix.nodes[matrix.used] = plain(*word);
        matrix.used += 1;
    }
    Ok(())
}

// Fills the slot that begins at made[from]: the name, then backticks.
fn lay(name: &[u8], made: &mut [u8], from: usize)
    requires { (from + slot_size ≤ length made.old) × (length name.now ≤ house.name) }
    ensures { made.new ≡ paste made.old from (padded name.now) slot_size }
{
    let end = from + name.len();
    runs::copy(&mut made[from..end], name);
    made[end..from + SLOT].fill(b'`');
}

// The variable `word` of a rule behind the prefix, its name in the place's slot. Nothing is written where the name is over 24 bytes.
fn variable(text: &[u8], made: &mut [u8], word: u64, prefix: &mut Table) -> Result<(), TooLong>
    requires { Places made.old prefix.old.nodes prefix.old.used × (prefix.old.used < house.weight) }
    ensures { Lays text.now made.old prefix.old word made.new prefix.new result }
{
    let start = (word / 131072 % 4294967296) as usize;
    let name = clip(text, start, size(word) as usize);
    if name.len() >= SLOT {
        return Err(TooLong);
    }
    let from = SLOT * prefix.used;
    lay(name, made, from);
    prefix.nodes[prefix.used] = u64::from(Kind::Variable)
        + 1024
        + 2048 * (name.len() as u64)
        + 131072 * (from as u64);
    prefix.used += 1;
    Ok(())
}

// Writes a block behind the prefix: its head, and the `variables` variables from src[at] on.
pub(crate) fn block(
    text: &[u8],
    made: &mut [u8],
    src: &[u64],
    at: usize,
    variables: usize,
    head: u64,
    prefix: &mut Table,
) -> Result<(), Stop>
    requires { Places made.old prefix.old.nodes prefix.old.used × (at ≤ length src.now) × (variables < 64) × (kind_of_word head < 12) × (is_made head ≡ false)
        × (length src.now ≤ house.weight) }
    ensures { Blocks text.now made.old prefix.old src.now at variables head made.new prefix.new result }
{
    if prefix.used + 1 + variables > Table::WEIGHT || at + variables > src.len() {
        return Err(Stop::Unfit);
    }
    prefix.nodes[prefix.used] = head;
    prefix.used += 1;
    for word in &src[at..at + variables] {
        variable(text, made, *word, prefix)?;
    }
    Ok(())
}
