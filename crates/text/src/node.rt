// A node of a table, taken out of its word and put into one.
ghost use Rattle.std.specs.Prelude.{◌≡◌};
ghost use Rattle.text.specs.Nodes.{packed, unpacked};

use crate::kind::Kind;
use crate::word;

// `count` is a predicate's or function's number of arguments, or a block's number of variables; the rest is the symbol: whether its
// spelling is among the made names or in the rule text, where it starts there and how long it is.
#[derive(Drop)]
pub struct Node {
    pub kind: Kind,
    pub count: u64,
    pub made: bool,
    pub start: u64,
    pub size: u64,
}

// The word of a node. A field that is too large for its place there is cut to it.
pub fn pack(node: Node) -> u64
    ensures { result ≡ packed node }
{
    let kind = u64::from(node.kind);
    let symbol = node.size % 64 + 64 * (node.start % 4294967296);
    let origin = u64::from(node.made);
    kind + 16 * (node.count % 64 + 64 * (origin + 2 * symbol))
}

// The node of a word; what lies above it in the word is left out. A word whose lowest four bits are no kind has none.
pub fn unpack(word: u64) -> Option<Node>
    ensures { result ≡ unpacked word }
{
    let kind = word::kind_of(word)?;
    let made = word / 1024 % 2 == 1;
    Some(Node {
        kind,
        count: word / 16 % 64,
        made,
        start: word / 131072 % 4294967296,
        size: word / 2048 % 64,
    })
}
