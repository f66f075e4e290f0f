// Names and their order, symbols and their spellings, and the node table.
#![tactic(auto)]

pub mod kind;
pub mod names;
pub mod node;
pub mod runs;
pub mod table;
pub mod word;
