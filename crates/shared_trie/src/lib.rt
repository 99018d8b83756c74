//! A map that grows, of objects that threads share, by a key of 64 bits in each.
#![tactic(auto)]

mod changes;
mod key;
mod node;
mod slot;
mod sweep;
mod trie;
mod way;

pub use crate::changes::Occupied;
pub use crate::sweep::Keep;
pub use crate::trie::SharedTrie;
