//! A map that exists in proofs alone. Who has an entry knows what the map says there, and only who has it can end it.
//! All types here have no bytes, and all calls take no time.
#![tactic(auto)]

mod entry;
mod map;
#[cfg(test)]
mod tests;
mod value;

pub use entry::GhostEntry;
pub use map::{Blank, GhostMap, Named};
pub use value::{Ghost, Tells, TellsPair};
