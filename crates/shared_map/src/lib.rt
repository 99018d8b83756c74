//! A map of pointers that threads share, in the objects of a domain.
#![tactic(auto)]

mod bucket;
mod entry;
mod key;
mod map;
mod node;
mod opening;

pub use crate::key::hash_of;
pub use crate::map::SharedMap;
pub use crate::map::sweeps::Keep;
