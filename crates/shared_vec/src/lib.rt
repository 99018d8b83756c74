//! A vector of pointers that threads share, in the objects of a domain.
#![tactic(auto)]

mod changes;
mod cursor;
mod ends;
mod index;
mod leaf;
mod node;
mod slot;
mod sort;
mod vector;
mod walk;
mod weak_vector;

pub use crate::cursor::Cursor;
pub use crate::vector::SharedVec;
pub use crate::walk::Shown;
pub use crate::weak_vector::WeakVec;
