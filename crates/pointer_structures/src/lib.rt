//! A stack, observers and trees, on pointers alone.
#![tactic(auto)]

mod observers;
mod stack;
mod tree;

pub use crate::observers::Observers;
pub use crate::stack::Stack;
pub use crate::tree::{add_child, detach};
