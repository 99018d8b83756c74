//! Structures that programs build of shared pointers: a stack and observers that threads share without a lock, and a
//! scene tree.
#![tactic(auto)]

mod lists;
mod observers;
mod scene;
mod stack;
mod tree;

pub use observers::Observers;
pub use scene::Scene;
pub use stack::Stack;
pub use tree::teardown::tear_down;
