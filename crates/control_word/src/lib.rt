//! Packed words, limits, and the definitions of the shared-ownership runtime.
#![tactic(auto)]

pub mod blocks;
pub mod handle;
pub mod laws;
pub mod model;
pub mod packed;
pub mod place;
pub mod refusal;
pub mod shape;
pub mod site;

pub use blocks::Blocks;
pub use handle::Handle;
pub use packed::cell::CellWord;
pub use packed::counts::{Count, Counts};
pub use packed::handle_word::HandleWord;
pub use packed::packed_cell::PackedCell;
pub use place::{Block, Place};
pub use refusal::{Refusal, Refused};
pub use shape::Shape;
pub use site::Site;
