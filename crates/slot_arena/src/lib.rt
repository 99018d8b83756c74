//! Values in place in raw memory. A `ValueCell` owns one cell, and is the only way to it. The
//! value stays where it was put while its `ValueCell` moves.
#![tactic(auto)]

mod arena;
mod cell;
mod lends;
mod value_cell;

pub use arena::Arena;
pub use value_cell::ValueCell;
