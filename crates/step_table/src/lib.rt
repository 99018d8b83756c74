//! The words of a world, what has happened to them, and what its threads hold.
#![tactic(auto)]

pub mod cell_steps;
pub mod limits;
pub mod memory;
pub mod slots;
