//! Rows of steps that give up or try again where others change a word meanwhile.

pub mod cells;
pub mod compares;
pub mod loads;
pub mod stores;
