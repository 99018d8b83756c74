//! Steps on cells, and on the funds that come with them.
pub mod cell_step;
pub mod cells;
pub mod clears;
pub mod compares;
pub mod funds;
pub mod loads;
pub mod refill;
pub mod same;
pub mod swaps;
