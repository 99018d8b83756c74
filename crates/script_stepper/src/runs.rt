//! Runs of scripts, from their beginning to their end, and their text.
pub mod answers;
pub(crate) mod end;
pub(crate) mod steps;
pub(crate) mod totals;
pub(crate) mod turns;
