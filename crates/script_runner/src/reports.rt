//! What comes of a run, as numbers and as text.
pub(crate) mod delivery;
pub(crate) mod lines;
pub(crate) mod report;
pub(crate) mod totals;
