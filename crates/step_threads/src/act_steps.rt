//! How a thread goes on step by step within an act.
pub mod ends;
pub mod loads;
pub mod locks;
pub mod makes;
pub mod reads;
pub mod refills;
pub mod same;
pub mod stores;
pub mod this;
