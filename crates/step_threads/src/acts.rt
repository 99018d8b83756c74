//! How a thread goes on act by act.
pub mod leaves;
pub mod offers;
pub(crate) mod questions;
pub mod refusals;
pub(crate) mod shelf;
pub mod tries;
pub mod values;
