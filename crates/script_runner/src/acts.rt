//! What a worker does for each kind of act.
pub(crate) mod act_result;
pub(crate) mod cells;
pub(crate) mod comparison;
pub(crate) mod dispatch;
pub(crate) mod leaves;
pub(crate) mod makes;
pub(crate) mod questions;
pub(crate) mod takes;
