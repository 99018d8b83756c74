//! Handles and cells as they are, without a table.
pub(crate) mod alone;
pub(crate) mod blocks;
pub(crate) mod cells;
pub(crate) mod handles;
pub(crate) mod holding;
pub(crate) mod limits;
pub(crate) mod parted;
