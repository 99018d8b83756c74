//! Objects that end, one after another or within another's end, and handles that never leave.
pub(crate) mod cascade;
pub(crate) mod drops;
pub(crate) mod forgotten;
pub(crate) mod kept;
pub(crate) mod piles;
pub(crate) mod resets;
pub(crate) mod this;
pub(crate) mod wide;
