//! Worlds, how they begin, and programs that no script is.
pub(crate) mod limits;
pub(crate) mod opening;
pub(crate) mod shelving;
pub(crate) mod showing;
pub(crate) mod steps;
pub(crate) mod worlds;
