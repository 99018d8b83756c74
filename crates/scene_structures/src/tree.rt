//! The nodes of a tree: their parents, how they go out and how they end.
pub(crate) mod detachment;
pub(crate) mod ended;
pub(crate) mod endings;
pub(crate) mod parents;
pub(crate) mod rounds;
pub(crate) mod teardown;
