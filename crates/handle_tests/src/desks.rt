//! Domains and their desks: sizes, parts, and the shelf.
pub(crate) mod limits;
pub(crate) mod observations;
pub(crate) mod shelves;
pub(crate) mod splits;
