//! The nodes of a cell's list: they come in front, go out and are walked over.
pub(crate) mod pops;
pub(crate) mod prunes;
pub(crate) mod pushes;
pub(crate) mod removals;
pub(crate) mod subjects;
pub(crate) mod walks;
