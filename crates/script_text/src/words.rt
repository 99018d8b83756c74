//! The words of a line.
pub(crate) mod alias;
pub(crate) mod cell;
pub(crate) mod keyword;
pub(crate) mod shape;
pub(crate) mod word;
