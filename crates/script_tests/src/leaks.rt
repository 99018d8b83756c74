//! What is reached and held at a script's end.
pub(crate) mod ends;
pub(crate) mod graphs;
pub(crate) mod holding;
pub(crate) mod tying;
pub(crate) mod weakening;
