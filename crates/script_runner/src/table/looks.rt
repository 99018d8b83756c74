//! What handles in slots tell.
mod counts;
mod invariant;
mod pairs;
