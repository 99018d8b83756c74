//! What handles stand on: words, values in memory, and the book.
pub(crate) mod arena;
pub(crate) mod ledger;
pub(crate) mod words;
