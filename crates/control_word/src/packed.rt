//! Packed words, and where they lie in a table.
pub mod cell;
pub mod counts;
pub mod handle_word;
pub mod layout;
pub mod packed_cell;
