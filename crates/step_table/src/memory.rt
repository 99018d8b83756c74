//! The words of a table, and what has happened to them.
pub mod contents;
pub mod ended;
pub mod extent;
pub mod field;
pub mod form;
pub mod ghost_history;
pub mod shelf;
pub mod table;
pub mod weak;
pub(crate) mod words;
