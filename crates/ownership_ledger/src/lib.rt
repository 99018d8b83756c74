//! A book that counts, over all threads, the objects that were made and those that ended.
//!
//! Each worker has a share of the book and adds to both at once, so that between any two steps each
//! number of the book is the sum over all shares. `so_far` reads the book while others add to it, and
//! `gather` gives the totals. No call waits, and only `open` takes memory.
#![tactic(auto)]

mod book;
mod opening;
mod plays;
mod share;
mod steps;
mod totals;

pub use book::Book;
pub use share::{Share, Totals};
