//! A thread's worker: its part, its seats, and what it says and adds to the book.
pub(crate) mod assignment;
pub(crate) mod log;
pub(crate) mod notes;
pub(crate) mod requirements;
pub(crate) mod seats;
pub(crate) mod start;
pub(crate) mod steps;
pub(crate) mod turns;
pub(crate) mod worker;
