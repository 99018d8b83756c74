//! What an actor's names hold, and what is done with it.
pub mod pointer;
pub mod reads;
pub mod registers;
pub mod slot;
pub mod takes;
pub mod this;
pub mod values;
