//! A text as lines and words, below what is read from texts: scripts, and graphs of owners.
//!
//! Each line has a line feed; a carriage return just before it is ignored. Words are parted by
//! spaces and tabs. What a line adds, and why it is faulty, is the reader's: a [`LineReader`] takes
//! the lines one by one.
#![tactic(auto)]

mod fault;
mod lines;
mod number;
mod reader;
mod words;

pub use fault::{LineFault, Stop};
pub use lines::{is_clean, line_content, split_line};
pub use number::number_of;
pub use reader::{LineReader, read_lines};
pub use words::{after_word, first_word, without_last_spaces, without_spaces, words_in};
