//! A graph of owners as text, and what is reported of it.
//!
//! A graph is a list of lines, each with a line feed; a carriage return just before it is ignored.
//! Words are parted by spaces and tabs. A line without words, or whose first word begins with `#`,
//! is skipped. Every other line is one of
//!
//! | line | what it says |
//! |---|---|
//! | `object N [LABEL]` | there is an object with this number, from 1 to 16777215 |
//! | `owner N M LABEL` | object N owns object M |
//! | `weak N M LABEL` | object N watches object M, and keeps nothing |
//! | `root N LABEL` | something that is no object owns object N |
//!
//! Each object has one line, before all lines that name it; their numbers may come in any order. A
//! label is the rest of its line: 1 to 1,000 bytes from 0x21 to 0x7E, with spaces between them.
//! There are at most 67,108,864 handles. On one line causes are looked for in the order in which
//! [`Cause`] lists them.
#![tactic(auto)]

mod draft;
mod drawing;
mod fault;
mod knots;
mod labels;
mod lines;
mod listing;
mod report;
mod statement;
mod text;
mod words;

pub use fault::{Cause, Fault};
pub use report::{Report, owners_text};
