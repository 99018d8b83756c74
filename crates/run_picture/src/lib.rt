//! The picture of a run: its acts in their order, the counts of blocks after each, and what is left
//! at the end.
#![tactic(auto)]

mod acts;
mod changes;
mod document;
mod element;
#[cfg(test)]
mod element_tests;
mod ends;
mod lanes;
mod page;
mod page_head;
mod page_reader;
mod page_view;
mod picture;
mod run_lines;
mod sheet;
mod step_page;
#[cfg(test)]
mod tests;

pub use document::draw;
pub use picture::{Change, Holder, Left, LeftBlock, Picture, Pointer, Row, Touch};
pub use step_page::{begin_page, put_lines, put_scripts, run_page, run_text};
