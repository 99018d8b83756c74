//! From a script's bytes to the picture of its run.
#![tactic(auto)]

mod drawing;
mod left;
mod lines;
mod part;
mod pointers;
mod recorded;
mod recording;
mod running;
mod source;
mod trace_label;

pub use drawing::{Order, draw_text};
pub use lines::lines_text;
pub use part::{MOST_ACTS, Part};
