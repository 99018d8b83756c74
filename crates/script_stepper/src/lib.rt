//! Scripts from bytes to bytes: what a run is given, and what it writes.
#![tactic(auto)]

pub mod faults;
mod lines;
pub mod listing;
pub mod runs;
pub mod sink;
pub mod turns;

pub use faults::{write_fault, write_faulty_line};
pub use lines::{put_block, put_lines, put_totals};
pub use listing::{write_lines, write_text};
pub use runs::answers::{Start, fine_text, start_of, step_text};
pub use runs::end::{End, end_of};
pub use sink::{Output, Sink, WriteFailed, write_all};
