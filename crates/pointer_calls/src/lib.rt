//! Calls on pointers as data, each with what it answers: a test is a list of them. A list is what one worker does at
//! its desk; a call that answers something else ends it with the number of its row.
#![tactic(auto)]

mod answers;
mod cells;
mod coming;
mod compares;
mod hands;
mod looks;
mod players;
mod running;
mod runs;
mod steps;
mod values;
mod weak_cells;

pub use crate::answers::Answer;
pub use crate::hands::Hands;
pub use crate::players::{BLOCKS, Lists, played};
pub use crate::running::{all, answer};
pub use crate::runs::{Worked, row, worked, worked_in};
pub use crate::steps::{ByLink, Cell, Form, Look, New, Pair, Row, Step, Way};
pub use crate::values::{Ends, Told, Value, begin, ended, made, new_ends, numbered, object, order};
