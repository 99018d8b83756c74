//! What is left at a script's end, and who holds it, as text or as a graph.
#![tactic(auto)]

mod color;
mod found;
mod graph;
mod held;
mod knots;
mod lines;
mod listing;
mod report;

pub use color::{Colored, colors};
pub use held::holdings;
pub use report::left_text;
