//! All orders of a script: each outcome once, with the least turns that give it.
#![tactic(auto)]

mod all_orders;
mod answers;
mod coverage;
mod differences;
mod finding;
mod lists;
mod machine;
mod orders;
mod outcomes;
mod report;
mod search;
mod states;
mod tellings;
mod threads;

pub use all_orders::{AllOutcomes, all_outcomes};
pub use orders::{Answer, MOST_STATES, Query, orders_text};
pub use outcomes::Outcomes;
pub use report::{closing_text, outcome_lines};
