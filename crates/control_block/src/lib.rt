//! Control blocks that desks share between threads: the table, its rule, and each kind of atomic step.
#![tactic(auto)]

pub mod calls;
pub mod cell_calls;
pub mod census;
pub mod desk;
pub mod domain;
pub mod handles;
pub mod in_place;
pub mod laws;
mod observation;
mod parting;
pub mod pause;
pub mod released;
mod retries;
mod shelf;
mod slot;
mod step_kinds;
mod steps;
mod table;

pub use calls::{
    clears as clear_calls, compares as cell_compare_calls, locks as lock_calls,
    stores as store_calls, visits,
};
pub use parting::split::Lent;
pub use step_kinds::cells as cell_step_kinds;
