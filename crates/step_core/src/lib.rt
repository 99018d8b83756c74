//! The pure machine: programs of calls on shared and weak pointers.
#![tactic(auto)]

mod census;
mod debts;
mod execution;
mod limits;
mod observations;
mod start;
mod told;
mod trace;
mod world;

pub use control_word::{Handle, Site};
pub use step_table::cell_steps::refill::Stage;
pub use step_table::memory::ended::Ended;
pub use step_table::memory::field::Field;
pub use step_threads::pending_call::PendingCall;
pub use step_threads::programs::act::Act;
pub use step_threads::programs::call::{Actor, Call, CellName, Kind, Name, Program};
pub use step_threads::said::{Answer, Said, Stepped, Turned};
pub use trace::{RunRefusal, Trace, TraceStep};
pub use world::World;
