//! Jobs that all run, each in a thread of its own, or none.
#![tactic(auto)]

mod jobs;

pub use jobs::{Job, run_all};
