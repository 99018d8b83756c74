//! The threads of a world: how each act goes on, step by step.
#![tactic(auto)]

pub mod act_steps;
pub mod acts;
pub mod ending;
pub mod frame;
pub mod pending_call;
pub mod programs;
pub mod said;
pub mod stock;
pub mod thread;
