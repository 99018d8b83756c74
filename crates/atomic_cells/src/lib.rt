//! `atomic<shared_ptr>` and `atomic<weak_ptr>` of C++20 over the desks of a domain: cells that hold a pointer, and that
//! any thread loads, stores and exchanges. Stores and exchanges wait for nobody.
#![tactic(auto)]

mod at;
mod compared;
mod compares;
mod shared_at;
mod sites;
mod weak_at;

pub use at::{SharedAt, WeakAt};
pub use compared::Compared;
pub use sites::SharedMember;
