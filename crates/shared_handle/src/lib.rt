//! `shared_ptr`, `weak_ptr` and `enable_shared_from_this` of C++20 over the desks of a domain. Handles and endings are
//! values that must be spent.
#![tactic(auto)]

mod downgrades;
mod drops;
mod endings;
mod locks;
mod looks;
mod makes;
mod owner_order;
mod pile;
mod pointers;
mod shares;
mod this;
mod visits;
mod weak_looks;
mod weaks;

pub use control_block::handles::{Held, Shared, Weak};
pub use downgrades::downgrade;
pub use drops::{drop_shared, drop_to_end, reset};
pub use endings::{Ending, Left};
pub use locks::{lock, lock_once, upgrade};
pub use looks::{place, read, same_place, use_count};
pub use makes::{empty, empty_weak, make, make_null};
pub use owner_order::{HasOwner, owner_before};
pub use pile::{Gone, Pile, Round};
pub use shares::{alias, release, share};
pub use this::{shared_from_this, weak_from_this};
pub use visits::visit;
pub use weak_looks::{expired, use_count_weak};
pub use weaks::{release_weak, share_weak};
