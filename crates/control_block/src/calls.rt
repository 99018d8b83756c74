//! Calls of a desk, for the crates above: each is one kind of step or a row of them, and keeps the desk's numbers. They
//! know handles by their blocks. Empty handles touch no word: they are only counted.

pub mod cells;
pub mod clears;
pub mod compares;
mod empties;
mod leaves;
pub mod locks;
mod looks;
mod makes;
mod reads;
mod shares;
pub mod stores;
pub mod visits;

pub use empties::{count_empty, spend_empty};
pub(crate) use leaves::put_by_out;
pub use leaves::{finish, leave};
pub use looks::{fields, is_enabled, is_null};
pub use makes::make;
pub use reads::{count, is_expired, read};
pub use shares::{share, share_weak};
