//! Shared pointers that own their handles.
#![tactic(auto)]

mod cells;
mod claim;
mod context;
mod desk;
mod domain;
mod fault;
mod hand;
mod known;
mod list;
mod program;
mod shared;
mod weak;

pub use crate::cells::cached::Cached;
pub use crate::cells::cached_value::CachedValue;
pub use crate::cells::cached_weak::CachedWeak;
pub use crate::cells::link::Link;
pub use crate::cells::member::Member;
pub use crate::cells::pool::FreeCells;
pub use crate::cells::up::Up;
pub use crate::cells::{SharedCell, WeakCell};
pub use crate::context::shelf::RESERVE;
pub use crate::desk::Desk;
pub use crate::domain::Domain;
pub use crate::fault::call::{Call, Spot};
pub use crate::fault::{Fault, Refused};
pub use crate::hand::Hand;
pub use crate::list::List;
pub use crate::list::element::Element;
pub use crate::program::leader::{Leader, Manned, run_leader};
pub use crate::program::not_run::{Limit, NotRun, Number};
pub use crate::program::team::Team;
pub use crate::program::{Failed, Program, Ran, run};
pub use crate::shared::Shared;
pub use crate::shared::optional::OptionalPointer;
pub use crate::weak::Weak;
pub use control_block::census::{Census, EachBlock, Holders};
pub use control_word::{Block, Place, Refusal, Shape, Site};
