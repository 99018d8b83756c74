//! Handles as running code passes them on: by the blocks of their objects.

use crate::model::handle::Kind;
use crate::place::{Block, Place};

/// A shared or weak pointer that has an object ([util.smartptr.shared], [util.smartptr.weak]). Its block tells which:
/// no other object is in that block while the handle is there.
#[derive(Clone, Copy, Debug, PartialEq, Eq, Drop)]
pub struct Handle {
    pub kind: Kind,
    pub block: Block,
    pub place: Option<Place>,
}
