//! What a call did at its deciding step, with its reply. Values of these types live in proofs alone.

use crate::model::handle::NumberedHandle;
use crate::place::{Block, Place};
use std::collections::LinkedList;

/// A cell: free-standing, or a member of an object (0 first, 1 next, 2 up).
#[derive(Clone, Copy, Drop)]
pub enum Cell {
    Free(u64),
    Member { object: u64, member: u64 },
}

/// An event, with its reply. `V` is the type of the objects' values.
pub enum Event<V> {
    Make {
        block: Block,
        enabled: bool,
        null: bool,
        fields: [u64; 4],
        value: V,
    },
    Share {
        of: NumberedHandle,
        place: Option<Place>,
    },
    Leave {
        of: NumberedHandle,
        last: bool,
    },
    Count {
        of: NumberedHandle,
        owners: u64,
    },
    Expired {
        of: NumberedHandle,
        expired: bool,
    },
    Read {
        of: NumberedHandle,
        field: u64,
    },
    WeakShare {
        object: u64,
        place: Option<Place>,
    },
    WeakLeave {
        of: NumberedHandle,
        vacant: bool,
    },
    Lock {
        of: NumberedHandle,
        got: bool,
    },
    Load {
        cell: Cell,
        got: NumberedHandle,
    },
    Swap {
        cell: Cell,
        new: NumberedHandle,
        old: NumberedHandle,
    },
    Compare {
        cell: Cell,
        expected: NumberedHandle,
        new: NumberedHandle,
        held: NumberedHandle,
        swapped: bool,
        weak: bool,
    },
    Same {
        cell: Cell,
        handle: NumberedHandle,
        same: bool,
    },
    ClearMember {
        object: u64,
        member: u64,
        held: NumberedHandle,
    },
    Finish {
        object: u64,
        vacant: bool,
        value: V,
    },
    Visit {
        of: NumberedHandle,
        was: V,
        becomes: V,
    },
    Split {
        to: u64,
        allowance: u64,
        handles: LinkedList<NumberedHandle>,
        blocks: LinkedList<Block>,
    },
    Join {
        other: u64,
    },
    Shelve {
        block: Block,
    },
    Unshelve {
        block: Block,
    },
}

/// An event of a desk, which goes by its number.
pub struct Entry<V> {
    pub desk: u64,
    pub event: Event<V>,
}
