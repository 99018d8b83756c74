//! What one atomic step did to a cell, or to the funds of a count.

use control_word::model::handle::Kind;
use control_word::place::{Block, Place};
use control_word::{CellWord, Site};

/// What a compare expects a cell to hold, and what it wants to put there. The weak one may differ on an equivalent
/// value.
#[derive(Clone, Copy)]
pub struct Compared {
    pub expected: CellWord,
    pub new: CellWord,
    pub weak: bool,
}

/// What one atomic step did to a cell or to funds, with the word of the cell that it found.
#[derive(Clone, Copy)]
pub enum CellStep {
    /// A cell without an object was looked at: a load, or a compare that differs.
    Look {
        cell: Site,
        found: CellWord,
        compared: Option<Compared>,
    },
    /// A cell was looked at, whether it holds this value.
    Holds {
        cell: Site,
        value: CellWord,
        holds: bool,
    },
    /// So many funds more on the count of a handle.
    Bring {
        kind: Kind,
        block: Block,
        place: Option<Place>,
        funds: u32,
    },
    /// So many funds less on a count: those that were brought, or that came out of a cell.
    GiveBack {
        kind: Kind,
        block: Block,
        funds: u32,
    },
    /// One more fund of a cell's was taken: a load, or a compare that differs.
    Take {
        cell: Site,
        found: CellWord,
        compared: Option<Compared>,
    },
    /// The fund that was taken became a handle.
    Turn {
        kind: Kind,
        block: Block,
    },
    /// The funds that were brought went into a cell, in place of so many that were taken.
    Refill {
        cell: Site,
        taken: u32,
    },
    /// A value went into a cell, and what it held came out.
    Swap {
        cell: Site,
        new: CellWord,
        found: CellWord,
    },
    /// The same, where the cell held what was expected.
    CompareSwap {
        cell: Site,
        found: CellWord,
        compared: Compared,
    },
    /// A member of an ending object came out.
    TakeOut {
        block: Block,
        member: u8,
        found: CellWord,
    },
}
