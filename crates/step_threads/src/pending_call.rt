//! Where a thread is within an act.

use control_word::model::handle::Kind;
use control_word::place::Block;
use control_word::{CellWord, Handle, Site};
use step_table::cell_steps::refill::Stage;

/// What a thread has begun and not ended.
#[derive(Clone, Copy)]
pub enum PendingCall {
    /// Nothing.
    Rest,
    /// A make: of its block's flags and fields those before `index` are as they shall be. The next is looked at, or
    /// written where it was found to differ; behind the last the block is claimed.
    Making {
        block: Block,
        index: u8,
        differs: bool,
    },
    /// A lock that found this word, which isn't 0: it is tried with it next.
    Locking {
        word: u64,
    },
    /// A pointer from this: the object that a name owns was found to give pointers to itself, and one of this kind is
    /// taken next.
    Giving {
        name: u8,
        kind: Kind,
        pointer: Handle,
    },
    /// The funds of what goes into a cell are brought: the swap is next.
    Brought,
    /// A cell that is loaded or compared was seen to hold this: where it shows that still, it is loaded next, or found
    /// to differ; where it is what is expected, the funds of what is to go in are brought, or it is swapped where that
    /// has no object.
    Saw {
        found: CellWord,
    },
    /// A cell was seen to hold this, which is what is expected, and the funds of what is to go in are brought: where
    /// the cell shows that still, it is swapped next.
    Matched {
        found: CellWord,
    },
    /// A fund of a cell, which showed this since, was taken by this statement: how far it is turned, and many that were
    /// taken are put back.
    Refill {
        stage: Stage,
        cell: Site,
        found: CellWord,
        statement: u32,
    },
    /// Funds are given back next by this statement: those of what came out of a cell that were not taken, or those that
    /// a compare had brought in vain.
    Returning {
        kind: Kind,
        block: Block,
        funds: u32,
        statement: u32,
    },
    /// A member of the object that ends was seen to hold something: it is taken out next.
    Clearing,
}
