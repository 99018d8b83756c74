//! The history of a table and what each actor knows of it, which exist in proofs alone.
ghost use Rattle.std.specs.Prelude.{◌≡◌, List, []};
ghost use base.Fml.{ftrue};
ghost use Rattle.control_word.specs.declared.model.event.Entry.{Entry};
ghost use Rattle.control_word.specs.declared.model.view.View.{View};
ghost use Rattle.control_word.specs.Views.{fresh};
ghost use Rattle.step_table.specs.GhostStates.{Nothing, history_after, views_after};

use crate::cell_steps::cell_step::CellStep;
use crate::memory::extent::Extent;
use crate::memory::shelf::ShelfStep;
use crate::memory::table::Table;
use control_word::model::handle::Kind;
use control_word::place::{Block, Place};
use std::marker::Model;

/// What one atomic step did to a block, with what it found.
#[derive(Clone, Copy)]
pub enum AtomicStep {
    /// The weak word of a vacant block became 1.
    Prepare {
        block: Block,
    },
    /// The flags (0) or a field (1 to 4) of a vacant block was written.
    Write {
        block: Block,
        index: u8,
        value: u64,
    },
    /// The owner word of a prepared block became 1: the Make.
    Claim {
        block: Block,
        enabled: bool,
        null: bool,
        fields: [u64; 4],
    },
    /// An owner more, from one with the place `of`.
    Share {
        block: Block,
        of: Option<Place>,
        place: Option<Place>,
    },
    /// A weak handle more.
    WeakShare {
        block: Block,
        place: Option<Place>,
    },
    /// An owner less.
    Leave {
        block: Block,
        place: Option<Place>,
        last: bool,
    },
    /// A weak handle less.
    WeakLeave {
        block: Block,
        place: Option<Place>,
        vacant: bool,
    },
    /// An owner more, from a weak handle; or the word was 0, and there is none.
    Lock {
        block: Block,
        place: Option<Place>,
        got: bool,
    },
    /// The number of owners was looked at, by a handle.
    Count {
        kind: Kind,
        block: Block,
        place: Option<Place>,
        owners: u32,
    },
    /// Whether no owner is left was looked at, by a handle.
    Expired {
        kind: Kind,
        block: Block,
        place: Option<Place>,
        expired: bool,
    },
    /// The field at the place of an owner was looked at.
    Read {
        block: Block,
        place: Option<Place>,
        value: u64,
    },
    /// A member of an ending object was found empty.
    Clear {
        block: Block,
        member: u8,
    },
    /// The owners' common count went.
    Finish {
        block: Block,
        vacant: bool,
    },
    /// A step on a block's bit in a word of the shelf.
    OnShelf {
        block: Block,
        atomic_step: ShelfStep,
    },
    /// A step on a cell, or on the funds of a count.
    OnCell {
        atomic_step: CellStep,
    },
}

/// An atomic step, and the desk that did it.
#[derive(Clone, Copy)]
pub struct Done {
    pub desk: usize,
    pub atomic_step: AtomicStep,
}

/// All events so far, newest first, and the view of each desk. It takes no bytes.
#[derive(Drop)]
pub struct GhostHistory {
    pub ghost history: { List (Entry Nothing) },
    pub ghost views: { List (View Nothing) },
}

impl Model for GhostHistory {
    ghost also_owns = { λ _. ftrue };
}

impl GhostHistory {
    /// Nothing happened yet.
    pub(crate) fn start(_extent: &Extent) -> GhostHistory
        ensures { (result.history ≡ []) × (result.views ≡ fresh 0 _extent.now.actors) }
    {
        GhostHistory {}
    }

    /// What is known after one more atomic step.
    pub(crate) fn next(_table: &Table, _done: &Done) -> GhostHistory
        ensures { (result.history ≡ history_after _table.now _done.now.desk _done.now.atomic_step)
            × (result.views ≡ views_after _table.now _done.now.desk _done.now.atomic_step) }
    {
        GhostHistory {}
    }
}
