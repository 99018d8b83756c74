//! The primitive acts that statements are made of.

use crate::programs::call::CellName;
use control_word::model::handle::Kind;
use control_word::place::Block;
use step_table::memory::field::Field;
use step_table::memory::form::Form;

/// A primitive act. What is taken comes into the hand, and `Put` moves it into a name and leaves what the name held.
#[derive(Clone, Copy)]
pub enum Act {
    /// Makes an object of this form.
    Make {
        form: Form,
    },
    /// Takes a copy of what a name holds.
    Share {
        name: u8,
    },
    /// Takes a shared pointer that shares ownership with what a name holds. It points at this field of what `of` points
    /// into, and at null where `of` does or no field is named.
    Alias {
        name: u8,
        of: u8,
        field: Option<Field>,
    },
    /// Takes what a name holds, which becomes empty.
    Move {
        name: u8,
    },
    /// Takes a weak pointer to the object of what a name holds.
    Downgrade {
        name: u8,
    },
    /// Takes an owner of the object of a weak name, if an owner is left. Where it `must`, it is refused without one.
    Lock {
        name: u8,
        must: bool,
    },
    /// Leaves what a name holds, and puts there what was taken. It is no act where nothing was taken, or the name is
    /// empty.
    Put {
        name: u8,
    },
    /// Leaves what a name holds.
    Leave {
        name: u8,
    },
    /// Leaves what a name holds. It is no act where the name is empty.
    Clear {
        name: u8,
    },
    /// Tells how many owners there are.
    Count {
        name: u8,
    },
    /// Tells whether no owner is left.
    Expired {
        name: u8,
    },
    /// Tells the field that a name points at. It is refused where that isn't in the object that the name owns.
    Read {
        name: u8,
    },
    /// Takes a pointer of this kind from the object that a name owns and points into. It is refused where the name
    /// points elsewhere, or the object gives none.
    FromThis {
        name: u8,
        kind: Kind,
    },
    /// Tells something of pointers that touches no word.
    Ask {
        question: Question,
    },
    /// Takes a copy of what a name holds, which is to go into a cell. It is refused where the cell is a member, and its
    /// name owns no object that it points into, as `Exchange` and `Load` are.
    Offer {
        name: u8,
        cell: CellName,
    },
    /// Puts what was taken into a cell; what the cell held is to be dropped. It is no act where nothing was taken that
    /// may go into the cell.
    Swap {
        cell: CellName,
    },
    /// Exchanges what a name holds for what a cell holds.
    Exchange {
        name: u8,
        cell: CellName,
    },
    /// Takes what a cell holds, which stays there.
    Load {
        cell: CellName,
    },
    /// Compares what a cell holds with what a name holds. Where it is equivalent, what was taken goes into the cell,
    /// and what the cell held is to be dropped. Else what was taken is to be dropped, and what the cell holds is taken.
    /// It is no act where nothing was taken that may go into the cell, or the name holds nothing that may.
    Compare {
        name: u8,
        cell: CellName,
        weak: bool,
    },
    /// Tells whether a cell holds what a name does. It is refused as `Exchange` is.
    Holds {
        name: u8,
        cell: CellName,
    },
    /// Leaves what is to be dropped. It is no act where that is nothing.
    Drop,
    /// Moves a vacant block to the shelf or from it.
    OnShelf {
        act: ShelfAct,
    },
}

/// Which way a vacant block goes.
#[derive(Clone, Copy)]
pub enum ShelfAct {
    /// The least block of the store goes to the shelf, if there is one.
    Shelve,
    /// This block comes from the shelf into the store, if it is there.
    Unshelve { block: Block },
}

/// What is told of the pointers of names, by their values alone.
#[derive(Clone, Copy)]
pub enum Question {
    /// Where a name points.
    Place { name: u8 },
    /// Whether two names point at one place.
    Same { first: u8, second: u8 },
    /// Whether the first name comes before the second by what they own.
    Before { first: u8, second: u8 },
}

/// An act, with the number of its statement from 1, or 0 at the end of its thread.
#[derive(Clone, Copy)]
pub struct Task {
    pub statement: u32,
    pub act: Act,
}
