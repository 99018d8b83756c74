//! What cells hold, between their words and the slots of an actor.
ghost use Rattle.std.specs.Prelude.{◌≡◌};
ghost use Rattle.control_word.specs.State.{kind_of_member};
ghost use Rattle.step_table.specs.CellAtomicSteps.{kind_in_state};
ghost use Rattle.step_table.specs.Contents.{as_word, slot_in};
ghost use Rattle.step_table.specs.GhostStates.{model_state};

use crate::memory::table::Table;
use crate::slots::slot::Slot;
use control_word::model::handle::Kind;
use control_word::{CellWord, Handle, Site};

impl Table {
    /// The kind of the handles in a cell.
    pub fn kind_in(&self, cell: Site) -> Kind
        ensures { result ≡ kind_in_state (model_state self.now) cell }
    {
        match cell {
            Site::Free { number } => self.kind_of_free(number),
            Site::Member { member, .. } => kind_of_member(member),
        }
    }

    /// The shared cells come first.
    fn kind_of_free(&self, number: u32) -> Kind
        ensures { result ≡ kind_in_state (model_state self.now) (Site.Free number) }
    {
        if number < self.extent.shape.shared_cells {
            Kind::Owner
        } else {
            Kind::Weak
        }
    }
}

/// Members 0 and 1 hold owners, and others a weak handle.
fn kind_of_member(member: u8) -> Kind
    ensures { result ≡ kind_of_member 2 member }
{
    if member < 2 { Kind::Owner } else { Kind::Weak }
}

impl Slot {
    /// The value as it goes into a cell, of which no fund was taken.
    pub fn word(self) -> CellWord
        ensures { result ≡ as_word self }
    {
        CellWord {
            owned: match self {
                Slot::Empty { .. } => None,
                Slot::Full(pointer) => Some(pointer.block),
            },
            place: self.place(),
            taken: 0,
        }
    }
}

/// A value of this kind that a cell's word tells.
pub(crate) fn slot_in(kind: Kind, found: CellWord) -> Slot
    ensures { result ≡ slot_in kind found }
{
    let place = found.place;
    match found.owned {
        None => Slot::Empty { place },
        Some(block) => Slot::Full(Handle { kind, block, place }),
    }
}
