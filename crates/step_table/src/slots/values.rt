//! Aliases of owners, and which comes before which.
ghost use Rattle.std.specs.Prelude.{◌≡◌, ◌<◌, length, slice_set, Some, None};
ghost use Rattle.control_word.specs.Handles.{IsPointer};
ghost use Rattle.control_word.specs.declared.model.view.Pending.TheVariants.{Idle};
ghost use Rattle.step_table.specs.AtomicSteps.{alias, at_place, on, pointer_before};
ghost use Rattle.step_table.specs.Registers.{HoldsBag, owner_as, owner_slot, slot_pointer};
ghost use Rattle.step_table.specs.GhostStates.{ghost_after_step, pending, model_state};
ghost use Rattle.step_table.specs.declared.slots.slot.Slot.TheVariants.{Full};

use crate::memory::table::Table;
use crate::slots::registers::Registers;
use crate::slots::slot::Slot;
use control_word::Handle;
use control_word::model::handle::Kind;
use control_word::place::Place;

impl Registers {
    /// The owner that a slot holds, if it holds one.
    pub fn owner(&self, at: usize) -> Option<Handle>
        requires { at < length self.now.slots.items }
        ensures { result ≡ owner_slot (slot_pointer self.now.slots.items at) }
    {
        match self.get(at) {
            Some(pointer) => owner(pointer),
            None => None,
        }
    }

    /// Puts an owner of the object of one slot into another, which is empty; it stores this place.
    pub fn alias(
        &mut self,
        desk: usize,
        table: &mut Table,
        from: usize,
        to: usize,
        pointer: Handle,
        place: Option<Place>,
    )
        requires seat { desk < table.old.extent.actors }
        requires idle { pending table.old desk ≡ Idle }
        requires holds { HoldsBag desk self.old.slots.items table.old }
        requires from { owner_slot (slot_pointer self.old.slots.items from) ≡ Some pointer }
        requires place { IsPointer place }
        requires inside { to < length self.old.slots.items }
        requires empty { slot_pointer self.old.slots.items to ≡ None }
        ensures slots { self.new.slots.items ≡ slice_set self.old.slots.items to (Full (at_place place pointer)) }
        ensures table { table.new ≡ ghost_after_step table.old desk (alias place pointer) }
        ensures holds { HoldsBag desk self.new.slots.items table.new }
    {
        table.assert_invariant();
        table.share(desk, pointer.block, pointer.place, place);
        self.slots[to] = Slot::Full(Handle {
            kind: Kind::Owner,
            block: pointer.block,
            place,
        });
    }

    /// Whether what one slot owns comes before what another owns: their blocks tell it.
    pub fn is_before(&self, _desk: usize, table: &Table, first: u8, second: u8) -> bool
        requires holds { HoldsBag _desk self.now.slots.items table.now }
        requires first { first < length self.now.slots.items }
        requires second { second < length self.now.slots.items }
        ensures { result ≡ pointer_before (model_state table.now) (slot_pointer self.now.slots.items first)
            (slot_pointer self.now.slots.items second) }
    {
        table.assert_invariant();
        rank(self.get(usize::from(first))) < rank(self.get(usize::from(second)))
    }
}

/// The pointer, if it is an owner.
fn owner(pointer: Handle) -> Option<Handle>
    ensures { result ≡ owner_as pointer.kind pointer }
{
    match pointer.kind {
        Kind::Owner => Some(pointer),
        Kind::Weak => None,
    }
}

/// Where a pointer stands in owner order: 0 without an object.
fn rank(pointer: Option<Handle>) -> u32
    ensures { result ≡ on (λ x. x.block.0) 0 pointer }
{
    match pointer {
        Some(pointer) => pointer.block.number(),
        None => 0,
    }
}
