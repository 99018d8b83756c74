//! Looks at the field that an owner points at.
ghost use Rattle.std.specs.Prelude.{◌≡◌, ◌<◌, length, slice_index, Some, None};
ghost use Rattle.control_word.specs.declared.model.view.Pending.TheVariants.{Idle};
ghost use Rattle.control_word.specs.State.{Has, held};
ghost use Rattle.step_table.specs.Registers.{inside_as, into};
ghost use Rattle.step_table.specs.GhostStates.{ghost_after_step, object_of_block, owner_in, pending, model_state};

use crate::memory::ghost_history::AtomicStep;
use crate::memory::table::Table;
use crate::slots::registers::Registers;
use control_word::Handle;
use control_word::model::handle::Kind;
use control_word::packed::layout::{FIELDS, block_word};
use control_word::place::{Block, Place};

impl Table {
    /// The field at the place of an owner, which is in its object: no field of an object that is there changes.
    pub fn read(&mut self, desk: usize, block: Block, place: Place) -> u64
        requires seat { desk < self.old.extent.actors }
        requires idle { pending self.old desk ≡ Idle }
        requires held { Has (held desk (owner_in self.old block (Some place))) (model_state self.old).hands }
        requires inside { place.block.0 ≡ block.0 }
        requires field { place.field < 4 }
        ensures value { result ≡ slice_index
            ((model_state self.old).object (object_of_block self.old block)).fields place.field }
        ensures after { self.new ≡ ghost_after_step self.old desk (AtomicStep.Read block (Some place) result) }
    {
        let value = self
            .words
            .get(block_word(block, FIELDS + usize::from(place.field)));
        self.ghost_history = self.then(
            desk,
            AtomicStep::Read {
                block,
                place: Some(place),
                value,
            },
        );
        value
    }
}

impl Registers {
    ghost use Rattle.step_table.specs.AtomicSteps.{field_of, read_atomic_step};
    ghost use Rattle.step_table.specs.Registers.{HoldsBag, inside, slot_pointer};

    /// The owner that a slot holds, where it points into the object that it owns.
    pub fn inside(&self, at: usize) -> Option<Handle>
        requires { at < length self.now.slots.items }
        ensures { result ≡ inside (slot_pointer self.now.slots.items at) }
    {
        match self.get(at) {
            Some(pointer) => inside(pointer),
            None => None,
        }
    }

    /// The field that the owner in a slot points at.
    pub fn read(&self, desk: usize, table: &mut Table, from: usize, pointer: Handle) -> u64
        requires seat { desk < table.old.extent.actors }
        requires idle { pending table.old desk ≡ Idle }
        requires holds { HoldsBag desk self.now.slots.items table.old }
        requires from { inside (slot_pointer self.now.slots.items from) ≡ Some pointer }
        ensures value { result ≡ field_of (model_state table.old) pointer }
        ensures table { table.new ≡ ghost_after_step table.old desk (read_atomic_step (model_state table.old) pointer) }
        ensures holds { HoldsBag desk self.now.slots.items table.new }
    {
        table.assert_invariant();
        let Some(place) = pointer.place else {
            unreachable!()
        };
        table.read(desk, pointer.block, place)
    }
}

/// The pointer, if it is an owner that points into the object that it owns.
fn inside(pointer: Handle) -> Option<Handle>
    ensures { result ≡ inside_as pointer.kind pointer }
{
    match pointer.kind {
        Kind::Owner => into(pointer),
        Kind::Weak => None,
    }
}

/// The pointer, if it points into the object that it owns.
fn into(pointer: Handle) -> Option<Handle>
    ensures { result ≡ into pointer pointer.place }
{
    match pointer.place {
        Some(place) if place.block == pointer.block => Some(pointer),
        _ => None,
    }
}
