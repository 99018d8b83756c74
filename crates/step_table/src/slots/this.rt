//! Pointers that an object gives to itself.
ghost use Rattle.std.specs.Prelude.{◌≡◌, ◌<◌, Bool, length, slice_set, Some, None};
ghost use Rattle.control_word.specs.declared.model.handle.Kind.TheVariants.{Owner};
ghost use Rattle.control_word.specs.declared.model.view.Pending.TheVariants.{Idle};
ghost use Rattle.control_word.specs.Events.{place_at};
ghost use Rattle.control_word.specs.State.{Has, bag_size, held};
ghost use Rattle.control_word.specs.Words.{flags_of};
ghost use Rattle.step_table.specs.AtomicSteps.{give, is_enabled, this_as};
ghost use Rattle.step_table.specs.declared.slots.slot.Slot.TheVariants.{Full};
ghost use Rattle.step_table.specs.GhostStates.{ghost_after_step, handle_in_block, pending, model_state};

use crate::memory::table::Table;
use crate::slots::registers::Registers;
use control_word::Handle;
use control_word::model::handle::Kind;
use control_word::packed::layout::{ENABLED, FLAGS};
use control_word::place::{Block, Place};

impl Table {
    /// Whether an object gives pointers to itself, by a handle of it: its flag doesn't change.
    pub fn is_enabled(&self, desk: usize, pointer: Handle) -> bool
        requires { Has (held desk (handle_in_block self.now pointer.kind pointer.block pointer.place))
            (model_state self.now).hands }
        ensures { result ≡ is_enabled (model_state self.now) pointer }
    {
        self.assert_invariant();
        is_enabled(self.word(pointer.block, FLAGS))
    }

    /// A handle more, of this kind and of the object itself, from an owner.
    pub fn give(&mut self, desk: usize, kind: Kind, pointer: Handle)
        requires seat { desk < self.old.extent.actors }
        requires idle { pending self.old desk ≡ Idle }
        requires held { Has (held desk (handle_in_block self.old pointer.kind pointer.block pointer.place))
            (model_state self.old).hands }
        requires owner { pointer.kind ≡ Owner }
        requires room { bag_size (model_state self.old) desk < (model_state self.old).allowance desk }
        ensures { self.new ≡ ghost_after_step self.old desk (give kind pointer) }
    {
        self.assert_invariant();
        let place = itself(pointer.block);
        match kind {
            Kind::Owner => self.share(desk, pointer.block, pointer.place, place),
            Kind::Weak => self.weak_share(desk, pointer, place),
        }
    }
}

impl Registers {
    ghost use Rattle.step_table.specs.Registers.{HoldsBag, inside, slot_pointer};

    /// Whether the object of an owner in a slot gives pointers to itself.
    pub fn is_enabled(&self, desk: usize, table: &Table, from: usize, pointer: Handle) -> bool
        requires holds { HoldsBag desk self.now.slots.items table.now }
        requires from { inside (slot_pointer self.now.slots.items from) ≡ Some pointer }
        ensures { result ≡ is_enabled (model_state table.now) pointer }
    {
        table.is_enabled(desk, pointer)
    }

    /// Puts a pointer of this kind to the object itself, from an owner in one slot, into another slot, which is empty.
    pub fn give(
        &mut self,
        desk: usize,
        table: &mut Table,
        from: usize,
        to: usize,
        kind: Kind,
        pointer: Handle,
    )
        requires seat { desk < table.old.extent.actors }
        requires idle { pending table.old desk ≡ Idle }
        requires holds { HoldsBag desk self.old.slots.items table.old }
        requires from { inside (slot_pointer self.old.slots.items from) ≡ Some pointer }
        requires inside { to < length self.old.slots.items }
        requires empty { slot_pointer self.old.slots.items to ≡ None }
        ensures slots { self.new.slots.items ≡ slice_set self.old.slots.items to (Full (this_as kind pointer)) }
        ensures table { table.new ≡ ghost_after_step table.old desk (give kind pointer) }
        ensures holds { HoldsBag desk self.new.slots.items table.new }
    {
        table.assert_invariant();
        table.give(desk, kind, pointer);
        self.fill(to, this_of(kind, pointer));
    }
}

/// Whether flags say that an object gives pointers to itself.
fn is_enabled(flags: u64) -> bool
    ensures { (enabled null : Bool) → flags ≡ flags_of enabled null → result ≡ enabled }
{
    flags & ENABLED != 0
}

/// The place of an object itself.
fn itself(block: Block) -> Option<Place>
    ensures { result ≡ place_at block.0 }
{
    Some(Place { block, field: 0 })
}

/// A pointer of a kind to the object that a pointer owns.
fn this_of(kind: Kind, pointer: Handle) -> Handle
    ensures { result ≡ this_as kind pointer }
{
    Handle {
        kind,
        block: pointer.block,
        place: itself(pointer.block),
    }
}
