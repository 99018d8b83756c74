//! How pointers come into the slots of an actor.
ghost use Rattle.std.specs.Prelude.{◌≡◌, false, ◌<◌, ◌==◌, cond, ◌∷◌, length, slice_set, Some};
ghost use Rattle.std.specs.Prelude.{None};
ghost use Rattle.control_word.specs.declared.model.handle.Kind.TheVariants.{Owner};
ghost use Rattle.control_word.specs.Events.{origin};
ghost use Rattle.control_word.specs.Words.{flags_of};
ghost use Rattle.control_word.specs.declared.model.view.Pending.TheVariants.{Idle};
ghost use Rattle.step_table.specs.AtomicSteps.{as_owner, as_weak, downgrade, is_expired, lock, owner_word, share};
ghost use Rattle.step_table.specs.Registers.{HoldsBag, slot_pointer, weak_slot};
ghost use Rattle.step_table.specs.declared.slots.slot.Slot.TheVariants.{Full};
ghost use Rattle.control_word.specs.Words.{flags_of};
ghost use Rattle.step_table.specs.GhostStates.{IsMaking, ghost_after_step, known_words, pending, model_state};

use crate::memory::form::Form;
use crate::memory::ghost_history::AtomicStep;
use crate::memory::table::Table;
use crate::slots::registers::Registers;
use crate::slots::slot::Slot;
use control_word::Handle;
use control_word::model::handle::Kind;
use control_word::place::{Block, Place};

impl Registers {
    /// Copies the pointer of one slot into another, which is empty.
    pub fn share(&mut self, desk: usize, table: &mut Table, from: usize, to: usize, pointer: Handle)
        requires seat { desk < table.old.extent.actors }
        requires idle { pending table.old desk ≡ Idle }
        requires holds { HoldsBag desk self.old.slots.items table.old }
        requires from { slot_pointer self.old.slots.items from ≡ Some pointer }
        requires inside { to < length self.old.slots.items }
        requires empty { slot_pointer self.old.slots.items to ≡ None }
        ensures slots { self.new.slots.items ≡ slice_set self.old.slots.items to (Full pointer) }
        ensures table { table.new ≡ ghost_after_step table.old desk (share pointer) }
        ensures holds { HoldsBag desk self.new.slots.items table.new }
    {
        table.assert_invariant();
        table.copy_pointer(desk, pointer);
        self.slots[to] = Slot::Full(pointer);
    }

    /// Puts a weak pointer to the object of one slot into another, which is empty.
    pub fn downgrade(
        &mut self,
        desk: usize,
        table: &mut Table,
        from: usize,
        to: usize,
        pointer: Handle,
    )
        requires seat { desk < table.old.extent.actors }
        requires idle { pending table.old desk ≡ Idle }
        requires holds { HoldsBag desk self.old.slots.items table.old }
        requires from { slot_pointer self.old.slots.items from ≡ Some pointer }
        requires inside { to < length self.old.slots.items }
        requires empty { slot_pointer self.old.slots.items to ≡ None }
        ensures slots { self.new.slots.items ≡ slice_set self.old.slots.items to (Full (as_weak pointer)) }
        ensures table { table.new ≡ ghost_after_step table.old desk (downgrade pointer) }
        ensures holds { HoldsBag desk self.new.slots.items table.new }
    {
        table.assert_invariant();
        table.weak_share(desk, pointer, pointer.place);
        self.slots[to] = Slot::Full(Handle {
            kind: Kind::Weak,
            block: pointer.block,
            place: pointer.place,
        });
    }

    /// Tries a lock of a weak pointer in one slot, as `Table::try_lock` says: the owner comes into another slot, which
    /// is empty.
    pub fn try_lock(
        &mut self,
        desk: usize,
        table: &mut Table,
        from: usize,
        to: usize,
        pointer: Handle,
        found: u64,
    ) -> u64
        requires seat { desk < table.old.extent.actors }
        requires idle { pending table.old desk ≡ Idle }
        requires holds { HoldsBag desk self.old.slots.items table.old }
        requires from { weak_slot (slot_pointer self.old.slots.items from) ≡ Some pointer }
        requires inside { to < length self.old.slots.items }
        requires empty { slot_pointer self.old.slots.items to ≡ None }
        requires some { 0 < found }
        ensures word { result ≡ owner_word table.old pointer }
        ensures left { (result == 0) ≡ is_expired (model_state table.old) pointer }
        ensures slots { self.new.slots.items ≡ cond (result == found)
            (slice_set self.old.slots.items to (Full (as_owner pointer))) self.old.slots.items }
        ensures table { table.new ≡ cond (result == found)
            (ghost_after_step table.old desk (lock (model_state table.old) pointer)) table.old }
        ensures holds { HoldsBag desk self.new.slots.items table.new }
    {
        table.assert_invariant();
        let now = table.try_lock(desk, pointer.block, pointer.place, found);
        if now != found {
            return now;
        }
        self.slots[to] = Slot::Full(Handle {
            kind: Kind::Owner,
            block: pointer.block,
            place: pointer.place,
        });
        now
    }

    /// The object is made: its first owner comes into an empty slot.
    pub fn claim(&mut self, desk: usize, table: &mut Table, to: usize, block: Block, form: Form)
        requires seat { desk < table.old.extent.actors }
        requires making { IsMaking table.old desk block }
        requires known { known_words (pending table.old desk) ≡ flags_of form.enabled form.null ∷ form.fields }
        requires holds { HoldsBag desk self.old.slots.items table.old }
        requires inside { to < length self.old.slots.items }
        requires empty { slot_pointer self.old.slots.items to ≡ None }
        ensures slots { self.new.slots.items ≡ slice_set self.old.slots.items to
            (Full (record { kind = Owner; block = block; place = origin block.0 form.null })) }
        ensures table { table.new ≡ ghost_after_step table.old desk
            (AtomicStep.Claim block form.enabled form.null form.fields) }
        ensures holds { HoldsBag desk self.new.slots.items table.new }
    {
        table.assert_invariant();
        table.claim(desk, block, form.enabled, form.null, form.fields);
        let place = origin(block, form.null);
        self.slots[to] = Slot::Full(Handle {
            kind: Kind::Owner,
            block,
            place,
        });
    }
}

/// Where a new object's owner points: at the object, or nowhere where the owned pointer is null.
fn origin(block: Block, null: bool) -> Option<Place>
    ensures { result ≡ origin block.0 null }
{
    if null {
        None
    } else {
        Some(Place { block, field: 0 })
    }
}
