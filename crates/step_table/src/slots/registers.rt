//! What an actor holds.
ghost use Rattle.std.specs.Prelude.{◌≡◌, ◌≢◌, ◌+◌, ◌<◌, ◌≤◌, IfOk, replicate, ◌-◌};
ghost use Rattle.std.specs.Prelude.{◌==◌, ℕ, false, cond, ◌∷◌, length, get_or, slice_set, Some, None};
ghost use Rattle.control_word.specs.declared.model.handle.Kind.TheVariants.{Owner};
ghost use Rattle.control_word.specs.Events.{origin};
ghost use Rattle.control_word.specs.Handles.{IsPointer};
ghost use Rattle.control_word.specs.Views.{owed};
ghost use Rattle.control_word.specs.Layout.{spot};
ghost use Rattle.control_word.specs.declared.model.view.Pending.TheVariants.{Idle};
ghost use Rattle.control_word.specs.Words.{flags_of};
ghost use Rattle.step_table.specs.AtomicSteps.{as_owner, as_weak, by_word, downgrade, is_expired, is_last, leave, lock};
ghost use Rattle.step_table.specs.AtomicSteps.{owned, owner_word, share, tell, tell_expired};
ghost use Rattle.step_table.specs.Contents.{is_of};
ghost use Rattle.step_table.specs.Registers.{HoldsBag, is_full, place_in, plain, slot_pointer, slot_value, weak_as};
ghost use Rattle.step_table.specs.Registers.{weak_slot};
ghost use Rattle.step_table.specs.declared.slots.slot.Slot.TheVariants.{Empty, Full};
ghost use Rattle.step_table.specs.GhostStates.{GhostState, IsMaking, ghost_after_step, known_words, object_of_block};
ghost use Rattle.step_table.specs.GhostStates.{pending};
ghost use Rattle.step_table.specs.GhostStates.{model_state};

use crate::memory::ghost_history::AtomicStep;
use crate::memory::table::Table;
use crate::slots::slot::Slot;
use control_word::Handle;
use control_word::model::handle::Kind;
use control_word::place::{Block, Place};
use std::alloc::{AllocError, Global};

/// The values of an actor's names, then what is to be dropped at the end of a statement, and last the value that it has
/// in hand between two acts.
#[derive(Drop)]
pub struct Registers {
    pub(crate) slots: Vec<Slot>,
    ghost few: { length slots.items < 35 },
}

impl Registers {
    /// So many names, of which none holds anything, with nothing to drop and an empty hand.
    pub fn new(alloc: Global, names: u8) -> Result<Registers, AllocError>
        requires { names ≤ 32 }
        ensures { IfOk result (λ h. h.slots.items ≡ replicate (names + 2) plain) }
    {
        let slots = vec![in alloc; Slot::Empty { place: None }; usize::from(names) + 2]?;
        Ok(Registers { slots })
    }

    /// What a slot holds.
    pub fn get(&self, at: usize) -> Option<Handle>
        requires { at < length self.now.slots.items }
        ensures { result ≡ slot_pointer self.now.slots.items at }
    {
        self.slots[at].pointer()
    }

    /// The place that a slot stores.
    pub fn place(&self, at: usize) -> Option<Place>
        requires { at < length self.now.slots.items }
        ensures { result ≡ place_in self.now.slots.items at }
    {
        self.slots[at].place()
    }

    /// Whether a slot's value may go into a cell of this kind.
    pub fn is_of(&self, at: usize, kind: Kind) -> bool
        requires { at < length self.now.slots.items }
        ensures { result ≡ is_of kind (slot_value self.now.slots.items at) }
    {
        self.slots[at].is_of(kind)
    }

    /// Puts a pointer into a slot.
    pub fn fill(&mut self, at: usize, pointer: Handle)
        requires { at < length self.old.slots.items }
        ensures { self.new.slots.items ≡ slice_set self.old.slots.items at (Full pointer) }
    {
        self.slots[at] = Slot::Full(pointer);
    }

    /// Whether a slot holds something.
    pub fn is_full(&self, at: usize) -> bool
        requires { at < length self.now.slots.items }
        ensures { result ≡ is_full (slot_pointer self.now.slots.items at) }
    {
        self.get(at).is_some()
    }

    /// The last slot, for the value that is in hand.
    pub fn hand(&self) -> usize
        requires { 0 < length self.now.slots.items }
        ensures { result ≡ length self.now.slots.items - 1 }
    {
        self.slots.len() - 1
    }

    /// The slot behind those of the names, for what is to be dropped.
    pub fn other(&self) -> usize
        requires { 1 < length self.now.slots.items }
        ensures { result ≡ length self.now.slots.items - 2 }
    {
        self.slots.len() - 2
    }

    /// The weak pointer that a slot holds, if it holds one.
    pub fn weak(&self, at: usize) -> Option<Handle>
        requires { at < length self.now.slots.items }
        ensures { result ≡ weak_slot (slot_pointer self.now.slots.items at) }
    {
        match self.get(at) {
            Some(pointer) => weak(pointer),
            None => None,
        }
    }

    /// Leaves what a slot holds. Answers whether that was the last, as `Table::leave_pointer` says.
    pub fn leave(&mut self, desk: usize, table: &mut Table, from: usize, pointer: Handle) -> bool
        requires seat { desk < table.old.extent.actors }
        requires idle { pending table.old desk ≡ Idle }
        requires holds { HoldsBag desk self.old.slots.items table.old }
        requires inside { from < length self.old.slots.items }
        requires from { slot_pointer self.old.slots.items from ≡ Some pointer }
        ensures slots { self.new.slots.items ≡ slice_set self.old.slots.items from plain }
        ensures last { result ≡ is_last (model_state table.old) pointer }
        ensures table { table.new ≡ ghost_after_step table.old desk (leave (model_state table.old) pointer) }
        ensures holds { HoldsBag desk self.new.slots.items table.new }
    {
        table.assert_invariant();
        let last = table.leave_pointer(desk, pointer);
        self.slots[from] = Slot::Empty { place: None };
        last
    }

    /// How many owners the object of a slot has, as its word tells.
    pub fn count(&self, desk: usize, table: &mut Table, from: usize, pointer: Handle) -> u32
        requires seat { desk < table.old.extent.actors }
        requires idle { pending table.old desk ≡ Idle }
        requires holds { HoldsBag desk self.now.slots.items table.old }
        requires from { slot_pointer self.now.slots.items from ≡ Some pointer }
        ensures told { result ≡ by_word table.old (model_state table.old) pointer }
        ensures table { table.new ≡ ghost_after_step table.old desk (tell table.old pointer) }
        ensures holds { HoldsBag desk self.now.slots.items table.new }
    {
        table.assert_invariant();
        table.count(desk, pointer)
    }

    /// Whether no owner is left of the object of a slot.
    pub fn is_expired(&self, desk: usize, table: &mut Table, from: usize, pointer: Handle) -> bool
        requires seat { desk < table.old.extent.actors }
        requires idle { pending table.old desk ≡ Idle }
        requires holds { HoldsBag desk self.now.slots.items table.old }
        requires from { slot_pointer self.now.slots.items from ≡ Some pointer }
        ensures exact { result ≡ is_expired (model_state table.old) pointer }
        ensures table { table.new ≡ ghost_after_step table.old desk (tell_expired (model_state table.old) pointer) }
        ensures holds { HoldsBag desk self.now.slots.items table.new }
    {
        table.assert_invariant();
        table.is_expired(desk, pointer)
    }

    /// The first look of a lock of a weak pointer in a slot, as `Table::look_lock` says.
    pub fn look_lock(&self, desk: usize, table: &mut Table, from: usize, pointer: Handle) -> u64
        requires seat { desk < table.old.extent.actors }
        requires idle { pending table.old desk ≡ Idle }
        requires holds { HoldsBag desk self.now.slots.items table.old }
        requires from { weak_slot (slot_pointer self.now.slots.items from) ≡ Some pointer }
        ensures word { result ≡ owner_word table.old pointer }
        ensures left { (result == 0) ≡ is_expired (model_state table.old) pointer }
        ensures table { table.new ≡ cond (result == 0)
            (ghost_after_step table.old desk (lock (model_state table.old) pointer)) table.old }
        ensures holds { HoldsBag desk self.now.slots.items table.new }
    {
        table.assert_invariant();
        table.look_lock(desk, pointer.block, pointer.place)
    }

    /// A slot that has no object becomes empty, with this place.
    pub fn set_empty(&mut self, at: usize, place: Option<Place>)
        requires inside { at < length self.old.slots.items }
        requires place { IsPointer place }
        requires empty { slot_pointer self.old.slots.items at ≡ None }
        ensures slots { self.new.slots.items ≡ slice_set self.old.slots.items at (Empty place) }
        ensures holds { (d : ℕ) (v : GhostState) → HoldsBag d self.old.slots.items v
            → HoldsBag d self.new.slots.items v }
    {
        self.slots[at] = Slot::Empty { place };
    }

    /// The value in one slot goes to another, which is empty.
    pub fn pass_on(&mut self, from: usize, to: usize)
        requires from { from < length self.old.slots.items }
        requires inside { to < length self.old.slots.items }
        requires apart { from ≢ to }
        requires empty { slot_pointer self.old.slots.items to ≡ None }
        ensures slots { self.new.slots.items
            ≡ slice_set (slice_set self.old.slots.items to (slot_value self.old.slots.items from)) from plain }
        ensures holds { (d : ℕ) (v : GhostState) → HoldsBag d self.old.slots.items v
            → HoldsBag d self.new.slots.items v }
    {
        self.slots[to] = self.slots[from];
        self.slots[from] = Slot::Empty { place: None };
    }
}

/// The pointer, if it is weak.
fn weak(pointer: Handle) -> Option<Handle>
    ensures { result ≡ weak_as pointer.kind pointer }
{
    match pointer.kind {
        Kind::Owner => None,
        Kind::Weak => Some(pointer),
    }
}
