//! Slots, and what is in them.
ghost use Rattle.std.specs.Prelude.{◌≡◌, ◌≤◌, ◌<◌, [], length, None, slice_get, slice_set, Some, vec_capacity};
ghost use Rattle.control_block.specs.declared.handles.Held.TheVariants as held;
ghost use Rattle.script_runner.specs.SlotCalls.{IsHandleAt, IsOwnerAt, IsWeakAt};
ghost use Rattle.script_runner.specs.Tables.{AllVacant};

use control_block::handles::Weak;
use shared_handle::{Held, Shared};

pub(crate) mod assignments;
pub(crate) mod contents;

/// So many vacant slots.
#[tactic(auto, using(crate::proofs::Filling::vacant_append))]
pub(crate) fn open_slots(slots: &mut Vec<Option<Held>>, count: usize)
    requires { (slots.old.items ≡ []) × (count ≤ vec_capacity slots.old) }
    ensures { AllVacant slots.new.items × (length slots.new.items ≡ count) }
{
    while slots.len() < count {
        slots.push_reserved(None);
    }
}

/// The handle in the slot.
pub(crate) fn handle_at(slots: &Vec<Option<Held>>, at: usize) -> &Held
    requires { IsHandleAt slots.now.items at }
    ensures { slice_get slots.now.items at ≡ Some (Some result.now) }
{
    match slots[at].as_ref() {
        Some(handle) => handle,
        None => unreachable!(),
    }
}

/// The owner in the slot.
pub(crate) fn owner_at(slots: &Vec<Option<Held>>, at: usize) -> &Shared
    requires { IsOwnerAt slots.now.items at }
    ensures { slice_get slots.now.items at ≡ Some (Some (held.Owner result.now)) }
{
    match handle_at(slots, at) {
        Held::Owner(owner) => owner,
        Held::Weak(_) => unreachable!(),
    }
}

/// The weak handle in the slot.
pub(crate) fn weak_at(slots: &Vec<Option<Held>>, at: usize) -> &Weak
    requires { IsWeakAt slots.now.items at }
    ensures { slice_get slots.now.items at ≡ Some (Some (held.Weak result.now)) }
{
    match handle_at(slots, at) {
        Held::Weak(weak) => weak,
        Held::Owner(_) => unreachable!(),
    }
}

/// A handle goes into a slot, and what lay there comes out.
pub(crate) fn put(slots: &mut Vec<Option<Held>>, at: usize, handle: Held) -> Option<Held>
    requires { at < length slots.old.items }
    ensures { (slice_get slots.old.items at ≡ Some result)
        × (slots.new.items ≡ slice_set slots.old.items at (Some handle)) }
{
    slots[at].replace(handle)
}

/// What is in the slot goes out of it, if anything is.
pub(crate) fn empty_out(slots: &mut Vec<Option<Held>>, at: usize) -> Option<Held>
    requires { at < length slots.old.items }
    ensures { (slice_get slots.old.items at ≡ Some result)
        × (slots.new.items ≡ slice_set slots.old.items at None) }
{
    slots[at].take()
}

/// The handle in the slot goes out of it.
pub(crate) fn take_handle(slots: &mut Vec<Option<Held>>, at: usize) -> Held
    requires { IsHandleAt slots.old.items at }
    ensures { (slice_get slots.old.items at ≡ Some (Some result))
        × (slots.new.items ≡ slice_set slots.old.items at None) }
{
    match empty_out(slots, at) {
        Some(handle) => handle,
        None => unreachable!(),
    }
}
