//! The call on a weak handle that may find no owner, for the crate above.
ghost use Rattle.std.specs.Prelude.{◌≡◌, ◌↔◌, ◌+◌, ◌==◌, ◌∷◌, not, cond, true, false};
ghost use Rattle.std.specs.Prelude.{is_some, Option, None, Some, IfErr, IfNone, IfOk, IfSome};
ghost use Rattle.std.specs.Prelude.{IsErr, IsNone, OnOk};
ghost use Rattle.control_word.specs.Handles.{handle};
ghost use Rattle.control_word.specs.State.{count};
ghost use Rattle.control_word.specs.declared.model.event.Event.TheVariants.{Lock};
ghost use Rattle.control_word.specs.declared.model.handle.Kind.TheVariants.{Owner, Weak};
ghost use Rattle.control_block.specs.Desks.{Belongs, AddsEvent, HasHandle, Keeps, allowance_of, bag_of, held_of};
ghost use Rattle.control_block.specs.Desks.{latest_of};
ghost use Rattle.control_block.specs.Desks.{on_latest, state_of};
ghost use Rattle.control_block.specs.LockCalls.{state_before};

use crate::desk::Desk;
use crate::domain::Domain;
use crate::handles::Shared;
use crate::steps::locks;
use control_word::{Handle, HandleWord, Refusal};
use std::marker::Brand;
use std::sync::Wait;

/// An owner from a weak handle that the desk holds, just where one remains at its step, and else none
/// ([util.smartptr.weak.obs]). Where the desk had seen the object without owner there is none. It is refused `Limit`
/// just where the desk is at its allowance, and then nothing changes. Condition: the word is the weak handle's.
#[inline(always)]
pub fn lock<V: Drop, R: Wait>(
    rt: &R,
    domain: &Domain<V>,
    desk: &mut Desk<V>,
    of: Handle,
    word: HandleWord,
) -> Result<Option<Shared>, Refusal>
    requires domain { Belongs desk.old domain.now }
    requires holds { HasHandle desk.old Weak of.place of.block.0 }
    requires word { word ≡ record { block = Some of.block; place = of.place } }
    ensures limit { IsErr result ↔ (held_of desk.old ≡ allowance_of desk.old) }
    ensures refused { IfErr result (λ why. (why ≡ Refusal.Limit) × (desk.new ≡ desk.old)) }
    ensures handle { IfOk result (λ r. IfSome r (λ h. (h.block ≡ Some of.block) × (h.place ≡ of.place))) }
    ensures event { IfOk result
        (λ r. AddsEvent desk.old (Lock (on_latest desk.old Weak of.place of.block.0) (is_some r)) desk.new) }
    ensures exact { IfOk result
        (λ r. is_some r ≡ not (count (state_before desk.new) (latest_of desk.old of.block.0) == 0)) }
    ensures expired { count (state_of desk.old) (latest_of desk.old of.block.0) ≡ 0
        → IfOk result (λ r. is_some r ≡ false) }
    ensures bag { IfOk result (λ r. bag_of desk.new ≡ cond (is_some r)
        (handle Owner (Some of.block.0) of.place ∷ bag_of desk.old) (bag_of desk.old)) }
    ensures held { IfOk result (λ r. desk.new.held ≡ desk.old.held + cond (is_some r) 1 0) }
    ensures keeps { OnOk result (Keeps desk.old desk.new) }
{
    if desk.is_full() {
        return Err(Refusal::Limit);
    }
    desk.held += 1; // here, since each locked instruction that follows waits for what was stored before it
    if !locks::lock::<V, Brand, R>(rt, &domain.table.shared, &mut desk.seat, of) {
        desk.held -= 1;
        return Ok(None);
    }
    Ok(Some(Shared::of_word(word)))
}

/// One try at the same, which waits for nobody. It answers none where others changed the count of owners meanwhile, and
/// where the desk is at its allowance; then nothing changes.
#[inline(always)]
pub fn lock_once<V: Drop>(
    domain: &Domain<V>,
    desk: &mut Desk<V>,
    of: Handle,
    word: HandleWord,
) -> Option<Option<Shared>>
    requires domain { Belongs desk.old domain.now }
    requires holds { HasHandle desk.old Weak of.place of.block.0 }
    requires word { word ≡ record { block = Some of.block; place = of.place } }
    ensures limit { held_of desk.old ≡ allowance_of desk.old → IsNone result }
    ensures missed { IfNone result (desk.new ≡ desk.old) }
    ensures handle { IfSome result (λ r. IfSome r (λ h. (h.block ≡ Some of.block) × (h.place ≡ of.place))) }
    ensures event { IfSome result
        (λ r. AddsEvent desk.old (Lock (on_latest desk.old Weak of.place of.block.0) (is_some r)) desk.new) }
    ensures exact { IfSome result
        (λ r. is_some r ≡ not (count (state_before desk.new) (latest_of desk.old of.block.0) == 0)) }
    ensures expired { count (state_of desk.old) (latest_of desk.old of.block.0) ≡ 0
        → IfSome result (λ r. is_some r ≡ false) }
    ensures bag { IfSome result (λ r. bag_of desk.new ≡ cond (is_some r)
        (handle Owner (Some of.block.0) of.place ∷ bag_of desk.old) (bag_of desk.old)) }
    ensures held { IfSome result (λ r. desk.new.held ≡ desk.old.held + cond (is_some r) 1 0) }
    ensures keeps { IfSome result (λ _. Keeps desk.old desk.new) }
{
    if desk.is_full() {
        return None;
    }
    desk.held += 1; // here, since each locked instruction that follows waits for what was stored before it
    match locks::lock_once::<V, Brand>(&domain.table.shared, &mut desk.seat, of) {
        None => {
            desk.held -= 1;
            None
        }
        Some(got) => {
            if !got {
                desk.held -= 1;
                return Some(None);
            }
            Some(Some(Shared::of_word(word)))
        }
    }
}
