//! Handles come into slots and go out of them.
ghost use Rattle.std.specs.Prelude.{◌≡◌, ◌+◌, ◌<◌, IfSome, MatchOption, None, Some};
ghost use Rattle.std.specs.Prelude.{length, slice_get, slice_set};
ghost use Rattle.shared_handle.specs.Prelude.{Owner, HoldsHandle};
ghost use Rattle.control_block.specs.Desks.{Belongs, IsSameDesk, bag_of};
ghost use Rattle.control_block.specs.HandleLists.{IsHeldByDesk, without_held};
ghost use Rattle.handle_tests.specs.Hands.{HoldsBeside, HoldsCame, HoldsSlots};

use crate::listed::{Answer, Outcome};
use crate::parts::end_of;
use control_block::desk::Desk;
use control_block::domain::Domain;
use control_block::handles::Held;
use shared_handle::{Left, Shared, release, release_weak};

/// What lies in a slot, and stays there.
fn slot_at(slots: &[Option<Held>], at: usize) -> Option<&Held>
    ensures { IfSome result (λ h. slice_get slots.now at ≡ Some (Some h.now)) }
{
    let Some(slot) = slots.get(at) else {
        return None;
    };
    match slot {
        Some(handle) => Some(handle),
        None => None,
    }
}

/// What lies in a slot goes out of it.
fn empty_out(slots: &mut [Option<Held>], at: usize) -> Option<Held>
    requires { at < length slots.old }
    ensures { (slice_get slots.old at ≡ Some result) × (slots.new ≡ slice_set slots.old at None) }
{
    slots[at].take()
}

/// A handle goes into a slot, and what lay there comes out.
fn fill(slots: &mut [Option<Held>], at: usize, handle: Held) -> Option<Held>
    requires { at < length slots.old }
    ensures { (slice_get slots.old at ≡ Some result) × (slots.new ≡ slice_set slots.old at (Some handle)) }
{
    slots[at].replace(handle)
}

/// The handle in a slot, which stays there, and which the desk holds.
pub(crate) fn held_at<'a>(
    _desk: &Desk<u64>,
    slots: &'a [Option<Held>],
    at: usize,
) -> Option<&'a Held>
    requires { HoldsSlots _desk.now slots.now }
    ensures { IfSome result (λ h. IsHeldByDesk _desk.now h.now) }
{
    match slot_at(slots, at) {
        Some(handle) => Some(handle),
        None => None,
    }
}

/// The owner in a slot.
pub(crate) fn owner_at<'a>(
    desk: &Desk<u64>,
    slots: &'a [Option<Held>],
    at: usize,
) -> Option<&'a Shared>
    requires { HoldsSlots desk.now slots.now }
    ensures { IfSome result (λ h. HoldsHandle desk.now Owner h.now.block h.now.place) }
{
    let Some(handle) = held_at(desk, slots, at) else {
        return None;
    };
    match handle {
        Held::Owner(owner) => Some(owner),
        Held::Weak(_) => None,
    }
}

/// The handle in a slot goes out of it, and the desk holds it still.
pub(crate) fn take(_desk: &Desk<u64>, slots: &mut [Option<Held>], at: usize) -> Option<Held>
    requires { HoldsSlots _desk.now slots.old }
    ensures { MatchOption result (HoldsSlots _desk.now slots.new) (λ h. HoldsBeside _desk.now h slots.new) }
{
    if at >= slots.len() {
        return None;
    }
    empty_out(slots, at)
}

/// A handle goes into a slot, and what lay there comes out; where there is no such slot, the handle itself.
fn put(_desk: &Desk<u64>, slots: &mut [Option<Held>], at: usize, handle: Held) -> Option<Held>
    requires { HoldsBeside _desk.now handle slots.old }
    ensures { MatchOption result (HoldsSlots _desk.now slots.new) (λ h. HoldsBeside _desk.now h slots.new) }
{
    if at >= slots.len() {
        return Some(handle);
    }
    fill(slots, at, handle)
}

/// A handle leaves. Where it was an object's last owner, that ends.
pub(crate) fn leave(domain: &Domain<u64>, desk: &mut Desk<u64>, handle: Held) -> Outcome
    requires domain { Belongs desk.old domain.now }
    requires held { IsHeldByDesk desk.old handle }
    ensures desk { IsSameDesk desk.old desk.new }
    ensures bag { bag_of desk.new ≡ without_held handle (bag_of desk.old) }
    ensures held { desk.new.held + 1 ≡ desk.old.held }
{
    match handle {
        Held::Owner(owner) => match release(domain, desk, owner) {
            Left::Empty => Outcome::Empty,
            Left::Others => Outcome::Others,
            Left::Last(ending) => Outcome::Ended(end_of(domain, desk, ending).3),
        },
        Held::Weak(weak) => {
            let told = match weak.block() {
                None => Outcome::Empty,
                Some(_) => Outcome::Others,
            };
            release_weak(domain, desk, weak);
            told
        }
    }
}

/// A handle leaves, and the others stay in their slots.
#[tactic(auto, using(crate::proofs::Hands::all_less, crate::proofs::Hands::hand_held))]
pub(crate) fn let_go(
    domain: &Domain<u64>,
    desk: &mut Desk<u64>,
    _slots: &[Option<Held>],
    handle: Held,
) -> Outcome
    requires domain { Belongs desk.old domain.now }
    requires holds { HoldsBeside desk.old handle _slots.now }
    ensures desk { IsSameDesk desk.old desk.new }
    ensures holds { HoldsSlots desk.new _slots.now }
{
    leave(domain, desk, handle)
}

/// A handle goes into a slot, and then what lay there leaves.
pub(crate) fn lay(
    domain: &Domain<u64>,
    desk: &mut Desk<u64>,
    slots: &mut [Option<Held>],
    to: usize,
    handle: Held,
)
    requires domain { Belongs desk.old domain.now }
    requires holds { HoldsBeside desk.old handle slots.old }
    ensures desk { IsSameDesk desk.old desk.new }
    ensures holds { HoldsSlots desk.new slots.new }
{
    if let Some(old) = put(desk, slots, to, handle) {
        let_go(domain, desk, slots, old);
    }
}

/// The same of a handle that came, or didn't.
pub(crate) fn arrive(
    domain: &Domain<u64>,
    desk: &mut Desk<u64>,
    slots: &mut [Option<Held>],
    to: usize,
    came: Result<Held, Answer>,
) -> Answer
    requires domain { Belongs desk.old domain.now }
    requires holds { HoldsCame desk.old came slots.old }
    ensures desk { IsSameDesk desk.old desk.new }
    ensures holds { HoldsSlots desk.new slots.new }
{
    match came {
        Ok(handle) => {
            lay(domain, desk, slots, to, handle);
            Answer::Done
        }
        Err(why) => why,
    }
}

/// The end of slots: all handles leave.
pub(crate) fn wind_up(domain: &Domain<u64>, desk: &mut Desk<u64>, slots: Vec<Option<Held>>)
    requires domain { Belongs desk.old domain.now }
    requires holds { HoldsSlots desk.old slots.items }
    ensures { IsSameDesk desk.old desk.new }
{
    let mut slots = slots;
    while let Some(slot) = slots.pop() {
        if let Some(handle) = slot {
            let_go(domain, desk, slots.as_slice(), handle);
        }
    }
    slots.destroy_empty();
}
