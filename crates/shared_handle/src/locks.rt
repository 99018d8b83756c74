//! Owners from weak pointers.
ghost use Rattle.std.specs.Prelude.{◌≡◌, ◌≢◌, ◌↔◌, ◌+◌, cond, is_some, true, IfErr, IfNone, IfOk};
ghost use Rattle.std.specs.Prelude.{IfSome, IsErr, IsNone, OnOk, None};
ghost use Rattle.control_word.specs.declared.model.handle.Kind.TheVariants.{Owner, Weak};
ghost use Rattle.control_block.specs.Desks.{Belongs, Keeps, allowance_of, bag_of, held_of};
ghost use Rattle.control_block.specs.CellCalls.{HoldsHandle, with_handle};
ghost use Rattle.shared_handle.specs.Locks.{HasOwner, IsLockBy, IsOwnerOf, IsUpgrade, LocksHandle, SawNoOwner};

use crate::makes::empty_at;
use crate::pointers::weak_pointer;
use control_block::desk::Desk;
use control_block::domain::Domain;
use control_block::handles::Shared;
use control_block::{handles, lock_calls};
use control_word::{HandleWord, Refusal};
use std::sync::Wait;

/// `lock` ([util.smartptr.weak.obs]): a shared pointer that owns, just where an owner remains at its step, and points
/// where the handle does; else an empty one. Of an empty handle it is empty, and touches no word. Once the desk has
/// seen the object without owner, every later lock of its is empty, and while the desk has an owner of it none is. It
/// tries again while others change the count. It is refused `Limit` just where the desk is at its allowance, and then
/// nothing changes.
#[inline(always)]
pub fn lock<V: Drop, R: Wait>(
    rt: &R,
    domain: &Domain<V>,
    desk: &mut Desk<V>,
    handle: &handles::Weak,
) -> Result<Shared, Refusal>
    requires domain { Belongs desk.old domain.now }
    requires holds { HoldsHandle desk.old Weak handle.now.block handle.now.place }
    ensures limit { IsErr result ↔ (held_of desk.old ≡ allowance_of desk.old) }
    ensures refused { IfErr result (λ why. (why ≡ Refusal.Limit) × (desk.new ≡ desk.old)) }
    ensures handle { IfOk result (λ h. IsOwnerOf handle.now.block handle.now.place (is_some h.block) h) }
    ensures lock { IfOk result (λ h. LocksHandle desk.old handle.now.block handle.now.place
        (is_some h.block) desk.new) }
    ensures expired { SawNoOwner desk.old handle.now.block → IfOk result (λ h. h.block ≡ None) }
    ensures owned { HasOwner desk.old handle.now.block → IfOk result (λ h. h.block ≡ handle.now.block) }
    ensures bag { IfOk result (λ h. bag_of desk.new ≡ with_handle Owner h.block h.place (bag_of desk.old)) }
    ensures held { OnOk result (desk.new.held ≡ desk.old.held + 1) }
    ensures holds { IfOk result (λ h. HoldsHandle desk.new Owner h.block h.place) }
    ensures keeps { OnOk result (Keeps desk.old desk.new) }
{
    let Some(of) = weak_pointer(handle) else {
        return empty_at(desk, HandleWord::of(None, None));
    };
    match lock_calls::lock(rt, domain, desk, of, handle.word())? {
        Some(owner) => Ok(owner),
        None => {
            let Ok(nothing) = empty_at(desk, HandleWord::of(None, None)) else {
                unreachable!()
            };
            Ok(nothing)
        }
    }
}

/// One try at a lock, which waits for nobody: an owner that points where the handle does, just where one remains at its
/// step ([util.smartptr.weak.obs]). It answers nothing where others changed the count of owners meanwhile, where the
/// desk is at its allowance, and of an empty handle; then nothing changes.
#[inline(always)]
pub fn lock_once<V: Drop>(
    domain: &Domain<V>,
    desk: &mut Desk<V>,
    handle: &handles::Weak,
) -> Option<Option<Shared>>
    requires domain { Belongs desk.old domain.now }
    requires holds { HoldsHandle desk.old Weak handle.now.block handle.now.place }
    ensures limit { held_of desk.old ≡ allowance_of desk.old → IsNone result }
    ensures missed { IfNone result (desk.new ≡ desk.old) }
    ensures handle { IfSome result
        (λ r. IfSome r (λ h. (h.block ≡ handle.now.block) × (h.place ≡ handle.now.place))) }
    ensures lock { IfSome result
        (λ r. IsLockBy desk.old handle.now.block handle.now.place (is_some r) desk.new) }
    ensures expired { SawNoOwner desk.old handle.now.block → IfSome result (λ r. r ≡ None) }
    ensures owned { HasOwner desk.old handle.now.block → IfSome result (λ r. is_some r ≡ true) }
    ensures bag { IfSome result (λ r. IfSome r (λ h.
        bag_of desk.new ≡ with_handle Owner h.block h.place (bag_of desk.old))) }
    ensures none { IfSome result (λ r. IfNone r (bag_of desk.new ≡ bag_of desk.old)) }
    ensures held { IfSome result (λ r. desk.new.held ≡ desk.old.held + cond (is_some r) 1 0) }
    ensures holds { IfSome result (λ r. IfSome r (λ h. HoldsHandle desk.new Owner h.block h.place)) }
    ensures keeps { IfSome result (λ _. Keeps desk.old desk.new) }
{
    let Some(of) = weak_pointer(handle) else {
        return None;
    };
    lock_calls::lock_once(domain, desk, of, handle.word())
}

/// The constructor from a weak pointer ([util.smartptr.shared.const]): a shared pointer that owns, and points where the
/// handle does. It is refused `Limit` just where the desk is at its allowance, and else `BadWeak` just where the handle
/// is empty or no owner remains at its step ([util.smartptr.weak.bad]); then bag and number of handles are as they
/// were.
#[inline(always)]
pub fn upgrade<V: Drop, R: Wait>(
    rt: &R,
    domain: &Domain<V>,
    desk: &mut Desk<V>,
    handle: &handles::Weak,
) -> Result<Shared, Refusal>
    requires domain { Belongs desk.old domain.now }
    requires holds { HoldsHandle desk.old Weak handle.now.block handle.now.place }
    ensures upgrade { IsUpgrade desk.old handle.now.block handle.now.place result desk.new }
    ensures below { OnOk result (held_of desk.old ≢ allowance_of desk.old) }
    ensures expired { SawNoOwner desk.old handle.now.block → IsErr result }
    ensures owned { HasOwner desk.old handle.now.block → IfErr result (λ why. why ≡ Refusal.Limit) }
    ensures bag { IfOk result (λ h. bag_of desk.new ≡ with_handle Owner h.block h.place (bag_of desk.old)) }
    ensures held { OnOk result (desk.new.held ≡ desk.old.held + 1) }
    ensures holds { IfOk result (λ h. HoldsHandle desk.new Owner h.block h.place) }
    ensures refused { IfErr result (λ _. (bag_of desk.new ≡ bag_of desk.old) × (desk.new.held ≡ desk.old.held)) }
    ensures keeps { Keeps desk.old desk.new }
{
    if desk.held() == desk.allowance() {
        return Err(Refusal::Limit);
    }
    let Some(of) = weak_pointer(handle) else {
        return Err(Refusal::BadWeak);
    };
    match lock_calls::lock(rt, domain, desk, of, handle.word())? {
        Some(owner) => Ok(owner),
        None => Err(Refusal::BadWeak),
    }
}
