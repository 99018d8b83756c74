//! Calls that make one handle more.
ghost use Rattle.std.specs.Prelude.{◌≡◌, ◌↔◌, ◌+◌, ◌<◌, ◌∷◌, Option, Some, IfOk, IfErr, OnOk};
ghost use Rattle.std.specs.Prelude.{IsErr};
ghost use Rattle.control_word.specs.Handles.{handle};
ghost use Rattle.control_word.specs.declared.model.event.Event.TheVariants.{Share, WeakShare};
ghost use Rattle.control_word.specs.declared.model.handle.Kind.TheVariants.{Owner, Weak};
ghost use Rattle.control_word.specs.declared.place.Place.{Place};
ghost use Rattle.control_block.specs.Desks.{Belongs, AddsEvent, HasHandle, Keeps, MayGiveWeak, MayPoint, allowance_of};
ghost use Rattle.control_block.specs.Desks.{bag_of, held_of, latest_of, on_latest};

use crate::desk::Desk;
use crate::domain::Domain;
use crate::handles::Shared;
use crate::{handles, steps};
use control_word::{Block, Handle, HandleWord, Refusal};
use std::marker::Brand;

/// One owner more of the object in the block, with this word, under an owner that the desk holds
/// ([util.smartptr.shared.const]). It is
/// refused `Limit` just where the desk is at its allowance, and then nothing changes.
pub fn share<V: Drop>(
    domain: &Domain<V>,
    desk: &mut Desk<V>,
    of: Handle,
    wanted: HandleWord,
) -> Result<Shared, Refusal>
    requires domain { Belongs desk.old domain.now }
    requires holds { HasHandle desk.old Owner of.place of.block.0 }
    requires block { wanted.block ≡ Some of.block }
    requires wanted { MayPoint of.place of.block.0 wanted.place }
    ensures limit { IsErr result ↔ (held_of desk.old ≡ allowance_of desk.old) }
    ensures refused { IfErr result (λ why. (why ≡ Refusal.Limit) × (desk.new ≡ desk.old)) }
    ensures handle { IfOk result (λ h. (h.block ≡ Some of.block) × (h.place ≡ wanted.place)) }
    ensures event { OnOk result
        (AddsEvent desk.old (Share (on_latest desk.old Owner of.place of.block.0) wanted.place) desk.new) }
    ensures bag { OnOk result (bag_of desk.new ≡ handle Owner (Some of.block.0) wanted.place ∷ bag_of desk.old) }
    ensures held { OnOk result (desk.new.held ≡ desk.old.held + 1) }
    ensures keeps { OnOk result (Keeps desk.old desk.new) }
{
    if desk.is_full() {
        return Err(Refusal::Limit);
    }
    desk.held += 1; // here, since each locked instruction that follows waits for what was stored before it
    let shared = steps::share::<V, Brand>(&domain.table.shared, &mut desk.seat, of, wanted);
    Ok(shared)
}

/// One weak handle more of the object in the block, with this word, under a handle that the desk holds or an ending of
/// its ([util.smartptr.weak.const], [util.smartptr.enab]). It is refused `Limit` just where the desk is at its
/// allowance, and then nothing changes.
pub fn share_weak<V: Drop>(
    domain: &Domain<V>,
    desk: &mut Desk<V>,
    block: Block,
    wanted: HandleWord,
) -> Result<handles::Weak, Refusal>
    requires domain { Belongs desk.old domain.now }
    requires block { wanted.block ≡ Some block }
    requires may { MayGiveWeak desk.old block.0 wanted.place }
    ensures limit { IsErr result ↔ (held_of desk.old ≡ allowance_of desk.old) }
    ensures refused { IfErr result (λ why. (why ≡ Refusal.Limit) × (desk.new ≡ desk.old)) }
    ensures handle { IfOk result (λ h. (h.block ≡ Some block) × (h.place ≡ wanted.place)) }
    ensures event { OnOk result (AddsEvent desk.old (WeakShare (latest_of desk.old block.0) wanted.place) desk.new) }
    ensures bag { OnOk result (bag_of desk.new ≡ handle Weak (Some block.0) wanted.place ∷ bag_of desk.old) }
    ensures held { OnOk result (desk.new.held ≡ desk.old.held + 1) }
    ensures keeps { OnOk result (Keeps desk.old desk.new) }
{
    if desk.is_full() {
        return Err(Refusal::Limit);
    }
    desk.held += 1; // here, since each locked instruction that follows waits for what was stored before it
    let weak = steps::share_weak::<V, Brand>(&domain.table.shared, &mut desk.seat, block, wanted);
    Ok(weak)
}
