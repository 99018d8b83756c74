//! Lock: an owner from a weak handle, where one remains.
ghost use Rattle.std.specs.Prelude.{◌≡◌, ◌<◌, IfNone, IfSome};
ghost use Rattle.control_word.specs.Handles.{weak_of};
ghost use Rattle.control_word.specs.Layout.{spot};
ghost use Rattle.control_word.specs.declared.model.event.Event.TheVariants.{Lock};
ghost use Rattle.control_word.specs.declared.model.handle.Kind.TheVariants.{Weak};
ghost use Rattle.control_block.specs.StepKinds.{HasRoomFor, HoldingInBlock, Rests, tells};
ghost use Rattle.control_block.specs.LockStepKinds.{GotOwner};

use crate::pause::Pause;
use crate::step_kinds::StepArgs;
use crate::step_kinds::locks::{Locks, SeeksOwner};
use crate::steps::words;
use crate::table::{Seat, Table};
use control_word::Handle;
use control_word::packed::counts::ONE_FUNDED;
use control_word::packed::layout::{OWNERS, block_word};
use std::sync::Wait;

/// One try at a lock: an owner from a weak handle that the desk holds, just where one remains at its step
/// ([util.smartptr.weak.obs]). It answers none where others changed the owner word meanwhile, and then nothing changes.
#[inline(always)]
pub fn lock_once<V, M: StepArgs>(table: &Table<V>, seat: &mut Seat<V>, of: Handle) -> Option<bool>
    requires table { seat.old.table_id ≡ table.now.table_id }
    requires rests { Rests seat.old.me }
    requires word { (0 < of.block.0) × (spot of.block.0 0 < table.now.table_id.words) }
    requires holds { HoldingInBlock seat.old.me.0 Weak M.object M.place of.block.0 }
    requires room { HasRoomFor seat.old.me.0 }
    ensures seat { (seat.new.table_id ≡ seat.old.table_id) × (seat.new.id ≡ seat.old.id)
        × (seat.new.me.1 ≡ seat.old.me.1) }
    ensures event { IfSome result
        (λ got. tells (Lock (weak_of M.object M.place) got) seat.old.me.0 seat.new.me.0) }
    ensures owner { IfSome result (λ got. GotOwner M.object got seat.new.me.0) }
    ensures missed { IfNone result (seat.new.me ≡ seat.old.me) }
{
    let word = block_word(of.block, OWNERS);
    let found = words::load::<V, SeeksOwner<M>>(table, seat, word);
    if found == 0 {
        return Some(false);
    }
    // A word that isn't 0 has room for an owner more and its funds, as its halves have bounds.
    let more = found + ONE_FUNDED;
    if words::compare_exchange::<V, Locks<M>>(table, seat, word, found, more) == found {
        return Some(true);
    }
    None
}

/// Lock: an owner from a weak handle that the desk holds, just where one remains at its step
/// ([util.smartptr.weak.obs]). It tries again while it finds the owner word changed by others.
#[inline(always)]
pub fn lock<V, M: StepArgs, R: Wait>(
    rt: &R,
    table: &Table<V>,
    seat: &mut Seat<V>,
    of: Handle,
) -> bool
    requires table { seat.old.table_id ≡ table.now.table_id }
    requires rests { Rests seat.old.me }
    requires word { (0 < of.block.0) × (spot of.block.0 0 < table.now.table_id.words) }
    requires holds { HoldingInBlock seat.old.me.0 Weak M.object M.place of.block.0 }
    requires room { HasRoomFor seat.old.me.0 }
    ensures seat { (seat.new.table_id ≡ seat.old.table_id) × (seat.new.id ≡ seat.old.id)
        × (seat.new.me.1 ≡ seat.old.me.1) }
    ensures event { tells (Lock (weak_of M.object M.place) result) seat.old.me.0 seat.new.me.0 }
    ensures owner { GotOwner M.object result seat.new.me.0 }
{
    let mut pause = Pause::new();
    for _ in rt.forever() {
        match lock_once::<V, M>(table, seat, of) {
            Some(got) => return got,
            None => pause.wait(),
        }
    }
    unreachable!()
}
