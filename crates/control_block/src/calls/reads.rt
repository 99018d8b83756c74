//! Calls that look at what may change of an object.
ghost use Rattle.std.specs.Prelude.{◌≡◌, ◌+◌, ◌<◌, Some};
ghost use Rattle.control_word.specs.declared.model.event.Event.TheVariants.{Count, Expired, Read};
ghost use Rattle.control_word.specs.declared.model.handle.Kind.TheVariants.{Owner, Weak};
ghost use Rattle.control_word.specs.declared.place.Place.{Place};
ghost use Rattle.control_word.specs.State.{count};
ghost use Rattle.control_block.specs.Desks.{Belongs, AddsEvent, HasHandle, allowance_of, bag_of, latest_of};
ghost use Rattle.control_block.specs.Desks.{on_latest, state_of};
ghost use Rattle.control_block.specs.Outcomes.{Outcome};

use crate::desk::Desk;
use crate::domain::Domain;
use crate::steps;
use control_word::{Handle, Place};
use std::marker::Brand;

/// How many owners the object in the block has ([util.smartptr.shared.obs]): for a desk that has the whole allowance
/// the count itself.
pub fn count<V: Drop>(domain: &Domain<V>, desk: &mut Desk<V>, of: Handle) -> u32
    requires domain { Belongs desk.old domain.now }
    requires holds { HasHandle desk.old of.kind of.place of.block.0 }
    ensures event { AddsEvent desk.old (Count (on_latest desk.old of.kind of.place of.block.0) result) desk.new }
    ensures sole { allowance_of desk.new ≡ desk.old.shape.allowance
        → result ≡ count (state_of desk.new) (latest_of desk.old of.block.0) }
    ensures outcome { Outcome desk.old (bag_of desk.old) desk.old.held desk.new }
{
    steps::count::<V, Brand>(&domain.table.shared, &mut desk.seat, of)
}

/// Whether no owner of the object in the block is left ([util.smartptr.weak.obs]).
pub fn is_expired<V: Drop>(domain: &Domain<V>, desk: &mut Desk<V>, of: Handle) -> bool
    requires domain { Belongs desk.old domain.now }
    requires holds { HasHandle desk.old Weak of.place of.block.0 }
    ensures event { AddsEvent desk.old (Expired (on_latest desk.old Weak of.place of.block.0) result) desk.new }
    ensures outcome { Outcome desk.old (bag_of desk.old) desk.old.held desk.new }
{
    steps::is_expired::<V, Brand>(&domain.table.shared, &mut desk.seat, of)
}

/// The field at a place in the object that an owner owns (own).
pub fn read<V: Drop>(domain: &Domain<V>, desk: &mut Desk<V>, place: Place) -> u64
    requires domain { Belongs desk.old domain.now }
    requires holds { HasHandle desk.old Owner (Some place) place.block.0 }
    ensures event { AddsEvent desk.old (Read (on_latest desk.old Owner (Some place) place.block.0) result) desk.new }
    ensures outcome { Outcome desk.old (bag_of desk.old) desk.old.held desk.new }
{
    steps::read::<V, Brand>(&domain.table.shared, &mut desk.seat, place)
}
