//! Visits: work on the value of an object, through an owner of it.
ghost use Rattle.std.specs.Prelude.{◌≡◌};
ghost use Rattle.std.specs.Fn.{FnOnceReturnsAtMut};
ghost use Rattle.control_word.specs.declared.model.event.Event.TheVariants.{Visit};
ghost use Rattle.control_word.specs.declared.model.handle.Kind.TheVariants.{Owner};
ghost use Rattle.control_block.specs.Desks.{Belongs, AddsEvent, HasHandle, bag_of, on_latest};
ghost use Rattle.control_block.specs.Outcomes.{Outcome};

use crate::desk::Desk;
use crate::domain::Domain;
use crate::steps::{doors, in_hand};
use control_word::Handle;
use std::marker::Brand;
use std::sync::Wait;

/// The value of the object in the block is worked on (own). No other desk has it meanwhile: one that wants it waits.
pub fn visit<V: Drop, R, F: FnOnce(&mut V) -> R, W: Wait>(
    rt: &W,
    domain: &Domain<V>,
    desk: &mut Desk<V>,
    of: Handle,
    f: F,
) -> R
    requires domain { Belongs desk.old domain.now }
    requires holds { HasHandle desk.old Owner of.place of.block.0 }
    requires callable { F.IsAlwaysCallable f }
    ensures event { (was : V) × (becomes : V) × FnOnceReturnsAtMut F.FnOnce f was result becomes
        × AddsEvent desk.old (Visit (on_latest desk.old Owner of.place of.block.0) was becomes) desk.new }
    ensures outcome { Outcome desk.old (bag_of desk.old) desk.old.held desk.new }
{
    let table = &domain.table.shared;
    doors::shut::<V, Brand, W>(rt, table, &mut desk.seat, of);
    let answer = in_hand::visit(table, &mut desk.seat, of.block, f);
    doors::open::<V, Brand>(table, &mut desk.seat, of.block);
    answer
}
