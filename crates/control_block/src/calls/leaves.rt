//! Calls by which handles leave, and objects end.
ghost use Rattle.std.specs.Prelude.{◌≡◌, ℕ, ◌+◌, ◌<◌, true, [], ◌∷◌, ◌++◌, cond, length};
ghost use Rattle.std.specs.Prelude.{vec_capacity, vec_len};
ghost use Rattle.std.specs.Prelude.{Some, is_some, IfSome};
ghost use Rattle.control_word.specs.declared.model.event.Event.TheVariants.{Finish};
ghost use Rattle.control_block.specs.CellCalls.{without_handle};
ghost use Rattle.control_block.specs.Clearing.{Lets};
ghost use Rattle.control_block.specs.Desks.{Belongs, AddsEvent, HasHandle, IsCleared, IsEnding, IsSameDesk};
ghost use Rattle.control_block.specs.Desks.{KeepsEndings, KeepsOtherEndings, bag_of, endings_of, latest_of, stock_of};
ghost use Rattle.control_block.specs.Leaving.{freed};
ghost use Rattle.control_block.specs.Rule.{members_of};

use crate::desk::Desk;
use crate::domain::Domain;
use crate::released::Released;
use crate::steps::{self, leaves};
use control_word::shape::CELL_FUNDS;
use control_word::{Block, Handle, PackedCell};
use std::alloc::Global;
use std::marker::Brand;

/// A handle leaves. Where it was an object's last owner ([util.smartptr.shared.dest]), the object's value is released,
/// and ends in the desk's hands, where it stays in its cell; a block that is vacant now ([util.smartptr.weak.dest]) is
/// in the desk's store.
#[inline(always)]
pub fn leave<V: Drop>(domain: &Domain<V>, desk: &mut Desk<V>, of: Handle) -> Released<V>
    requires domain { Belongs desk.old domain.now }
    requires holds { HasHandle desk.old of.kind of.place of.block.0 }
    ensures left { Lets of.kind desk.old (Some of.block) of.place result desk.new }
    ensures bag { bag_of desk.new ≡ without_handle of.kind (Some of.block) of.place (bag_of desk.old) }
    ensures held { desk.new.held + 1 ≡ desk.old.held }
    ensures desk { IsSameDesk desk.old desk.new }
    ensures stock { length (stock_of desk.new) ≡ length (stock_of desk.old) + cond result.vacant 1 0 }
    ensures endings { KeepsEndings desk.old desk.new }
    ensures count { endings_of desk.new ≡ endings_of desk.old + cond (is_some result.value) 1 0 }
{
    let released = leaves::leave::<V, Brand>(&domain.table.shared, &mut desk.seat, of, CELL_FUNDS);
    desk.held -= 1;
    desk.endings += u32::from(released.value.is_some());
    put_by(&mut desk.store, of.block, released.vacant);
    released
}

/// An object that ends in the desk's hands is gone, and its value comes out (own). It says whether the block is vacant
/// now, and in the desk's store.
#[inline(always)]
pub fn finish<V: Drop>(domain: &Domain<V>, desk: &mut Desk<V>, block: Block) -> (V, bool)
    requires domain { Belongs desk.old domain.now }
    requires ending { (x : V) × IsEnding desk.old block.0 x }
    requires clear { (m : ℕ) → m < members_of desk.old.shape → IsCleared desk.old block.0 m }
    ensures value { (x : V) → IsEnding desk.old block.0 x → result.0 ≡ x }
    ensures event { (x : V) → IsEnding desk.old block.0 x
        → AddsEvent desk.old (Finish (latest_of desk.old block.0) result.1 x) desk.new }
    ensures bag { bag_of desk.new ≡ bag_of desk.old }
    ensures held { desk.new.held ≡ desk.old.held }
    ensures desk { IsSameDesk desk.old desk.new }
    ensures stock { length (stock_of desk.new) ≡ length (stock_of desk.old) + cond result.1 1 0 }
    ensures endings { KeepsOtherEndings desk.old block.0 desk.new }
    ensures count { endings_of desk.new + 1 ≡ endings_of desk.old }
{
    let (value, vacant) = steps::finish::<V, Brand>(&domain.table.shared, &mut desk.seat, block);
    desk.endings -= 1;
    put_by(&mut desk.store, block, vacant);
    (value, vacant)
}

/// A block that is vacant goes to the store.
pub(crate) fn put_by(store: &mut Vec<Block, Global>, block: Block, vacant: bool)
    requires room { vacant ≡ true → vec_len store.old < vec_capacity store.old }
    ensures items { store.new.items ≡ store.old.items ++ cond vacant (block ∷ []) [] }
    ensures capacity { vec_capacity store.new ≡ vec_capacity store.old }
{
    if vacant {
        store.push_reserved(block);
    }
}

/// The same of the block of what came out of a cell, if it has one.
pub(crate) fn put_by_out(store: &mut Vec<Block, Global>, out: PackedCell, vacant: bool)
    requires room { vacant ≡ true → IfSome out.owned (λ _. vec_len store.old < vec_capacity store.old) }
    ensures items { store.new.items ≡ store.old.items ++ freed out.owned vacant }
    ensures capacity { vec_capacity store.new ≡ vec_capacity store.old }
{
    let Some(block) = out.owned() else {
        return;
    };
    put_by(store, block, vacant);
}
