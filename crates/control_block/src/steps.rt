//! Each kind of step, as a function. Objects go by numbers, which the proof of a call picks; words are their blocks'.
ghost use Rattle.std.specs.Prelude.{◌≡◌, ◌+◌, ◌<◌, ◌≤◌, ◌==◌, [], Some};
ghost use Rattle.control_word.specs.Histories.{value};
ghost use Rattle.control_block.specs.Rule.{opening_of};
ghost use Rattle.control_word.specs.Handles.{IsPointer, handle, owner, weak_of};
ghost use Rattle.control_word.specs.Layout.{spot};
ghost use Rattle.control_word.specs.State.{count};
ghost use Rattle.control_word.specs.declared.model.event.Event.TheVariants.{Count, Expired, Finish, Read, Share};
ghost use Rattle.control_word.specs.declared.model.event.Event.TheVariants.{WeakShare};
ghost use Rattle.control_word.specs.declared.model.handle.Kind.TheVariants.{Owner, Weak};
ghost use Rattle.control_block.specs.StepKinds.{tells, known, Ends, Rests, HoldingInBlock, HasRoomFor, IsClear};
ghost use Rattle.control_block.specs.StepKinds.{IsNearObject, IsTold};
ghost use Rattle.control_block.specs.StepKinds.{MayShareWeakly};

pub mod cells;
pub mod clears;
pub mod doors;
pub mod funds;
pub mod in_hand;
pub mod leaves;
pub mod locks;
pub mod makes;
pub mod observation;
pub mod seats;
pub mod shelf;
pub mod summary;
mod words;

use crate::handles::{self, Shared};
use crate::step_kinds::{
    Counts, Fetches, FindsExpired, FindsFinished, Finishes, Peeks, Reads, Shares, StepArgs,
    WeakShares,
};
use crate::table::{Seat, Table};
use control_word::packed::counts::{ONE_FUNDED, use_count_of};
use control_word::packed::layout::{FIELDS, FLAGS, OWNERS, WEAKS, block_word};
use control_word::{Block, Handle, HandleWord, Place};
pub use makes::make;

/// Share: one owner more, with its funds, under an owner that the desk holds ([util.smartptr.shared.const]).
pub fn share<V, M: StepArgs>(
    table: &Table<V>,
    seat: &mut Seat<V>,
    of: Handle,
    wanted: HandleWord,
) -> Shared
    requires table { seat.old.table_id ≡ table.now.table_id }
    requires rests { Rests seat.old.me }
    requires word { (0 < of.block.0) × (spot of.block.0 0 < table.now.table_id.words) }
    requires holds { HoldingInBlock seat.old.me.0 Owner M.object M.place of.block.0 }
    requires block { wanted.block ≡ Some of.block }
    requires wanted { IsPointer M.wanted }
    requires room { HasRoomFor seat.old.me.0 }
    ensures seat { (seat.new.table_id ≡ seat.old.table_id) × (seat.new.id ≡ seat.old.id)
        × (seat.new.me.1 ≡ seat.old.me.1) }
    ensures handle { (result.block ≡ Some of.block) × (result.place ≡ wanted.place) }
    ensures event { tells (Share (owner M.object M.place) M.wanted) seat.old.me.0 seat.new.me.0 }
{
    words::fetch_add::<V, Shares<M>>(table, seat, block_word(of.block, OWNERS), ONE_FUNDED);
    Shared::of_word(wanted)
}

/// Weak share: one weak handle more, with its funds, under a handle of the desk or an ending
/// ([util.smartptr.weak.const], [util.smartptr.enab]).
pub fn share_weak<V, M: StepArgs>(
    table: &Table<V>,
    seat: &mut Seat<V>,
    block: Block,
    wanted: HandleWord,
) -> handles::Weak
    requires table { seat.old.table_id ≡ table.now.table_id }
    requires rests { Rests seat.old.me }
    requires word { (0 < block.0) × (spot block.0 1 < table.now.table_id.words) }
    requires block { wanted.block ≡ Some block }
    requires may { MayShareWeakly seat.old.me.0 M.object block.0 M.wanted }
    requires room { HasRoomFor seat.old.me.0 }
    ensures seat { (seat.new.table_id ≡ seat.old.table_id) × (seat.new.id ≡ seat.old.id)
        × (seat.new.me.1 ≡ seat.old.me.1) }
    ensures handle { (result.block ≡ Some block) × (result.place ≡ wanted.place) }
    ensures event { tells (WeakShare M.object M.wanted) seat.old.me.0 seat.new.me.0 }
{
    words::fetch_add::<V, WeakShares<M>>(table, seat, block_word(block, WEAKS), ONE_FUNDED);
    handles::Weak::of_word(wanted)
}

/// Look: `use_count` ([util.smartptr.shared.obs]): the count, for a desk with the whole allowance; else 0 just at none,
/// or less.
pub fn count<V, M: StepArgs>(table: &Table<V>, seat: &mut Seat<V>, of: Handle) -> u32
    requires table { seat.old.table_id ≡ table.now.table_id }
    requires rests { Rests seat.old.me }
    requires word { (0 < of.block.0) × (spot of.block.0 0 < table.now.table_id.words) }
    requires holds { HoldingInBlock seat.old.me.0 M.kind M.object M.place of.block.0 }
    ensures seat { (seat.new.table_id ≡ seat.old.table_id) × (seat.new.id ≡ seat.old.id)
        × (seat.new.me.1 ≡ seat.old.me.1) }
    ensures event { tells (Count (handle M.kind (Some M.object) M.place) result) seat.old.me.0 seat.new.me.0 }
    ensures sole { (known seat.new.me.0).allowance seat.old.me.0.view.name ≡ seat.old.me.0.shape.allowance
        → result ≡ count (known seat.new.me.0) M.object }
{
    use_count_of(words::load::<V, Counts<M>>(table, seat, block_word(of.block, OWNERS)))
}

/// Look: whether no owner is left ([util.smartptr.weak.obs]).
pub fn is_expired<V, M: StepArgs>(table: &Table<V>, seat: &mut Seat<V>, of: Handle) -> bool
    requires table { seat.old.table_id ≡ table.now.table_id }
    requires rests { Rests seat.old.me }
    requires word { (0 < of.block.0) × (spot of.block.0 0 < table.now.table_id.words) }
    requires holds { HoldingInBlock seat.old.me.0 Weak M.object M.place of.block.0 }
    ensures seat { (seat.new.table_id ≡ seat.old.table_id) × (seat.new.id ≡ seat.old.id)
        × (seat.new.me.1 ≡ seat.old.me.1) }
    ensures event { tells (Expired (weak_of M.object M.place) result) seat.old.me.0 seat.new.me.0 }
{
    words::load::<V, FindsExpired<M>>(table, seat, block_word(of.block, OWNERS)) == 0
}

/// Look: the field at a place in the object that an owner owns (own).
pub fn read<V, M: StepArgs>(table: &Table<V>, seat: &mut Seat<V>, place: Place) -> u64
    requires table { seat.old.table_id ≡ table.now.table_id }
    requires rests { Rests seat.old.me }
    requires word { (0 < place.block.0) × (place.field < 4)
        × (spot place.block.0 (3 + place.field) < table.now.table_id.words) }
    requires place { M.place ≡ Some place }
    requires holds { HoldingInBlock seat.old.me.0 Owner M.object M.place place.block.0 }
    ensures seat { (seat.new.table_id ≡ seat.old.table_id) × (seat.new.id ≡ seat.old.id)
        × (seat.new.me.1 ≡ seat.old.me.1) }
    ensures event { tells (Read (owner M.object M.place) result) seat.old.me.0 seat.new.me.0 }
{
    let word = FIELDS + usize::from(place.field);
    words::load::<V, Reads<M>>(table, seat, block_word(place.block, word))
}

/// Look, which is no event (own): the flags, as word 0, or a field, as words 1 to 4, of an object that the desk has a
/// handle of, or that ends in its hands. They never change, so the desk learns nothing else.
pub fn peek<V, M: StepArgs>(table: &Table<V>, seat: &mut Seat<V>, block: Block, word: usize) -> u64
    requires table { seat.old.table_id ≡ table.now.table_id }
    requires rests { Rests seat.old.me }
    requires word { (0 < block.0) × (word < 5) × (M.word ≡ word)
        × (spot block.0 (2 + word) < table.now.table_id.words) }
    requires near { IsNearObject seat.old.me.0 M.object block.0 }
    ensures seat { (seat.new.table_id ≡ seat.old.table_id) × (seat.new.id ≡ seat.old.id)
        × (seat.new.me ≡ seat.old.me) }
    ensures told { IsTold word ((known seat.old.me.0).object M.object) result }
{
    words::load::<V, Peeks<M>>(table, seat, block_word(block, FLAGS + word))
}

/// Finish: the value of an object that has ended comes out of its cell, and the ending gives up the owners' common weak
/// count (own). It answers the value, and whether the block is vacant now. Where a look finds that count alone and no
/// funds, nobody can add to it any more: the look is the event, and the word keeps its 1 for the block's next object.
#[inline(always)]
pub fn finish<V: Drop, M: StepArgs>(table: &Table<V>, seat: &mut Seat<V>, block: Block) -> (V, bool)
    requires table { seat.old.table_id ≡ table.now.table_id }
    requires rests { Rests seat.old.me }
    requires word { (0 < block.0) × (block.0 ≤ table.now.table_id.slots)
        × (spot block.0 1 < table.now.table_id.words) }
    requires ends { (M.block ≡ block) × Ends seat.old.me.0 M.object block.0 }
    requires clear { IsClear seat.old.me.0 M.object }
    requires value { (x : V) × (value (opening_of seat.old.me.0.shape) seat.old.me.0.view.seen M.object ≡ Some x) }
    ensures seat { (seat.new.table_id ≡ seat.old.table_id) × (seat.new.id ≡ seat.old.id)
        × (seat.new.me.1 ≡ []) }
    ensures value { value (opening_of seat.old.me.0.shape) seat.old.me.0.view.seen M.object ≡ Some result.0 }
    ensures event { (x : V) → value (opening_of seat.old.me.0.shape) seat.old.me.0.view.seen M.object ≡ Some x
        → tells (Finish M.object result.1 x) seat.old.me.0 seat.new.me.0 }
{
    let word = block_word(block, WEAKS);
    words::load::<V, Fetches<M>>(table, seat, word);
    let value = in_hand::take(table, seat, block);
    let found = words::load::<V, FindsFinished<M>>(table, seat, word);
    if found == 1 {
        return (value, true);
    }
    let found = words::fetch_sub::<V, Finishes<M>>(table, seat, word, 1);
    (value, found == 1)
}
