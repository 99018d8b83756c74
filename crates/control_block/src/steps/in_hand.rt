//! What a desk does with the slot in its hand, which is that of a block.
ghost use Rattle.std.specs.Prelude.{◌≡◌, ◌-◌, ◌<◌, [], ◌∷◌, None, Some};
ghost use Rattle.std.specs.Fn.{FnOnceReturnsAtMut};

use crate::in_place::InPlace;
use crate::table::{Seat, Table};
use control_word::Block;

/// The value of an object that is made goes into the block's vacant cell.
#[inline(always)]
pub fn fill<V: Drop>(table: &Table<V>, seat: &mut Seat<V>, block: Block, value: V)
    requires table { seat.old.table_id ≡ table.now.table_id }
    requires hand { (0 < block.0) × (seat.old.me.1 ≡ (block.0 - 1, None) ∷ []) }
    ensures seat { (seat.new.table_id ≡ seat.old.table_id) × (seat.new.id ≡ seat.old.id) }
    ensures filled { seat.new.me ≡ (seat.old.me.0, (block.0 - 1, Some value) ∷ []) }
{
    let slot = seat.slot_mut(table, block.number() as usize - 1);
    slot.fill(value);
}

/// What is known of the value of an object that begins to end, which stays in the block's cell.
pub fn remember<V: Drop>(table: &Table<V>, seat: &mut Seat<V>, block: Block) -> InPlace<V>
    requires table { seat.old.table_id ≡ table.now.table_id }
    requires hand { (0 < block.0) × (x : V) × (seat.old.me.1 ≡ (block.0 - 1, Some x) ∷ []) }
    ensures seat { (seat.new.table_id ≡ seat.old.table_id) × (seat.new.id ≡ seat.old.id) }
    ensures same { seat.new.me ≡ seat.old.me }
    ensures value { seat.old.me.1 ≡ (block.0 - 1, Some result) ∷ [] }
{
    let slot = seat.slot_mut(table, block.number() as usize - 1);
    slot.remember()
}

/// The value of an object that has ended comes out of the block's cell.
#[inline(always)]
pub fn take<V: Drop>(table: &Table<V>, seat: &mut Seat<V>, block: Block) -> V
    requires table { seat.old.table_id ≡ table.now.table_id }
    requires hand { (0 < block.0) × (x : V) × (seat.old.me.1 ≡ (block.0 - 1, Some x) ∷ []) }
    ensures seat { (seat.new.table_id ≡ seat.old.table_id) × (seat.new.id ≡ seat.old.id) }
    ensures value { seat.old.me.1 ≡ (block.0 - 1, Some result) ∷ [] }
    ensures emptied { seat.new.me ≡ (seat.old.me.0, (block.0 - 1, None) ∷ []) }
{
    let slot = seat.slot_mut(table, block.number() as usize - 1);
    slot.take()
}

/// The value of the object in the block is worked on where it is.
pub fn visit<V: Drop, R, F: FnOnce(&mut V) -> R>(
    table: &Table<V>,
    seat: &mut Seat<V>,
    block: Block,
    f: F,
) -> R
    requires table { seat.old.table_id ≡ table.now.table_id }
    requires hand { (0 < block.0) × (x : V) × (seat.old.me.1 ≡ (block.0 - 1, Some x) ∷ []) }
    requires callable { F.IsAlwaysCallable f }
    ensures seat { (seat.new.table_id ≡ seat.old.table_id) × (seat.new.id ≡ seat.old.id) }
    ensures visited { (was : V) × (becomes : V) × (seat.old.me.1 ≡ (block.0 - 1, Some was) ∷ [])
        × FnOnceReturnsAtMut F.FnOnce f was result becomes
        × (seat.new.me ≡ (seat.old.me.0, (block.0 - 1, Some becomes) ∷ [])) }
{
    let slot = seat.slot_mut(table, block.number() as usize - 1);
    slot.visit(f)
}
