//! The steps of a make: a vacant block is prepared, and claimed.
ghost use Rattle.std.specs.Prelude.{◌≡◌, ℕ, ◌+◌, ◌<◌, false, List, [], ◌∷◌, length, slice_set};
ghost use Rattle.std.specs.Prelude.{Option, None, Some};
ghost use Rattle.control_word.specs.Histories.{value};
ghost use Rattle.control_word.specs.Layout.{spot};
ghost use Rattle.control_word.specs.State.{Has, stored};
ghost use Rattle.control_word.specs.Words.{flags_of};
ghost use Rattle.control_word.specs.declared.model.event.Event.TheVariants.{Make};
ghost use Rattle.control_block.specs.StepKinds.{tells, known, Rests, HasRoomFor, IsPrepared};
ghost use Rattle.control_block.specs.declared.table.SeatView.{SeatView};

use crate::step_kinds::{Begins, Claims, FindsBegun, MakeArgs, StepArgs, Writes};
use crate::steps::{in_hand, words};
use crate::table::{Seat, Table};
use control_word::Block;
use control_word::packed::counts::ONE_FUNDED;
use control_word::packed::layout::{ENABLED, FLAGS, NULL, OWNERS, WEAKS, block_word};
use std::marker::Brand;

/// The first write of a make: the weak word of an own vacant block becomes 1, and its empty slot is in hand. Where the
/// word kept the 1 of the block's last object it is only looked at.
#[inline(always)]
fn begin<V, M: StepArgs>(table: &Table<V>, seat: &mut Seat<V>, block: Block)
    requires table { seat.old.table_id ≡ table.now.table_id }
    requires rests { Rests seat.old.me }
    requires word { (0 < block.0) × (spot block.0 1 < table.now.table_id.words) }
    requires stored { (M.block ≡ block) × Has (stored seat.old.me.0.view.name block.0)
        (known seat.old.me.0).stores }
    ensures seat { (seat.new.table_id ≡ seat.old.table_id) × (seat.new.id ≡ seat.old.id) }
    ensures prepared { (l : List ℕ) × IsPrepared seat.old.me.0 block seat.new.me l None }
{
    let word = block_word(block, WEAKS);
    if words::load::<V, FindsBegun<M>>(table, seat, word) != 1 {
        words::store::<V, Begins<M>>(table, seat, word, 1);
    }
}

/// A further write of a make: flags are word 0, fields words 1 to 4. A word that has its value is only looked at.
#[inline(always)]
fn write<V, M: StepArgs>(
    table: &Table<V>,
    seat: &mut Seat<V>,
    block: Block,
    word: usize,
    value: u64,
)
    requires table { seat.old.table_id ≡ table.now.table_id }
    requires word { (0 < block.0) × (spot block.0 9 < table.now.table_id.words) × (word < 5) }
    requires meant { (M.block ≡ block) × (M.word ≡ word) }
    requires prepared { (v : SeatView V) × (l : List ℕ) × (x : Option V) × (v.view.spent ≡ false)
        × IsPrepared v block seat.old.me l x }
    ensures seat { (seat.new.table_id ≡ seat.old.table_id) × (seat.new.id ≡ seat.old.id) }
    ensures wrote { (v : SeatView V) (l : List ℕ) (x : Option V) → v.view.spent ≡ false
        → IsPrepared v block seat.old.me l x → IsPrepared v block seat.new.me (slice_set l word value) x }
{
    let place = block_word(block, FLAGS + word);
    if words::load::<V, Writes<M>>(table, seat, place) != value {
        words::store::<V, Writes<M>>(table, seat, place, value);
    }
}

/// All writes of a make before its claim.
#[inline(always)]
fn prepare<V>(table: &Table<V>, seat: &mut Seat<V>, block: Block, flags: u64, fields: [u64; 4])
    requires sized { length fields ≡ 4 }
    requires table { seat.old.table_id ≡ table.now.table_id }
    requires rests { Rests seat.old.me }
    requires word { (0 < block.0) × (spot block.0 9 < table.now.table_id.words) }
    requires stored { Has (stored seat.old.me.0.view.name block.0) (known seat.old.me.0).stores }
    ensures seat { (seat.new.table_id ≡ seat.old.table_id) × (seat.new.id ≡ seat.old.id) }
    ensures prepared { IsPrepared seat.old.me.0 block seat.new.me (flags ∷ fields) None }
{
    begin::<V, Brand>(table, seat, block);
    write::<V, Brand>(table, seat, block, 0, flags);
    write::<V, Brand>(table, seat, block, 1, fields[0]);
    write::<V, Brand>(table, seat, block, 2, fields[1]);
    write::<V, Brand>(table, seat, block, 3, fields[2]);
    write::<V, Brand>(table, seat, block, 4, fields[3]);
}

/// The claim: a prepared block with a value in its slot becomes an object with one owner.
#[inline(always)]
fn claim<V, M: MakeArgs>(table: &Table<V>, seat: &mut Seat<V>, block: Block)
    requires table { seat.old.table_id ≡ table.now.table_id }
    requires word { (0 < block.0) × (spot block.0 0 < table.now.table_id.words) }
    requires planned { (M.block ≡ block) × (length M.fields ≡ 4) }
    requires prepared { (v : SeatView V) × (x : V) × (v.view.spent ≡ false) × HasRoomFor v
        × IsPrepared v block seat.old.me (flags_of M.enabled M.null ∷ M.fields) (Some x) }
    ensures seat { (seat.new.table_id ≡ seat.old.table_id) × (seat.new.id ≡ seat.old.id)
        × (seat.new.me.1 ≡ []) }
    ensures event { (v : SeatView V) (x : V) → IsPrepared v block seat.old.me (flags_of M.enabled M.null ∷ M.fields)
        (Some x) → tells (Make block M.enabled M.null M.fields x) v seat.new.me.0 }
{
    words::swap::<V, Claims<M>>(table, seat, block_word(block, OWNERS), ONE_FUNDED);
}

/// Make: an object in an own vacant block, with one owner ([util.smartptr.shared.create]; for an owned null pointer
/// [util.smartptr.shared.const]).
#[inline(always)]
pub fn make<V: Drop, M: MakeArgs>(
    table: &Table<V>,
    seat: &mut Seat<V>,
    block: Block,
    enabled: bool,
    null: bool,
    fields: [u64; 4],
    value: V,
)
    requires planned { (M.block ≡ block) × (M.enabled ≡ enabled) × (M.null ≡ null) × (M.fields ≡ fields) }
    requires table { seat.old.table_id ≡ table.now.table_id }
    requires rests { Rests seat.old.me }
    requires word { (0 < block.0) × (spot block.0 9 < table.now.table_id.words) }
    requires stored { Has (stored seat.old.me.0.view.name block.0) (known seat.old.me.0).stores }
    requires room { HasRoomFor seat.old.me.0 }
    ensures seat { (seat.new.table_id ≡ seat.old.table_id) × (seat.new.id ≡ seat.old.id)
        × (seat.new.me.1 ≡ []) }
    ensures event { tells (Make block enabled null fields value) seat.old.me.0 seat.new.me.0 }
{
    let flags = u64::from(enabled) * ENABLED + u64::from(null) * NULL;
    prepare(table, seat, block, flags, fields);
    in_hand::fill(table, seat, block, value);
    claim::<V, M>(table, seat, block);
}
