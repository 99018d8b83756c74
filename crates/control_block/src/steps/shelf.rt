//! The shelf: vacant blocks that any desk may take. Each block has a bit of a word, which is 1 while it is there.
ghost use Rattle.std.specs.Prelude.{◌≡◌, ◌<◌, ◌≤◌, ◌/◌, true, false};
ghost use Rattle.control_word.specs.State.{Has, stored};
ghost use Rattle.control_word.specs.declared.model.event.Event.TheVariants.{Shelve, Unshelve};
ghost use Rattle.control_block.specs.StepKinds.{Rests, known, tells};
ghost use Rattle.control_block.specs.ShelfStepKinds.{IsOff, IsShelfWord, IsSo, shelf_at};
ghost use Rattle.control_word.specs.Layout.{shelf_words};

use crate::step_kinds::StepArgs;
use crate::step_kinds::shelf::{LooksOnShelf, Shelves, Unshelves};
use crate::steps::words;
use crate::table::{Seat, Table};
use control_word::Block;
use control_word::packed::layout::shelf_bit;

/// Look, which is no event (own): a word of the shelf.
pub fn look<V, M: StepArgs>(table: &Table<V>, seat: &mut Seat<V>, place: usize) -> u64
    requires table { seat.old.table_id ≡ table.now.table_id }
    requires rests { Rests seat.old.me }
    requires place { (place ≡ shelf_at seat.old.me.0.shape M.word) × (place < table.now.table_id.words) }
    requires word { M.word < shelf_words seat.old.me.0.shape.blocks }
    ensures seat { (seat.new.table_id ≡ seat.old.table_id) × (seat.new.id ≡ seat.old.id)
        × (seat.new.me ≡ seat.old.me) }
    ensures told { IsSo seat.old.me.0 (IsShelfWord M.word result) }
{
    words::load::<V, LooksOnShelf<M>>(table, seat, place)
}

/// Shelve: the bit of a block of the own store is set (own).
pub fn shelve<V, M: StepArgs>(table: &Table<V>, seat: &mut Seat<V>, place: usize, block: Block)
    requires table { seat.old.table_id ≡ table.now.table_id }
    requires rests { Rests seat.old.me }
    requires place { (place ≡ shelf_at seat.old.me.0.shape (block.0 / 64))
        × (place < table.now.table_id.words) }
    requires meant { M.block ≡ block }
    requires stored { Has (stored seat.old.me.0.view.name block.0) (known seat.old.me.0).stores }
    ensures seat { (seat.new.table_id ≡ seat.old.table_id) × (seat.new.id ≡ seat.old.id)
        × (seat.new.me.1 ≡ seat.old.me.1) }
    ensures event { tells (Shelve block) seat.old.me.0 seat.new.me.0 }
{
    words::fetch_or::<V, Shelves<M>>(table, seat, place, shelf_bit(block));
}

/// Unshelve: a block's bit is cleared (own). True where it was found set: just then the block was on the shelf, and is
/// the desk's now.
pub fn unshelve<V, M: StepArgs>(
    table: &Table<V>,
    seat: &mut Seat<V>,
    place: usize,
    block: Block,
) -> bool
    requires table { seat.old.table_id ≡ table.now.table_id }
    requires rests { Rests seat.old.me }
    requires place { (place ≡ shelf_at seat.old.me.0.shape (block.0 / 64))
        × (place < table.now.table_id.words) }
    requires meant { M.block ≡ block }
    requires inside { block.0 ≤ seat.old.me.0.shape.blocks }
    ensures seat { (seat.new.table_id ≡ seat.old.table_id) × (seat.new.id ≡ seat.old.id)
        × (seat.new.me.1 ≡ seat.old.me.1) }
    ensures event { result ≡ true → tells (Unshelve block) seat.old.me.0 seat.new.me.0 }
    ensures missed { result ≡ false
        → (seat.new.me ≡ seat.old.me) × IsSo seat.old.me.0 (IsOff block.0) }
{
    let bit = shelf_bit(block);
    words::fetch_and::<V, Unshelves<M>>(table, seat, place, !bit) & bit != 0
}
