//! The door of a visit: while it is shut the value of an object is in the hands of one desk.
ghost use Rattle.std.specs.Prelude.{◌≡◌, ◌<◌, [], false, Some};
ghost use Rattle.control_word.specs.Handles.{owner};
ghost use Rattle.control_word.specs.Layout.{spot};
ghost use Rattle.control_word.specs.declared.model.event.Event.TheVariants.{Visit};
ghost use Rattle.control_word.specs.declared.model.handle.Kind.TheVariants.{Owner};
ghost use Rattle.control_block.specs.StepKinds.{HoldingInBlock, Rests, tells};
ghost use Rattle.control_block.specs.DoorStepKinds.{IsVisiting};
ghost use Rattle.control_block.specs.declared.table.SeatView.{SeatView};

use crate::pause::Pause;
use crate::step_kinds::doors::{Opens, Shuts};
use crate::step_kinds::{Peeks, StepArgs};
use crate::steps::words;
use crate::table::{Seat, Table};
use control_word::packed::layout::{DOOR, FLAGS, block_word};
use control_word::{Block, Handle};
use std::sync::Wait;

/// Shut: the door of an object that the desk has an owner of is shut, and the slot with its value is in hand (own). It
/// tries again while the door is another's, and after some tries it yields the processor each time.
pub fn shut<V: Drop, M: StepArgs, R: Wait>(rt: &R, table: &Table<V>, seat: &mut Seat<V>, of: Handle)
    requires table { seat.old.table_id ≡ table.now.table_id }
    requires rests { Rests seat.old.me }
    requires word { (0 < of.block.0) × (spot of.block.0 2 < table.now.table_id.words) }
    requires holds { (M.block ≡ of.block) × (M.word ≡ 0)
        × HoldingInBlock seat.old.me.0 Owner M.object M.place of.block.0 }
    ensures seat { (seat.new.table_id ≡ seat.old.table_id) × (seat.new.id ≡ seat.old.id) }
    ensures visiting { (x : V) × IsVisiting seat.old.me.0 of.block M.object M.place
        (spot of.block.0 2) x (Some x) seat.new.me }
{
    let word = block_word(of.block, FLAGS);
    let mut pause = Pause::new();
    for _ in rt.forever() {
        let found = words::load::<V, Peeks<M>>(table, seat, word);
        if found < DOOR {
            let shut = found + DOOR;
            if words::compare_exchange::<V, Shuts<M>>(table, seat, word, found, shut) == found {
                return;
            }
        }
        pause.give_way();
    }
    unreachable!()
}

/// Open: the slot goes home with the value that a visit left, and the door is open again (own). The visit is over.
pub fn open<V: Drop, M: StepArgs>(table: &Table<V>, seat: &mut Seat<V>, block: Block)
    requires table { seat.old.table_id ≡ table.now.table_id }
    requires word { (0 < block.0) × (M.block ≡ block) × (spot block.0 2 < table.now.table_id.words) }
    requires visiting { (v : SeatView V) × (was : V) × (becomes : V) × (v.view.spent ≡ false)
        × IsVisiting v block M.object M.place (spot block.0 2) was (Some becomes) seat.old.me }
    ensures seat { (seat.new.table_id ≡ seat.old.table_id) × (seat.new.id ≡ seat.old.id)
        × (seat.new.me.1 ≡ []) }
    ensures event { (v : SeatView V) (was becomes : V) → IsVisiting v block M.object M.place (spot block.0 2) was
        (Some becomes) seat.old.me → tells (Visit (owner M.object M.place) was becomes) v seat.new.me.0 }
{
    words::fetch_sub::<V, Opens<M>>(table, seat, block_word(block, FLAGS), DOOR);
}
