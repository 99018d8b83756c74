//! The seats of desks: a seat is cut in two, and two become one.
ghost use Rattle.std.specs.Prelude.{◌≡◌, ℕ, ◌<◌, false, [], None};
ghost use Rattle.control_word.specs.declared.model.event.Event.TheVariants.{Split};
ghost use Rattle.control_word.specs.declared.model.view.Pending.TheVariants.{Parting};
ghost use Rattle.control_block.specs.StepKinds.{goes_on, comes_off, Added, JoinsUp, MaySplit, Rests};
ghost use Rattle.control_block.specs.declared.table.SeatView.{SeatView};

use crate::step_kinds::{Cut, Glue, Joins, SplitArgs, Splits};
use crate::steps::words;
use crate::table::{Seat, Table};

/// Split: the look at which a new desk gets its name and what it is given (own).
pub fn note_split<V, G: SplitArgs>(table: &Table<V>, seat: &mut Seat<V>)
    requires table { seat.old.table_id ≡ table.now.table_id }
    requires rests { Rests seat.old.me }
    requires word { 0 < table.now.table_id.words }
    requires may { MaySplit seat.old.me.0 G.allowance G.handles G.blocks }
    ensures seat { (seat.new.table_id ≡ seat.old.table_id) × (seat.new.id ≡ seat.old.id)
        × (seat.new.me.1 ≡ []) }
    ensures event { (to : ℕ) × Added seat.old.me.0 (Parting to) None
        (Split to G.allowance G.handles G.blocks) seat.new.me.0 }
{
    words::load::<V, Splits<G>>(table, seat, 0);
}

/// The cut that follows: the new desk's seat. Both have seen the same.
pub fn cut<V>(table: &Table<V>, seat: &mut Seat<V>) -> Seat<V>
    requires table { seat.old.table_id ≡ table.now.table_id }
    requires word { 0 < table.now.table_id.words }
    requires parts { (seat.old.me.0.view.spent ≡ false) × (seat.old.me.0.hand ≡ None)
        × (seat.old.me.1 ≡ []) }
    requires named { (to : ℕ) × (seat.old.me.0.view.pending ≡ Parting to) }
    ensures seat { (seat.new.table_id ≡ seat.old.table_id) × (seat.new.id ≡ seat.old.id)
        × (seat.new.me ≡ (goes_on seat.old.me.0, [])) }
    ensures other { (result.table_id ≡ seat.old.table_id) × (result.me ≡ (comes_off seat.old.me.0, [])) }
{
    table.split_seat::<Cut>(seat)
}

/// Join: two seats at rest become one, and a look makes the event (own). The seat has then seen all that either had.
pub fn join<V>(table: &Table<V>, seat: &mut Seat<V>, other: Seat<V>)
    requires table { (seat.old.table_id ≡ table.now.table_id) × (other.table_id ≡ table.now.table_id) }
    requires rests { Rests seat.old.me × Rests other.me }
    requires word { 0 < table.now.table_id.words }
    ensures seat { (seat.new.table_id ≡ seat.old.table_id) × (seat.new.id ≡ seat.old.id)
        × (seat.new.me.1 ≡ []) }
    ensures event { JoinsUp seat.old.me.0 other.me.0 seat.new.me.0 }
{
    table.join_seat::<Glue>(seat, other);
    words::load::<V, Joins>(table, seat, 0);
}
