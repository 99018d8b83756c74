//! Funds: handles that are paid for ahead, on the count of an object's owners or of its weak handles. Each handle has
//! its funds from when it is made.
ghost use Rattle.std.specs.Prelude.{◌≡◌, ℕ, ◌-◌, ◌<◌, ◌≤◌, [], Option};
ghost use Rattle.control_word.specs.Layout.{spot};
ghost use Rattle.control_word.specs.Words.{slot};
ghost use Rattle.control_word.specs.declared.place.Place.{Place};
ghost use Rattle.control_block.specs.StepKinds.{goes_on};
ghost use Rattle.control_block.specs.FundStepKinds.{Owes, owing};
ghost use Rattle.control_word.specs.Limits.{cell_funds};

use crate::step_kinds::funds::Settles;
use crate::steps::words;
use crate::table::{Seat, Table};
use control_word::Block;
use control_word::model::handle::Kind;
use control_word::packed::counts::{FUND_TURNED_FUNDED, ONE_FUND};
use control_word::packed::layout::count_word;

/// Top up: the funds that a handle in hand lacks, as others took them of its cell, are put on its count (own). The call
/// is over, and the desk has seen no more.
pub fn top_up<V>(table: &Table<V>, seat: &mut Seat<V>, kind: Kind, block: Block, lacking: u32)
    requires table { seat.old.table_id ≡ table.now.table_id }
    requires word { (0 < block.0) × (spot block.0 (slot kind) < table.now.table_id.words) }
    requires few { lacking ≤ cell_funds }
    requires owes { (o : ℕ) × (p : Option Place)
        × Owes (owing kind o p block.0 (cell_funds - lacking) 0) seat.old.me }
    ensures seat { (seat.new.table_id ≡ seat.old.table_id) × (seat.new.id ≡ seat.old.id)
        × (seat.new.me.1 ≡ []) }
    ensures settled { seat.new.me.0 ≡ goes_on seat.old.me.0 }
{
    words::fetch_add::<V, Settles>(
        table,
        seat,
        count_word(block, kind),
        u64::from(lacking) * ONE_FUND,
    );
}

/// Turn: the fund that a load took becomes a handle in the number, and the others of its funds are brought (own). The
/// load is over, and the desk has seen no more.
pub fn turn<V>(table: &Table<V>, seat: &mut Seat<V>, kind: Kind, block: Block)
    requires table { seat.old.table_id ≡ table.now.table_id }
    requires word { (0 < block.0) × (spot block.0 (slot kind) < table.now.table_id.words) }
    requires owes { (o : ℕ) × (p : Option Place) × Owes (owing kind o p block.0 1 1) seat.old.me }
    ensures seat { (seat.new.table_id ≡ seat.old.table_id) × (seat.new.id ≡ seat.old.id)
        × (seat.new.me.1 ≡ []) }
    ensures settled { seat.new.me.0 ≡ goes_on seat.old.me.0 }
{
    words::fetch_add::<V, Settles>(table, seat, count_word(block, kind), FUND_TURNED_FUNDED);
}
