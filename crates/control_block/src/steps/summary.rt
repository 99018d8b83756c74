//! The shelf's summary: a bit for each word of the shelf, which tells desks where to look first. It stands for nothing,
//! so that any of its words may be any number.
ghost use Rattle.std.specs.Prelude.{◌≡◌, ◌<◌, ◌≤◌};
ghost use Rattle.control_block.specs.StepKinds.{Rests};
ghost use Rattle.control_block.specs.SummaryStepKinds.{summary_at};

use crate::step_kinds::summary::OnSummary;
use crate::steps::words;
use crate::table::{Seat, Table};

/// Look, which is no event (own): a word of the summary.
pub fn look<V>(table: &Table<V>, seat: &mut Seat<V>, place: usize) -> u64
    requires table { seat.old.table_id ≡ table.now.table_id }
    requires rests { Rests seat.old.me }
    requires place { place < table.now.table_id.words }
    ensures seat { (seat.new.table_id ≡ seat.old.table_id) × (seat.new.id ≡ seat.old.id)
        × (seat.new.me ≡ seat.old.me) }
{
    words::load::<V, OnSummary>(table, seat, place)
}

/// Bits of a word of the summary are set (own).
pub fn set<V>(table: &Table<V>, seat: &mut Seat<V>, place: usize, bits: u64)
    requires table { seat.old.table_id ≡ table.now.table_id }
    requires rests { Rests seat.old.me }
    requires place { (summary_at seat.old.me.0.shape 0 ≤ place) × (place < table.now.table_id.words) }
    ensures seat { (seat.new.table_id ≡ seat.old.table_id) × (seat.new.id ≡ seat.old.id)
        × (seat.new.me ≡ seat.old.me) }
{
    words::fetch_or::<V, OnSummary>(table, seat, place, bits);
}

/// Bits of a word of the summary are cleared (own).
pub fn clear<V>(table: &Table<V>, seat: &mut Seat<V>, place: usize, bits: u64)
    requires table { seat.old.table_id ≡ table.now.table_id }
    requires rests { Rests seat.old.me }
    requires place { (summary_at seat.old.me.0.shape 0 ≤ place) × (place < table.now.table_id.words) }
    ensures seat { (seat.new.table_id ≡ seat.old.table_id) × (seat.new.id ≡ seat.old.id)
        × (seat.new.me ≡ seat.old.me) }
{
    words::fetch_and::<V, OnSummary>(table, seat, place, !bits);
}
