//! Looks at any word of the table, which are no events: by one seat, and by two.
ghost use Rattle.std.specs.Prelude.{◌≡◌, ◌<◌, false};
ghost use Rattle.control_block.specs.ObservationStepKinds.{Observed, ObservedBoth};
ghost use Rattle.control_block.specs.StepKinds.{Rests};

use crate::step_kinds::Glue;
use crate::step_kinds::observation::{Observes, Unglue};
use crate::steps::words;
use crate::table::{Seat, Table};

/// A look by one seat (own).
pub fn observe<V>(table: &Table<V>, seat: &mut Seat<V>, word: usize) -> u64
    requires table { seat.old.table_id ≡ table.now.table_id }
    requires awake { seat.old.me.0.view.spent ≡ false }
    requires word { word < table.now.table_id.words }
    ensures seat { (seat.new.table_id ≡ seat.old.table_id) × (seat.new.id ≡ seat.old.id)
        × (seat.new.me ≡ seat.old.me) }
    ensures told { Observed seat.old.me.0 word result }
{
    words::load::<V, Observes>(table, seat, word)
}

/// A look by two seats at rest, which are one for it, and then again as they were (own).
pub fn observe_both<V>(
    table: &Table<V>,
    seat: &mut Seat<V>,
    other: Seat<V>,
    word: usize,
) -> (u64, Seat<V>)
    requires table { (seat.old.table_id ≡ table.now.table_id) × (other.table_id ≡ table.now.table_id) }
    requires shape { other.me.0.shape ≡ seat.old.me.0.shape }
    requires rests { Rests seat.old.me × Rests other.me }
    requires word { word < table.now.table_id.words }
    ensures seat { (seat.new.table_id ≡ seat.old.table_id) × (seat.new.id ≡ seat.old.id)
        × (seat.new.me ≡ seat.old.me) }
    ensures other { (result.1.table_id ≡ other.table_id) × (result.1.me ≡ other.me) }
    ensures told { ObservedBoth seat.old.me.0 other.me.0 word result.0 }
{
    table.join_seat::<Glue>(seat, other);
    let found = observe(table, seat, word);
    let other = table.split_seat::<Unglue>(seat);
    (found, other)
}
