//! What the steps on the shelf's summary tell the seat that makes them.
ghost use Rattle.control_block.specs.SummaryStepKinds.{stayed};

use crate::slot::Slot;
use crate::table::SeatView;
use atomic_table::Play;

/// A look at the summary, or a change of its bits.
pub struct OnSummary;

impl<V> Play<Slot<V>, SeatView<V>> for OnSummary {
    ghost then = { stayed };
}
