//! What the steps on funds tell the seat that makes them.
ghost use Rattle.control_block.specs.FundStepKinds.{settled};

use crate::slot::Slot;
use crate::table::SeatView;
use atomic_table::Play;

/// The funds that a handle lacks are brought, or one is turned into a handle.
pub struct Settles;

impl<V> Play<Slot<V>, SeatView<V>> for Settles {
    ghost then = { settled };
}
