//! What a look at any word tells, and how two seats that were one for it come apart.
ghost use Rattle.control_block.specs.ObservationStepKinds.{first_again, observed, second_again};

use crate::slot::Slot;
use crate::table::SeatView;
use atomic_table::{Play, Split};

/// A look at any word, which is no event.
pub struct Observes;

impl<V> Play<Slot<V>, SeatView<V>> for Observes {
    ghost then = { observed };
}

/// The cut of a view that took in another, before it made the event of a join.
pub struct Unglue;

impl<V> Split<SeatView<V>> for Unglue {
    ghost left = { first_again };

    ghost right = { second_again };
}
