//! What is known of a handle that a desk gave out.
ghost use Rattle.control_block.specs.declared.handles.Held.TheVariants as held;

use control_block::desk::Desk;
use control_block::handles::{Held, Shared, Weak};
use control_word::model::event::Entry;
use ghost_map::TellsPair;
use std::collections::LinkedList;

/// What is known of a handle that a desk gave out: the handle, and the events that the desk had seen when the handle
/// came, newest first. Values of this type live in proofs alone.
pub struct Known<V> {
    pub handle: Held,
    pub seen: LinkedList<Entry<V>>,
}

/// What is known of an owner that has just come.
pub(crate) struct OwnerCame;

impl<V: Drop> TellsPair<Desk<V>, Shared, Known<V>> for OwnerCame {
    ghost told = { λ d h. record { handle = held.Owner h; seen = d.seen } };
}

/// What is known of a weak handle that has just come.
pub(crate) struct WeakCame;

impl<V: Drop> TellsPair<Desk<V>, Weak, Known<V>> for WeakCame {
    ghost told = { λ d h. record { handle = held.Weak h; seen = d.seen } };
}
