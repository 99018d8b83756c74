//! What the steps on the shelf tell the seat that makes them.
ghost use Rattle.control_block.specs.ShelfStepKinds.{shelved, told_shelf, unshelved};

use crate::slot::Slot;
use crate::step_kinds::StepArgs;
use crate::table::SeatView;
use atomic_table::Play;
use std::marker::PhantomData;

/// A look at a word of the shelf.
pub struct LooksOnShelf<M>(PhantomData<M>);

impl<V, M: StepArgs> Play<Slot<V>, SeatView<V>> for LooksOnShelf<M> {
    ghost then = { told_shelf M.word };
}

/// A block's bit is set.
pub struct Shelves<M>(PhantomData<M>);

impl<V, M: StepArgs> Play<Slot<V>, SeatView<V>> for Shelves<M> {
    ghost then = { shelved M.block };
}

/// A block's bit is cleared.
pub struct Unshelves<M>(PhantomData<M>);

impl<V, M: StepArgs> Play<Slot<V>, SeatView<V>> for Unshelves<M> {
    ghost then = { unshelved M.block };
}
