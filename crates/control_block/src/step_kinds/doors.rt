//! What the steps on a door tell the seat that makes them.
ghost use Rattle.control_block.specs.DoorStepKinds.{opened, shut};

use crate::slot::Slot;
use crate::step_kinds::StepArgs;
use crate::table::SeatView;
use atomic_table::Play;
use std::marker::PhantomData;

/// A door is shut, and the slot with the value is in hand.
pub struct Shuts<M>(PhantomData<M>);

impl<V, M: StepArgs> Play<Slot<V>, SeatView<V>> for Shuts<M> {
    ghost then = { shut M.block M.object M.place };
}

/// A door is opened, and the slot goes home.
pub struct Opens<M>(PhantomData<M>);

impl<V, M: StepArgs> Play<Slot<V>, SeatView<V>> for Opens<M> {
    ghost then = { opened M.block M.object M.place };
}
