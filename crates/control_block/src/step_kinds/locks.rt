//! What the steps of a lock tell the seat that makes them.
ghost use Rattle.control_block.specs.StepKinds.{At};
ghost use Rattle.control_block.specs.LockStepKinds.{sought_owner, locked};

use crate::slot::Slot;
use crate::step_kinds::StepArgs;
use crate::table::SeatView;
use atomic_table::Play;
use std::marker::PhantomData;

/// A look for an owner, which is the event of a lock where there is none.
pub struct SeeksOwner<M>(PhantomData<M>);

impl<V, M: StepArgs> Play<Slot<V>, SeatView<V>> for SeeksOwner<M> {
    ghost then = { sought_owner M.object M.place };
}

/// One owner more, where one was found.
pub struct Locks<M>(PhantomData<M>);

impl<V, M: StepArgs> Play<Slot<V>, SeatView<V>> for Locks<M> {
    ghost then = { locked M.object M.place };
}
