//! What the steps on a member of an object that ends tell.
ghost use Rattle.control_block.specs.CellStepKinds.{cleared, looked_clear};

use crate::slot::Slot;
use crate::step_kinds::StepArgs;
use crate::table::SeatView;
use atomic_table::Play;
use std::marker::PhantomData;

/// A look, which clears a member that holds nothing.
pub struct LooksClear<M>(PhantomData<M>);

impl<V, M: StepArgs> Play<Slot<V>, SeatView<V>> for LooksClear<M> {
    ghost then = { looked_clear M.object M.word };
}

/// The member is swapped for nothing.
pub struct Clears<M>(PhantomData<M>);

impl<V, M: StepArgs> Play<Slot<V>, SeatView<V>> for Clears<M> {
    ghost then = { cleared M.object M.word };
}
