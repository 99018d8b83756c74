//! What the steps on a cell tell the seat that makes them.
ghost use Rattle.std.specs.Prelude.{Bool, true, false, None};
ghost use Rattle.control_word.specs.declared.model.event.Cell.{Cell};
ghost use Rattle.control_word.specs.declared.model.event.Cell.TheVariants.{Free};
ghost use Rattle.control_word.specs.declared.model.event.Event.TheVariants.{Compare, Load, Swap};
ghost use Rattle.control_word.specs.declared.model.handle.NumberedHandle.{NumberedHandle};
ghost use Rattle.control_word.specs.declared.model.handle.Kind.TheVariants.{Owner};
ghost use Rattle.control_word.specs.Handles.{empty};
ghost use Rattle.control_block.specs.CellStepKinds.{cell_peeked, compare_swapped, differed_empty, loaded_empty};
ghost use Rattle.control_block.specs.CellStepKinds.{refilled};
ghost use Rattle.control_block.specs.CellStepKinds.{swapped, told_same, took};

use crate::slot::Slot;
use crate::step_kinds::StepArgs;
use crate::table::SeatView;
use atomic_table::Play;
use std::marker::{Brand, PhantomData};

/// Which cell a step is about, which handle goes in, and what a compare or a look expects. The proof of each call picks
/// them.
pub trait CellArgs {
    ghost cell: { Cell };

    ghost new: { NumberedHandle };

    ghost expected: { NumberedHandle };

    /// Whether a compare may differ on an equivalent handle.
    ghost weak: { Bool };
}

impl CellArgs for Brand {
    ghost cell = { Free 0 };

    ghost new = { empty Owner };

    ghost expected = { empty Owner };

    ghost weak = { false };
}

/// A look without an event.
pub struct Peeks<A>(PhantomData<A>);

impl<V, A: CellArgs> Play<Slot<V>, SeatView<V>> for Peeks<A> {
    ghost then = { cell_peeked A.cell };
}

/// A look, which is the load of a cell without an object.
pub struct LoadsEmpty<A>(PhantomData<A>);

impl<V, A: CellArgs> Play<Slot<V>, SeatView<V>> for LoadsEmpty<A> {
    ghost then = { loaded_empty A.cell };
}

/// A look, which is a compare that differs, of a cell without an object.
pub struct DiffersEmpty<A>(PhantomData<A>);

impl<V, A: CellArgs> Play<Slot<V>, SeatView<V>> for DiffersEmpty<A> {
    ghost then = { differed_empty A.cell A.expected A.new A.weak };
}

/// A look, which tells whether the cell holds what is expected.
pub struct TellsSame<A>(PhantomData<A>);

impl<V, A: CellArgs> Play<Slot<V>, SeatView<V>> for TellsSame<A> {
    ghost then = { told_same A.cell A.expected };
}

/// A fund is taken, by a load.
pub struct TakesToLoad<A>(PhantomData<A>);

impl<V, A: CellArgs> Play<Slot<V>, SeatView<V>> for TakesToLoad<A> {
    ghost then = { took A.cell (λ h. Load A.cell h) };
}

/// A fund is taken, by a compare that differs.
pub struct TakesToCompare<A>(PhantomData<A>);

impl<V, A: CellArgs> Play<Slot<V>, SeatView<V>> for TakesToCompare<A> {
    ghost then = { took A.cell (λ h. Compare A.cell A.expected A.new h false A.weak) };
}

/// The funds taken are put into the cell again, of those of a handle in hand.
pub struct Refills<M>(PhantomData<M>);

impl<V, M: StepArgs> Play<Slot<V>, SeatView<V>> for Refills<M> {
    ghost then = { refilled M.kind M.object M.place M.block M.word };
}

/// The new handle goes in, and what the cell held comes out.
pub struct Swaps<A>(PhantomData<A>);

impl<V, A: CellArgs> Play<Slot<V>, SeatView<V>> for Swaps<A> {
    ghost then = { swapped A.cell (λ h. Swap A.cell A.new h) };
}

/// The same, where the cell holds what is expected.
pub struct CompareSwaps<A>(PhantomData<A>);

impl<V, A: CellArgs> Play<Slot<V>, SeatView<V>> for CompareSwaps<A> {
    ghost then = { compare_swapped A.cell (λ h. Compare A.cell A.expected A.new h true A.weak) };
}
