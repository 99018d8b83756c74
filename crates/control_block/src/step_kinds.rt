//! What each kind of step tells the seat that makes it.
ghost use Rattle.std.specs.Prelude.{ℕ, Bool, false, List, [], Option, None};
ghost use Rattle.control_word.specs.declared.model.handle.NumberedHandle.{NumberedHandle};
ghost use Rattle.control_word.specs.declared.model.handle.Kind.{Kind};
ghost use Rattle.control_word.specs.declared.model.handle.Kind.TheVariants.{Owner};
ghost use Rattle.control_word.specs.declared.place.Block.{Block};
ghost use Rattle.control_word.specs.declared.place.Place.{Place};
ghost use Rattle.control_block.specs.StepKinds.{counted, found_expired, peeked, read, shared, weakly_left};
ghost use Rattle.control_block.specs.StepKinds.{weakly_shared};
ghost use Rattle.control_block.specs.StepKinds.{began, fetched, finished, gave_back, goes_on, left, made, parted};
ghost use Rattle.control_block.specs.StepKinds.{found_begun, found_finished, wrote};
ghost use Rattle.control_block.specs.StepKinds.{comes_off, grown, over, joined};

pub mod cells;
pub mod clears;
pub mod doors;
pub mod funds;
pub mod locks;
pub mod observation;
pub mod shelf;
pub mod summary;

use crate::slot::Slot;
use crate::table::SeatView;
use atomic_table::{Join, Play, Split};
use std::marker::{Brand, PhantomData};

/// Which handle a step is about, by the number of its object, and which place it wants. The proof of each call
/// picks them.
pub trait StepArgs {
    ghost kind: { Kind };

    ghost object: { ℕ };

    ghost place: { Option Place };

    ghost wanted: { Option Place };

    ghost block: { Block };

    /// Of the flags and fields of a block that is being prepared, or of the members of an object that ends.
    ghost word: { ℕ };
}

impl StepArgs for Brand {
    ghost kind = { Owner };

    ghost object = { 0 };

    ghost place = { None };

    ghost wanted = { None };

    ghost block = { record { 0 = 0 } };

    ghost word = { 0 };
}

/// Which object a claim makes.
pub trait MakeArgs {
    ghost block: { Block };

    ghost enabled: { Bool };

    ghost null: { Bool };

    ghost fields: { List ℕ };
}

impl MakeArgs for Brand {
    ghost block = { record { 0 = 0 } };

    ghost enabled = { false };

    ghost null = { false };

    ghost fields = { [] };
}

/// One owner more.
pub struct Shares<M>(PhantomData<M>);

impl<V, M: StepArgs> Play<Slot<V>, SeatView<V>> for Shares<M> {
    ghost then = { shared M.object M.place M.wanted };
}

/// One weak handle more.
pub struct WeakShares<M>(PhantomData<M>);

impl<V, M: StepArgs> Play<Slot<V>, SeatView<V>> for WeakShares<M> {
    ghost then = { weakly_shared M.object M.wanted };
}

/// One weak handle less.
pub struct WeakLeaves<M>(PhantomData<M>);

impl<V, M: StepArgs> Play<Slot<V>, SeatView<V>> for WeakLeaves<M> {
    ghost then = { weakly_left M.object M.place };
}

/// A look at the owners, for `use_count`.
pub struct Counts<M>(PhantomData<M>);

impl<V, M: StepArgs> Play<Slot<V>, SeatView<V>> for Counts<M> {
    ghost then = { counted M.kind M.object M.place };
}

/// A look at the owners, for `expired`.
pub struct FindsExpired<M>(PhantomData<M>);

impl<V, M: StepArgs> Play<Slot<V>, SeatView<V>> for FindsExpired<M> {
    ghost then = { found_expired M.object M.place };
}

/// A look at a field.
pub struct Reads<M>(PhantomData<M>);

impl<V, M: StepArgs> Play<Slot<V>, SeatView<V>> for Reads<M> {
    ghost then = { read M.object M.place };
}

/// A look at what is fixed of an object, which is no event.
pub struct Peeks<M>(PhantomData<M>);

impl<V, M: StepArgs> Play<Slot<V>, SeatView<V>> for Peeks<M> {
    ghost then = { peeked M.object M.word };
}

/// One owner less.
pub struct Leaves<M>(PhantomData<M>);

impl<V, M: StepArgs> Play<Slot<V>, SeatView<V>> for Leaves<M> {
    ghost then = { left M.block M.object M.place };
}

/// A look that gives the slot in hand back.
pub struct GivesBack;

impl<V> Play<Slot<V>, SeatView<V>> for GivesBack {
    ghost then = { gave_back };
}

/// A look that takes the slot of an object that ends.
pub struct Fetches<M>(PhantomData<M>);

impl<V, M: StepArgs> Play<Slot<V>, SeatView<V>> for Fetches<M> {
    ghost then = { fetched M.block M.object };
}

/// The first write of a make: the weak word.
pub struct Begins<M>(PhantomData<M>);

impl<V, M: StepArgs> Play<Slot<V>, SeatView<V>> for Begins<M> {
    ghost then = { began M.block };
}

/// A look that finds the weak word to be 1, so that the make has begun.
pub struct FindsBegun<M>(PhantomData<M>);

impl<V, M: StepArgs> Play<Slot<V>, SeatView<V>> for FindsBegun<M> {
    ghost then = { found_begun M.block };
}

/// A further write of a make, or a look at a word that need not be written.
pub struct Writes<M>(PhantomData<M>);

impl<V, M: StepArgs> Play<Slot<V>, SeatView<V>> for Writes<M> {
    ghost then = { wrote M.block M.word };
}

/// The claim of a prepared block.
pub struct Claims<M>(PhantomData<M>);

impl<V, M: MakeArgs> Play<Slot<V>, SeatView<V>> for Claims<M> {
    ghost then = { made M.block M.enabled M.null M.fields };
}

/// The weak leave that ends an ending.
pub struct Finishes<M>(PhantomData<M>);

impl<V, M: StepArgs> Play<Slot<V>, SeatView<V>> for Finishes<M> {
    ghost then = { finished M.object };
}

/// A look that finds the weak word to be 1, which ends an ending.
pub struct FindsFinished<M>(PhantomData<M>);

impl<V, M: StepArgs> Play<Slot<V>, SeatView<V>> for FindsFinished<M> {
    ghost then = { found_finished M.object };
}

/// What a split gives away. The proof of each call picks it.
pub trait SplitArgs {
    ghost allowance: { ℕ };

    ghost handles: { List NumberedHandle };

    ghost blocks: { List Block };
}

impl SplitArgs for Brand {
    ghost allowance = { 0 };

    ghost handles = { [] };

    ghost blocks = { [] };
}

/// The look that makes a split.
pub struct Splits<G>(PhantomData<G>);

impl<V, G: SplitArgs> Play<Slot<V>, SeatView<V>> for Splits<G> {
    ghost then = { parted G.allowance G.handles G.blocks };
}

/// The cut of a view after it.
pub struct Cut;

impl<V> Split<SeatView<V>> for Cut {
    ghost left = { goes_on };

    ghost right = { comes_off };
}

/// The joining of two views.
pub struct Glue;

impl<V> Join<SeatView<V>> for Glue {
    ghost both = { grown };

    ghost spent = { over };
}

/// The look that makes a join, after it.
pub struct Joins;

impl<V> Play<Slot<V>, SeatView<V>> for Joins {
    ghost then = { joined };
}
