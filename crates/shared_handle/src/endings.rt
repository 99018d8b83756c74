//! What comes of a release, and an object whose last owner has left ([util.smartptr.shared.dest]).
ghost use Rattle.shared_handle.specs.Endings.{IsLeftOf};

use control_block::domain::Domain;
use control_block::in_place::InPlace;
use control_word::Block;

mod clears;
mod finish;

/// An object whose last owner has left: its deleter runs with whoever has this. Its members must be cleared, and it
/// must be finished.
pub struct Ending<V> {
    pub(crate) block: Block,
    /// It lies in the block until `finish` hands it out.
    pub(crate) value: InPlace<V>,
    /// How many members an object has, by its domain's shape.
    pub(crate) members: u8,
    /// How many of them are cleared, in the order of their numbers.
    pub(crate) cleared: u8,
}

/// What a released owner was.
pub enum Left<V> {
    /// It owned nothing.
    Empty,
    /// Others own the object still.
    Others,
    /// It was the last, and the object ends.
    Last(Ending<V>),
}

impl<V: Drop> Left<V> {
    /// What an owner was that has left a desk of the domain, by the block of what it owned, and by the value that it
    /// leaves in its block where it was the last (own). It is for the crates whose calls end handles.
    #[inline(always)]
    pub fn of_parts(domain: &Domain<V>, block: Option<Block>, value: Option<InPlace<V>>) -> Left<V>
        ensures { IsLeftOf domain.now.shape block value result }
    {
        let Some(block) = block else {
            return Left::Empty;
        };
        match value {
            None => Left::Others,
            Some(value) => Left::Last(Ending::begin(domain, block, value)),
        }
    }
}
