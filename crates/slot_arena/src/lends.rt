//! The value of a cell, to be changed where it is. The clauses name the rows of `RawCell` and
//! `ValueCell`, which the files that declare them cannot import.
ghost use Rattle.std.specs.Prelude.{◌≡◌, Some};
ghost use Rattle.std.specs.Borrow.{sem};
ghost use Rattle.slot_arena.specs.Lending.{lends_value, LendsContent};

use crate::cell::RawCell;
use crate::value_cell::ValueCell;
use std::alloc::Allocator;

impl<V, A: Allocator> RawCell<V, A> {
    #[inline(always)]
    pub(crate) fn get_mut(&mut self) -> &mut V
        requires { (x : V) × (self.old.held ≡ Some x) }
        ensures* writes_back { sem 𝓛 (lends_value V.row A.row A.Allocator self.entry result) }
        ensures value { self.old.held ≡ Some result.now }
    {
        unsafe { &mut *self.at }
    }
}

impl<V> ValueCell<V> {
    /// The value, to be changed in its cell: what is written through it is what the cell has then.
    #[inline(always)]
    pub fn get_mut(&mut self) -> &mut V
        requires { (x : V) × (self.old ≡ Some x) }
        ensures* writes_back { sem 𝓛 (LendsContent V.row self.entry result) }
        ensures value { self.old ≡ Some result.now }
    {
        self.cell.get_mut()
    }
}
