//! A slot of the table: the cell of one block, in which the value of the block's object lies.
ghost use Rattle.std.specs.Prelude.{◌≡◌, None, Some};
ghost use Rattle.std.specs.Fn.{FnOnceReturnsAtMut};

use crate::in_place::InPlace;
use slot_arena::ValueCell;
use std::marker::Model;

/// The cell, seen as the value in it, if there is one. The value stays where it is while slots move.
#[derive(Drop)]
pub struct Slot<V> {
    cell: ValueCell<V>,
}

impl<V> Model for Slot<V> {
    ghost use Rattle.std.specs.Prelude.{Option};

    ghost Value = { Option V };

    ghost view = { λ s. s.cell };
}

impl<V: Drop> Slot<V> {
    /// A slot with this cell.
    pub fn of(cell: ValueCell<V>) -> Self
        ensures { result ≡ cell }
    {
        Self { cell }
    }

    /// The value goes into the vacant cell: one move.
    #[inline(always)]
    pub fn fill(&mut self, value: V)
        requires { self.old ≡ None }
        ensures { self.new ≡ Some value }
    {
        self.cell.fill(value);
    }

    /// The value comes out of its cell, which is vacant then: one move.
    #[inline(always)]
    pub fn take(&mut self) -> V
        requires { (x : V) × (self.old ≡ Some x) }
        ensures value { self.old ≡ Some result }
        ensures vacant { self.new ≡ None }
    {
        self.cell.take()
    }

    /// What is known of the value, which stays in its cell.
    #[inline(always)]
    pub fn remember(&self) -> InPlace<V>
        requires { (x : V) × (self.now ≡ Some x) }
        ensures { self.now ≡ Some result }
    {
        InPlace::of(self.cell.get())
    }

    /// The value is worked on in its cell.
    #[inline(always)]
    pub fn visit<R, F: FnOnce(&mut V) -> R>(&mut self, f: F) -> R
        requires value { (x : V) × (self.old ≡ Some x) }
        requires callable { F.IsAlwaysCallable f }
        ensures { (was : V) × (becomes : V) × (self.old ≡ Some was)
            × FnOnceReturnsAtMut F.FnOnce f was result becomes × (self.new ≡ Some becomes) }
    {
        f(self.cell.get_mut())
    }
}
