//! The owner of a cell, and the only way to it.
ghost use Rattle.std.specs.Prelude.{◌≡◌, None, Some};

use crate::cell::RawCell;
use std::alloc::Global;
use std::marker::Model;

/// A cell that may have a value, and a byte that says whether it has. A contract sees it as this
/// value, if there is one. Where it ends, the value is dropped, and then its memory goes back.
pub struct ValueCell<V> {
    pub(crate) cell: RawCell<V, Global>,
    pub(crate) filled: bool,
}

impl<V> Model for ValueCell<V> {
    ghost use Rattle.std.specs.Prelude.{◌≡◌, is_some, Option};

    ghost Value = { Option V };

    ghost view = { λ c. c.cell.held };

    ghost invariant = { λ c. c.filled ≡ is_some c.cell.held };
}

impl<V> ValueCell<V> {
    /// The value goes into the cell, which has none: one move.
    #[inline(always)]
    pub fn fill(&mut self, value: V)
        requires { self.old ≡ None }
        ensures { self.new ≡ Some value }
    {
        self.cell.write(value);
        self.filled = true;
    }

    /// The value comes out, and the cell has none: one move.
    #[inline(always)]
    pub fn take(&mut self) -> V
        requires { (x : V) × (self.old ≡ Some x) }
        ensures value { self.old ≡ Some result }
        ensures vacant { self.new ≡ None }
    {
        self.filled = false;
        self.cell.read()
    }

    /// The value, in its cell.
    #[inline(always)]
    pub fn get(&self) -> &V
        requires { (x : V) × (self.now ≡ Some x) }
        ensures { self.now ≡ Some result.now }
    {
        self.cell.get()
    }
}

impl<V: Drop> Drop for ValueCell<V> {
    fn drop(self) {
        let Self { mut cell, filled } = self;
        if filled {
            drop(cell.read());
        }
        drop(cell.free());
    }
}
