//! A cell of raw memory, which has a value or room for one. Nothing in memory says which.
ghost use Rattle.std.specs.Prelude.{◌≡◌, MatchResult, None, Option, Some};
ghost use Rattle.std.specs.Coded.{coded_option};
ghost use Rattle.slot_arena.specs.Ownership.{cell_owns, value_lent};

use std::alloc::Allocator;
use std::marker::{Model, Send, Sync};
use std::mem::{align_of, size_of};

/// A cell. Clauses see the value that it holds, if there is one.
pub(crate) struct RawCell<V, A: Allocator> {
    pub(crate) at: *mut V,
    alloc: A,
    pub ghost held: { Option V } by { coded_option V.code },
}

impl<V, A: Allocator> Model for RawCell<V, A> {
    ghost also_owns = { λ c. cell_owns V.row c.at (A.dealloc_token c.alloc) c.held };

    ghost also_shares = { λ c _ κ. value_lent V.row c.at c.held κ };
}

impl<V, A: Allocator> RawCell<V, A> {
    /// An empty cell. The allocator comes back where there was no memory.
    pub(crate) fn allocate(alloc: A) -> Result<RawCell<V, A>, A>
        ensures { MatchResult result (λ c. (c.alloc ≡ alloc) × (c.held ≡ None)) (λ h. h ≡ alloc) }
    {
        match alloc.allocate(size_of::<V>(), align_of::<V>()) {
            Ok(block) => Ok(RawCell {
                at: block as *mut V,
                alloc,
            }),
            Err(_) => Err(alloc),
        }
    }

    /// The memory of an empty cell goes back.
    pub(crate) fn free(self) -> A
        requires { self.held ≡ None }
        ensures { result ≡ self.alloc }
    {
        unsafe {
            self.alloc
                .deallocate(self.at as *mut u8, size_of::<V>(), align_of::<V>());
        }
        let RawCell { at: _, alloc } = self;
        alloc
    }

    /// The value is written where it stays.
    #[inline(always)]
    pub(crate) fn write(&mut self, value: V)
        requires { self.old.held ≡ None }
        ensures { self.new.held ≡ Some value }
    {
        unsafe {
            self.at.write(value);
        }
    }

    /// The value comes out, and the cell is empty.
    #[inline(always)]
    pub(crate) fn read(&mut self) -> V
        requires { (x : V) × (self.old.held ≡ Some x) }
        ensures { (self.old.held ≡ Some result) × (self.new.held ≡ None) }
    {
        unsafe { self.at.read() }
    }

    #[inline(always)]
    pub(crate) fn get(&self) -> &V
        requires { (x : V) × (self.now.held ≡ Some x) }
        ensures { self.now.held ≡ Some result.now }
    {
        unsafe { &*self.at }
    }
}

// A cell may go to another thread if its value and its allocator may.
unsafe impl<V: Send, A: Allocator + Send> Send for RawCell<V, A> {}

unsafe impl<V: Sync, A: Allocator + Sync> Sync for RawCell<V, A> {}
