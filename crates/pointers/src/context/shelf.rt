//! Vacant blocks between the desk and the domain's shelf.
ghost use Rattle.std.specs.Prelude.{◌≡◌, ◌+◌, ◌≤◌, length, min};
ghost use Rattle.control_block.specs.Desks.{Belongs, stock_of};
ghost use Rattle.control_block.specs.Shelf.{Unshelved};
ghost use Rattle.pointers.specs.HandCalls.{Restocks};
ghost use Rattle.pointers.specs.Blocks.{Fills, ShelvesAll, SinceOpened};

use crate::context::Context;
use crate::domain::Domain;
use control_block::domain;

/// How many vacant blocks a desk keeps at most between two calls; all above lie on the domain's shelf.
pub const RESERVE: u32 = 2;

/// How many vacant blocks a desk is left with when it gives some to the shelf.
const KEPT: u32 = 1;

impl<D: Domain> Context<D> {
    /// How many handles the desk has.
    #[inline(always)]
    pub(crate) fn held(&self) -> u32 {
        self.desk.held()
    }

    /// How many it may have.
    #[inline(always)]
    pub(crate) fn allowance(&self) -> u32 {
        self.desk.allowance()
    }

    /// Vacant blocks go to the shelf: how many did.
    pub(crate) fn shelve(&mut self, domain: &domain::Domain<D::Value>, count: u32) -> u32
        requires { Belongs D.opened domain.now }
        ensures count { result ≡ min count (length (stock_of self.old.desk)) }
        ensures stock { length (stock_of self.new.desk) + result ≡ length (stock_of self.old.desk) }
    {
        self.desk.shelve(domain, count)
    }

    /// All of them do.
    pub(crate) fn shelve_all(&mut self, domain: &domain::Domain<D::Value>) -> u32
        requires { Belongs D.opened domain.now }
        ensures { SinceOpened D.opened (ShelvesAll result) }
    {
        let count = self.desk.stock();
        self.desk.shelve(domain, count)
    }

    /// The reserve is filled from the shelf: how many blocks came.
    pub(crate) fn fill(&mut self, domain: &domain::Domain<D::Value>) -> u32
        requires { Belongs D.opened domain.now }
        ensures since { SinceOpened D.opened (Fills result) }
        ensures exact { Unshelved result self.old.desk self.new.desk }
    {
        let count = RESERVE.saturating_sub(self.desk.stock());
        self.desk.unshelve(domain, count)
    }

    /// Vacant blocks above the reserve go to the shelf.
    #[inline(always)]
    pub(crate) fn spare(&mut self, domain: &domain::Domain<D::Value>)
        requires { Belongs D.opened domain.now }
        ensures few { length (stock_of self.new.desk) ≤ 2 }
    {
        let stock = self.desk.stock();
        if stock > RESERVE {
            self.give(domain, stock - KEPT);
        }
    }

    #[cold]
    #[inline(never)]
    fn give(&mut self, domain: &domain::Domain<D::Value>, count: u32)
        requires domain { Belongs D.opened domain.now }
        requires stock { length (stock_of self.old.desk) ≡ count + 1 }
        ensures few { length (stock_of self.new.desk) ≡ 1 }
    {
        self.shelve(domain, count);
    }

    /// A desk with no vacant block takes some from the shelf.
    #[inline(always)]
    pub(crate) fn restock(&mut self, domain: &domain::Domain<D::Value>)
        requires { Belongs D.opened domain.now }
        ensures { Restocks self.old.desk self.new.desk }
    {
        if self.desk.stock() == 0 {
            self.take_batch(domain);
        }
    }

    #[cold]
    #[inline(never)]
    fn take_batch(&mut self, domain: &domain::Domain<D::Value>)
        requires { Belongs D.opened domain.now }
        ensures { Restocks self.old.desk self.new.desk }
    {
        self.fill(domain);
    }
}
