//! How what lies in a desk's cell comes there, and what comes of it.
ghost use Rattle.std.specs.Prelude.{◌≡◌, [], length};
ghost use Rattle.control_block.specs.Desks.{Belongs, allowance_of, stock_of};
ghost use Rattle.shared_handle.specs.Piles.{Bears};
ghost use Rattle.pointers.specs.Known.{GoesOn};

use crate::context::Context;
use crate::domain::Domain;
use crate::program::part::Part;
use control_block::domain;
use ghost_map::Blank;
use std::sync::Wait;

impl<D: Domain> Context<D> {
    /// What lies in a new desk's cell. Nothing is claimed yet.
    pub(crate) fn new(
        domain: &domain::Domain<D::Value>,
        blank: Blank,
        part: Part<D::Value>,
    ) -> Context<D>
        requires named { blank.name ≡ D.name }
        requires opened { part.desk ≡ D.opened }
        requires bears { Bears domain.now part.desk part.pile }
    {
        let _ = domain;
        let Part { desk, pile } = part;
        desk.assert_invariant();
        Context {
            desk,
            pile,
            claims: blank.open(),
        }
    }

    /// What is left to end does so, all vacant blocks go to the shelf, and the desk comes out.
    pub(crate) fn into_part<R: Wait>(
        self,
        rt: &R,
        domain: &domain::Domain<D::Value>,
    ) -> Part<D::Value>
        requires { Belongs D.opened domain.now }
        ensures goes { GoesOn D.opened result.desk }
        ensures allowance { allowance_of result.desk ≡ allowance_of D.opened }
        ensures bears { Bears domain.now result.desk result.pile }
        ensures settled { result.pile.endings.items ≡ [] }
        ensures bare { length (stock_of result.desk) ≡ 0 }
    {
        let Self {
            mut desk,
            mut pile,
            claims: _,
        } = self;
        pile.settle(rt, domain, &mut desk);
        let count = desk.stock();
        desk.shelve(domain, count);
        Part { desk, pile }
    }
}
