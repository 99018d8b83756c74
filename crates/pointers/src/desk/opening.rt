//! How a desk is opened, and what comes of it.
ghost use Rattle.std.specs.Prelude.{◌≡◌, [], length};
ghost use Rattle.control_block.specs.Desks.{Belongs, allowance_of, stock_of};
ghost use Rattle.shared_handle.specs.Piles.{Bears};
ghost use Rattle.pointers.specs.Known.{GoesOn};

use crate::context::Context;
use crate::desk::{Desk, Late};
use crate::domain::Domain;
use crate::program::part::Part;
use control_block::domain;
use std::alloc::Global;
use std::cell::RefCell;
use std::sync::Wait;

impl<'d, D: Domain> Desk<'d, D> {
    /// A desk over a domain.
    pub(crate) fn over(
        domain: &'d domain::Domain<D::Value>,
        context: Context<D>,
        alloc: Global,
    ) -> Desk<'d, D>
        requires { Belongs D.opened domain.now }
        ensures { result.domain.now ≡ domain.now }
    {
        Desk {
            domain,
            context: RefCell::new(context),
            late: RefCell::new(Vec::new(alloc)),
        }
    }

    /// What was put off lets go, what is left to end does so, all vacant blocks go to the shelf, and the desk comes
    /// out.
    pub(crate) fn into_part<R: Wait>(self, rt: &R) -> Part<D::Value>
        ensures goes { GoesOn D.opened result.desk }
        ensures allowance { allowance_of result.desk ≡ allowance_of D.opened }
        ensures bears { Bears self.entry.domain.now result.desk result.pile }
        ensures settled { result.pile.endings.items ≡ [] }
        ensures bare { length (stock_of result.desk) ≡ 0 }
    {
        let Desk {
            domain,
            context,
            late,
        } = self;
        let mut context = context.into_inner();
        let mut late = late.into_inner();
        while let Some(one) = late.pop() {
            match one {
                Late::Shared(owner) => {
                    let _ = context.leave(domain, owner);
                }
                Late::Weak(weak) => context.leave_weak(domain, weak),
            }
        }
        late.destroy_empty();
        context.into_part(rt, domain)
    }
}
