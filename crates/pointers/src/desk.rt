//! A thread's desk.
ghost use Rattle.control_block.specs.Desks.{Belongs};
ghost use Rattle.std.specs.Prelude.{◌≡◌, IfErr};

use crate::claim::shared_claim::SharedClaim;
use crate::claim::weak_claim::WeakClaim;
use crate::context::Context;
use crate::domain::Domain;
use crate::fault::Fault;
use crate::fault::call::Call;
use control_block::domain;
use std::alloc::Global;
use std::cell::{RefCell, RefMut};

pub(crate) mod blocks;
mod ends;
mod free_cells;
mod makes;
mod opening;

/// A pointer that was dropped within a visit.
pub(crate) enum Late<D: Domain> {
    Shared(SharedClaim<D>),
    Weak(WeakClaim<D>),
}

impl<D: Domain> Late<D> {
    /// Its handle is forgotten: the desk holds it still.
    fn forget(self) {
        match self {
            Late::Shared(owner) => owner.forget(),
            Late::Weak(weak) => weak.forget(),
        }
    }
}

/// A thread's desk: where its pointers come from. It is seen by `&` alone, and so are they, so that both stay in their
/// thread. A program gets one of each thread; nothing else makes one, so that no pointer meets another desk.
///
/// A call on a pointer or a desk is refused `Busy` within a visit, and `Crowded` where it would bring a handle more
/// than the desk may have: its team's `pointers` and two. Else it is refused as it says. What waits takes `rt`.
pub struct Desk<'d, D: Domain> {
    pub(crate) domain: &'d domain::Domain<D::Value>,
    pub(crate) context: RefCell<Context<D>>,
    pub(crate) late: RefCell<Vec<Late<D>, Global>>,
    pub(crate) ghost home: { Belongs D.opened domain.now },
}

impl<'d, D: Domain> Desk<'d, D> {
    /// What the desk has, for a call; within a visit it is `Busy`.
    #[inline(always)]
    pub(crate) fn open(&self, call: Call) -> Result<RefMut<'_, Context<D>>, Fault>
        ensures { IfErr result (λ why. why ≡ Fault.Busy call) }
    {
        match self.context.try_borrow_mut() {
            Ok(context) => Ok(context),
            Err(_) => Err(Fault::Busy(call)),
        }
    }

    /// The list of pointers that a visit puts off has room for so many.
    #[inline(always)]
    pub(crate) fn make_room(&self, count: u32) -> Result<(), Fault>
        ensures { IfErr result (λ why. why ≡ Fault.Memory) }
    {
        if let Ok(mut late) = self.late.try_borrow_mut() {
            late.reserve(count as usize)?;
        }
        Ok(())
    }

    /// The pointer was dropped within a visit: it lets go when that is over.
    #[cold]
    #[inline(never)]
    pub(crate) fn put_off(&self, late: Late<D>) {
        match self.late.try_borrow_mut() {
            Ok(mut list) => match list.push(late) {
                Ok(()) => {}
                Err(failed) => failed.value.forget(),
            },
            Err(_) => late.forget(),
        }
    }
}
