//! A desk that is held over several calls.
ghost use Rattle.std.specs.Prelude.{◌≡◌, ◌⊎◌, IfErr, None};
ghost use Rattle.control_block.specs.HandleLists.{IsHeldByDesk};
ghost use Rattle.shared_handle.specs.Locks.{HasOwner};
ghost use Rattle.pointers.specs.HandCalls.{LeavesNow};
ghost use Rattle.pointers.specs.Known.{Lives, owned};

use crate::context::Context;
use crate::desk::Desk;
use crate::domain::Domain;
use crate::fault::Fault;
use crate::fault::call::Call;
use crate::shared::Shared;
use std::cell::RefMut;
use std::marker::Model;

mod cells;
mod compares;
mod pointers;

/// A desk that is held: each call says what the desk was before, and what it is then, with this one event of its own.
/// Meanwhile a plain call on the desk or its pointers is refused `Busy`, as within a visit. What is dropped meanwhile
/// lets go once the desk is no longer held, and what ends by `let_go` or `store` ends then.
pub struct Hand<'t, D: Domain> {
    desk: &'t Desk<'t, D>,
    context: RefMut<'t, Context<D>>,
}

impl<'t, D: Domain> Model for Hand<'t, D> {
    ghost use Rattle.control_block.specs.Desks.{DeskNow};
    ghost use Rattle.control_block.specs.contracts.handles.Shared as shared_handle;
    ghost use Rattle.control_block.specs.contracts.handles.Weak as weak_handle;
    ghost use Rattle.std.specs.Coded.{codes};

    ghost Value = { DeskNow D.Value };

    ghost coded = { Prim.hlevel (codes, shared_handle.the_row.coded, weak_handle.the_row.coded) };

    ghost view = { λ h. h.context.value.desk };
}

impl<'t, D: Domain> Drop for Hand<'t, D> {
    fn drop(self) {
        let Self { desk, context } = self;
        drop(context);
        desk.catch_up();
        desk.end_some();
    }
}

impl<'d, D: Domain> Desk<'d, D> {
    /// The desk is held. `Memory` where there is none to list what is dropped meanwhile.
    pub fn hold(&self) -> Result<Hand<'_, D>, Fault>
        ensures { IfErr result (λ why. (why ≡ Fault.Busy Call.Hold) ⊎ (why ≡ Fault.Memory)) }
    {
        let context = self.open(Call::Hold)?;
        self.make_room(context.allowance())?;
        Ok(Hand {
            desk: self,
            context,
        })
    }
}

impl<'t, D: Domain> Hand<'t, D> {
    /// The pointer is the desk's, and of the object that it was of when it came.
    pub fn look(&mut self, of: &Shared<'_, D>)
        ensures same { self.new ≡ self.old }
        ensures lives { Lives D.opened of.now self.old }
        ensures holds { IsHeldByDesk self.old of.now.handle }
        ensures owns { (owned of.now ≡ None → ⊥) → HasOwner self.old (owned of.now) }
    {
        self.context.look(&of.owner);
    }

    /// The pointer lets go, in C++ its destructor ([util.smartptr.shared.dest]).
    pub fn let_go(&mut self, owner: Shared<'_, D>)
        ensures { LeavesNow self.old owner.entry self.new }
    {
        let domain = self.desk.domain;
        let _ = self.context.leave(domain, owner.into_claim());
    }
}
