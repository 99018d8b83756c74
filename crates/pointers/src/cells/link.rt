//! Members that keep their object.
ghost use Rattle.std.specs.Prelude.{◌≡◌, IfErr, IfOk, None, OnOk};
ghost use Rattle.control_word.specs.declared.model.handle.Kind.TheVariants.{Owner};
ghost use Rattle.pointers.specs.SiteCalls.{Exchanged, Loaded, Stored, WhyNotDone};
ghost use Rattle.pointers.specs.Sites.{member_site};

use crate::cells::member::Member;
use crate::domain::Domain;
use crate::fault::Fault;
use crate::fault::call::Call;
use crate::shared::Shared;
use std::sync::Wait;

/// A member of an object that holds an owner, and keeps the object: what a walk over a list is at, so that it needs no
/// case for the first node.
pub struct Link<'t, D: Domain> {
    pub(crate) of: Shared<'t, D>,
    pub(crate) number: u8,
}

impl<'t, D: Domain> Drop for Link<'t, D> {
    #[inline(always)]
    fn drop(self) {
        let Self { of, number: _ } = self;
        drop(of);
    }
}

impl<'t, D: Domain> Link<'t, D> {
    /// The member, for its other calls.
    #[inline(always)]
    pub fn member(&self) -> Member<'_, 't, D>
        ensures { result ≡ member_site self.now.of self.now.number }
    {
        self.of.owner(self.number)
    }

    /// The pointer that keeps the object.
    #[inline(always)]
    pub fn into_owner(self) -> Shared<'t, D>
        ensures { result ≡ self.entry.of }
    {
        let Self { of, number: _ } = self;
        of
    }

    /// As `Member::load` (waits).
    #[inline(always)]
    pub fn load<R: Wait>(&self, rt: &R) -> Result<Option<Shared<'t, D>>, Fault>
        ensures loaded { IfOk result (Loaded D.opened Owner (member_site self.now.of self.now.number)) }
        ensures refused { IfErr result (WhyNotDone D.opened Owner (member_site self.now.of self.now.number) Call.Load) }
    {
        self.member().load(rt)
    }

    /// As `Member::store`.
    #[inline(always)]
    pub fn store(&self, new: Option<Shared<'t, D>>) -> Result<(), Fault>
        ensures stored { OnOk result (Stored D.opened Owner (member_site self.now.of self.now.number) new.entry) }
        ensures refused { IfErr result (WhyNotDone D.opened Owner (member_site self.now.of self.now.number)
            Call.Store) }
    {
        self.member().store(new)
    }

    /// As `Member::exchange`.
    #[inline(always)]
    pub fn exchange(&self, new: Option<Shared<'t, D>>) -> Result<Option<Shared<'t, D>>, Fault>
        ensures exchanged { IfOk result (Exchanged D.opened Owner (member_site self.now.of self.now.number) new.entry) }
        ensures refused { IfErr result (WhyNotDone D.opened Owner (member_site self.now.of self.now.number)
            Call.Exchange) }
    {
        self.member().exchange(new)
    }

    /// As `Member::take`.
    #[inline(always)]
    pub fn take(&self) -> Result<Option<Shared<'t, D>>, Fault>
        ensures taken { IfOk result (Exchanged D.opened Owner (member_site self.now.of self.now.number) None) }
        ensures refused { IfErr result (WhyNotDone D.opened Owner (member_site self.now.of self.now.number)
            Call.Exchange) }
    {
        self.member().take()
    }
}
