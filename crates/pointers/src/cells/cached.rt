//! Places that are read again and again.
ghost use Rattle.std.specs.Prelude.{◌≡◌, true, IfErr, IfOk, None, OnOk, Some};
ghost use Rattle.control_word.specs.declared.model.handle.Kind.TheVariants.{Owner};
ghost use Rattle.pointers.specs.Beside.{seen_by};
ghost use Rattle.pointers.specs.declared.known.Known.{Known};
ghost use Rattle.pointers.specs.declared.fault.call.Call.TheVariants.{Holds};
ghost use Rattle.pointers.specs.SiteCalls.{Found, LookedFor, WhyNotFound, WhyNotLooked};

use crate::cells::SharedCell;
use crate::cells::location::Location;
use crate::cells::member::Member;
use crate::domain::Domain;
use crate::fault::Fault;
use crate::shared::Shared;
use std::sync::Wait;

/// A place for an owner, with the pointer that was found there last, in arc-swap `Cache`. While the place holds that
/// still, a read is one look at it, and changes no count. **What was found last lives on** until a `get` finds another
/// pointer, or this is dropped.
pub struct Cached<'p, 't, D: Domain> {
    pub(crate) place: Member<'p, 't, D>,
    pub(crate) found: Option<Shared<'t, D>>,
}

impl<'p, 't, D: Domain> Drop for Cached<'p, 't, D> {
    #[inline(always)]
    fn drop(self) {
        let Self { place: _, found } = self;
        drop(found);
    }
}

impl<'p, 't, D: Domain> Member<'p, 't, D> {
    /// The place, to be read again and again. Nothing is looked at yet.
    #[inline(always)]
    pub fn cached(self) -> Cached<'p, 't, D>
        ensures place { result.place ≡ self.entry }
        ensures none { result.found ≡ None }
    {
        Cached {
            place: self,
            found: None,
        }
    }

    /// As `holds_this`, for a look again and again: a free cell's is a call of its own, which asks once what the place
    /// is.
    #[inline(always)]
    pub(crate) fn still_holds(&self, mine: &Shared<'t, D>) -> Result<bool, Fault>
        ensures told { IfOk result (LookedFor D.opened Owner self.now (Some mine.now)) }
        ensures refused { IfErr result (WhyNotLooked D.opened Owner self.now Holds) }
    {
        match self.location {
            Location::Free(number) => self.desk.cell(SharedCell(number)).holds_this(mine),
            Location::Member(..) => self.holds_this(mine),
        }
    }
}

impl<'p, 't, D: Domain> Cached<'p, 't, D> {
    /// What the place holds (waits): the pointer that was found last, where a look tells that it is there still, and
    /// else a copy of what is there, by a load. None where that is empty. At a fault what was found last stays.
    #[inline(always)]
    pub fn get<R: Wait>(&mut self, rt: &R) -> Result<Option<&Shared<'t, D>>, Fault>
        ensures found { IfOk result (λ r. Found D.opened Owner self.old.place (seen_by (λ x. x.now) r)) }
        ensures refused { IfErr result (WhyNotFound D.opened Owner self.old.place) }
    {
        self.look(rt)?;
        Ok(self.found())
    }

    /// The same, for a caller that reads it by `found`.
    #[inline(always)]
    pub fn look<R: Wait>(&mut self, rt: &R) -> Result<(), Fault>
        ensures found { OnOk result (Found D.opened Owner self.old.place self.new.found) }
        ensures stays { IfErr result (λ _. self.new.found ≡ self.old.found) }
        ensures place { self.new.place ≡ self.old.place }
        ensures refused { IfErr result (WhyNotFound D.opened Owner self.old.place) }
    {
        if self.holds_still()? {
            return Ok(());
        }
        self.found = self.place.load(rt)?;
        Ok(())
    }

    /// The pointer that was found last.
    #[inline(always)]
    pub fn found(&self) -> Option<&Shared<'t, D>>
        ensures { seen_by (λ x. x.now) result ≡ self.now.found }
    {
        self.found.as_ref()
    }

    /// Whether the place holds what was found last, if that is a pointer.
    #[inline(always)]
    fn holds_still(&self) -> Result<bool, Fault>
        ensures found { IfOk result (λ same. same ≡ true → (c : Known D.Value) × (self.now.found ≡ Some c)
            × LookedFor D.opened Owner self.now.place (Some c) true) }
        ensures refused { IfErr result (WhyNotLooked D.opened Owner self.now.place Holds) }
    {
        match &self.found {
            Some(found) => self.place.still_holds(found),
            None => Ok(false),
        }
    }
}
