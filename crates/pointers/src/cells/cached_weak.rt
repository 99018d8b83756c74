//! Places for weak pointers that are read again and again.
ghost use Rattle.std.specs.Prelude.{◌≡◌, true, IfErr, IfOk, None, OnOk, Option, Some};
ghost use Rattle.control_word.specs.declared.model.handle.Kind.TheVariants as kind;
ghost use Rattle.pointers.specs.Beside.{seen_by};
ghost use Rattle.pointers.specs.declared.known.Known.{Known};
ghost use Rattle.pointers.specs.declared.fault.call.Call.TheVariants.{Holds};
ghost use Rattle.pointers.specs.SiteCalls.{Found, LookedFor, WhyNotFound, WhyNotLooked};
ghost use Rattle.pointers.specs.Sites.{free_site};

use crate::cells::WeakCell;
use crate::cells::location::Location;
use crate::cells::up::Up;
use crate::desk::Desk;
use crate::domain::Domain;
use crate::fault::Fault;
use crate::weak::Weak;
use std::sync::Wait;

/// A place for a weak pointer, with the pointer that was found there last. While the place holds that still, a read is
/// one look at it, and changes no count: a `lock` of what was found is all that asks the object. What was found last
/// keeps its object's block, and not the object.
pub struct CachedWeak<'p, 't, D: Domain> {
    pub(crate) place: Up<'p, 't, D>,
    pub(crate) found: Option<Weak<'t, D>>,
}

impl<'p, 't, D: Domain> Drop for CachedWeak<'p, 't, D> {
    #[inline(always)]
    fn drop(self) {
        let Self { place: _, found } = self;
        drop(found);
    }
}

impl<'d, D: Domain> Desk<'d, D> {
    /// A free cell for weak pointers, to be read again and again.
    #[inline(always)]
    pub fn cached_weak(&self, cell: WeakCell) -> CachedWeak<'_, '_, D>
        ensures cell { result.place ≡ free_site cell.0 }
        ensures none { result.found ≡ None }
    {
        self.weak_cell(cell).cached()
    }
}

impl<'p, 't, D: Domain> Up<'p, 't, D> {
    /// The place, to be read again and again. Nothing is looked at yet.
    #[inline(always)]
    pub fn cached(self) -> CachedWeak<'p, 't, D>
        ensures place { result.place ≡ self.entry }
        ensures none { result.found ≡ None }
    {
        CachedWeak {
            place: self,
            found: None,
        }
    }

    /// As `Member::still_holds`.
    #[inline(always)]
    fn still_holds(&self, mine: &Weak<'t, D>) -> Result<bool, Fault>
        ensures told { IfOk result (LookedFor D.opened kind.Weak self.now (Some mine.now)) }
        ensures refused { IfErr result (WhyNotLooked D.opened kind.Weak self.now Holds) }
    {
        match self.location {
            Location::Free(number) => self.desk.weak_cell(WeakCell(number)).holds_this(mine),
            Location::Member(..) => self.holds_this(mine),
        }
    }
}

impl<'p, 't, D: Domain> CachedWeak<'p, 't, D> {
    /// What the place holds (waits): the pointer that was found last, where a look tells that it is there still, and
    /// else a copy of what is there, by a load. None where that is empty. At a fault what was found last stays.
    #[inline(always)]
    pub fn get<R: Wait>(&mut self, rt: &R) -> Result<Option<&Weak<'t, D>>, Fault>
        ensures found { IfOk result (λ r. Found D.opened kind.Weak self.old.place (seen_by (λ x. x.now) r)) }
        ensures refused { IfErr result (WhyNotFound D.opened kind.Weak self.old.place) }
    {
        self.look(rt)?;
        Ok(self.found())
    }

    /// The same, for a caller that reads it by `found`.
    #[inline(always)]
    pub fn look<R: Wait>(&mut self, rt: &R) -> Result<(), Fault>
        ensures found { OnOk result (Found D.opened kind.Weak self.old.place self.new.found) }
        ensures stays { IfErr result (λ _. self.new.found ≡ self.old.found) }
        ensures place { self.new.place ≡ self.old.place }
        ensures refused { IfErr result (WhyNotFound D.opened kind.Weak self.old.place) }
    {
        if self.holds_still()? {
            return Ok(());
        }
        self.found = self.place.load(rt)?;
        Ok(())
    }

    /// The pointer that was found last.
    #[inline(always)]
    pub fn found(&self) -> Option<&Weak<'t, D>>
        ensures { seen_by (λ x. x.now) result ≡ self.now.found }
    {
        self.found.as_ref()
    }

    /// Whether the place holds what was found last, if that is a pointer.
    #[inline(always)]
    fn holds_still(&self) -> Result<bool, Fault>
        ensures found { IfOk result (λ same. same ≡ true → (c : Known D.Value) × (self.now.found ≡ Some c)
            × LookedFor D.opened kind.Weak self.now.place (Some c) true) }
        ensures refused { IfErr result (WhyNotLooked D.opened kind.Weak self.now.place Holds) }
    {
        match &self.found {
            Some(found) => self.place.still_holds(found),
            None => Ok(false),
        }
    }
}
