//! An owner's object's members, and an owner that goes into a cell.
ghost use Rattle.std.specs.Prelude.{◌≡◌, IfErr, IfOk, None, OnOk, Option, Some};
ghost use Rattle.control_word.specs.declared.model.handle.Kind.TheVariants.{Owner};
ghost use Rattle.pointers.specs.Beside.{seen_by};
ghost use Rattle.pointers.specs.Claims.{known_by};
ghost use Rattle.pointers.specs.SiteCalls.{Exchanged, Locked, Stored, WhyNotDone, WhyNotLocked};
ghost use Rattle.pointers.specs.Sites.{free_site, member_site};

use crate::cells::SharedCell;
use crate::cells::link::Link;
use crate::cells::location::Location;
use crate::cells::member::Member;
use crate::cells::up::Up;
use crate::claim::shared_claim::SharedClaim;
use crate::desk::Desk;
use crate::domain::Domain;
use crate::fault::Fault;
use crate::fault::call::{Call, Spot};
use crate::shared::Shared;
use std::sync::Wait;

/// The pointer of a claim, if there is one.
#[inline(always)]
pub(crate) fn pointer<'t, D: Domain>(
    desk: &'t Desk<'t, D>,
    owner: Option<SharedClaim<D>>,
) -> Option<Shared<'t, D>>
    ensures { result ≡ seen_by (λ x. x.known) owner }
{
    match owner {
        Some(owner) => Some(Shared { desk, owner }),
        None => None,
    }
}

/// The claim of a pointer, if there is one.
#[inline(always)]
pub(crate) fn claim<'t, D: Domain>(pointer: Option<Shared<'t, D>>) -> Option<SharedClaim<D>>
    ensures { seen_by (λ x. x.known) result ≡ pointer.entry }
{
    match pointer {
        Some(pointer) => Some(pointer.into_claim()),
        None => None,
    }
}

/// The claim of a pointer that is borrowed, if there is one.
#[inline(always)]
pub(crate) fn claim_in<'a, 't, D: Domain>(
    pointer: &'a Option<Shared<'t, D>>,
) -> Option<&'a SharedClaim<D>>
    ensures { known_by result ≡ pointer.now }
{
    match pointer {
        Some(pointer) => Some(&pointer.owner),
        None => None,
    }
}

impl<'t, D: Domain> Shared<'t, D> {
    /// The end of a pointer whose claim goes on.
    #[inline(always)]
    pub(crate) fn into_claim(self) -> SharedClaim<D>
        ensures { result.known ≡ self.entry }
    {
        let Self { desk: _, owner } = self;
        owner
    }

    /// The pointer goes into the cell, in C++ `store(std::move(p))`, and what that held lets go.
    #[inline(always)]
    pub fn store(self, cell: SharedCell) -> Result<(), Fault>
        ensures stored { OnOk result (Stored D.opened Owner (free_site cell.0) (Some self.entry)) }
        ensures refused { IfErr result (WhyNotDone D.opened Owner (free_site cell.0) Call.Store) }
    {
        let desk = self.desk;
        desk.cell(cell).store(Some(self))
    }

    /// The pointer goes into the cell, and what that held comes out, in C++ `exchange(std::move(p))`.
    #[inline(always)]
    pub fn exchange(self, cell: SharedCell) -> Result<Option<Shared<'t, D>>, Fault>
        ensures exchanged { IfOk result (Exchanged D.opened Owner (free_site cell.0) (Some self.entry)) }
        ensures refused { IfErr result (WhyNotDone D.opened Owner (free_site cell.0) Call.Exchange) }
    {
        let desk = self.desk;
        desk.cell(cell).exchange(Some(self))
    }

    /// The object's member for an owner of that number, from 0 on: `first` is 0, `next` 1, and how many there are the
    /// domain's shape says.
    #[inline(always)]
    pub fn owner(&self, number: u8) -> Member<'_, 't, D>
        ensures { result ≡ member_site self.now number }
    {
        Member {
            desk: self.desk,
            location: Location::Member(&self.owner, number),
        }
    }

    /// The object's weak member of that number, from 0 on: `up` is 0.
    #[inline(always)]
    pub fn weak(&self, number: u8) -> Up<'_, 't, D>
        ensures { result ≡ member_site self.now number }
    {
        Up {
            desk: self.desk,
            location: Location::Member(&self.owner, number),
        }
    }

    /// The object's member that owns its first child.
    #[inline(always)]
    pub fn first(&self) -> Member<'_, 't, D>
        ensures { result ≡ member_site self.now 0 }
    {
        self.owner(0)
    }

    /// The object's member that owns its next sibling.
    #[inline(always)]
    pub fn next(&self) -> Member<'_, 't, D>
        ensures { result ≡ member_site self.now 1 }
    {
        self.owner(1)
    }

    /// The object's weak member.
    #[inline(always)]
    pub fn up(&self) -> Up<'_, 't, D>
        ensures { result ≡ member_site self.now 0 }
    {
        self.weak(0)
    }

    /// An owner of what its weak member is of (waits). None where that is empty or expired.
    #[inline(always)]
    pub fn parent<R: Wait>(&self, rt: &R) -> Result<Option<Shared<'t, D>>, Fault>
        ensures parent { IfOk result (Locked D.opened (member_site self.now 0)) }
        ensures refused { IfErr result (WhyNotLocked D.opened (member_site self.now 0)) }
    {
        self.up().lock(rt)
    }

    /// A member for an owner, by its number, which keeps the object.
    #[inline(always)]
    pub fn into_member(self, number: u8) -> Link<'t, D>
        ensures { (result.of ≡ self.entry) × (result.number ≡ number) }
    {
        Link { of: self, number }
    }

    /// The member `first`, which keeps the object.
    #[inline(always)]
    pub fn into_first(self) -> Link<'t, D>
        ensures { (result.of ≡ self.entry) × (result.number ≡ 0) }
    {
        self.into_member(0)
    }

    /// The member `next`, which keeps the object.
    #[inline(always)]
    pub fn into_next(self) -> Link<'t, D>
        ensures { (result.of ≡ self.entry) × (result.number ≡ 1) }
    {
        self.into_member(1)
    }
}
