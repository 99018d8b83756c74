//! Places for owners.
ghost use Rattle.std.specs.Prelude.{◌≡◌, IfErr, IfOk, None, OnOk, Some, false, true};
ghost use Rattle.control_word.specs.declared.model.handle.Kind.TheVariants.{Owner};
ghost use Rattle.pointers.specs.Beside.{seen_by};
ghost use Rattle.pointers.specs.Cells.{HasMember, IsSharedSite};
ghost use Rattle.pointers.specs.Claims.{known_by};
ghost use Rattle.pointers.specs.Places.{IsBeyond, WhyNoCell, WhyNotDoneAt, shared_site_of, spot_of};
ghost use Rattle.pointers.specs.SiteCalls.{Exchanged, Loaded, LookedFor, Stored, WhyNotDone, WhyNotLooked};
ghost use Rattle.pointers.specs.SiteCalls.{WhyNotLookedFor};
ghost use Rattle.pointers.specs.Sites.{owner_of, site_by};

use crate::cells::location::{Location, owner_at};
use crate::claim::shared_claim::SharedClaim;
use crate::desk::Desk;
use crate::domain::Domain;
use crate::fault::Fault;
use crate::fault::call::{Call, Spot};
use crate::shared::Shared;
use crate::shared::cells::{claim, pointer};
use atomic_cells::SharedAt;
use shared_handle::Gone;
use std::marker::Model;
use std::sync::Wait;

/// A place for an owner: a member of an object, or a free cell, in C++ `atomic<shared_ptr>`
/// ([util.smartptr.atomic.shared]). A member is reached by a pointer to its object, which is borrowed meanwhile; a call
/// answers `Refused(_, Null)` or `Refused(_, Outside)` where that pointer is not into the object that it owns, of a
/// number that no member has `Member`, and of a free cell that isn't there `Cell`.
pub struct Member<'p, 't, D: Domain> {
    pub(crate) desk: &'t Desk<'t, D>,
    pub(crate) location: Location<&'p SharedClaim<D>>,
}

impl<'p, 't, D: Domain> Model for Member<'p, 't, D> {
    ghost use Rattle.control_block.specs.contracts.handles.Shared as shared_handle;
    ghost use Rattle.control_block.specs.contracts.handles.Weak as weak_handle;
    ghost use Rattle.std.specs.Coded.{codes};
    ghost use Rattle.pointers.specs.Sites.{Site, site_by};

    ghost Value = { Site D.Value };

    ghost coded = { Prim.hlevel (codes, shared_handle.the_row.coded, weak_handle.the_row.coded) };

    ghost view = { λ c. site_by c.location };
}

impl<'p, 't, D: Domain> Drop for Member<'p, 't, D> {
    #[inline(always)]
    fn drop(self) {
        let Self {
            desk: _,
            location: _,
        } = self;
    }
}

/// What messages call a cell for owners.
#[inline(always)]
fn spot_at<D: Domain>(location: Location<&SharedClaim<D>>) -> Spot
    ensures { result ≡ spot_of Owner (site_by location.entry) }
{
    match location {
        Location::Free(number) => Spot::Shared(number),
        Location::Member(_, number) => Spot::Owner(number),
    }
}

/// The cell, for a call.
#[inline(always)]
fn cell_at<'p, D: Domain>(
    desk: &Desk<'_, D>,
    location: Location<&'p SharedClaim<D>>,
    call: Call,
) -> Result<SharedAt<'p>, Fault>
    ensures cell { IfOk result (λ a. IsSharedSite D.opened a.site (owner_of (site_by location.entry))) }
    ensures there { IfOk result (λ a. a.site ≡ shared_site_of (site_by location.entry)) }
    ensures refused { IfErr result (WhyNoCell D.opened Owner (site_by location.entry) call) }
{
    match location {
        Location::Free(number) => {
            if number >= desk.domain.shared_cells() {
                return Err(Fault::Cell(call));
            }
            Ok(SharedAt::free(number))
        }
        Location::Member(of, number) => {
            if is_beyond(desk, number) {
                return Err(Fault::Member(call));
            }
            match of.owner_member(number) {
                Ok(at) => Ok(at),
                Err(why) => Err(Fault::of(call, why)),
            }
        }
    }
}

/// Whether objects of the domain have no member for owners of that number.
#[inline(always)]
fn is_beyond<D: Domain>(desk: &Desk<'_, D>, number: u8) -> bool
    ensures beyond { result ≡ true → IsBeyond D.opened Owner number }
    ensures there { result ≡ false → HasMember D.opened Owner number }
{
    number >= 2 && u32::from(number) >= desk.domain.owners()
}

impl<'p, 't, D: Domain> Member<'p, 't, D> {
    /// The owner whose object's member it is.
    #[inline(always)]
    pub(crate) fn owner(&self) -> Option<&'p SharedClaim<D>>
        ensures { known_by result ≡ owner_of self.now }
    {
        owner_at(self.location)
    }

    /// What messages call it.
    #[inline(always)]
    pub(crate) fn spot(&self) -> Spot
        ensures { result ≡ spot_of Owner self.now }
    {
        spot_at(self.location)
    }

    /// The cell, for a call.
    #[inline(always)]
    pub(crate) fn at(&self, call: Call) -> Result<SharedAt<'p>, Fault>
        ensures cell { IfOk result (λ a. IsSharedSite D.opened a.site (owner_of self.now)) }
        ensures there { IfOk result (λ a. a.site ≡ shared_site_of self.now) }
        ensures refused { IfErr result (WhyNoCell D.opened Owner self.now call) }
    {
        cell_at(self.desk, self.location, call)
    }

    /// A copy of what it holds, in C++ `load()` (waits). None where that is empty.
    #[inline(always)]
    pub fn load<R: Wait>(&self, rt: &R) -> Result<Option<Shared<'t, D>>, Fault>
        ensures loaded { IfOk result (Loaded D.opened Owner self.now) }
        ensures refused { IfErr result (WhyNotDone D.opened Owner self.now Call.Load) }
    {
        let desk = self.desk;
        let call = Call::Load(self.spot());
        let at = self.at(call)?;
        let first = desk.open(call)?.load_once(desk.domain, at, self.owner());
        if let Some(owner) = first {
            return Ok(pointer(desk, owner));
        }
        let at = self.at(call)?;
        let came = desk.open(call)?.load(rt, desk.domain, at, self.owner());
        match came {
            Ok(owner) => Ok(pointer(desk, owner)),
            Err(why) => Err(Fault::of(call, why)),
        }
    }

    /// Whether it holds what this pointer is, or is empty where that is `None`, in C++ `load() == p` by the rule of
    /// `compare_exchange`: the same place, and the same object. It is one look, which changes nothing and waits for
    /// nobody. An empty pointer takes room meanwhile.
    #[inline(always)]
    pub fn holds(&self, mine: Option<&Shared<'t, D>>) -> Result<bool, Fault>
        ensures told { IfOk result (LookedFor D.opened Owner self.now (seen_by (λ x. x.now) mine.entry)) }
        ensures refused { IfErr result (WhyNotLookedFor D.opened Owner self.now (seen_by (λ x. x.now) mine.entry)) }
    {
        match mine {
            Some(mine) => self.holds_this(mine),
            None => self.holds_none(),
        }
    }

    /// The same of a pointer that is there.
    #[inline(always)]
    pub(crate) fn holds_this(&self, mine: &Shared<'t, D>) -> Result<bool, Fault>
        ensures told { IfOk result (LookedFor D.opened Owner self.now (Some mine.now)) }
        ensures refused { IfErr result (WhyNotLooked D.opened Owner self.now Call.Holds) }
    {
        let desk = self.desk;
        let call = Call::Holds(self.spot());
        let at = self.at(call)?;
        Ok(
            desk.open(call)?
                .holds(desk.domain, at, self.owner(), &mine.owner),
        )
    }

    /// The same of an empty one.
    fn holds_none(&self) -> Result<bool, Fault>
        ensures told { IfOk result (LookedFor D.opened Owner self.now None) }
        ensures refused { IfErr result (WhyNotDone D.opened Owner self.now Call.Holds) }
    {
        let none = self
            .desk
            .empty_owner(Call::Holds(self.spot()), self.owner())?;
        self.holds_this(&none)
    }

    /// The pointer, or an empty one, goes into it, in C++ `store(std::move(p))`, and what it held lets go.
    #[inline(always)]
    pub fn store(&self, new: Option<Shared<'t, D>>) -> Result<(), Fault>
        ensures stored { OnOk result (Stored D.opened Owner self.now new.entry) }
        ensures refused { IfErr result (WhyNotDone D.opened Owner self.now Call.Store) }
    {
        self.put(Call::Store(self.spot()), new)
    }

    #[inline(always)]
    fn put(&self, call: Call, new: Option<Shared<'t, D>>) -> Result<(), Fault>
        ensures stored { OnOk result (Stored D.opened Owner self.now new.entry) }
        ensures refused { IfErr result (WhyNotDoneAt D.opened Owner self.now call) }
    {
        let desk = self.desk;
        let at = self.at(call)?;
        let came = desk
            .open(call)?
            .store(desk.domain, at, self.owner(), claim(new));
        match came {
            Ok(gone) => {
                if let Gone::Last = gone {
                    desk.end_some();
                }
                Ok(())
            }
            Err(why) => Err(Fault::of(call, why)),
        }
    }

    /// The pointer, or an empty one, goes into it, and what it held comes out, in C++ `exchange(std::move(p))`.
    #[inline(always)]
    pub fn exchange(&self, new: Option<Shared<'t, D>>) -> Result<Option<Shared<'t, D>>, Fault>
        ensures exchanged { IfOk result (Exchanged D.opened Owner self.now new.entry) }
        ensures refused { IfErr result (WhyNotDone D.opened Owner self.now Call.Exchange) }
    {
        let desk = self.desk;
        let call = Call::Exchange(self.spot());
        let at = self.at(call)?;
        let came = desk
            .open(call)?
            .exchange(desk.domain, at, self.owner(), claim(new));
        match came {
            Ok(owner) => Ok(pointer(desk, owner)),
            Err(why) => Err(Fault::of(call, why)),
        }
    }

    /// What it holds comes out, and an empty pointer stays, in C++ `exchange(nullptr)` or `std::move(member)`.
    #[inline(always)]
    pub fn take(&self) -> Result<Option<Shared<'t, D>>, Fault>
        ensures taken { IfOk result (Exchanged D.opened Owner self.now None) }
        ensures refused { IfErr result (WhyNotDone D.opened Owner self.now Call.Exchange) }
    {
        self.exchange(None)
    }

    /// What it holds lets go, in C++ `store(nullptr)` or `reset()`.
    #[inline(always)]
    pub fn clear(&self) -> Result<(), Fault>
        ensures cleared { OnOk result (Stored D.opened Owner self.now None) }
        ensures refused { IfErr result (WhyNotDone D.opened Owner self.now Call.Clear) }
    {
        self.put(Call::Clear(self.spot()), None)
    }
}
