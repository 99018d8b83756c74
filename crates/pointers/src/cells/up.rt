//! Places for weak pointers.
ghost use Rattle.std.specs.Prelude.{◌≡◌, IfErr, IfOk, None, OnOk, Some, false, true};
ghost use Rattle.control_word.specs.declared.model.handle.Kind.TheVariants as kind;
ghost use Rattle.pointers.specs.Beside.{seen_by};
ghost use Rattle.pointers.specs.Cells.{HasMember, IsWeakSite};
ghost use Rattle.pointers.specs.Claims.{known_by};
ghost use Rattle.pointers.specs.Places.{IsBeyond, WhyNoCell, WhyNotDoneAt, spot_of, weak_site_of};
ghost use Rattle.pointers.specs.SiteCalls.{Exchanged, Loaded, Locked, LookedFor, Stored, WhyNotDone, WhyNotLocked};
ghost use Rattle.pointers.specs.SiteCalls.{WhyNotLooked, WhyNotLookedFor};
ghost use Rattle.pointers.specs.Sites.{owner_of, site_by};

use crate::cells::location::{Location, owner_at};
use crate::claim::shared_claim::SharedClaim;
use crate::desk::Desk;
use crate::domain::Domain;
use crate::fault::Fault;
use crate::fault::call::{Call, Spot};
use crate::shared::Shared;
use crate::weak::Weak;
use crate::weak::cells::{claim, pointer};
use atomic_cells::WeakAt;
use std::marker::Model;
use std::sync::Wait;

/// A place for a weak pointer: a weak member of an object, or a free cell, in C++ `atomic<weak_ptr>`
/// ([util.smartptr.atomic.weak]). It is reached as a `Member` is, with the same refusals.
pub struct Up<'p, 't, D: Domain> {
    pub(crate) desk: &'t Desk<'t, D>,
    pub(crate) location: Location<&'p SharedClaim<D>>,
}

impl<'p, 't, D: Domain> Model for Up<'p, 't, D> {
    ghost use Rattle.control_block.specs.contracts.handles.Shared as shared_handle;
    ghost use Rattle.control_block.specs.contracts.handles.Weak as weak_handle;
    ghost use Rattle.std.specs.Coded.{codes};
    ghost use Rattle.pointers.specs.Sites.{Site, site_by};

    ghost Value = { Site D.Value };

    ghost coded = { Prim.hlevel (codes, shared_handle.the_row.coded, weak_handle.the_row.coded) };

    ghost view = { λ c. site_by c.location };
}

impl<'p, 't, D: Domain> Drop for Up<'p, 't, D> {
    #[inline(always)]
    fn drop(self) {
        let Self {
            desk: _,
            location: _,
        } = self;
    }
}

/// What messages call a cell for weak pointers.
#[inline(always)]
fn spot_at<D: Domain>(location: Location<&SharedClaim<D>>) -> Spot
    ensures { result ≡ spot_of kind.Weak (site_by location.entry) }
{
    match location {
        Location::Free(number) => Spot::Weak(number),
        Location::Member(_, number) => Spot::WeakMember(number),
    }
}

/// The cell, for a call.
#[inline(always)]
fn cell_at<'p, D: Domain>(
    desk: &Desk<'_, D>,
    location: Location<&'p SharedClaim<D>>,
    call: Call,
) -> Result<WeakAt<'p>, Fault>
    ensures cell { IfOk result (λ a. IsWeakSite D.opened a.site (owner_of (site_by location.entry))) }
    ensures there { IfOk result (λ a. a.site ≡ weak_site_of (site_by location.entry)) }
    ensures refused { IfErr result (WhyNoCell D.opened kind.Weak (site_by location.entry) call) }
{
    match location {
        Location::Free(number) => {
            if number >= desk.domain.weak_cells() {
                return Err(Fault::Cell(call));
            }
            Ok(WeakAt::free(number))
        }
        Location::Member(of, number) => {
            if is_beyond(desk, number) {
                return Err(Fault::Member(call));
            }
            match of.weak_member(number) {
                Ok(at) => Ok(at),
                Err(why) => Err(Fault::of(call, why)),
            }
        }
    }
}

/// Whether objects of the domain have no weak member of that number.
#[inline(always)]
fn is_beyond<D: Domain>(desk: &Desk<'_, D>, number: u8) -> bool
    ensures beyond { result ≡ true → IsBeyond D.opened kind.Weak number }
    ensures there { result ≡ false → HasMember D.opened kind.Weak number }
{
    number >= 1
        && u64::from(number) + u64::from(desk.domain.owners()) >= u64::from(desk.domain.members())
}

impl<'p, 't, D: Domain> Up<'p, 't, D> {
    /// The owner whose object's member it is.
    #[inline(always)]
    pub(crate) fn owner(&self) -> Option<&'p SharedClaim<D>>
        ensures { known_by result ≡ owner_of self.now }
    {
        owner_at(self.location)
    }

    /// What messages call it.
    #[inline(always)]
    pub(crate) fn spot(&self) -> Spot
        ensures { result ≡ spot_of kind.Weak self.now }
    {
        spot_at(self.location)
    }

    /// The cell, for a call.
    #[inline(always)]
    pub(crate) fn at(&self, call: Call) -> Result<WeakAt<'p>, Fault>
        ensures cell { IfOk result (λ a. IsWeakSite D.opened a.site (owner_of self.now)) }
        ensures there { IfOk result (λ a. a.site ≡ weak_site_of self.now) }
        ensures refused { IfErr result (WhyNoCell D.opened kind.Weak self.now call) }
    {
        cell_at(self.desk, self.location, call)
    }

    /// A copy of what it holds, in C++ `load()` (waits). None where that is empty.
    #[inline(always)]
    pub fn load<R: Wait>(&self, rt: &R) -> Result<Option<Weak<'t, D>>, Fault>
        ensures loaded { IfOk result (Loaded D.opened kind.Weak self.now) }
        ensures refused { IfErr result (WhyNotDone D.opened kind.Weak self.now Call.Load) }
    {
        let desk = self.desk;
        let call = Call::Load(self.spot());
        let at = self.at(call)?;
        let first = desk
            .open(call)?
            .load_weak_once(desk.domain, at, self.owner());
        if let Some(weak) = first {
            return Ok(pointer(desk, weak));
        }
        let at = self.at(call)?;
        let came = desk
            .open(call)?
            .load_weak(rt, desk.domain, at, self.owner());
        match came {
            Ok(weak) => Ok(pointer(desk, weak)),
            Err(why) => Err(Fault::of(call, why)),
        }
    }

    /// An owner of what it holds, in C++ `load().lock()` (waits). None where that is empty or expired.
    #[inline(always)]
    pub fn lock<R: Wait>(&self, rt: &R) -> Result<Option<Shared<'t, D>>, Fault>
        ensures locked { IfOk result (Locked D.opened self.now) }
        ensures refused { IfErr result (WhyNotLocked D.opened self.now) }
    {
        let came = self.load(rt)?;
        match came {
            Some(weak) => weak.lock(rt),
            None => Ok(None),
        }
    }

    /// Whether it holds what this pointer is, or is empty where that is `None`, by the rule of `compare_exchange`: the
    /// same place, and the same object. It is one look, which changes nothing and waits for nobody. An empty pointer
    /// takes room meanwhile.
    #[inline(always)]
    pub fn holds(&self, mine: Option<&Weak<'t, D>>) -> Result<bool, Fault>
        ensures told { IfOk result (LookedFor D.opened kind.Weak self.now (seen_by (λ x. x.now) mine.entry)) }
        ensures refused { IfErr result (WhyNotLookedFor D.opened kind.Weak self.now (seen_by (λ x. x.now) mine.entry)) }
    {
        match mine {
            Some(mine) => self.holds_this(mine),
            None => self.holds_none(),
        }
    }

    /// The same of a pointer that is there.
    #[inline(always)]
    pub(crate) fn holds_this(&self, mine: &Weak<'t, D>) -> Result<bool, Fault>
        ensures told { IfOk result (LookedFor D.opened kind.Weak self.now (Some mine.now)) }
        ensures refused { IfErr result (WhyNotLooked D.opened kind.Weak self.now Call.Holds) }
    {
        let desk = self.desk;
        let call = Call::Holds(self.spot());
        let at = self.at(call)?;
        Ok(
            desk.open(call)?
                .holds_weak(desk.domain, at, self.owner(), &mine.weak),
        )
    }

    /// The same of an empty one.
    fn holds_none(&self) -> Result<bool, Fault>
        ensures told { IfOk result (LookedFor D.opened kind.Weak self.now None) }
        ensures refused { IfErr result (WhyNotDone D.opened kind.Weak self.now Call.Holds) }
    {
        let none = self
            .desk
            .empty_weak(Call::Holds(self.spot()), self.owner())?;
        self.holds_this(&none)
    }

    /// The pointer, or an empty one, goes into it, in C++ `store(std::move(w))`, and what it held lets go.
    #[inline(always)]
    pub fn store(&self, new: Option<Weak<'t, D>>) -> Result<(), Fault>
        ensures stored { OnOk result (Stored D.opened kind.Weak self.now new.entry) }
        ensures refused { IfErr result (WhyNotDone D.opened kind.Weak self.now Call.Store) }
    {
        self.put(Call::Store(self.spot()), new)
    }

    #[inline(always)]
    fn put(&self, call: Call, new: Option<Weak<'t, D>>) -> Result<(), Fault>
        ensures stored { OnOk result (Stored D.opened kind.Weak self.now new.entry) }
        ensures refused { IfErr result (WhyNotDoneAt D.opened kind.Weak self.now call) }
    {
        let desk = self.desk;
        let at = self.at(call)?;
        let mut context = desk.open(call)?;
        match context.store_weak(desk.domain, at, self.owner(), claim(new)) {
            Ok(()) => {
                context.spare(desk.domain);
                Ok(())
            }
            Err(why) => Err(Fault::of(call, why)),
        }
    }

    /// The pointer, or an empty one, goes into it, and what it held comes out, in C++ `exchange(std::move(w))`.
    #[inline(always)]
    pub fn exchange(&self, new: Option<Weak<'t, D>>) -> Result<Option<Weak<'t, D>>, Fault>
        ensures exchanged { IfOk result (Exchanged D.opened kind.Weak self.now new.entry) }
        ensures refused { IfErr result (WhyNotDone D.opened kind.Weak self.now Call.Exchange) }
    {
        let desk = self.desk;
        let call = Call::Exchange(self.spot());
        let at = self.at(call)?;
        let came = desk
            .open(call)?
            .exchange_weak(desk.domain, at, self.owner(), claim(new));
        match came {
            Ok(weak) => Ok(pointer(desk, weak)),
            Err(why) => Err(Fault::of(call, why)),
        }
    }

    /// What it holds comes out, and an empty pointer stays.
    #[inline(always)]
    pub fn take(&self) -> Result<Option<Weak<'t, D>>, Fault>
        ensures taken { IfOk result (Exchanged D.opened kind.Weak self.now None) }
        ensures refused { IfErr result (WhyNotDone D.opened kind.Weak self.now Call.Exchange) }
    {
        self.exchange(None)
    }

    /// What it holds lets go.
    #[inline(always)]
    pub fn clear(&self) -> Result<(), Fault>
        ensures cleared { OnOk result (Stored D.opened kind.Weak self.now None) }
        ensures refused { IfErr result (WhyNotDone D.opened kind.Weak self.now Call.Clear) }
    {
        self.put(Call::Clear(self.spot()), None)
    }
}
