//! Free cells of the domain.
ghost use Rattle.std.specs.Prelude.{◌≡◌, false, IfErr, IfOk, None, OnOk};
ghost use Rattle.control_word.specs.declared.model.handle.Kind.TheVariants as kind;
ghost use Rattle.pointers.specs.Beside.{seen_by};
ghost use Rattle.pointers.specs.SiteCalls.{Exchanged, IsUpdated, Loaded, Locked, LookedFor, Stored, WhyNotDone};
ghost use Rattle.pointers.specs.SiteCalls.{WhyNotLocked, WhyNotLookedFor, WhyNotUpdated};
ghost use Rattle.pointers.specs.Sites.{free_site};

use crate::cells::cached::Cached;
use crate::cells::cached_value::CachedValue;
use crate::cells::location::Location;
use crate::cells::member::Member;
use crate::cells::up::Up;
use crate::cells::{SharedCell, WeakCell};
use crate::desk::Desk;
use crate::domain::Domain;
use crate::fault::Fault;
use crate::fault::call::Call;
use crate::shared::Shared;
use crate::weak::Weak;
use std::sync::Wait;

impl<'d, D: Domain> Desk<'d, D> {
    /// A free cell for owners, by all calls of a place.
    #[inline(always)]
    pub fn cell(&self, cell: SharedCell) -> Member<'_, '_, D>
        ensures { result ≡ free_site cell.0 }
    {
        Member {
            desk: self,
            location: Location::Free(cell.0),
        }
    }

    /// The same of a cell for weak pointers.
    #[inline(always)]
    pub fn weak_cell(&self, cell: WeakCell) -> Up<'_, '_, D>
        ensures { result ≡ free_site cell.0 }
    {
        Up {
            desk: self,
            location: Location::Free(cell.0),
        }
    }

    /// A copy of what the cell holds, in C++ `load()` (waits). None where it holds an empty pointer.
    #[inline(always)]
    pub fn load<R: Wait>(&self, rt: &R, cell: SharedCell) -> Result<Option<Shared<'_, D>>, Fault>
        ensures loaded { IfOk result (Loaded D.opened kind.Owner (free_site cell.0)) }
        ensures refused { IfErr result (WhyNotDone D.opened kind.Owner (free_site cell.0) Call.Load) }
    {
        self.cell(cell).load(rt)
    }

    /// The same of a weak pointer.
    #[inline(always)]
    pub fn load_weak<R: Wait>(&self, rt: &R, cell: WeakCell) -> Result<Option<Weak<'_, D>>, Fault>
        ensures loaded { IfOk result (Loaded D.opened kind.Weak (free_site cell.0)) }
        ensures refused { IfErr result (WhyNotDone D.opened kind.Weak (free_site cell.0) Call.Load) }
    {
        self.weak_cell(cell).load(rt)
    }

    /// Whether the cell holds what this pointer is, or is empty where that is `None`, in C++ `load() == p` by the rule
    /// of `compare_exchange`: the same place, and the same object. It is one look, which changes nothing and waits for
    /// nobody. An empty pointer takes room meanwhile.
    #[inline(always)]
    pub fn holds<'t>(
        &'t self,
        cell: SharedCell,
        mine: Option<&Shared<'t, D>>,
    ) -> Result<bool, Fault>
        ensures told { IfOk result (LookedFor D.opened kind.Owner (free_site cell.0)
            (seen_by (λ x. x.now) mine.entry)) }
        ensures refused { IfErr result (WhyNotLookedFor D.opened kind.Owner (free_site cell.0)
            (seen_by (λ x. x.now) mine.entry)) }
    {
        self.cell(cell).holds(mine)
    }

    /// The same of a weak pointer.
    #[inline(always)]
    pub fn holds_weak<'t>(
        &'t self,
        cell: WeakCell,
        mine: Option<&Weak<'t, D>>,
    ) -> Result<bool, Fault>
        ensures told { IfOk result (LookedFor D.opened kind.Weak (free_site cell.0)
            (seen_by (λ x. x.now) mine.entry)) }
        ensures refused { IfErr result (WhyNotLookedFor D.opened kind.Weak (free_site cell.0)
            (seen_by (λ x. x.now) mine.entry)) }
    {
        self.weak_cell(cell).holds(mine)
    }

    /// A free cell for owners, to be read again and again.
    #[inline(always)]
    pub fn cached(&self, cell: SharedCell) -> Cached<'_, '_, D>
        ensures cell { result.place ≡ free_site cell.0 }
        ensures none { result.found ≡ None }
    {
        self.cell(cell).cached()
    }

    /// A free cell for owners, whose value is to be read again and again.
    #[inline(always)]
    pub fn cached_value(&self, cell: SharedCell) -> CachedValue<'_, '_, D>
    where
        D::Value: Clone,
        ensures cell { result.place ≡ free_site cell.0 }
        ensures none { result.kept ≡ None }
    {
        self.cell(cell).cached_value()
    }

    /// What the cell holds is replaced by a new object with what `f` makes of a copy of its value, in arc-swap `rcu`
    /// (waits). `f` may run more than once, and what was made in vain ends. None is an empty cell.
    #[inline(always)]
    pub fn update<F: FnMut(Option<D::Value>) -> Result<Option<D::Value>, Fault>, R: Wait>(
        &self,
        rt: &R,
        cell: SharedCell,
        f: F,
    ) -> Result<(), Fault>
    where
        D::Value: Clone,
        requires { F.IsAlwaysCallable f }
        ensures updated { OnOk result (IsUpdated D.opened D.Value.is_clone (free_site cell.0)
            (λ old r. (s : F) × (t : F) × F.step s old r t)) }
        ensures refused { IfErr result (WhyNotUpdated D.opened (free_site cell.0)
            (λ old r. (s : F) × (t : F) × F.step s old r t)) }
    {
        self.cell(cell).update(rt, f)
    }

    /// Returns once a look tells that the cell no longer holds what this pointer is, or is no longer empty where that
    /// is `None`, in C++ `wait(p)` (waits). Nobody has to notify, and nothing is promised of when.
    #[inline(always)]
    pub fn wait_while<'t, R: Wait>(
        &'t self,
        rt: &R,
        cell: SharedCell,
        mine: Option<&Shared<'t, D>>,
    ) -> Result<(), Fault>
        ensures changed { OnOk result (LookedFor D.opened kind.Owner (free_site cell.0)
            (seen_by (λ x. x.now) mine.entry) false) }
        ensures refused { IfErr result (WhyNotLookedFor D.opened kind.Owner (free_site cell.0)
            (seen_by (λ x. x.now) mine.entry)) }
    {
        self.cell(cell).wait_while(rt, mine)
    }

    /// The same of a weak pointer.
    #[inline(always)]
    pub fn wait_while_weak<'t, R: Wait>(
        &'t self,
        rt: &R,
        cell: WeakCell,
        mine: Option<&Weak<'t, D>>,
    ) -> Result<(), Fault>
        ensures changed { OnOk result (LookedFor D.opened kind.Weak (free_site cell.0)
            (seen_by (λ x. x.now) mine.entry) false) }
        ensures refused { IfErr result (WhyNotLookedFor D.opened kind.Weak (free_site cell.0)
            (seen_by (λ x. x.now) mine.entry)) }
    {
        self.weak_cell(cell).wait_while(rt, mine)
    }

    /// An owner of what a weak cell holds, in C++ `load().lock()` (waits). None where that is empty or expired.
    #[inline(always)]
    pub fn lock<R: Wait>(&self, rt: &R, cell: WeakCell) -> Result<Option<Shared<'_, D>>, Fault>
        ensures locked { IfOk result (Locked D.opened (free_site cell.0)) }
        ensures refused { IfErr result (WhyNotLocked D.opened (free_site cell.0)) }
    {
        self.weak_cell(cell).lock(rt)
    }

    /// The pointer, or an empty one, goes into the cell, in C++ `store(std::move(p))`, and what that held lets go.
    #[inline(always)]
    pub fn store<'t>(&'t self, cell: SharedCell, new: Option<Shared<'t, D>>) -> Result<(), Fault>
        ensures stored { OnOk result (Stored D.opened kind.Owner (free_site cell.0) new.entry) }
        ensures refused { IfErr result (WhyNotDone D.opened kind.Owner (free_site cell.0) Call.Store) }
    {
        self.cell(cell).store(new)
    }

    /// The same of a weak pointer.
    #[inline(always)]
    pub fn store_weak<'t>(&'t self, cell: WeakCell, new: Option<Weak<'t, D>>) -> Result<(), Fault>
        ensures stored { OnOk result (Stored D.opened kind.Weak (free_site cell.0) new.entry) }
        ensures refused { IfErr result (WhyNotDone D.opened kind.Weak (free_site cell.0) Call.Store) }
    {
        self.weak_cell(cell).store(new)
    }

    /// What the cell holds lets go, in C++ `store(nullptr)`.
    #[inline(always)]
    pub fn clear(&self, cell: SharedCell) -> Result<(), Fault>
        ensures cleared { OnOk result (Stored D.opened kind.Owner (free_site cell.0) None) }
        ensures refused { IfErr result (WhyNotDone D.opened kind.Owner (free_site cell.0) Call.Clear) }
    {
        self.cell(cell).clear()
    }

    /// The same of a weak pointer.
    #[inline(always)]
    pub fn clear_weak(&self, cell: WeakCell) -> Result<(), Fault>
        ensures cleared { OnOk result (Stored D.opened kind.Weak (free_site cell.0) None) }
        ensures refused { IfErr result (WhyNotDone D.opened kind.Weak (free_site cell.0) Call.Clear) }
    {
        self.weak_cell(cell).clear()
    }

    /// What the cell holds comes out, and an empty pointer stays, in C++ `exchange(nullptr)`.
    #[inline(always)]
    pub fn take(&self, cell: SharedCell) -> Result<Option<Shared<'_, D>>, Fault>
        ensures taken { IfOk result (Exchanged D.opened kind.Owner (free_site cell.0) None) }
        ensures refused { IfErr result (WhyNotDone D.opened kind.Owner (free_site cell.0) Call.Exchange) }
    {
        self.cell(cell).take()
    }
}
