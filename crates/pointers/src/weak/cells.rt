//! A weak pointer that goes into a cell.
ghost use Rattle.std.specs.Prelude.{◌≡◌, ◌+◌, IfErr, IfOk, None, OnOk, Some};
ghost use Rattle.control_word.specs.declared.model.handle.Kind.TheVariants as kind;
ghost use Rattle.pointers.specs.Beside.{seen_by};
ghost use Rattle.pointers.specs.SiteCalls.{Exchanged, Stored, WhyNotDone};
ghost use Rattle.pointers.specs.Sites.{free_site};

use crate::cells::WeakCell;
use crate::claim::weak_claim::WeakClaim;
use crate::desk::Desk;
use crate::domain::Domain;
use crate::fault::Fault;
use crate::fault::call::Call;
use crate::weak::Weak;

/// The pointer of a claim, if there is one.
#[inline(always)]
pub(crate) fn pointer<'t, D: Domain>(
    desk: &'t Desk<'t, D>,
    weak: Option<WeakClaim<D>>,
) -> Option<Weak<'t, D>>
    ensures { result ≡ seen_by (λ x. x.known) weak }
{
    match weak {
        Some(weak) => Some(Weak { desk, weak }),
        None => None,
    }
}

/// The claim of a pointer, if there is one.
#[inline(always)]
pub(crate) fn claim<'t, D: Domain>(pointer: Option<Weak<'t, D>>) -> Option<WeakClaim<D>>
    ensures { seen_by (λ x. x.known) result ≡ pointer.entry }
{
    match pointer {
        Some(pointer) => Some(pointer.into_claim()),
        None => None,
    }
}

impl<'t, D: Domain> Weak<'t, D> {
    /// The end of a pointer whose claim goes on.
    #[inline(always)]
    pub(crate) fn into_claim(self) -> WeakClaim<D>
        ensures { result.known ≡ self.entry }
    {
        let Self { desk: _, weak } = self;
        weak
    }

    /// The pointer goes into the cell, in C++ `store(std::move(w))`, and what that held lets go.
    #[inline(always)]
    pub fn store(self, cell: WeakCell) -> Result<(), Fault>
        ensures stored { OnOk result (Stored D.opened kind.Weak (free_site cell.0) (Some self.entry)) }
        ensures refused { IfErr result (WhyNotDone D.opened kind.Weak (free_site cell.0) Call.Store) }
    {
        let desk = self.desk;
        desk.weak_cell(cell).store(Some(self))
    }

    /// The pointer goes into the cell, and what that held comes out, in C++ `exchange(std::move(w))`.
    #[inline(always)]
    pub fn exchange(self, cell: WeakCell) -> Result<Option<Weak<'t, D>>, Fault>
        ensures exchanged { IfOk result (Exchanged D.opened kind.Weak (free_site cell.0) (Some self.entry)) }
        ensures refused { IfErr result (WhyNotDone D.opened kind.Weak (free_site cell.0) Call.Exchange) }
    {
        let desk = self.desk;
        desk.weak_cell(cell).exchange(Some(self))
    }
}
