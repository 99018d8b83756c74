//! Compares of cells of weak handles.
ghost use Rattle.std.specs.Prelude.{◌≡◌, ◌↔◌, ◌+◌, cond, IfErr, IfOk, IfSome, IsErr, OnOk, Some};
ghost use Rattle.control_word.specs.declared.model.handle.Kind.TheVariants as kind;
ghost use Rattle.control_block.specs.CellCalls.{HoldsHandle};
ghost use Rattle.control_block.specs.Desks.{Belongs, Keeps, bag_of};
ghost use Rattle.atomic_cells.specs.Compares.{Compares, GivesBackDesired, bag_compared, came_out, has_swapped};
ghost use Rattle.atomic_cells.specs.Sites.{IsOpenWeakly, weak_cell};
ghost use Rattle.pointers.specs.Beside.{IsEmptyHandle, seen_by};
ghost use Rattle.pointers.specs.Claims.{known_by};
ghost use Rattle.pointers.specs.Cells.{IsWeakSite, weak_cell_of};
ghost use Rattle.pointers.specs.Compares.{Finds};
ghost use Rattle.pointers.specs.Faults.{Was};
ghost use Rattle.pointers.specs.Known.{IsAtAllowance};

use crate::claim::shared_claim::SharedClaim;
use crate::claim::weak_claim::WeakClaim;
use crate::context::Context;
use crate::context::compares::{Compare, Differs};
use crate::context::passing::look_at;
use crate::context::passing_weak::arrived_weak;
use crate::domain::Domain;
use atomic_cells::{Compared, WeakAt};
use control_block::desk::Desk;
use control_block::{domain, handles};
use control_word::{Refusal, Refused};
use shared_handle::{empty_weak, release_weak};
use std::sync::Wait;

impl<'a, D: Domain> Compare<'a, WeakAt<'a>, D> {
    /// The compare of weak handles, in its form.
    #[inline(always)]
    fn weak_handles<R: Wait>(
        &self,
        rt: &R,
        domain: &domain::Domain<D::Value>,
        desk: &mut Desk<D::Value>,
        hoped: &handles::Weak,
        new: handles::Weak,
    ) -> Result<Compared<handles::Weak>, Refused<handles::Weak>>
        requires domain { Belongs desk.old domain.now }
        requires cell { IsOpenWeakly desk.old self.now.at.site }
        requires holds { HoldsHandle desk.old kind.Weak hoped.now.block hoped.now.place
            × HoldsHandle desk.old kind.Weak new.block new.place }
        ensures limit { IsErr result ↔ IsAtAllowance desk.old }
        ensures refused { IfErr result (λ r. (r.why ≡ Refusal.Limit) × (r.back ≡ new) × (desk.new ≡ desk.old)) }
        ensures compared { IfOk result (λ c. let h = came_out c in
            Compares desk.old (weak_cell desk.old self.now.at.site) kind.Weak hoped.now.block hoped.now.place
            new.block new.place (has_swapped c) h.block h.place self.now.weak desk.new) }
        ensures back { IfOk result (λ c. GivesBackDesired new c) }
        ensures bag { IfOk result (λ c. let h = came_out c in
            bag_of desk.new ≡ bag_compared (has_swapped c) kind.Weak new.block new.place h.block h.place
            (bag_of desk.old)) }
        ensures held { IfOk result (λ c. desk.new.held ≡ desk.old.held + cond (has_swapped c) 0 1) }
        ensures keeps { OnOk result (Keeps desk.old desk.new) }
    {
        if self.weak {
            self.at.compare_exchange_weak(rt, domain, desk, hoped, new)
        } else {
            self.at
                .compare_exchange_strong(rt, domain, desk, hoped, new)
        }
    }
}

impl<D: Domain> Context<D> {
    /// A weak handle of nothing that points nowhere, for a compare.
    #[inline(always)]
    pub(crate) fn empty_weak(
        &mut self,
        domain: &domain::Domain<D::Value>,
        of: Option<&SharedClaim<D>>,
    ) -> Result<WeakClaim<D>, Refusal>
        requires { Belongs D.opened domain.now }
        ensures empty { IfOk result (λ r. IsEmptyHandle r.known.handle) }
        ensures refused { IfErr result
            (λ why. (why ≡ Refusal.Limit) × Was D.opened (known_by of.entry) IsAtAllowance) }
    {
        self.desk.assert_invariant();
        look_at(of, &mut self.claims);
        let handle = empty_weak(domain, &mut self.desk)?;
        Ok(WeakClaim::register(handle, &self.desk, &mut self.claims))
    }

    /// Where the cell holds what is expected, or its like, what is desired goes into it, and what it held leaves. Else
    /// a copy of what it holds.
    #[inline(always)]
    pub(crate) fn compare_weak<'a, R: Wait>(
        &mut self,
        rt: &R,
        domain: &domain::Domain<D::Value>,
        how: &Compare<'a, WeakAt<'a>, D>,
        expected: &WeakClaim<D>,
        desired: WeakClaim<D>,
    ) -> Result<Option<Differs<WeakClaim<D>>>, Refused<WeakClaim<D>>>
        requires domain { Belongs D.opened domain.now }
        requires cell { IsWeakSite D.opened how.now.at.site (known_by how.now.of) }
        ensures compared { IfOk result (λ r. Finds D.opened (known_by how.now.of)
            (weak_cell_of D.opened (known_by how.now.of) how.now.at.site) kind.Weak how.now.weak
            (Some expected.now.known) (Some desired.known)
            (seen_by (λ d. seen_by (λ x. x.known) d.held) r)) }
        ensures stays { IfOk result (λ r. IfSome r (λ d. d.desired.known ≡ desired.known)) }
        ensures back { IfErr result (λ r. r.back.known ≡ desired.known) }
        ensures refused { IfErr result (λ r. (r.why ≡ Refusal.Limit)
            × Was D.opened (known_by how.now.of) IsAtAllowance) }
    {
        self.desk.assert_invariant();
        look_at(how.of, &mut self.claims);
        let hoped = expected.look(&mut self.claims);
        let (new, entry) = desired.split(&mut self.claims);
        match how.weak_handles(rt, domain, &mut self.desk, hoped, new) {
            Ok(Compared::Swapped(found)) => {
                self.claims.remove(entry);
                release_weak(domain, &mut self.desk, found);
                Ok(None)
            }
            Ok(Compared::Differs { held, desired }) => {
                let held = arrived_weak(domain, &mut self.desk, &self.pile, &mut self.claims, held);
                let desired = WeakClaim::join(desired, entry);
                Ok(Some(Differs { held, desired }))
            }
            Err(refused) => Err(Refused {
                why: refused.why,
                back: WeakClaim::join(refused.back, entry),
            }),
        }
    }
}
