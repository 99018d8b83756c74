//! Compares of cells of owners.
ghost use Rattle.std.specs.Prelude.{◌≡◌, ◌↔◌, ◌+◌, ◌≤◌, cond, IfErr, IfOk, IfSome, IsErr, OnOk, Some};
ghost use Rattle.control_word.specs.declared.model.handle.Kind.TheVariants.{Owner};
ghost use Rattle.control_block.specs.CellCalls.{HoldsHandle};
ghost use Rattle.control_block.specs.Desks.{Belongs, Keeps, allowance_of, bag_of, held_of};
ghost use Rattle.atomic_cells.specs.Compares.{Compares, GivesBackDesired, bag_compared, came_out, has_swapped};
ghost use Rattle.atomic_cells.specs.Sites.{IsOpenSite, shared_cell};
ghost use Rattle.shared_handle.specs.Calls.{counting};
ghost use Rattle.pointers.specs.Beside.{IsEmptyHandle, seen_by};
ghost use Rattle.pointers.specs.Claims.{known_by};
ghost use Rattle.pointers.specs.Cells.{IsSharedSite, shared_cell_of};
ghost use Rattle.pointers.specs.Compares.{Finds};
ghost use Rattle.pointers.specs.Faults.{Was};
ghost use Rattle.pointers.specs.HandCalls.{FindsNow};
ghost use Rattle.pointers.specs.Known.{IsAtAllowance};

use crate::claim::shared_claim::SharedClaim;
use crate::context::Context;
use crate::context::passing::{arrived, look_at};
use crate::domain::Domain;
use crate::fault::call::Call;
use atomic_cells::{Compared, SharedAt};
use control_block::desk::Desk;
use control_block::{domain, handles};
use control_word::{Refusal, Refused};
use shared_handle::{Gone, drop_shared, empty};
use std::sync::Wait;

/// A compare: by which call, of which cell, which is a member of what the owner is of, or free, and in which form.
pub(crate) struct Compare<'a, A, D: Domain> {
    pub call: Call,
    pub at: A,
    pub of: Option<&'a SharedClaim<D>>,
    pub weak: bool,
}

impl<'a, A: Drop, D: Domain> Drop for Compare<'a, A, D> {
    #[inline(always)]
    fn drop(self) {
        let Self {
            call: _,
            at: _,
            of: _,
            weak: _,
        } = self;
    }
}

/// A compare that found something else: a copy of it, and what was desired.
pub(crate) struct Differs<C> {
    pub held: Option<C>,
    pub desired: C,
}

impl<'a, D: Domain> Compare<'a, SharedAt<'a>, D> {
    /// The compare of handles, in its form.
    #[inline(always)]
    fn handles<R: Wait>(
        &self,
        rt: &R,
        domain: &domain::Domain<D::Value>,
        desk: &mut Desk<D::Value>,
        hoped: &handles::Shared,
        new: handles::Shared,
    ) -> Result<Compared<handles::Shared>, Refused<handles::Shared>>
        requires domain { Belongs desk.old domain.now }
        requires cell { IsOpenSite desk.old self.now.at.site }
        requires holds { HoldsHandle desk.old Owner hoped.now.block hoped.now.place
            × HoldsHandle desk.old Owner new.block new.place }
        ensures limit { IsErr result ↔ IsAtAllowance desk.old }
        ensures refused { IfErr result (λ r. (r.why ≡ Refusal.Limit) × (r.back ≡ new) × (desk.new ≡ desk.old)) }
        ensures compared { IfOk result (λ c. let h = came_out c in
            Compares desk.old (shared_cell desk.old self.now.at.site) Owner hoped.now.block hoped.now.place
            new.block new.place (has_swapped c) h.block h.place self.now.weak desk.new) }
        ensures back { IfOk result (λ c. GivesBackDesired new c) }
        ensures bag { IfOk result (λ c. let h = came_out c in
            bag_of desk.new ≡ bag_compared (has_swapped c) Owner new.block new.place h.block h.place
            (bag_of desk.old)) }
        ensures held { IfOk result (λ c. desk.new.held ≡ desk.old.held + cond (has_swapped c) 0 1) }
        ensures keeps { OnOk result (Keeps desk.old desk.new) }
    {
        if self.weak {
            self.at.compare_exchange_weak(rt, domain, desk, hoped, new)
        } else {
            self.at
                .compare_exchange_strong(rt, domain, desk, hoped, new)
        }
    }
}

impl<D: Domain> Context<D> {
    /// An owner of nothing that points nowhere, for a compare.
    #[inline(always)]
    pub(crate) fn empty_owner(
        &mut self,
        domain: &domain::Domain<D::Value>,
        of: Option<&SharedClaim<D>>,
    ) -> Result<SharedClaim<D>, Refusal>
        requires { Belongs D.opened domain.now }
        ensures empty { IfOk result (λ r. IsEmptyHandle r.known.handle) }
        ensures count { OnOk result (self.new.desk ≡ counting (self.old.desk.held + 1) self.old.desk) }
        ensures room { OnOk result (held_of self.new.desk ≤ allowance_of self.new.desk) }
        ensures unchanged { IfErr result (λ _. self.new.desk ≡ self.old.desk) }
        ensures limit { IsErr result ↔ IsAtAllowance self.old.desk }
        ensures refused { IfErr result
            (λ why. (why ≡ Refusal.Limit) × Was D.opened (known_by of.entry) IsAtAllowance) }
    {
        self.desk.assert_invariant();
        look_at(of, &mut self.claims);
        let handle = empty(domain, &mut self.desk)?;
        Ok(SharedClaim::register(handle, &self.desk, &mut self.claims))
    }

    /// Where the cell holds what is expected, or its like, what is desired goes into it, and what it held leaves. Else
    /// a copy of what it holds.
    #[inline(always)]
    pub(crate) fn compare<'a, R: Wait>(
        &mut self,
        rt: &R,
        domain: &domain::Domain<D::Value>,
        how: &Compare<'a, SharedAt<'a>, D>,
        expected: &SharedClaim<D>,
        desired: SharedClaim<D>,
    ) -> Result<(Option<Differs<SharedClaim<D>>>, Gone), Refused<SharedClaim<D>>>
        requires domain { Belongs D.opened domain.now }
        requires cell { IsSharedSite D.opened how.now.at.site (known_by how.now.of) }
        ensures compared { IfOk result (λ r. Finds D.opened (known_by how.now.of)
            (shared_cell_of D.opened (known_by how.now.of) how.now.at.site) Owner how.now.weak
            (Some expected.now.known) (Some desired.known)
            (seen_by (λ d. seen_by (λ x. x.known) d.held) r.0)) }
        ensures stays { IfOk result (λ r. IfSome r.0 (λ d. d.desired.known ≡ desired.known)) }
        ensures back { IfErr result (λ r. r.back.known ≡ desired.known) }
        ensures exact { IfOk result (λ r. FindsNow self.old.desk
            (shared_cell_of D.opened (known_by how.now.of) how.now.at.site) how.now.weak
            (Some expected.now.known) (Some desired.known)
            (seen_by (λ d. seen_by (λ x. x.known) d.held) r.0) self.new.desk) }
        ensures unchanged { IfErr result (λ _. self.new.desk ≡ self.old.desk) }
        ensures limit { IsErr result ↔ IsAtAllowance self.old.desk }
        ensures refused { IfErr result (λ r. (r.why ≡ Refusal.Limit)
            × Was D.opened (known_by how.now.of) IsAtAllowance) }
    {
        self.desk.assert_invariant();
        look_at(how.of, &mut self.claims);
        let hoped = expected.look(&mut self.claims);
        let (new, entry) = desired.split(&mut self.claims);
        match how.handles(rt, domain, &mut self.desk, hoped, new) {
            Ok(Compared::Swapped(found)) => {
                self.claims.remove(entry);
                let gone = drop_shared(domain, &mut self.desk, &mut self.pile, found);
                Ok((None, gone))
            }
            Ok(Compared::Differs { held, desired }) => {
                let held = arrived(
                    domain,
                    &mut self.desk,
                    &mut self.pile,
                    &mut self.claims,
                    held,
                );
                let desired = SharedClaim::join(desired, entry);
                Ok((Some(Differs { held, desired }), Gone::Empty))
            }
            Err(refused) => Err(Refused {
                why: refused.why,
                back: SharedClaim::join(refused.back, entry),
            }),
        }
    }
}
