//! Calls on cells of owners.
ghost use Rattle.std.specs.Prelude.{◌≡◌, ◌↔◌, IfErr, IfOk, IfSome, IsErr, None};
ghost use Rattle.control_word.specs.declared.model.handle.Kind.TheVariants.{Owner};
ghost use Rattle.control_block.specs.Desks.{Belongs};
ghost use Rattle.pointers.specs.Beside.{seen_by};
ghost use Rattle.pointers.specs.Faults.{Was};
ghost use Rattle.pointers.specs.HandCalls.{ExchangesNow, LoadsNow, StoresNow};
ghost use Rattle.pointers.specs.Known.{IsAtAllowance};
ghost use Rattle.pointers.specs.Claims.{known_by};
ghost use Rattle.pointers.specs.Cells.{ExchangedAt, IsSharedSite, LoadedAt, LookedForAt, StoredTold, shared_cell_of};

use crate::claim::shared_claim::SharedClaim;
use crate::context::Context;
use crate::context::passing::{arrived, given, look_at};
use crate::domain::Domain;
use atomic_cells::SharedAt;
use control_block::domain;
use control_word::Refusal;
use shared_handle::Gone;
use std::sync::Wait;

impl<D: Domain> Context<D> {
    /// A copy of what the cell holds, which is a member of what the owner is of, or free.
    #[inline(always)]
    pub(crate) fn load<R: Wait>(
        &mut self,
        rt: &R,
        domain: &domain::Domain<D::Value>,
        at: SharedAt<'_>,
        of: Option<&SharedClaim<D>>,
    ) -> Result<Option<SharedClaim<D>>, Refusal>
        requires domain { Belongs D.opened domain.now }
        requires cell { IsSharedSite D.opened at.site (known_by of) }
        ensures loaded { IfOk result (λ r. LoadedAt D.opened (known_by of.entry)
            (shared_cell_of D.opened (known_by of.entry) at.entry.site) Owner
            (seen_by (λ x. x.known) r)) }
        ensures exact { IfOk result (λ r. LoadsNow self.old.desk
            (shared_cell_of D.opened (known_by of.entry) at.entry.site) (seen_by (λ x. x.known) r) self.new.desk) }
        ensures unchanged { IfErr result (λ _. self.new.desk ≡ self.old.desk) }
        ensures limit { IsErr result ↔ IsAtAllowance self.old.desk }
        ensures refused { IfErr result
            (λ why. (why ≡ Refusal.Limit) × Was D.opened (known_by of.entry) IsAtAllowance) }
    {
        self.desk.assert_invariant();
        look_at(of, &mut self.claims);
        let found = at.load(rt, domain, &mut self.desk)?;
        Ok(arrived(
            domain,
            &mut self.desk,
            &mut self.pile,
            &mut self.claims,
            found,
        ))
    }

    /// A load's first try, which waits for nobody. It answers nothing where others were quicker, and where the desk is
    /// at its allowance.
    #[inline(always)]
    pub(crate) fn load_once(
        &mut self,
        domain: &domain::Domain<D::Value>,
        at: SharedAt<'_>,
        of: Option<&SharedClaim<D>>,
    ) -> Option<Option<SharedClaim<D>>>
        requires domain { Belongs D.opened domain.now }
        requires cell { IsSharedSite D.opened at.site (known_by of) }
        ensures { IfSome result (λ r. LoadedAt D.opened (known_by of.entry)
            (shared_cell_of D.opened (known_by of.entry) at.entry.site) Owner
            (seen_by (λ x. x.known) r)) }
    {
        self.desk.assert_invariant();
        look_at(of, &mut self.claims);
        let Some(found) = at.load_once(domain, &mut self.desk) else {
            return None;
        };
        Some(arrived(
            domain,
            &mut self.desk,
            &mut self.pile,
            &mut self.claims,
            found,
        ))
    }

    /// Whether the cell holds an equivalent of the owner.
    #[inline(always)]
    pub(crate) fn holds(
        &mut self,
        domain: &domain::Domain<D::Value>,
        at: SharedAt<'_>,
        of: Option<&SharedClaim<D>>,
        mine: &SharedClaim<D>,
    ) -> bool
        requires domain { Belongs D.opened domain.now }
        requires cell { IsSharedSite D.opened at.site (known_by of) }
        ensures { LookedForAt D.opened (known_by of.entry)
            (shared_cell_of D.opened (known_by of.entry) at.entry.site) Owner
            mine.now.known result }
    {
        look_at(of, &mut self.claims);
        let handle = mine.look(&mut self.claims);
        at.holds(domain, &mut self.desk, handle)
    }

    /// The pointer, or an empty one, goes into the cell, and what that held comes out.
    #[inline(always)]
    pub(crate) fn exchange(
        &mut self,
        domain: &domain::Domain<D::Value>,
        at: SharedAt<'_>,
        of: Option<&SharedClaim<D>>,
        new: Option<SharedClaim<D>>,
    ) -> Result<Option<SharedClaim<D>>, Refusal>
        requires domain { Belongs D.opened domain.now }
        requires cell { IsSharedSite D.opened at.site (known_by of) }
        ensures exchanged { IfOk result (λ r. ExchangedAt D.opened (known_by of.entry)
            (shared_cell_of D.opened (known_by of.entry) at.entry.site) Owner
            (seen_by (λ x. x.known) new) (seen_by (λ x. x.known) r)) }
        ensures exact { IfOk result (λ r. ExchangesNow self.old.desk
            (shared_cell_of D.opened (known_by of.entry) at.entry.site)
            (seen_by (λ x. x.known) new) (seen_by (λ x. x.known) r) self.new.desk) }
        ensures unchanged { IfErr result (λ _. self.new.desk ≡ self.old.desk) }
        ensures limit { IsErr result ↔ ((new ≡ None) × IsAtAllowance self.old.desk) }
        ensures refused { IfErr result
            (λ why. (why ≡ Refusal.Limit) × Was D.opened (known_by of.entry) IsAtAllowance) }
    {
        look_at(of, &mut self.claims);
        let handle = given(domain, &mut self.desk, &self.pile, &mut self.claims, new)?;
        self.desk.assert_invariant();
        look_at(of, &mut self.claims);
        let found = at.exchange(domain, &mut self.desk, handle);
        Ok(arrived(
            domain,
            &mut self.desk,
            &mut self.pile,
            &mut self.claims,
            found,
        ))
    }

    /// The pointer, or an empty one, goes into the cell, and what that held leaves.
    #[inline(always)]
    pub(crate) fn store(
        &mut self,
        domain: &domain::Domain<D::Value>,
        at: SharedAt<'_>,
        of: Option<&SharedClaim<D>>,
        new: Option<SharedClaim<D>>,
    ) -> Result<Gone, Refusal>
        requires domain { Belongs D.opened domain.now }
        requires cell { IsSharedSite D.opened at.site (known_by of) }
        ensures stored { IfOk result (λ gone. StoredTold D.opened (known_by of.entry)
            (shared_cell_of D.opened (known_by of.entry) at.entry.site)
            (seen_by (λ x. x.known) new) gone) }
        ensures exact { IfOk result (λ _. StoresNow self.old.desk
            (shared_cell_of D.opened (known_by of.entry) at.entry.site) (seen_by (λ x. x.known) new) self.new.desk) }
        ensures unchanged { IfErr result (λ _. self.new.desk ≡ self.old.desk) }
        ensures limit { IsErr result ↔ ((new ≡ None) × IsAtAllowance self.old.desk) }
        ensures refused { IfErr result
            (λ why. (why ≡ Refusal.Limit) × Was D.opened (known_by of.entry) IsAtAllowance) }
    {
        look_at(of, &mut self.claims);
        let handle = given(domain, &mut self.desk, &self.pile, &mut self.claims, new)?;
        self.desk.assert_invariant();
        look_at(of, &mut self.claims);
        let left = at.store(domain, &mut self.desk, handle);
        self.desk.assert_invariant();
        Ok(self.pile.put(left))
    }
}
