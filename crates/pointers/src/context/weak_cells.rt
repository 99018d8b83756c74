//! Calls on cells of weak handles.
ghost use Rattle.std.specs.Prelude.{◌≡◌, ◌↔◌, IfErr, IfOk, IfSome, IsErr, None, OnOk};
ghost use Rattle.control_word.specs.declared.model.handle.Kind.TheVariants.{Weak};
ghost use Rattle.control_block.specs.Desks.{Belongs};
ghost use Rattle.pointers.specs.Beside.{seen_by};
ghost use Rattle.pointers.specs.Faults.{Was};
ghost use Rattle.pointers.specs.Known.{IsAtAllowance};
ghost use Rattle.pointers.specs.Claims.{known_by};
ghost use Rattle.pointers.specs.Cells.{ExchangedAt, IsWeakSite, LoadedAt, LookedForAt, StoredWeaklyAt, weak_cell_of};

use crate::claim::shared_claim::SharedClaim;
use crate::claim::weak_claim::WeakClaim;
use crate::context::Context;
use crate::context::passing::look_at;
use crate::context::passing_weak::{arrived_weak, given_weak};
use crate::domain::Domain;
use atomic_cells::WeakAt;
use control_block::domain;
use control_word::Refusal;
use std::sync::Wait;

impl<D: Domain> Context<D> {
    /// A copy of what the cell holds, which is the weak member of what the owner is of, or free.
    #[inline(always)]
    pub(crate) fn load_weak<R: Wait>(
        &mut self,
        rt: &R,
        domain: &domain::Domain<D::Value>,
        at: WeakAt<'_>,
        of: Option<&SharedClaim<D>>,
    ) -> Result<Option<WeakClaim<D>>, Refusal>
        requires domain { Belongs D.opened domain.now }
        requires cell { IsWeakSite D.opened at.site (known_by of) }
        ensures loaded { IfOk result (λ r. LoadedAt D.opened (known_by of.entry)
            (weak_cell_of D.opened (known_by of.entry) at.entry.site) Weak
            (seen_by (λ x. x.known) r)) }
        ensures limit { IsErr result ↔ IsAtAllowance self.old.desk }
        ensures refused { IfErr result
            (λ why. (why ≡ Refusal.Limit) × Was D.opened (known_by of.entry) IsAtAllowance) }
    {
        self.desk.assert_invariant();
        look_at(of, &mut self.claims);
        let found = at.load(rt, domain, &mut self.desk)?;
        Ok(arrived_weak(domain, &mut self.desk, &self.pile, &mut self.claims, found))
    }

    /// A load's first try, which waits for nobody. It answers nothing where others were quicker, and where the desk is
    /// at its allowance.
    #[inline(always)]
    pub(crate) fn load_weak_once(
        &mut self,
        domain: &domain::Domain<D::Value>,
        at: WeakAt<'_>,
        of: Option<&SharedClaim<D>>,
    ) -> Option<Option<WeakClaim<D>>>
        requires domain { Belongs D.opened domain.now }
        requires cell { IsWeakSite D.opened at.site (known_by of) }
        ensures { IfSome result (λ r. LoadedAt D.opened (known_by of.entry)
            (weak_cell_of D.opened (known_by of.entry) at.entry.site) Weak
            (seen_by (λ x. x.known) r)) }
    {
        self.desk.assert_invariant();
        look_at(of, &mut self.claims);
        let Some(found) = at.load_once(domain, &mut self.desk) else {
            return None;
        };
        Some(arrived_weak(domain, &mut self.desk, &self.pile, &mut self.claims, found))
    }

    /// Whether the cell holds an equivalent of the weak handle.
    #[inline(always)]
    pub(crate) fn holds_weak(
        &mut self,
        domain: &domain::Domain<D::Value>,
        at: WeakAt<'_>,
        of: Option<&SharedClaim<D>>,
        mine: &WeakClaim<D>,
    ) -> bool
        requires domain { Belongs D.opened domain.now }
        requires cell { IsWeakSite D.opened at.site (known_by of) }
        ensures { LookedForAt D.opened (known_by of.entry)
            (weak_cell_of D.opened (known_by of.entry) at.entry.site) Weak
            mine.now.known result }
    {
        look_at(of, &mut self.claims);
        let handle = mine.look(&mut self.claims);
        at.holds(domain, &mut self.desk, handle)
    }

    /// The pointer, or an empty one, goes into the cell, and what that held comes out.
    #[inline(always)]
    pub(crate) fn exchange_weak(
        &mut self,
        domain: &domain::Domain<D::Value>,
        at: WeakAt<'_>,
        of: Option<&SharedClaim<D>>,
        new: Option<WeakClaim<D>>,
    ) -> Result<Option<WeakClaim<D>>, Refusal>
        requires domain { Belongs D.opened domain.now }
        requires cell { IsWeakSite D.opened at.site (known_by of) }
        ensures exchanged { IfOk result (λ r. ExchangedAt D.opened (known_by of.entry)
            (weak_cell_of D.opened (known_by of.entry) at.entry.site) Weak
            (seen_by (λ x. x.known) new) (seen_by (λ x. x.known) r)) }
        ensures limit { IsErr result ↔ ((new ≡ None) × IsAtAllowance self.old.desk) }
        ensures refused { IfErr result
            (λ why. (why ≡ Refusal.Limit) × Was D.opened (known_by of.entry) IsAtAllowance) }
    {
        look_at(of, &mut self.claims);
        let handle = given_weak(domain, &mut self.desk, &self.pile, &mut self.claims, new)?;
        self.desk.assert_invariant();
        look_at(of, &mut self.claims);
        let found = at.exchange(domain, &mut self.desk, handle);
        Ok(arrived_weak(domain, &mut self.desk, &self.pile, &mut self.claims, found))
    }

    /// The pointer, or an empty one, goes into the cell, and what that held leaves.
    #[inline(always)]
    pub(crate) fn store_weak(
        &mut self,
        domain: &domain::Domain<D::Value>,
        at: WeakAt<'_>,
        of: Option<&SharedClaim<D>>,
        new: Option<WeakClaim<D>>,
    ) -> Result<(), Refusal>
        requires domain { Belongs D.opened domain.now }
        requires cell { IsWeakSite D.opened at.site (known_by of) }
        ensures stored { OnOk result (StoredWeaklyAt D.opened (known_by of.entry)
            (weak_cell_of D.opened (known_by of.entry) at.entry.site)
            (seen_by (λ x. x.known) new)) }
        ensures limit { IsErr result ↔ ((new ≡ None) × IsAtAllowance self.old.desk) }
        ensures refused { IfErr result
            (λ why. (why ≡ Refusal.Limit) × Was D.opened (known_by of.entry) IsAtAllowance) }
    {
        look_at(of, &mut self.claims);
        let handle = given_weak(domain, &mut self.desk, &self.pile, &mut self.claims, new)?;
        self.desk.assert_invariant();
        look_at(of, &mut self.claims);
        let left = at.store(domain, &mut self.desk, handle);
        self.pile.put(left); // never an object's last owner
        Ok(())
    }
}
