//! Compares of cells of owners with pointers that may be empty.
ghost use Rattle.std.specs.Prelude.{◌≡◌, ◌↔◌, IfErr, IfOk, IsErr, None, Some};
ghost use Rattle.control_block.specs.Desks.{Belongs};
ghost use Rattle.pointers.specs.Beside.{seen_by};
ghost use Rattle.pointers.specs.Claims.{known_by};
ghost use Rattle.pointers.specs.Cells.{IsSharedSite, shared_cell_of};
ghost use Rattle.pointers.specs.Compares.{desired_after};
ghost use Rattle.pointers.specs.HandCalls.{FindsNow, LacksRoom};

use crate::claim::shared_claim::SharedClaim;
use crate::context::Context;
use crate::context::compares::{Compare, Differs};
use crate::domain::Domain;
use atomic_cells::SharedAt;
use control_block::domain;
use control_word::Refusal;
use shared_handle::Gone;
use std::sync::Wait;

/// A compare where both may be empty: what the cell holds, where it differs, or why there was none, and what left; and
/// what is desired then.
pub(crate) struct Comparison<C> {
    pub found: Result<(Option<Option<C>>, Gone), Refusal>,
    pub desired: Option<C>,
}

impl<D: Domain> Context<D> {
    /// The same, where an empty one is desired: what the cell holds, where it differs.
    #[inline(always)]
    fn compare_empty<'a, R: Wait>(
        &mut self,
        rt: &R,
        domain: &domain::Domain<D::Value>,
        how: &Compare<'a, SharedAt<'a>, D>,
        expected: &SharedClaim<D>,
    ) -> Result<(Option<Option<SharedClaim<D>>>, Gone), Refusal>
        requires domain { Belongs D.opened domain.now }
        requires cell { IsSharedSite D.opened how.now.at.site (known_by how.now.of) }
        ensures exact { IfOk result (λ r. FindsNow self.old.desk
            (shared_cell_of D.opened (known_by how.now.of) how.now.at.site) how.now.weak
            (Some expected.now.known) None (seen_by (λ h. seen_by (λ x. x.known) h) r.0) self.new.desk) }
        ensures unchanged { IfErr result (λ _. self.new.desk ≡ self.old.desk) }
        ensures limit { IsErr result ↔ LacksRoom self.old.desk (Some expected.now.known) None }
        ensures refused { IfErr result (λ why. why ≡ Refusal.Limit) }
    {
        let new = self.empty_owner(domain, how.of)?;
        match self.compare(rt, domain, how, expected, new) {
            Ok((None, gone)) => Ok((None, gone)),
            Ok((Some(differs), _)) => {
                let Differs { held, desired } = differs;
                let _ = self.leave(domain, desired);
                Ok((Some(held), Gone::Empty))
            }
            Err(refused) => {
                let _ = self.leave(domain, refused.back);
                Err(refused.why)
            }
        }
    }

    /// The same, where what is desired may be empty. It comes back first, where it didn't go in.
    #[inline(always)]
    fn compare_with<'a, R: Wait>(
        &mut self,
        rt: &R,
        domain: &domain::Domain<D::Value>,
        how: &Compare<'a, SharedAt<'a>, D>,
        expected: &SharedClaim<D>,
        desired: Option<SharedClaim<D>>,
    ) -> Comparison<SharedClaim<D>>
        requires domain { Belongs D.opened domain.now }
        requires cell { IsSharedSite D.opened how.now.at.site (known_by how.now.of) }
        ensures exact { IfOk result.found (λ r. FindsNow self.old.desk
            (shared_cell_of D.opened (known_by how.now.of) how.now.at.site) how.now.weak
            (Some expected.now.known) (seen_by (λ x. x.known) desired)
            (seen_by (λ h. seen_by (λ x. x.known) h) r.0) self.new.desk) }
        ensures stays { IfOk result.found (λ r. seen_by (λ x. x.known) result.desired
            ≡ desired_after (seen_by (λ h. seen_by (λ x. x.known) h) r.0) (seen_by (λ x. x.known) desired)) }
        ensures unchanged { IfErr result.found (λ _. (self.new.desk ≡ self.old.desk)
            × (seen_by (λ x. x.known) result.desired ≡ seen_by (λ x. x.known) desired)) }
        ensures limit { IsErr result.found ↔ LacksRoom self.old.desk (Some expected.now.known)
            (seen_by (λ x. x.known) desired) }
        ensures refused { IfErr result.found (λ why. why ≡ Refusal.Limit) }
    {
        let Some(new) = desired else {
            let found = self.compare_empty(rt, domain, how, expected);
            return Comparison {
                found,
                desired: None,
            };
        };
        self.desk.assert_invariant();
        match self.compare(rt, domain, how, expected, new) {
            Ok((None, gone)) => Comparison {
                found: Ok((None, gone)),
                desired: None,
            },
            Ok((Some(differs), _)) => {
                let Differs { held, desired } = differs;
                Comparison {
                    found: Ok((Some(held), Gone::Empty)),
                    desired: Some(desired),
                }
            }
            Err(refused) => Comparison {
                found: Err(refused.why),
                desired: Some(refused.back),
            },
        }
    }

    /// The same, where an empty one is expected.
    #[inline(always)]
    fn compare_with_empty<'a, R: Wait>(
        &mut self,
        rt: &R,
        domain: &domain::Domain<D::Value>,
        how: &Compare<'a, SharedAt<'a>, D>,
        desired: Option<SharedClaim<D>>,
    ) -> Comparison<SharedClaim<D>>
        requires domain { Belongs D.opened domain.now }
        requires cell { IsSharedSite D.opened how.now.at.site (known_by how.now.of) }
        ensures exact { IfOk result.found (λ r. FindsNow self.old.desk
            (shared_cell_of D.opened (known_by how.now.of) how.now.at.site) how.now.weak
            None (seen_by (λ x. x.known) desired)
            (seen_by (λ h. seen_by (λ x. x.known) h) r.0) self.new.desk) }
        ensures stays { IfOk result.found (λ r. seen_by (λ x. x.known) result.desired
            ≡ desired_after (seen_by (λ h. seen_by (λ x. x.known) h) r.0) (seen_by (λ x. x.known) desired)) }
        ensures unchanged { IfErr result.found (λ _. (self.new.desk ≡ self.old.desk)
            × (seen_by (λ x. x.known) result.desired ≡ seen_by (λ x. x.known) desired)) }
        ensures limit { IsErr result.found ↔ LacksRoom self.old.desk None
            (seen_by (λ x. x.known) desired) }
        ensures refused { IfErr result.found (λ why. why ≡ Refusal.Limit) }
    {
        let hoped = match self.empty_owner(domain, how.of) {
            Ok(hoped) => hoped,
            Err(why) => {
                let found = Err(why);
                return Comparison { found, desired };
            }
        };
        let came = self.compare_with(rt, domain, how, &hoped, desired);
        let _ = self.leave(domain, hoped);
        came
    }

    /// The same, where an empty one may be expected too.
    #[inline(always)]
    pub(crate) fn compare_any<'a, R: Wait>(
        &mut self,
        rt: &R,
        domain: &domain::Domain<D::Value>,
        how: &Compare<'a, SharedAt<'a>, D>,
        expected: Option<&SharedClaim<D>>,
        desired: Option<SharedClaim<D>>,
    ) -> Comparison<SharedClaim<D>>
        requires domain { Belongs D.opened domain.now }
        requires cell { IsSharedSite D.opened how.now.at.site (known_by how.now.of) }
        ensures exact { IfOk result.found (λ r. FindsNow self.old.desk
            (shared_cell_of D.opened (known_by how.now.of) how.now.at.site) how.now.weak
            (known_by expected.entry) (seen_by (λ x. x.known) desired)
            (seen_by (λ h. seen_by (λ x. x.known) h) r.0) self.new.desk) }
        ensures stays { IfOk result.found (λ r. seen_by (λ x. x.known) result.desired
            ≡ desired_after (seen_by (λ h. seen_by (λ x. x.known) h) r.0) (seen_by (λ x. x.known) desired)) }
        ensures unchanged { IfErr result.found (λ _. (self.new.desk ≡ self.old.desk)
            × (seen_by (λ x. x.known) result.desired ≡ seen_by (λ x. x.known) desired)) }
        ensures limit { IsErr result.found ↔ LacksRoom self.old.desk (known_by expected.entry)
            (seen_by (λ x. x.known) desired) }
        ensures refused { IfErr result.found (λ why. why ≡ Refusal.Limit) }
    {
        match expected {
            Some(expected) => self.compare_with(rt, domain, how, expected, desired),
            None => self.compare_with_empty(rt, domain, how, desired),
        }
    }
}
