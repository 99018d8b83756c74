//! Further owners.
ghost use Rattle.std.specs.Prelude.{◌≡◌, ◌↔◌, IfErr, IfOk, IsErr, Some};
ghost use Rattle.control_block.specs.Desks.{Belongs};
ghost use Rattle.shared_handle.specs.Calls as calls;
ghost use Rattle.pointers.specs.Faults.{Was, WhyNoThis};
ghost use Rattle.pointers.specs.HandCalls.{CameAsCopy, SharesNow};
ghost use Rattle.pointers.specs.Known.{AreOfOne, IsAtAllowance, owned, pointed};

use crate::claim::shared_claim::SharedClaim;
use crate::context::Context;
use crate::domain::Domain;
use control_block::domain;
use control_word::{Place, Refusal};
use shared_handle::{alias, share, shared_from_this};

impl<D: Domain> Context<D> {
    /// One owner more, which points where the owner does.
    #[inline(always)]
    pub(crate) fn share(
        &mut self,
        domain: &domain::Domain<D::Value>,
        of: &SharedClaim<D>,
    ) -> Result<SharedClaim<D>, Refusal>
        requires { Belongs D.opened domain.now }
        ensures one { IfOk result (λ r. AreOfOne D.opened of.now.known r.known) }
        ensures place { IfOk result (λ r. pointed r.known ≡ pointed of.now.known) }
        ensures came { IfOk result (λ r. CameAsCopy D.opened of.now.known r.known) }
        ensures exact { IfOk result (λ r. SharesNow self.old.desk of.now.known r.known self.new.desk) }
        ensures unchanged { IfErr result (λ _. self.new.desk ≡ self.old.desk) }
        ensures limit { IsErr result ↔ IsAtAllowance self.old.desk }
        ensures refused { IfErr result
            (λ why. (why ≡ Refusal.Limit) × Was D.opened (Some of.now.known) IsAtAllowance) }
    {
        self.desk.assert_invariant();
        let of = of.look(&mut self.claims);
        let handle = share(domain, &mut self.desk, of)?;
        Ok(SharedClaim::register(handle, &self.desk, &mut self.claims))
    }

    /// One owner more, which points at another place.
    #[inline(always)]
    pub(crate) fn alias(
        &mut self,
        domain: &domain::Domain<D::Value>,
        of: &SharedClaim<D>,
        place: Option<Place>,
    ) -> Result<SharedClaim<D>, Refusal>
        requires { Belongs D.opened domain.now }
        ensures one { IfOk result (λ r. AreOfOne D.opened of.now.known r.known) }
        ensures place { IfOk result (λ r. pointed r.known ≡ calls.pointed place) }
        ensures came { IfOk result (λ r. CameAsCopy D.opened of.now.known r.known) }
        ensures limit { IsErr result ↔ IsAtAllowance self.old.desk }
        ensures refused { IfErr result
            (λ why. (why ≡ Refusal.Limit) × Was D.opened (Some of.now.known) IsAtAllowance) }
    {
        self.desk.assert_invariant();
        let of = of.look(&mut self.claims);
        let handle = alias(domain, &mut self.desk, of, place)?;
        Ok(SharedClaim::register(handle, &self.desk, &mut self.claims))
    }

    /// An owner that the object gives of itself, which points at its field 0.
    #[inline(always)]
    pub(crate) fn shared_from_this(
        &mut self,
        domain: &domain::Domain<D::Value>,
        of: &SharedClaim<D>,
    ) -> Result<SharedClaim<D>, Refusal>
        requires { Belongs D.opened domain.now }
        ensures one { IfOk result (λ r. AreOfOne D.opened of.now.known r.known) }
        ensures place { IfOk result (λ r. calls.IsOfThis (owned of.now.known) (pointed r.known)) }
        ensures refused { IfErr result (WhyNoThis D.opened of.now.known) }
    {
        self.desk.assert_invariant();
        let of = of.look(&mut self.claims);
        let handle = shared_from_this(domain, &mut self.desk, of)?;
        Ok(SharedClaim::register(handle, &self.desk, &mut self.claims))
    }
}
