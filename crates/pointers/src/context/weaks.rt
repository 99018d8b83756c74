//! Weak handles, and owners from them.
ghost use Rattle.std.specs.Prelude.{◌≡◌, ◌↔◌, Err, IfErr, IfNone, IfOk, IfSome, IsErr, Some};
ghost use Rattle.control_block.specs.Desks.{Belongs};
ghost use Rattle.shared_handle.specs.Calls as calls;
ghost use Rattle.pointers.specs.Faults.{Was, WhyNoOwner, WhyNoThis};
ghost use Rattle.pointers.specs.Known.{AreOfOne, IsAtAllowance, Since, owned, pointed};
ghost use Rattle.pointers.specs.Objects.{FindsNoOwner};
ghost use Rattle.pointers.specs.HandCalls.{CameAsWeak, CameByLock, Locks, LocksNot, SharesWeaklyNow};
ghost use Rattle.shared_handle.specs.Locks.{HasOwner};

use crate::claim::shared_claim::SharedClaim;
use crate::claim::weak_claim::WeakClaim;
use crate::context::Context;
use crate::domain::Domain;
use control_block::domain;
use control_word::Refusal;
use shared_handle::{downgrade, lock_once, share_weak, upgrade, weak_from_this};
use std::sync::Wait;

impl<D: Domain> Context<D> {
    /// A weak handle of an owner's object, which points where the owner does.
    #[inline(always)]
    pub(crate) fn downgrade(
        &mut self,
        domain: &domain::Domain<D::Value>,
        of: &SharedClaim<D>,
    ) -> Result<WeakClaim<D>, Refusal>
        requires { Belongs D.opened domain.now }
        ensures one { IfOk result (λ r. AreOfOne D.opened of.now.known r.known) }
        ensures place { IfOk result
            (λ r. pointed r.known ≡ calls.weak_place (owned of.now.known) (pointed of.now.known)) }
        ensures came { IfOk result (λ r. CameAsWeak D.opened of.now.known r.known) }
        ensures exact { IfOk result (λ r. SharesWeaklyNow self.old.desk of.now.known r.known self.new.desk) }
        ensures unchanged { IfErr result (λ _. self.new.desk ≡ self.old.desk) }
        ensures limit { IsErr result ↔ IsAtAllowance self.old.desk }
        ensures refused { IfErr result
            (λ why. (why ≡ Refusal.Limit) × Was D.opened (Some of.now.known) IsAtAllowance) }
    {
        self.desk.assert_invariant();
        let of = of.look(&mut self.claims);
        let handle = downgrade(domain, &mut self.desk, of)?;
        Ok(WeakClaim::register(handle, &self.desk, &mut self.claims))
    }

    /// One weak handle more, which points where the handle does.
    #[inline(always)]
    pub(crate) fn share_weak(
        &mut self,
        domain: &domain::Domain<D::Value>,
        of: &WeakClaim<D>,
    ) -> Result<WeakClaim<D>, Refusal>
        requires { Belongs D.opened domain.now }
        ensures one { IfOk result (λ r. AreOfOne D.opened of.now.known r.known) }
        ensures place { IfOk result
            (λ r. pointed r.known ≡ calls.weak_place (owned of.now.known) (pointed of.now.known)) }
        ensures came { IfOk result (λ r. CameAsWeak D.opened of.now.known r.known) }
        ensures limit { IsErr result ↔ IsAtAllowance self.old.desk }
        ensures refused { IfErr result
            (λ why. (why ≡ Refusal.Limit) × Was D.opened (Some of.now.known) IsAtAllowance) }
    {
        self.desk.assert_invariant();
        let of = of.look(&mut self.claims);
        let handle = share_weak(domain, &mut self.desk, of)?;
        Ok(WeakClaim::register(handle, &self.desk, &mut self.claims))
    }

    /// A weak handle that an object gives of itself, which points at its field 0.
    #[inline(always)]
    pub(crate) fn weak_from_this(
        &mut self,
        domain: &domain::Domain<D::Value>,
        of: &SharedClaim<D>,
    ) -> Result<WeakClaim<D>, Refusal>
        requires { Belongs D.opened domain.now }
        ensures one { IfOk result (λ r. AreOfOne D.opened of.now.known r.known) }
        ensures place { IfOk result (λ r. calls.IsOfThis (owned of.now.known) (pointed r.known)) }
        ensures refused { IfErr result (WhyNoThis D.opened of.now.known) }
    {
        self.desk.assert_invariant();
        let of = of.look(&mut self.claims);
        let handle = weak_from_this(domain, &mut self.desk, of)?;
        Ok(WeakClaim::register(handle, &self.desk, &mut self.claims))
    }

    /// An owner of a weak handle's object, or `BadWeak` where none remains.
    #[inline(always)]
    pub(crate) fn upgrade<R: Wait>(
        &mut self,
        rt: &R,
        domain: &domain::Domain<D::Value>,
        of: &WeakClaim<D>,
    ) -> Result<SharedClaim<D>, Refusal>
        requires { Belongs D.opened domain.now }
        ensures one { IfOk result (λ r. AreOfOne D.opened of.now.known r.known) }
        ensures place { IfOk result (λ r. pointed r.known ≡ pointed of.now.known) }
        ensures came { IfOk result (λ r. CameByLock D.opened of.now.known r.known) }
        ensures exact { IfOk result (λ r. Locks self.old.desk of.now.known (Some r.known) self.new.desk) }
        ensures not { IfErr result (λ why. LocksNot self.old.desk of.now.known why self.new.desk) }
        ensures owned { HasOwner self.old.desk (owned of.now.known) → IfErr result (λ why. why ≡ Refusal.Limit) }
        ensures limit { result ≡ Err Refusal.Limit ↔ IsAtAllowance self.old.desk }
        ensures refused { IfErr result (WhyNoOwner D.opened of.now.known) }
    {
        self.desk.assert_invariant();
        let of = of.look(&mut self.claims);
        match upgrade(rt, domain, &mut self.desk, of) {
            Ok(handle) => Ok(SharedClaim::register(handle, &self.desk, &mut self.claims)),
            Err(why) => Err(why),
        }
    }

    /// One try at a lock, which waits for nobody: an owner of a weak handle's object, where one remains. It answers
    /// nothing where others were quicker.
    #[inline(always)]
    pub(crate) fn lock_once(
        &mut self,
        domain: &domain::Domain<D::Value>,
        of: &WeakClaim<D>,
    ) -> Option<Option<SharedClaim<D>>>
        requires { Belongs D.opened domain.now }
        ensures one { IfSome result (λ r. IfSome r (λ s. AreOfOne D.opened of.now.known s.known)) }
        ensures place { IfSome result (λ r. IfSome r (λ s. pointed s.known ≡ pointed of.now.known)) }
        ensures came { IfSome result (λ r. IfSome r (λ s. CameByLock D.opened of.now.known s.known)) }
        ensures none { IfSome result (λ r. IfNone r (Since D.opened of.now.known
            (λ d e. FindsNoOwner d (owned of.now.known) (pointed of.now.known) e))) }
    {
        self.desk.assert_invariant();
        let of = of.look(&mut self.claims);
        match lock_once(domain, &mut self.desk, of) {
            Some(Some(handle)) => Some(Some(SharedClaim::register(
                handle,
                &self.desk,
                &mut self.claims,
            ))),
            Some(None) => Some(None),
            None => None,
        }
    }

    /// An owner of a weak handle's object, where one remains.
    #[inline(always)]
    pub(crate) fn lock<R: Wait>(
        &mut self,
        rt: &R,
        domain: &domain::Domain<D::Value>,
        of: &WeakClaim<D>,
    ) -> Result<Option<SharedClaim<D>>, Refusal>
        requires { Belongs D.opened domain.now }
        ensures one { IfOk result (λ r. IfSome r (λ s. AreOfOne D.opened of.now.known s.known)) }
        ensures place { IfOk result (λ r. IfSome r (λ s. pointed s.known ≡ pointed of.now.known)) }
        ensures came { IfOk result (λ r. IfSome r (λ s. CameByLock D.opened of.now.known s.known)) }
        ensures none { IfOk result (λ r. IfNone r (Since D.opened of.now.known
            (λ d e. FindsNoOwner d (owned of.now.known) (pointed of.now.known) e))) }
        ensures owned { HasOwner self.old.desk (owned of.now.known) → IfOk result (λ r. IfNone r ⊥) }
        ensures limit { IsErr result ↔ IsAtAllowance self.old.desk }
        ensures refused { IfErr result
            (λ why. (why ≡ Refusal.Limit) × Was D.opened (Some of.now.known) IsAtAllowance) }
    {
        match self.upgrade(rt, domain, of) {
            Ok(owner) => Ok(Some(owner)),
            Err(Refusal::BadWeak) => Ok(None),
            Err(why) => Err(why),
        }
    }
}
