//! Calls on pointers, while the desk is held.
ghost use Rattle.std.specs.Prelude.{◌≡◌, ◌⊎◌, ◌↔◌, [], Err, IfErr, IfNone, IfOk, IfSome, IsErr, Some, false};
ghost use Rattle.control_block.specs.Desks.{stock_of};
ghost use Rattle.control_word.specs.declared.model.handle.Kind.TheVariants as kind;
ghost use Rattle.shared_handle.specs.Calls as calls;
ghost use Rattle.shared_handle.specs.Locks.{HasOwner};
ghost use Rattle.pointers.specs.HandCalls.{Locks, MakesNow, Restocks, SharesNow, SharesWeaklyNow};
ghost use Rattle.pointers.specs.Known.{AreOfOne, IsAtAllowance, owned, pointed};
ghost use Rattle.pointers.specs.Objects.{FindsNoOwner, IsCounted};

use crate::domain::Domain;
use crate::fault::call::Call;
use crate::fault::{Fault, Refused};
use crate::hand::Hand;
use crate::shared::Shared;
use crate::weak::Weak;
use control_word::Refusal;
use std::sync::Wait;

impl<'t, D: Domain> Hand<'t, D> {
    /// As `Desk::make`. A desk without a vacant block takes two from the shelf before.
    pub fn make(
        &mut self,
        fields: [u64; 4],
        value: D::Value,
    ) -> Result<Shared<'t, D>, Refused<D::Value>>
        ensures makes { IfOk result (λ r. MakesNow self.old false fields value r self.new) }
        ensures fault { IfErr result (λ r. ((r.why ≡ Fault.Crowded Call.Make) × IsAtAllowance self.new)
            ⊎ ((r.why ≡ Fault.Refused Call.Make Refusal.Full) × (stock_of self.new ≡ []))) }
        ensures back { IfErr result (λ r. r.back ≡ value) }
        ensures unchanged { IfErr result (λ _. Restocks self.old self.new) }
    {
        let desk = self.desk;
        match self.context.make(desk.domain, fields, false, value) {
            Ok(owner) => Ok(Shared { desk, owner }),
            Err(refused) => Err(Refused {
                why: Fault::of(Call::Make, refused.why),
                back: refused.back,
            }),
        }
    }

    /// As `Shared::share`.
    pub fn share(&mut self, of: &Shared<'_, D>) -> Result<Shared<'t, D>, Fault>
        ensures shares { IfOk result (λ r. SharesNow self.old of.now r self.new) }
        ensures one { IfOk result (AreOfOne D.opened of.now) }
        ensures place { IfOk result (λ r. pointed r ≡ pointed of.now) }
        ensures limit { IsErr result ↔ IsAtAllowance self.old }
        ensures fault { IfErr result (λ why. why ≡ Fault.Crowded Call.Share) }
        ensures unchanged { IfErr result (λ _. self.new ≡ self.old) }
    {
        let desk = self.desk;
        match self.context.share(desk.domain, &of.owner) {
            Ok(owner) => Ok(Shared { desk, owner }),
            Err(why) => Err(Fault::of(Call::Share, why)),
        }
    }

    /// As `Shared::downgrade`.
    pub fn downgrade(&mut self, of: &Shared<'_, D>) -> Result<Weak<'t, D>, Fault>
        ensures shares { IfOk result (λ r. SharesWeaklyNow self.old of.now r self.new) }
        ensures one { IfOk result (AreOfOne D.opened of.now) }
        ensures place { IfOk result (λ r. pointed r ≡ calls.weak_place (owned of.now) (pointed of.now)) }
        ensures limit { IsErr result ↔ IsAtAllowance self.old }
        ensures fault { IfErr result (λ why. why ≡ Fault.Crowded Call.Downgrade) }
        ensures unchanged { IfErr result (λ _. self.new ≡ self.old) }
    {
        let desk = self.desk;
        match self.context.downgrade(desk.domain, &of.owner) {
            Ok(weak) => Ok(Weak { desk, weak }),
            Err(why) => Err(Fault::of(Call::Downgrade, why)),
        }
    }

    /// As `Weak::lock` (waits). With an owner of its object in hand it finds one.
    pub fn lock<R: Wait>(
        &mut self,
        rt: &R,
        of: &Weak<'_, D>,
    ) -> Result<Option<Shared<'t, D>>, Fault>
        ensures locks { IfOk result (λ r. Locks self.old of.now r self.new) }
        ensures one { IfOk result (λ r. IfSome r (AreOfOne D.opened of.now)) }
        ensures place { IfOk result (λ r. IfSome r (λ p. pointed p ≡ pointed of.now)) }
        ensures owned { HasOwner self.old (owned of.now) → IfOk result (λ r. IfNone r ⊥) }
        ensures limit { IsErr result ↔ IsAtAllowance self.old }
        ensures fault { IfErr result (λ why. why ≡ Fault.Crowded Call.Lock) }
        ensures unchanged { IfErr result (λ _. self.new ≡ self.old) }
    {
        let desk = self.desk;
        match self.context.upgrade(rt, desk.domain, &of.weak) {
            Ok(owner) => Ok(Some(Shared { desk, owner })),
            Err(Refusal::BadWeak) => Ok(None),
            Err(why) => Err(Fault::of(Call::Lock, why)),
        }
    }

    /// As `Weak::upgrade` (waits).
    pub fn upgrade<R: Wait>(&mut self, rt: &R, of: &Weak<'_, D>) -> Result<Shared<'t, D>, Fault>
        ensures locks { IfOk result (λ r. Locks self.old of.now (Some r) self.new) }
        ensures one { IfOk result (AreOfOne D.opened of.now) }
        ensures place { IfOk result (λ r. pointed r ≡ pointed of.now) }
        ensures owned { HasOwner self.old (owned of.now) → IfErr result (λ why. why ≡ Fault.Crowded Call.Upgrade) }
        ensures limit { result ≡ Err (Fault.Crowded Call.Upgrade) ↔ IsAtAllowance self.old }
        ensures fault { IfErr result (λ why. ((why ≡ Fault.Crowded Call.Upgrade) × (self.new ≡ self.old))
            ⊎ ((why ≡ Fault.Refused Call.Upgrade Refusal.BadWeak)
            × FindsNoOwner self.old (owned of.now) (pointed of.now) self.new)) }
    {
        let desk = self.desk;
        let came = self.context.upgrade(rt, desk.domain, &of.weak);
        match came {
            Ok(owner) => Ok(Shared { desk, owner }),
            Err(Refusal::BadWeak) => Err(Fault::Refused(Call::Upgrade, Refusal::BadWeak)),
            Err(why) => Err(Fault::of(Call::Upgrade, why)),
        }
    }

    /// As `Shared::use_count`.
    pub fn use_count(&mut self, of: &Shared<'_, D>) -> u32
        ensures { IsCounted self.old kind.Owner (owned of.now) (pointed of.now) result self.new }
    {
        let domain = self.desk.domain;
        self.context.use_count(domain, &of.owner)
    }

    /// As `Weak::expired`.
    pub fn expired(&mut self, of: &Weak<'_, D>) -> bool
        ensures { calls.IsExpiry self.old (owned of.now) (pointed of.now) result self.new }
    {
        let domain = self.desk.domain;
        self.context.expired(domain, &of.weak)
    }
}
