//! Calls on cells of owners, while the desk is held.
ghost use Rattle.std.specs.Prelude.{◌≡◌, IfErr, IfOk, IsErr, None, OnOk};
ghost use Rattle.control_word.specs.declared.model.handle.Kind.TheVariants.{Owner};
ghost use Rattle.pointers.specs.HandCalls.{ExchangesNow, LoadsNow, StoresNow, WhyNotNow};
ghost use Rattle.pointers.specs.Known.{IsAtAllowance};
ghost use Rattle.pointers.specs.Places.{cell_at};

use crate::cells::member::Member;
use crate::domain::Domain;
use crate::fault::Fault;
use crate::fault::call::Call;
use crate::hand::Hand;
use crate::shared::Shared;
use crate::shared::cells::{claim, pointer};
use std::sync::Wait;

impl<'t, D: Domain> Hand<'t, D> {
    /// As `Member::load` (waits).
    pub fn load<R: Wait>(
        &mut self,
        rt: &R,
        place: &Member<'_, '_, D>,
    ) -> Result<Option<Shared<'t, D>>, Fault>
        ensures loads { IfOk result (λ r. LoadsNow self.old (cell_at D.opened Owner place.now) r self.new) }
        ensures limit { IsAtAllowance self.old → IsErr result }
        ensures refused { IfErr result (WhyNotNow D.opened Owner place.now Call.Load (IsAtAllowance self.old)) }
        ensures unchanged { IfErr result (λ _. self.new ≡ self.old) }
    {
        let desk = self.desk;
        let call = Call::Load(place.spot());
        let at = place.at(call)?;
        match self.context.load(rt, desk.domain, at, place.owner()) {
            Ok(owner) => Ok(pointer(desk, owner)),
            Err(why) => Err(Fault::of(call, why)),
        }
    }

    /// As `Member::store`.
    pub fn store(
        &mut self,
        place: &Member<'_, '_, D>,
        new: Option<Shared<'_, D>>,
    ) -> Result<(), Fault>
        ensures stores { OnOk result (StoresNow self.old (cell_at D.opened Owner place.now) new.entry self.new) }
        ensures limit { (new.entry ≡ None) × IsAtAllowance self.old → IsErr result }
        ensures refused { IfErr result
            (WhyNotNow D.opened Owner place.now Call.Store ((new.entry ≡ None) × IsAtAllowance self.old)) }
        ensures unchanged { IfErr result (λ _. self.new ≡ self.old) }
    {
        let desk = self.desk;
        let call = Call::Store(place.spot());
        let at = place.at(call)?;
        let new = claim(new);
        match self.context.store(desk.domain, at, place.owner(), new) {
            Ok(_) => return Ok(()),
            Err(why) => Err(Fault::of(call, why)),
        }
    }

    /// As `Member::exchange`.
    pub fn exchange(
        &mut self,
        place: &Member<'_, '_, D>,
        new: Option<Shared<'_, D>>,
    ) -> Result<Option<Shared<'t, D>>, Fault>
        ensures exchanges { IfOk result
            (λ r. ExchangesNow self.old (cell_at D.opened Owner place.now) new.entry r self.new) }
        ensures limit { (new.entry ≡ None) × IsAtAllowance self.old → IsErr result }
        ensures refused { IfErr result
            (WhyNotNow D.opened Owner place.now Call.Exchange ((new.entry ≡ None) × IsAtAllowance self.old)) }
        ensures unchanged { IfErr result (λ _. self.new ≡ self.old) }
    {
        let desk = self.desk;
        let call = Call::Exchange(place.spot());
        let at = place.at(call)?;
        let came = self
            .context
            .exchange(desk.domain, at, place.owner(), claim(new));
        match came {
            Ok(out) => Ok(pointer(desk, out)),
            Err(why) => Err(Fault::of(call, why)),
        }
    }
}
