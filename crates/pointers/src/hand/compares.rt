//! Compares of places for owners, while the desk is held.
ghost use Rattle.std.specs.Prelude.{◌≡◌, IfErr, IfOk, IsErr, false, true};
ghost use Rattle.control_word.specs.declared.model.handle.Kind.TheVariants.{Owner};
ghost use Rattle.pointers.specs.Cells.{IsSharedSite, shared_cell_of};
ghost use Rattle.pointers.specs.Claims.{known_by};
ghost use Rattle.pointers.specs.HandCalls.{ComparesNow, LacksRoom, WhyNotNow};
ghost use Rattle.pointers.specs.Places.{cell_at};
ghost use Rattle.pointers.specs.declared.fault.Fault.TheVariants.{Crowded};

use crate::cells::member::Member;
use crate::context::compares::Compare;
use crate::context::optional_compares::Comparison;
use crate::domain::Domain;
use crate::fault::Fault;
use crate::fault::call::Call;
use crate::hand::Hand;
use crate::shared::Shared;
use crate::shared::cells::{claim, claim_in, pointer};
use atomic_cells::SharedAt;
use std::mem::replace;
use std::sync::Wait;

impl<'t, D: Domain> Hand<'t, D> {
    /// As `Member::compare_exchange_strong` (waits). Where it answers false, what was expected lets go then, as in C++
    /// by the assignment to `expected`. It needs room for a copy of what the place holds, and for each of the two that
    /// is `None`.
    pub fn compare_exchange_strong<R: Wait>(
        &mut self,
        rt: &R,
        place: &Member<'_, '_, D>,
        expected: &mut Option<Shared<'t, D>>,
        desired: &mut Option<Shared<'t, D>>,
    ) -> Result<bool, Fault>
        ensures compared { IfOk result (λ swapped. ComparesNow self.old (cell_at D.opened Owner place.now) false
            expected.old desired.old swapped expected.new desired.new self.new) }
        ensures limit { LacksRoom self.old expected.old desired.old → IsErr result }
        ensures refused { IfErr result (WhyNotNow D.opened Owner place.now Call.CompareExchange
            (LacksRoom self.old expected.old desired.old)) }
        ensures unchanged { IfErr result (λ _.
            (self.new ≡ self.old) × (expected.new ≡ expected.old) × (desired.new ≡ desired.old)) }
    {
        let how = place.comparing(false)?;
        self.compare(rt, &how, expected, desired)
    }

    /// The same, and it may answer false on an equivalent pointer, as `Member::compare_exchange_weak` (waits).
    pub fn compare_exchange_weak<R: Wait>(
        &mut self,
        rt: &R,
        place: &Member<'_, '_, D>,
        expected: &mut Option<Shared<'t, D>>,
        desired: &mut Option<Shared<'t, D>>,
    ) -> Result<bool, Fault>
        ensures compared { IfOk result (λ swapped. ComparesNow self.old (cell_at D.opened Owner place.now) true
            expected.old desired.old swapped expected.new desired.new self.new) }
        ensures limit { LacksRoom self.old expected.old desired.old → IsErr result }
        ensures refused { IfErr result (WhyNotNow D.opened Owner place.now Call.CompareExchange
            (LacksRoom self.old expected.old desired.old)) }
        ensures unchanged { IfErr result (λ _.
            (self.new ≡ self.old) × (expected.new ≡ expected.old) × (desired.new ≡ desired.old)) }
    {
        let how = place.comparing(true)?;
        self.compare(rt, &how, expected, desired)
    }

    #[inline(always)]
    fn compare<'a, R: Wait>(
        &mut self,
        rt: &R,
        how: &Compare<'a, SharedAt<'a>, D>,
        expected: &mut Option<Shared<'t, D>>,
        desired: &mut Option<Shared<'t, D>>,
    ) -> Result<bool, Fault>
        requires { IsSharedSite D.opened how.now.at.site (known_by how.now.of) }
        ensures compared { IfOk result (λ swapped. ComparesNow self.old
            (shared_cell_of D.opened (known_by how.now.of) how.now.at.site) how.now.weak
            expected.old desired.old swapped expected.new desired.new self.new) }
        ensures limit { LacksRoom self.old expected.old desired.old → IsErr result }
        ensures refused { IfErr result (λ why. (why ≡ Crowded how.now.call)
            × LacksRoom self.old expected.old desired.old) }
        ensures unchanged { IfErr result (λ _.
            (self.new ≡ self.old) × (expected.new ≡ expected.old) × (desired.new ≡ desired.old)) }
    {
        let desk = self.desk;
        let new = claim(desired.take());
        let hoped = claim_in(expected);
        let Comparison {
            found,
            desired: back,
        } = self.context.compare_any(rt, desk.domain, how, hoped, new);
        *desired = pointer(desk, back);
        match found {
            Ok((None, _)) => Ok(true),
            Ok((Some(held), _)) => {
                let old = replace(expected, pointer(desk, held));
                if let Some(old) = old {
                    self.let_go(old);
                }
                Ok(false)
            }
            Err(why) => Err(Fault::of(how.call, why)),
        }
    }
}
