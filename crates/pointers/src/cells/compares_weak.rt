//! Compares of places for weak pointers.
ghost use Rattle.std.specs.Prelude.{◌≡◌, true, false, IfErr, IfOk, IfSome, Some};
ghost use Rattle.control_word.specs.declared.model.handle.Kind.TheVariants as kind;
ghost use Rattle.pointers.specs.Beside.{IsEmptyHandle, seen_by};
ghost use Rattle.pointers.specs.Claims.{known_by};
ghost use Rattle.pointers.specs.Compares.{Finds, desired_after};
ghost use Rattle.pointers.specs.Faults.{WhyNoMore};
ghost use Rattle.pointers.specs.Cells.{IsWeakSite, weak_cell_of};
ghost use Rattle.pointers.specs.SiteCalls.{Compared, WhyNotDone};

use crate::cells::up::Up;
use crate::claim::shared_claim::SharedClaim;
use crate::context::compares::{Compare, Differs};
use crate::desk::Desk;
use crate::domain::Domain;
use crate::fault::call::Call;
use crate::fault::{Fault, Refused};
use crate::weak::Weak;
use crate::weak::cells::pointer;
use atomic_cells::WeakAt;
use std::sync::Wait;

impl<'d, D: Domain> Desk<'d, D> {
    /// An empty weak pointer, for a compare.
    #[inline(always)]
    pub(crate) fn empty_weak(
        &self,
        call: Call,
        of: Option<&SharedClaim<D>>,
    ) -> Result<Weak<'_, D>, Fault>
        ensures empty { IfOk result (λ r. IsEmptyHandle r.handle) }
        ensures refused { IfErr result (WhyNoMore D.opened (known_by of.entry) call) }
    {
        match self.open(call)?.empty_weak(self.domain, of) {
            Ok(weak) => Ok(Weak { desk: self, weak }),
            Err(why) => Err(Fault::of(call, why)),
        }
    }

    /// The compare, of pointers that are there.
    #[inline(always)]
    fn compare_weaks<'t, 'a, R: Wait>(
        &'t self,
        rt: &R,
        how: &Compare<'a, WeakAt<'a>, D>,
        hoped: &Weak<'t, D>,
        new: Weak<'t, D>,
    ) -> Result<Option<Differs<Weak<'t, D>>>, Refused<Weak<'t, D>>>
        requires { IsWeakSite D.opened how.now.at.site (known_by how.now.of) }
        ensures compared { IfOk result (λ r. Finds D.opened (known_by how.now.of)
            (weak_cell_of D.opened (known_by how.now.of) how.now.at.site) kind.Weak how.now.weak
            (Some hoped.now) (Some new.entry) (seen_by (λ d. d.held) r)) }
        ensures stays { IfOk result (λ r. IfSome r (λ d. d.desired ≡ new.entry)) }
        ensures back { IfErr result (λ r. r.back ≡ new.entry) }
        ensures refused { IfErr result (λ r. WhyNoMore D.opened (known_by how.now.of) how.now.call r.why) }
    {
        let mut context = match self.open(how.call) {
            Ok(context) => context,
            Err(why) => return Err(Refused { why, back: new }),
        };
        let came = context.compare_weak(rt, self.domain, how, &hoped.weak, new.into_claim());
        drop(context);
        match came {
            Ok(None) => {
                self.spare();
                Ok(None)
            }
            Ok(Some(differs)) => {
                let Differs { held, desired } = differs;
                Ok(Some(Differs {
                    held: pointer(self, held),
                    desired: Weak {
                        desk: self,
                        weak: desired,
                    },
                }))
            }
            Err(refused) => Err(Refused {
                why: Fault::of(how.call, refused.why),
                back: Weak {
                    desk: self,
                    weak: refused.back,
                },
            }),
        }
    }

    /// The same, where an empty one may be desired: what the cell holds, where it differs.
    #[inline(always)]
    fn compare_weak_with<'t, 'a, R: Wait>(
        &'t self,
        rt: &R,
        how: &Compare<'a, WeakAt<'a>, D>,
        hoped: &Weak<'t, D>,
        desired: &mut Option<Weak<'t, D>>,
    ) -> Result<Option<Option<Weak<'t, D>>>, Fault>
        requires { IsWeakSite D.opened how.now.at.site (known_by how.now.of) }
        ensures compared { IfOk result (Finds D.opened (known_by how.now.of)
            (weak_cell_of D.opened (known_by how.now.of) how.now.at.site) kind.Weak how.now.weak
            (Some hoped.now) desired.old) }
        ensures stays { IfOk result (λ found. desired.new ≡ desired_after found desired.old) }
        ensures stay { IfErr result (λ _. desired.new ≡ desired.old) }
        ensures refused { IfErr result (WhyNoMore D.opened (known_by how.now.of) how.now.call) }
    {
        match desired.take() {
            Some(new) => match self.compare_weaks(rt, how, hoped, new) {
                Ok(None) => Ok(None),
                Ok(Some(differs)) => {
                    let Differs {
                        held,
                        desired: back,
                    } = differs;
                    *desired = Some(back);
                    Ok(Some(held))
                }
                Err(refused) => {
                    *desired = Some(refused.back);
                    Err(refused.why)
                }
            },
            None => {
                let new = self.empty_weak(how.call, how.of)?;
                match self.compare_weaks(rt, how, hoped, new) {
                    Ok(None) => Ok(None),
                    Ok(Some(differs)) => {
                        let Differs {
                            held,
                            desired: back,
                        } = differs;
                        drop(back);
                        Ok(Some(held))
                    }
                    Err(refused) => Err(refused.why),
                }
            }
        }
    }

    /// The same, where an empty one may be expected too.
    #[inline(always)]
    fn compare_any_weak<'t, 'a, R: Wait>(
        &'t self,
        rt: &R,
        how: &Compare<'a, WeakAt<'a>, D>,
        expected: &Option<Weak<'t, D>>,
        desired: &mut Option<Weak<'t, D>>,
    ) -> Result<Option<Option<Weak<'t, D>>>, Fault>
        requires { IsWeakSite D.opened how.now.at.site (known_by how.now.of) }
        ensures compared { IfOk result (Finds D.opened (known_by how.now.of)
            (weak_cell_of D.opened (known_by how.now.of) how.now.at.site) kind.Weak how.now.weak
            expected.now desired.old) }
        ensures stays { IfOk result (λ found. desired.new ≡ desired_after found desired.old) }
        ensures stay { IfErr result (λ _. desired.new ≡ desired.old) }
        ensures refused { IfErr result (WhyNoMore D.opened (known_by how.now.of) how.now.call) }
    {
        match expected {
            Some(hoped) => self.compare_weak_with(rt, how, hoped, desired),
            None => {
                let hoped = self.empty_weak(how.call, how.of)?;
                self.compare_weak_with(rt, how, &hoped, desired)
            }
        }
    }
}

impl<'p, 't, D: Domain> Up<'p, 't, D> {
    /// As `Member::compare_exchange_strong`, of weak pointers (waits).
    #[inline(always)]
    pub fn compare_exchange_strong<R: Wait>(
        &self,
        rt: &R,
        expected: &mut Option<Weak<'t, D>>,
        desired: &mut Option<Weak<'t, D>>,
    ) -> Result<bool, Fault>
        ensures compared { IfOk result (λ swapped. Compared D.opened kind.Weak self.now false expected.old desired.old
            swapped expected.new desired.new) }
        ensures refused { IfErr result (WhyNotDone D.opened kind.Weak self.now Call.CompareExchange) }
        ensures stay { IfErr result (λ _. (expected.new ≡ expected.old) × (desired.new ≡ desired.old)) }
    {
        self.compare(rt, false, expected, desired)
    }

    /// The same, and it may answer false on an equivalent pointer. In C++ `compare_exchange_weak`.
    #[inline(always)]
    pub fn compare_exchange_weak<R: Wait>(
        &self,
        rt: &R,
        expected: &mut Option<Weak<'t, D>>,
        desired: &mut Option<Weak<'t, D>>,
    ) -> Result<bool, Fault>
        ensures compared { IfOk result (λ swapped. Compared D.opened kind.Weak self.now true expected.old desired.old
            swapped expected.new desired.new) }
        ensures refused { IfErr result (WhyNotDone D.opened kind.Weak self.now Call.CompareExchange) }
        ensures stay { IfErr result (λ _. (expected.new ≡ expected.old) × (desired.new ≡ desired.old)) }
    {
        self.compare(rt, true, expected, desired)
    }

    #[inline(always)]
    fn compare<R: Wait>(
        &self,
        rt: &R,
        weak: bool,
        expected: &mut Option<Weak<'t, D>>,
        desired: &mut Option<Weak<'t, D>>,
    ) -> Result<bool, Fault>
        ensures compared { IfOk result (λ swapped. Compared D.opened kind.Weak self.now weak expected.old desired.old
            swapped expected.new desired.new) }
        ensures refused { IfErr result (WhyNotDone D.opened kind.Weak self.now Call.CompareExchange) }
        ensures stay { IfErr result (λ _. (expected.new ≡ expected.old) × (desired.new ≡ desired.old)) }
    {
        let desk = self.desk;
        let call = Call::CompareExchange(self.spot());
        let how = Compare {
            call,
            at: self.at(call)?,
            of: self.owner(),
            weak,
        };
        let found = desk.compare_any_weak(rt, &how, expected, desired)?;
        match found {
            None => Ok(true),
            Some(held) => {
                *expected = held;
                Ok(false)
            }
        }
    }
}
