//! Compares of places for owners.
ghost use Rattle.std.specs.Prelude.{◌≡◌, true, false, IfErr, IfOk, IfSome, Some};
ghost use Rattle.control_word.specs.declared.model.handle.Kind.TheVariants.{Owner};
ghost use Rattle.pointers.specs.Beside.{IsEmptyHandle, seen_by};
ghost use Rattle.pointers.specs.Claims.{known_by};
ghost use Rattle.pointers.specs.Compares.{Finds, desired_after};
ghost use Rattle.pointers.specs.Faults.{WhyNoMore};
ghost use Rattle.pointers.specs.Cells.{IsSharedSite, shared_cell_of};
ghost use Rattle.pointers.specs.Places.{WhyNoCell, shared_site_of, spot_of};
ghost use Rattle.pointers.specs.SiteCalls.{Compared, WhyNotDone};
ghost use Rattle.pointers.specs.Sites.{owner_of};

use crate::cells::member::Member;
use crate::claim::shared_claim::SharedClaim;
use crate::context::compares::{Compare, Differs};
use crate::desk::Desk;
use crate::domain::Domain;
use crate::fault::call::Call;
use crate::fault::{Fault, Refused};
use crate::shared::Shared;
use crate::shared::cells::pointer;
use atomic_cells::SharedAt;
use shared_handle::Gone;
use std::sync::Wait;

impl<'d, D: Domain> Desk<'d, D> {
    /// An empty owner, for a compare.
    #[inline(always)]
    pub(crate) fn empty_owner(
        &self,
        call: Call,
        of: Option<&SharedClaim<D>>,
    ) -> Result<Shared<'_, D>, Fault>
        ensures empty { IfOk result (λ r. IsEmptyHandle r.handle) }
        ensures refused { IfErr result (WhyNoMore D.opened (known_by of.entry) call) }
    {
        match self.open(call)?.empty_owner(self.domain, of) {
            Ok(owner) => Ok(Shared { desk: self, owner }),
            Err(why) => Err(Fault::of(call, why)),
        }
    }

    /// The compare, of pointers that are there.
    #[inline(always)]
    fn compare_both<'t, 'a, R: Wait>(
        &'t self,
        rt: &R,
        how: &Compare<'a, SharedAt<'a>, D>,
        hoped: &Shared<'t, D>,
        new: Shared<'t, D>,
    ) -> Result<Option<Differs<Shared<'t, D>>>, Refused<Shared<'t, D>>>
        requires { IsSharedSite D.opened how.now.at.site (known_by how.now.of) }
        ensures compared { IfOk result (λ r. Finds D.opened (known_by how.now.of)
            (shared_cell_of D.opened (known_by how.now.of) how.now.at.site) Owner how.now.weak
            (Some hoped.now) (Some new.entry) (seen_by (λ d. d.held) r)) }
        ensures stays { IfOk result (λ r. IfSome r (λ d. d.desired ≡ new.entry)) }
        ensures back { IfErr result (λ r. r.back ≡ new.entry) }
        ensures refused { IfErr result (λ r. WhyNoMore D.opened (known_by how.now.of) how.now.call r.why) }
    {
        let mut context = match self.open(how.call) {
            Ok(context) => context,
            Err(why) => return Err(Refused { why, back: new }),
        };
        let came = context.compare(rt, self.domain, how, &hoped.owner, new.into_claim());
        drop(context);
        match came {
            Ok((None, gone)) => {
                if let Gone::Last = gone {
                    self.end_some();
                }
                Ok(None)
            }
            Ok((Some(differs), _)) => {
                let Differs { held, desired } = differs;
                Ok(Some(Differs {
                    held: pointer(self, held),
                    desired: Shared {
                        desk: self,
                        owner: desired,
                    },
                }))
            }
            Err(refused) => Err(Refused {
                why: Fault::of(how.call, refused.why),
                back: Shared {
                    desk: self,
                    owner: refused.back,
                },
            }),
        }
    }

    /// The same, where an empty one may be desired: what the cell holds, where it differs.
    #[inline(always)]
    fn compare_with<'t, 'a, R: Wait>(
        &'t self,
        rt: &R,
        how: &Compare<'a, SharedAt<'a>, D>,
        hoped: &Shared<'t, D>,
        desired: &mut Option<Shared<'t, D>>,
    ) -> Result<Option<Option<Shared<'t, D>>>, Fault>
        requires { IsSharedSite D.opened how.now.at.site (known_by how.now.of) }
        ensures compared { IfOk result (Finds D.opened (known_by how.now.of)
            (shared_cell_of D.opened (known_by how.now.of) how.now.at.site) Owner how.now.weak
            (Some hoped.now) desired.old) }
        ensures stays { IfOk result (λ found. desired.new ≡ desired_after found desired.old) }
        ensures stay { IfErr result (λ _. desired.new ≡ desired.old) }
        ensures refused { IfErr result (WhyNoMore D.opened (known_by how.now.of) how.now.call) }
    {
        match desired.take() {
            Some(new) => match self.compare_both(rt, how, hoped, new) {
                Ok(None) => Ok(None),
                Ok(Some(differs)) => {
                    let Differs {
                        held,
                        desired: back,
                    } = differs;
                    *desired = Some(back);
                    Ok(Some(held))
                }
                Err(refused) => {
                    *desired = Some(refused.back);
                    Err(refused.why)
                }
            },
            None => {
                let new = self.empty_owner(how.call, how.of)?;
                match self.compare_both(rt, how, hoped, new) {
                    Ok(None) => Ok(None),
                    Ok(Some(differs)) => {
                        let Differs {
                            held,
                            desired: back,
                        } = differs;
                        drop(back);
                        Ok(Some(held))
                    }
                    Err(refused) => Err(refused.why),
                }
            }
        }
    }

    /// The same, where an empty one may be expected too.
    #[inline(always)]
    fn compare_any<'t, 'a, R: Wait>(
        &'t self,
        rt: &R,
        how: &Compare<'a, SharedAt<'a>, D>,
        expected: &Option<Shared<'t, D>>,
        desired: &mut Option<Shared<'t, D>>,
    ) -> Result<Option<Option<Shared<'t, D>>>, Fault>
        requires { IsSharedSite D.opened how.now.at.site (known_by how.now.of) }
        ensures compared { IfOk result (Finds D.opened (known_by how.now.of)
            (shared_cell_of D.opened (known_by how.now.of) how.now.at.site) Owner how.now.weak
            expected.now desired.old) }
        ensures stays { IfOk result (λ found. desired.new ≡ desired_after found desired.old) }
        ensures stay { IfErr result (λ _. desired.new ≡ desired.old) }
        ensures refused { IfErr result (WhyNoMore D.opened (known_by how.now.of) how.now.call) }
    {
        match expected {
            Some(hoped) => self.compare_with(rt, how, hoped, desired),
            None => {
                let hoped = self.empty_owner(how.call, how.of)?;
                self.compare_with(rt, how, &hoped, desired)
            }
        }
    }
}

impl<'p, 't, D: Domain> Member<'p, 't, D> {
    /// Where it holds a pointer equivalent to what is expected (the same place, and the same object or none), what is
    /// desired goes into it, and what it held lets go (waits): true, and `desired` is `None` then. Else `expected` is a
    /// copy of what it holds, and `desired` stays: false. At a fault both stay. In C++ `compare_exchange_strong`.
    #[inline(always)]
    pub fn compare_exchange_strong<R: Wait>(
        &self,
        rt: &R,
        expected: &mut Option<Shared<'t, D>>,
        desired: &mut Option<Shared<'t, D>>,
    ) -> Result<bool, Fault>
        ensures compared { IfOk result (λ swapped. Compared D.opened Owner self.now false expected.old desired.old
            swapped expected.new desired.new) }
        ensures refused { IfErr result (WhyNotDone D.opened Owner self.now Call.CompareExchange) }
        ensures stay { IfErr result (λ _. (expected.new ≡ expected.old) × (desired.new ≡ desired.old)) }
    {
        self.compare(rt, false, expected, desired)
    }

    /// The same, and it may answer false on an equivalent pointer. In C++ `compare_exchange_weak`.
    #[inline(always)]
    pub fn compare_exchange_weak<R: Wait>(
        &self,
        rt: &R,
        expected: &mut Option<Shared<'t, D>>,
        desired: &mut Option<Shared<'t, D>>,
    ) -> Result<bool, Fault>
        ensures compared { IfOk result (λ swapped. Compared D.opened Owner self.now true expected.old desired.old
            swapped expected.new desired.new) }
        ensures refused { IfErr result (WhyNotDone D.opened Owner self.now Call.CompareExchange) }
        ensures stay { IfErr result (λ _. (expected.new ≡ expected.old) × (desired.new ≡ desired.old)) }
    {
        self.compare(rt, true, expected, desired)
    }

    /// A compare of it, by its form.
    #[inline(always)]
    pub(crate) fn comparing(&self, weak: bool) -> Result<Compare<'p, SharedAt<'p>, D>, Fault>
        ensures cell { IfOk result (λ how. IsSharedSite D.opened how.at.site (known_by how.of)) }
        ensures there { IfOk result (λ how. (how.at.site ≡ shared_site_of self.now)
            × (known_by how.of ≡ owner_of self.now)) }
        ensures form { IfOk result (λ how. (how.weak ≡ weak)
            × (how.call ≡ Call.CompareExchange (spot_of Owner self.now))) }
        ensures refused { IfErr result
            (WhyNoCell D.opened Owner self.now (Call.CompareExchange (spot_of Owner self.now))) }
    {
        let call = Call::CompareExchange(self.spot());
        Ok(Compare {
            call,
            at: self.at(call)?,
            of: self.owner(),
            weak,
        })
    }

    #[inline(always)]
    fn compare<R: Wait>(
        &self,
        rt: &R,
        weak: bool,
        expected: &mut Option<Shared<'t, D>>,
        desired: &mut Option<Shared<'t, D>>,
    ) -> Result<bool, Fault>
        ensures compared { IfOk result (λ swapped. Compared D.opened Owner self.now weak expected.old desired.old
            swapped expected.new desired.new) }
        ensures refused { IfErr result (WhyNotDone D.opened Owner self.now Call.CompareExchange) }
        ensures stay { IfErr result (λ _. (expected.new ≡ expected.old) × (desired.new ≡ desired.old)) }
    {
        let how = self.comparing(weak)?;
        let found = self.desk.compare_any(rt, &how, expected, desired)?;
        match found {
            None => Ok(true),
            Some(held) => {
                *expected = held;
                Ok(false)
            }
        }
    }
}
