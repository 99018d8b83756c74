//! Weak pointers.
ghost use Rattle.std.specs.Prelude.{◌≡◌, ◌↔◌, IfErr, IfNone, IfOk, IfSome, IsTrue, None, Some};
ghost use Rattle.control_block.specs.Desks.{Belongs};
ghost use Rattle.control_word.specs.declared.model.handle.Kind.TheVariants as kind;
ghost use Rattle.shared_handle.specs.Calls as calls;
ghost use Rattle.pointers.specs.Faults.{WhyNoMore, WhyNoOwner, WhyNot};
ghost use Rattle.pointers.specs.HandCalls.{CameAsWeak, CameByLock};
ghost use Rattle.pointers.specs.Known.{AreOfOne, Since, owned, pointed};
ghost use Rattle.pointers.specs.Objects.{FindsNoOwner, IsCounted};

use crate::claim::weak_claim::WeakClaim;
use crate::desk::Desk;
use crate::domain::Domain;
use crate::fault::Fault;
use crate::fault::call::Call;
use crate::shared::cells::pointer;
use crate::shared::{Shared, comes_before};
use std::marker::Model;
use std::sync::Wait;

pub(crate) mod cells;

/// A weak pointer to an object, in C++ `weak_ptr`, in Rust `Weak`. Dropped, it lets go.
pub struct Weak<'t, D: Domain> {
    pub(crate) desk: &'t Desk<'t, D>,
    pub(crate) weak: WeakClaim<D>,
}

impl<'t, D: Domain> Model for Weak<'t, D> {
    ghost use Rattle.control_block.specs.contracts.handles.Shared as shared_handle;
    ghost use Rattle.control_block.specs.contracts.handles.Weak as weak_handle;
    ghost use Rattle.std.specs.Coded.{codes};
    ghost use Rattle.pointers.specs.declared.known.Known.{Known};

    ghost Value = { Known D.Value };

    ghost coded = { Prim.hlevel (codes, shared_handle.the_row.coded, weak_handle.the_row.coded) };

    ghost view = { λ w. w.weak.known };
}

impl<'t, D: Domain> Drop for Weak<'t, D> {
    #[inline(always)]
    fn drop(self) {
        let Self { desk, weak } = self;
        desk.let_go_weak(weak);
    }
}

impl<'t, D: Domain> Weak<'t, D> {
    /// The desk that it comes from.
    #[inline(always)]
    pub fn desk(&self) -> &'t Desk<'t, D>
        ensures { Belongs D.opened result.now.domain.now }
    {
        self.desk
    }

    /// One weak pointer more, in C++ a copy ([util.smartptr.weak.const]).
    #[inline(always)]
    pub fn share(&self) -> Result<Weak<'t, D>, Fault>
        ensures one { IfOk result (AreOfOne D.opened self.now) }
        ensures place { IfOk result (λ r. pointed r ≡ calls.weak_place (owned self.now) (pointed self.now)) }
        ensures came { IfOk result (CameAsWeak D.opened self.now) }
        ensures fault { IfErr result (WhyNoMore D.opened (Some self.now) Call.Share) }
    {
        let desk = self.desk;
        match desk.open(Call::Share)?.share_weak(desk.domain, &self.weak) {
            Ok(weak) => Ok(Weak { desk, weak }),
            Err(why) => Err(Fault::of(Call::Share, why)),
        }
    }

    /// An owner, just where one remains, in C++ `lock()` ([util.smartptr.weak.obs]), in Rust `upgrade` (waits).
    #[inline(always)]
    pub fn lock<R: Wait>(&self, rt: &R) -> Result<Option<Shared<'t, D>>, Fault>
        ensures one { IfOk result (λ r. IfSome r (AreOfOne D.opened self.now)) }
        ensures place { IfOk result (λ r. IfSome r (λ p. pointed p ≡ pointed self.now)) }
        ensures came { IfOk result (λ r. IfSome r (CameByLock D.opened self.now)) }
        ensures none { IfOk result (λ r. IfNone r (Since D.opened self.now
            (λ d e. FindsNoOwner d (owned self.now) (pointed self.now) e))) }
        ensures fault { IfErr result (WhyNoMore D.opened (Some self.now) Call.Lock) }
    {
        let desk = self.desk;
        let mut context = desk.open(Call::Lock)?;
        match context.lock_once(desk.domain, &self.weak) {
            Some(Some(owner)) => return Ok(Some(Shared { desk, owner })),
            Some(None) => return Ok(None),
            None => {}
        }
        match context.lock(rt, desk.domain, &self.weak) {
            Ok(Some(owner)) => Ok(Some(Shared { desk, owner })),
            Ok(None) => Ok(None),
            Err(why) => Err(Fault::of(Call::Lock, why)),
        }
    }

    /// The same, with a pointer beside it: where that is an owner of the object, it finds one.
    #[inline(always)]
    pub fn lock_beside<R: Wait>(
        &self,
        rt: &R,
        owner: &Shared<'t, D>,
    ) -> Result<Option<Shared<'t, D>>, Fault>
        ensures found { (owned owner.now ≡ None → ⊥) → owned owner.now ≡ owned self.now
            → IfOk result (λ r. IfNone r ⊥) }
        ensures one { IfOk result (λ r. IfSome r (AreOfOne D.opened self.now)) }
        ensures place { IfOk result (λ r. IfSome r (λ p. pointed p ≡ pointed self.now)) }
        ensures came { IfOk result (λ r. IfSome r (CameByLock D.opened self.now)) }
        ensures none { IfOk result (λ r. IfNone r (Since D.opened self.now
            (λ d e. FindsNoOwner d (owned self.now) (pointed self.now) e))) }
        ensures fault { IfErr result (WhyNoMore D.opened (Some self.now) Call.Lock) }
    {
        let desk = self.desk;
        let mut context = desk.open(Call::Lock)?;
        context.look(&owner.owner);
        match context.lock(rt, desk.domain, &self.weak) {
            Ok(owner) => Ok(pointer(desk, owner)),
            Err(why) => Err(Fault::of(Call::Lock, why)),
        }
    }

    /// An owner, or `Refused(Upgrade, BadWeak)` where none remains, in C++ `shared_ptr(weak_ptr)` (waits)
    /// ([util.smartptr.shared.const]).
    #[inline(always)]
    pub fn upgrade<R: Wait>(&self, rt: &R) -> Result<Shared<'t, D>, Fault>
        ensures one { IfOk result (AreOfOne D.opened self.now) }
        ensures place { IfOk result (λ r. pointed r ≡ pointed self.now) }
        ensures came { IfOk result (CameByLock D.opened self.now) }
        ensures fault { IfErr result (WhyNot Call.Upgrade (WhyNoOwner D.opened self.now)) }
    {
        let desk = self.desk;
        match desk
            .open(Call::Upgrade)?
            .upgrade(rt, desk.domain, &self.weak)
        {
            Ok(owner) => Ok(Shared { desk, owner }),
            Err(why) => Err(Fault::of(Call::Upgrade, why)),
        }
    }

    /// Whether no owner remains, in C++ `expired()` ([util.smartptr.weak.obs]).
    #[inline(always)]
    pub fn expired(&self) -> Result<bool, Fault>
        ensures expired { IfOk result (λ b. Since D.opened self.now
            (λ d e. calls.IsExpiry d (owned self.now) (pointed self.now) b e)) }
        ensures fault { IfErr result (λ why. why ≡ Fault.Busy Call.Expired) }
    {
        let desk = self.desk;
        Ok(desk.open(Call::Expired)?.expired(desk.domain, &self.weak))
    }

    /// How many owners the object has, in C++ `use_count()` ([util.smartptr.weak.obs]).
    #[inline(always)]
    pub fn use_count(&self) -> Result<u32, Fault>
        ensures count { IfOk result (λ n. Since D.opened self.now
            (λ d e. IsCounted d kind.Weak (owned self.now) (pointed self.now) n e)) }
        ensures fault { IfErr result (λ why. why ≡ Fault.Busy Call.UseCount) }
    {
        let desk = self.desk;
        Ok(
            desk.open(Call::UseCount)?
                .use_count_weak(desk.domain, &self.weak),
        )
    }

    /// Whether both are of one object, in C++ neither `owner_before` the other, in Rust `Weak::ptr_eq`.
    #[inline(always)]
    pub fn is(&self, other: &Weak<'t, D>) -> bool
        ensures { IsTrue result ↔ (owned self.now ≡ owned other.now) }
    {
        self.weak.block() == other.weak.block()
    }

    /// Whether what it is of comes before what the other is of, in C++ `owner_before` ([util.smartptr.weak.obs]).
    #[inline(always)]
    pub fn owner_before(&self, other: &Weak<'t, D>) -> bool
        ensures { result ≡ calls.comes_before (owned self.now) (owned other.now) }
    {
        comes_before(self.weak.block(), other.weak.block())
    }

    /// The same beside an owner.
    #[inline(always)]
    pub fn owner_before_shared(&self, other: &Shared<'t, D>) -> bool
        ensures { result ≡ calls.comes_before (owned self.now) (owned other.now) }
    {
        comes_before(self.weak.block(), other.owner.block())
    }
}
