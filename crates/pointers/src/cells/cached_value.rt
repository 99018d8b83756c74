//! Places whose values are read again and again.
ghost use Rattle.std.specs.Prelude.{◌≡◌, true, IfErr, IfOk, None, OnOk, Option, Some};
ghost use Rattle.control_word.specs.declared.model.handle.Kind.TheVariants.{Owner};
ghost use Rattle.pointers.specs.Beside.{seen_by};
ghost use Rattle.pointers.specs.Values.{IsCopied, IsValueOf};
ghost use Rattle.pointers.specs.declared.known.Known.{Known};
ghost use Rattle.pointers.specs.declared.fault.call.Call.TheVariants.{Holds};
ghost use Rattle.pointers.specs.SiteCalls.{Found, Loaded, LookedFor, WhyNoValue, WhyNotLooked};

use crate::cells::member::Member;
use crate::domain::Domain;
use crate::fault::Fault;
use crate::shared::Shared;
use std::sync::Wait;

/// A pointer that was found, and a copy of its object's value.
pub(crate) struct Kept<'t, D: Domain>
where
    D::Value: Clone,
{
    pub(crate) owner: Shared<'t, D>,
    pub(crate) value: D::Value,
    pub(crate) ghost copied: { ∥ IsCopied D.opened D.Value.is_clone owner value ∥₁ },
}

impl<'t, D: Domain> Drop for Kept<'t, D>
where
    D::Value: Clone,
{
    #[inline(always)]
    fn drop(self) {
        let Self { owner, value } = self;
        drop(value);
        drop(owner);
    }
}

/// A place for an owner, with the pointer that was found there last and a copy of its object's value, as
/// `load()->field` reads it. While the place holds that pointer still, a read is one look at it. Where values are
/// `Arc`s, a copy is one owner more of what was published. **What was found last lives on** until a `get` finds another
/// pointer, or this is dropped; what a visit changes in the object meanwhile isn't seen.
pub struct CachedValue<'p, 't, D: Domain>
where
    D::Value: Clone,
{
    pub(crate) place: Member<'p, 't, D>,
    pub(crate) kept: Option<Kept<'t, D>>,
}

impl<'p, 't, D: Domain> Drop for CachedValue<'p, 't, D>
where
    D::Value: Clone,
{
    #[inline(always)]
    fn drop(self) {
        let Self { place: _, kept } = self;
        drop(kept);
    }
}

impl<'p, 't, D: Domain> Member<'p, 't, D>
where
    D::Value: Clone,
{
    /// The place, whose value is to be read again and again. Nothing is looked at yet.
    #[inline(always)]
    pub fn cached_value(self) -> CachedValue<'p, 't, D>
        ensures place { result.place ≡ self.entry }
        ensures none { result.kept ≡ None }
    {
        CachedValue {
            place: self,
            kept: None,
        }
    }
}

impl<'p, 't, D: Domain> CachedValue<'p, 't, D>
where
    D::Value: Clone,
{
    /// The value of what the place holds (waits): the copy that was made last, where a look tells that its pointer is
    /// there still, and else a copy that a visit makes of what is there. None where that is empty. At a fault what was
    /// found last stays.
    #[inline(always)]
    pub fn get<R: Wait>(&mut self, rt: &R) -> Result<Option<&D::Value>, Fault>
        ensures found { IfOk result (λ r. (c : Option (Known D.Value))
            × Found D.opened Owner self.old.place c
            × ∥ IsValueOf D.opened D.Value.is_clone c (seen_by (λ x. x.now) r) ∥₁) }
        ensures refused { IfErr result (WhyNoValue D.opened self.old.place) }
    {
        self.look(rt)?;
        Ok(self.value())
    }

    /// The same, for a caller that reads it by `value`.
    #[inline(always)]
    pub fn look<R: Wait>(&mut self, rt: &R) -> Result<(), Fault>
        ensures found { OnOk result (Found D.opened Owner self.old.place (seen_by (λ k. k.owner) self.new.kept)) }
        ensures stays { IfErr result (λ _. self.new.kept ≡ self.old.kept) }
        ensures place { self.new.place ≡ self.old.place }
        ensures refused { IfErr result (WhyNoValue D.opened self.old.place) }
    {
        if self.holds_still()? {
            return Ok(());
        }
        self.kept = self.take(rt)?;
        Ok(())
    }

    /// The value that was found last.
    #[inline(always)]
    pub fn value(&self) -> Option<&D::Value>
        ensures value { seen_by (λ x. x.now) result ≡ seen_by (λ k. k.value) self.now.kept }
        ensures copied { ∥ IsValueOf D.opened D.Value.is_clone (seen_by (λ k. k.owner) self.now.kept)
            (seen_by (λ x. x.now) result) ∥₁ }
    {
        match &self.kept {
            Some(kept) => Some(&kept.value),
            None => None,
        }
    }

    /// The pointer that was found last.
    #[inline(always)]
    pub fn found(&self) -> Option<&Shared<'t, D>>
        ensures { seen_by (λ x. x.now) result ≡ seen_by (λ k. k.owner) self.now.kept }
    {
        match &self.kept {
            Some(kept) => Some(&kept.owner),
            None => None,
        }
    }

    /// Whether the place holds what was found last, if that is a pointer.
    #[inline(always)]
    fn holds_still(&self) -> Result<bool, Fault>
        ensures found { IfOk result (λ same. same ≡ true → (c : Known D.Value)
            × (seen_by (λ k. k.owner) self.now.kept ≡ Some c)
            × LookedFor D.opened Owner self.now.place (Some c) true) }
        ensures refused { IfErr result (WhyNotLooked D.opened Owner self.now.place Holds) }
    {
        match &self.kept {
            Some(kept) => self.place.still_holds(&kept.owner),
            None => Ok(false),
        }
    }

    /// What the place holds by now, by a load, with a copy of its value.
    #[cold]
    #[inline(never)]
    fn take<R: Wait>(&self, rt: &R) -> Result<Option<Kept<'t, D>>, Fault>
        ensures loaded { IfOk result (λ r. Loaded D.opened Owner self.now.place (seen_by (λ k. k.owner) r)) }
        ensures refused { IfErr result (WhyNoValue D.opened self.now.place) }
    {
        let Some(owner) = self.place.load(rt)? else {
            return Ok(None);
        };
        let value = owner.snapshot(rt)?;
        Ok(Some(Kept { owner, value }))
    }
}
