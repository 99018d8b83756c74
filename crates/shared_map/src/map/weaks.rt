//! Weak pointers in a map.
ghost use Rattle.std.specs.Prelude.{IfErr, IfOk};
ghost use Rattle.shared_map.specs.Maps.{GetsWeak, InsertsWeak, InsertsWeakIfExpired, Locks, RemovesWeak};
ghost use Rattle.shared_map.specs.Refusals.{WhyNotFound, WhyNotPut};

use crate::entry::{exchange_weak, get_weak, replace_expired};
use crate::map::SharedMap;
use pointers::{Domain, Fault, Shared, Weak};
use std::sync::Wait;

impl<'t, D: Domain> SharedMap<'t, D> {
    /// A copy of the key's weak pointer (waits). None where it has none.
    /// Faults: those of `get`.
    #[tactic(auto, using(crate::proofs::Entries::gets_weak))]
    pub fn get_weak<R: Wait>(&mut self, rt: &R, key: u64) -> Result<Option<Weak<'t, D>>, Fault>
        ensures done { IfOk result (GetsWeak D.opened key) }
        ensures refused { IfErr result WhyNotFound }
    {
        match self.find(rt, key)? {
            Some(entry) => get_weak(rt, &entry),
            None => Ok(None),
        }
    }

    /// An owner of what the key's weak pointer is of (waits). None where it has none, or none remains.
    /// Faults: those of `get`.
    #[inline(always)]
    pub fn lock<R: Wait>(&mut self, rt: &R, key: u64) -> Result<Option<Shared<'t, D>>, Fault>
        ensures done { IfOk result (Locks D.opened key) }
        ensures refused { IfErr result WhyNotFound }
    {
        let number = self.number_of(key);
        match self.buckets.get_mut(number) {
            Some(bucket) => bucket.lock(rt, key),
            None => self.last.lock(rt, key),
        }
    }

    /// The key's weak pointer comes out, and it has none then (waits).
    /// Faults: those of `get`.
    #[tactic(auto, using(crate::proofs::Entries::removes_weak))]
    pub fn remove_weak<R: Wait>(&mut self, rt: &R, key: u64) -> Result<Option<Weak<'t, D>>, Fault>
        ensures done { IfOk result (RemovesWeak D.opened key) }
        ensures refused { IfErr result WhyNotFound }
    {
        match self.find(rt, key)? {
            Some(entry) => exchange_weak(&entry, None),
            None => Ok(None),
        }
    }
}

impl<'t, D: Domain> SharedMap<'t, D>
where
    D::Value: Default,
{
    /// The weak pointer is the key's from now on, and the one that it had comes out (waits).
    /// Faults: those of `get`, and `Refused(Make, Full)`.
    #[tactic(auto, using(crate::proofs::Entries::inserts_weak))]
    pub fn insert_weak<R: Wait>(
        &mut self,
        rt: &R,
        key: u64,
        new: Weak<'t, D>,
    ) -> Result<Option<Weak<'t, D>>, Fault>
        ensures done { IfOk result (InsertsWeak D.opened key new.entry) }
        ensures refused { IfErr result WhyNotPut }
    {
        let entry = self.entry(rt, key)?;
        exchange_weak(&entry, Some(new))
    }

    /// The weak pointer is the key's where that has none, or an expired one: `None`. Else an owner of what the key's
    /// is of, and the new one lets go (waits).
    /// Faults: those of `get`, and `Refused(Make, Full)`.
    #[tactic(auto, using(crate::proofs::Entries::inserts_if_expired))]
    pub fn insert_weak_if_expired<R: Wait>(
        &mut self,
        rt: &R,
        key: u64,
        new: Weak<'t, D>,
    ) -> Result<Option<Shared<'t, D>>, Fault>
        ensures done { IfOk result (InsertsWeakIfExpired D.opened key new.entry) }
        ensures refused { IfErr result WhyNotPut }
    {
        let entry = self.entry(rt, key)?;
        replace_expired(rt, &entry, new)
    }
}
