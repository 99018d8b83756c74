//! Owners in a map.
ghost use Rattle.std.specs.Prelude.{IfErr, IfOk};
ghost use Rattle.shared_map.specs.Maps.{Gets, Inserts, InsertsIfAbsent, Removes};
ghost use Rattle.shared_map.specs.Refusals.{WhyNotFound, WhyNotPut};

use crate::entry::{exchange, put_if_absent};
use crate::map::SharedMap;
use pointers::{Domain, Fault, Shared};
use std::sync::Wait;

impl<'t, D: Domain> SharedMap<'t, D> {
    /// A copy of the key's owner (waits). None where it has none. Of a key that is the first of its bucket, it loads
    /// one member and goes over no chain.
    /// Faults: `Busy`, `Crowded`, `Refused(_, Null)`, `Refused(_, Outside)`.
    #[inline(always)]
    pub fn get<R: Wait>(&mut self, rt: &R, key: u64) -> Result<Option<Shared<'t, D>>, Fault>
        ensures done { IfOk result (Gets D.opened key) }
        ensures refused { IfErr result WhyNotFound }
    {
        let number = self.number_of(key);
        match self.buckets.get_mut(number) {
            Some(bucket) => bucket.get(rt, key),
            None => self.last.get(rt, key),
        }
    }

    /// The key's owner comes out, and it has none then (waits).
    /// Faults: those of `get`.
    #[tactic(auto, using(crate::proofs::Entries::removes))]
    pub fn remove<R: Wait>(&mut self, rt: &R, key: u64) -> Result<Option<Shared<'t, D>>, Fault>
        ensures done { IfOk result (Removes D.opened key) }
        ensures refused { IfErr result WhyNotFound }
    {
        match self.find(rt, key)? {
            Some(entry) => exchange(&entry, None),
            None => Ok(None),
        }
    }
}

impl<'t, D: Domain> SharedMap<'t, D>
where
    D::Value: Default,
{
    /// The owner is the key's from now on, and the one that it had comes out (waits).
    /// Faults: those of `get`, and `Refused(Make, Full)`.
    #[tactic(auto, using(crate::proofs::Entries::inserts))]
    pub fn insert<R: Wait>(
        &mut self,
        rt: &R,
        key: u64,
        new: Shared<'t, D>,
    ) -> Result<Option<Shared<'t, D>>, Fault>
        ensures done { IfOk result (Inserts D.opened key new.entry) }
        ensures refused { IfErr result WhyNotPut }
    {
        let entry = self.entry(rt, key)?;
        exchange(&entry, Some(new))
    }

    /// The owner is the key's where that has none: `None`. Else a copy of the one that it has, and the new one lets go
    /// (waits).
    /// Faults: those of `get`, and `Refused(Make, Full)`.
    #[tactic(auto, using(crate::proofs::Entries::inserts_if_absent))]
    pub fn insert_if_absent<R: Wait>(
        &mut self,
        rt: &R,
        key: u64,
        new: Shared<'t, D>,
    ) -> Result<Option<Shared<'t, D>>, Fault>
        ensures done { IfOk result (InsertsIfAbsent D.opened key new.entry) }
        ensures refused { IfErr result WhyNotPut }
    {
        let entry = self.entry(rt, key)?;
        put_if_absent(rt, &entry, new)
    }
}
