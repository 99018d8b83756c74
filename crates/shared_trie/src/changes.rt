//! What goes into a trie, and what comes out.
ghost use Rattle.std.specs.Prelude.{◌≡◌, IfErr, IfOk};
ghost use Rattle.shared_trie.specs.Refusals.{WhyNotFound, WhyNotPut};
ghost use Rattle.shared_trie.specs.Tries.{Ends, Inserts, InsertsIfAbsent, IsOf, Puts, PutsIfAbsent, Removes};

use crate::key::number_at;
use crate::node::key_of;
use crate::slot::{Swapped, swap, take};
use crate::trie::SharedTrie;
use crate::way::End;
use pointers::{Domain, Fault, Refused, Shared};
use std::sync::Wait;

/// A pointer that was not put in, since another object of its key is there.
#[derive(Drop)]
pub struct Occupied<T> {
    pub there: T,
    pub back: T,
}

impl<'t, D: Domain> SharedTrie<'t, D> {
    /// The key's object comes out (waits). None where there is none.
    pub fn remove<R: Wait>(&self, rt: &R, key: u64) -> Result<Option<Shared<'t, D>>, Fault>
        ensures done { IfOk result (Removes D.opened self.now.root key) }
        ensures refused { IfErr result WhyNotFound }
    {
        let mut end = self.end_of(rt, key)?;
        for _ in rt.forever() {
            let End { node, level, held } = end;
            let Some(entry) = held else {
                return Ok(None);
            };
            if key_of(&entry)? != key {
                return Ok(None);
            }
            if let Some(out) = take(rt, &node.owner(number_at(key, level)), entry)? {
                return Ok(Some(out));
            }
            end = self.end_from(rt, node, level, key)?;
        }
        unreachable!()
    }
}

impl<'t, D: Domain> SharedTrie<'t, D>
where
    D::Value: Default,
{
    /// The object is its key's from now on, and the one that the key had comes out (waits). At a fault it comes back. A
    /// pointer at the last field is refused `Refused(Read, Outside)`.
    pub fn insert<R: Wait>(
        &self,
        rt: &R,
        new: Shared<'t, D>,
    ) -> Result<Option<Shared<'t, D>>, Refused<Shared<'t, D>>>
        ensures done { IfOk result (Inserts D.opened self.now.root new.entry) }
        ensures back { IfErr result (λ r. r.back ≡ new.entry) }
        ensures refused { IfErr result (λ r. WhyNotPut r.why) }
    {
        let key = match key_of(&new) {
            Ok(key) => key,
            Err(why) => return Err(Refused { why, back: new }),
        };
        match self.end_for(rt, key) {
            Ok(end) => self.put(rt, key, end, new),
            Err(why) => Err(Refused { why, back: new }),
        }
    }

    /// The object goes where the key's way ends (waits).
    fn put<R: Wait>(
        &self,
        rt: &R,
        key: u64,
        end: End<'t, D>,
        new: Shared<'t, D>,
    ) -> Result<Option<Shared<'t, D>>, Refused<Shared<'t, D>>>
        requires { Ends D.opened self.now.root key end.node end.level end.held
            × IsOf D.opened key end.held }
        ensures done { IfOk result (Puts D.opened self.now.root key new.entry) }
        ensures back { IfErr result (λ r. r.back ≡ new.entry) }
        ensures refused { IfErr result (λ r. WhyNotPut r.why) }
    {
        let mut new = new;
        let mut end = end;
        for _ in rt.forever() {
            let End { node, level, held } = end;
            match swap(rt, &node.owner(number_at(key, level)), held, new)? {
                Swapped::Out(old) => return Ok(old),
                Swapped::Back(back) => new = back,
            }
            end = match self.end_for_from(rt, node, level, key) {
                Ok(end) => end,
                Err(why) => return Err(Refused { why, back: new }),
            };
        }
        unreachable!()
    }

    /// The object is its key's where that has none: `None`. Else an owner of the one that it has, and the pointer comes
    /// back, as it does at a fault (waits). Refused as `insert` is.
    pub fn insert_if_absent<R: Wait>(
        &self,
        rt: &R,
        new: Shared<'t, D>,
    ) -> Result<Option<Occupied<Shared<'t, D>>>, Refused<Shared<'t, D>>>
        ensures done { IfOk result (InsertsIfAbsent D.opened self.now.root new.entry) }
        ensures back { IfErr result (λ r. r.back ≡ new.entry) }
        ensures refused { IfErr result (λ r. WhyNotPut r.why) }
    {
        let key = match key_of(&new) {
            Ok(key) => key,
            Err(why) => return Err(Refused { why, back: new }),
        };
        match self.end_for(rt, key) {
            Ok(end) => self.put_if_absent(rt, key, end, new),
            Err(why) => Err(Refused { why, back: new }),
        }
    }

    /// The object goes where the key's way ends, if nothing is there (waits).
    fn put_if_absent<R: Wait>(
        &self,
        rt: &R,
        key: u64,
        end: End<'t, D>,
        new: Shared<'t, D>,
    ) -> Result<Option<Occupied<Shared<'t, D>>>, Refused<Shared<'t, D>>>
        requires { Ends D.opened self.now.root key end.node end.level end.held
            × IsOf D.opened key end.held }
        ensures done { IfOk result (PutsIfAbsent D.opened self.now.root key new.entry) }
        ensures back { IfErr result (λ r. r.back ≡ new.entry) }
        ensures refused { IfErr result (λ r. WhyNotPut r.why) }
    {
        let mut new = new;
        let mut end = end;
        for _ in rt.forever() {
            let End { node, level, held } = end;
            if let Some(there) = held {
                return Ok(Some(Occupied { there, back: new }));
            }
            match swap(rt, &node.owner(number_at(key, level)), None, new)? {
                Swapped::Out(_) => return Ok(None),
                Swapped::Back(back) => new = back,
            }
            end = match self.end_for_from(rt, node, level, key) {
                Ok(end) => end,
                Err(why) => return Err(Refused { why, back: new }),
            };
        }
        unreachable!()
    }
}
