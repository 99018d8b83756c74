//! Elements in the order of their keys: for one thread at a time.
ghost use Rattle.std.specs.Prelude.{◌≡◌, ◌<◌, ℕ, length, IfErr, IfOk, IfSome, OnOk};
ghost use Rattle.std.specs.List.{All};
ghost use Rattle.shared_vec.specs.Changes.{Copies};
ghost use Rattle.shared_vec.specs.Refusals.{WhyNotFound};
ghost use Rattle.shared_vec.specs.Sorts.{Comes, ComesAll, IsFound, IsPlaced, KeysAll, Sorts};
ghost use Rattle.shared_vec.specs.Sorts.{WhyNoKeys};
ghost use Rattle.shared_vec.specs.Vectors.{Gets};

use crate::vector::SharedVec;
use crate::walk::Shown;
use pointers::{Domain, Fault, Refused, Shared};
use std::alloc::Global;
use std::sync::Wait;

impl<'p, 't, D: Domain> SharedVec<'p, 't, D> {
    /// The elements come into the order of their keys, which `f` gives, once for each; those of
    /// one key stay in their order, in C++ `std::stable_sort` (waits). Of n elements the keys are
    /// sorted in n log n steps, in `alloc`'s memory. An element that moves costs a `get` and a
    /// `set`.
    ///
    /// For one thread, while no other writes: what another sets meanwhile may be lost. Others may
    /// look: they may see an element twice, or not at all. A fault of `f`, or want of memory,
    /// moves none. At a later one an element stands twice, and the one that has no place comes
    /// back.
    pub fn sort_by_key<E: Shown<Shared<'t, D>>, K, R, F>(
        &self,
        rt: &R,
        alloc: Global,
        f: F,
    ) -> Result<(), Refused<Option<Shared<'t, D>>>>
    where
        K: Ord + Drop,
        R: Wait,
        F: FnMut(&E) -> Result<K, Fault>,
        requires { F.IsAlwaysCallable f }
        ensures sorted { OnOk result (Sorts D.opened E.shows F.FnMut K.cmp self.now.place f) }
        ensures back { IfErr result (λ r. IfSome r.back (IsFound D.opened self.now.place)) }
        ensures refused { IfErr result
            (λ r. WhyNoKeys D.opened E.shows F.FnMut self.now.place f r.why) }
    {
        let mut order = match self.keys(rt, alloc, f) {
            Ok(order) => order,
            Err(why) => return Err(Refused { why, back: None }),
        };
        order.sort_unstable();
        let Ok(mut placed) = vec![in alloc; false; order.len()] else {
            return Err(Refused {
                why: Fault::Memory,
                back: None,
            });
        };
        self.arrange(rt, &order, &mut placed)
    }

    /// The key of each element, with its index, from the first one on, up to the first index where
    /// there is none (waits).
    fn keys<E: Shown<Shared<'t, D>>, K, R, F>(
        &self,
        rt: &R,
        alloc: Global,
        f: F,
    ) -> Result<Vec<(K, usize), Global>, Fault>
    where
        K: Drop,
        R: Wait,
        F: FnMut(&E) -> Result<K, Fault>,
        requires { F.IsAlwaysCallable f }
        ensures keys { IfOk result
            (λ keys. KeysAll D.opened E.shows F.FnMut self.now.place f keys.items) }
        ensures refused { IfErr result (WhyNoKeys D.opened E.shows F.FnMut self.now.place f) }
    {
        let mut f = f;
        let mut keys = Vec::new(alloc);
        let mut index = 0;
        while index < usize::MAX {
            let Some(owner) = self.get(rt, index)? else {
                return Ok(keys);
            };
            let key = f(&E::of(owner))?;
            keys.push((key, index))?;
            index += 1;
        }
        Ok(keys)
    }

    /// Each element comes to the place that names its index (waits).
    fn arrange<K, R: Wait>(
        &self,
        rt: &R,
        order: &[(K, usize)],
        placed: &mut [bool],
    ) -> Result<(), Refused<Option<Shared<'t, D>>>>
        requires below { All (λ p. p.1 < length order.now) order.now }
        requires marks { length placed.old ≡ length order.now }
        requires placed { IsPlaced D.opened self.now.place order.now placed.old }
        ensures done { OnOk result (ComesAll D.opened self.now.place order.now) }
        ensures back { IfErr result (λ r. IfSome r.back (IsFound D.opened self.now.place)) }
        ensures refused { IfErr result (λ r. WhyNotFound r.why) }
    {
        for start in 0..order.len() {
            if placed[start] || order[start].1 == start {
                continue;
            }
            self.rotate(rt, order, placed, start)?;
        }
        Ok(())
    }

    /// What is at the index that a place names comes to that place, and so on from there, until a
    /// place names the first one: what was there comes to it (waits).
    fn rotate<K, R: Wait>(
        &self,
        rt: &R,
        order: &[(K, usize)],
        placed: &mut [bool],
        start: usize,
    ) -> Result<(), Refused<Option<Shared<'t, D>>>>
        requires below { All (λ p. p.1 < length order.now) order.now }
        requires marks { length placed.old ≡ length order.now }
        requires placed { IsPlaced D.opened self.now.place order.now placed.old }
        requires start { start < length order.now }
        ensures done { OnOk result (Comes D.opened self.now.place order.now start) }
        ensures placed { OnOk result (IsPlaced D.opened self.now.place order.now placed.new) }
        ensures back { IfErr result (λ r. IfSome r.back (IsFound D.opened self.now.place)) }
        ensures refused { IfErr result (λ r. WhyNotFound r.why) }
    {
        let held = match self.get(rt, start) {
            Ok(held) => held,
            Err(why) => return Err(Refused { why, back: None }),
        };
        let mut place = start;
        for _ in rt.forever() {
            let from = order[place].1;
            placed[place] = true;
            if from == start {
                return self.put(rt, place, held);
            }
            if let Err(why) = self.copy(rt, from, place) {
                return Err(Refused { why, back: held });
            }
            place = from;
        }
        unreachable!()
    }

    /// The element that was at an index comes to another (waits).
    fn put<R: Wait>(
        &self,
        rt: &R,
        place: usize,
        held: Option<Shared<'t, D>>,
    ) -> Result<(), Refused<Option<Shared<'t, D>>>>
        ensures done { (i : ℕ) → Gets D.opened self.now.place i held.entry
            → OnOk result (Copies D.opened self.now.place i place) }
        ensures back { IfErr result (λ r. r.back ≡ held.entry) }
        ensures refused { IfErr result (λ r. WhyNotFound r.why) }
    {
        let Some(element) = held else {
            return Ok(());
        };
        match self.set(rt, place, element) {
            Ok(_) => Ok(()),
            Err(refused) => Err(Refused {
                why: refused.why,
                back: Some(refused.back),
            }),
        }
    }
}
