//! Elements that come and go between others: for one thread at a time.
ghost use Rattle.std.specs.Prelude.{◌≡◌, ◌<◌, IfErr, IfOk, IfSome, OnOk, Some};
ghost use Rattle.shared_vec.specs.Changes.{Closes, Copies, Doubles, Inserts, MovesDown, MovesUp, Opens, Removes};
ghost use Rattle.shared_vec.specs.Refusals.{WhyNotFound, WhyNotPut};
ghost use Rattle.shared_vec.specs.Vectors.{Gets};

use crate::vector::SharedVec;
use pointers::{Domain, Fault, Refused, Shared};
use std::sync::Wait;

impl<'p, 't, D: Domain> SharedVec<'p, 't, D> {
    /// The element at an index comes out, and those behind it come one forward, in C++ `v.erase(v.begin() + i)`
    /// (waits). None from the end on.
    ///
    /// For one thread, while no other writes: what another sets meanwhile may be lost. Others may look: the next
    /// element comes first, as a copy, so that they may see an element twice, or not at all. At a fault what comes back
    /// is the element that was to come out, once it was found. Then one of those behind it may stand twice.
    pub fn remove<R: Wait>(
        &mut self,
        rt: &R,
        index: usize,
    ) -> Result<Option<Shared<'t, D>>, Refused<Option<Shared<'t, D>>>>
        ensures done { IfOk result (Removes D.opened self.old.place index) }
        ensures place { self.new.place ≡ self.old.place }
        ensures back { IfErr result (λ r. IfSome r.back (λ c. Gets D.opened self.old.place index (Some c))) }
        ensures refused { IfErr result (λ r. WhyNotFound r.why) }
    {
        match self.get(rt, index) {
            Ok(Some(removed)) => match self.close(rt, index) {
                Ok(()) => Ok(Some(removed)),
                Err(why) => Err(Refused {
                    why,
                    back: Some(removed),
                }),
            },
            Ok(None) => Ok(None),
            Err(why) => Err(Refused { why, back: None }),
        }
    }

    /// The elements behind an index come one forward, and the last one's place becomes empty (waits).
    fn close<R: Wait>(&mut self, rt: &R, index: usize) -> Result<(), Fault>
        ensures done { OnOk result (Closes D.opened self.old.place index) }
        ensures place { self.new.place ≡ self.old.place }
        ensures refused { IfErr result WhyNotFound }
    {
        let end = self.len(rt)?;
        self.move_down(rt, index, end)?;
        let last = self.pop(rt)?;
        drop(last);
        Ok(())
    }

    /// Each element between an index and the end, but the first, comes one forward, the first one first (waits).
    fn move_down<R: Wait>(&self, rt: &R, from: usize, end: usize) -> Result<(), Fault>
        ensures done { OnOk result (MovesDown D.opened self.now.place from end) }
        ensures refused { IfErr result WhyNotFound }
    {
        let last = end.saturating_sub(1);
        let mut index = from;
        while index < last {
            self.copy(rt, index + 1, index)?;
            index += 1;
        }
        Ok(())
    }

    /// Each element between an index and the end, but the last, comes one further, the last one first (waits).
    fn move_up<R: Wait>(&self, rt: &R, from: usize, end: usize) -> Result<(), Fault>
        ensures done { OnOk result (MovesUp D.opened self.now.place from end) }
        ensures refused { IfErr result WhyNotFound }
    {
        let mut index = end.saturating_sub(1);
        while index > from {
            self.copy(rt, index - 1, index)?;
            index -= 1;
        }
        Ok(())
    }

    /// A copy of the element at an index takes the place of that at another (waits).
    pub(crate) fn copy<R: Wait>(&self, rt: &R, from: usize, to: usize) -> Result<(), Fault>
        ensures done { OnOk result (Copies D.opened self.now.place from to) }
        ensures refused { IfErr result WhyNotFound }
    {
        match self.get(rt, from)? {
            Some(element) => {
                let back = self.set(rt, to, element)?;
                drop(back);
                Ok(())
            }
            None => Ok(()),
        }
    }
}

impl<'p, 't, D: Domain> SharedVec<'p, 't, D>
where
    D::Value: Default,
{
    /// The pointer comes to an index, and the elements from there on come one further, in C++
    /// `v.insert(v.begin() + i, p)` (waits): `None`. Beyond the end nothing is done, and the pointer comes back, as it
    /// does at a fault.
    ///
    /// For one thread, while no other writes: what another sets meanwhile may be lost. Others may look: the last
    /// element goes first, as a copy, so that they may see an element twice. At a fault one may stand twice, and
    /// none is gone.
    pub fn insert<R: Wait>(
        &mut self,
        rt: &R,
        index: usize,
        new: Shared<'t, D>,
    ) -> Result<Option<Shared<'t, D>>, Refused<Shared<'t, D>>>
        ensures done { IfOk result (Inserts D.opened self.old.place index new.entry) }
        ensures place { self.new.place ≡ self.old.place }
        ensures back { IfErr result (λ r. r.back ≡ new.entry) }
        ensures refused { IfErr result (λ r. WhyNotPut r.why) }
    {
        let end = match self.len(rt) {
            Ok(end) => end,
            Err(why) => return Err(Refused { why, back: new }),
        };
        if end < index {
            return Ok(Some(new));
        }
        if index == end {
            self.push(rt, new)?;
            return Ok(None);
        }
        match self.open(rt, index, end) {
            Ok(()) => self.set(rt, index, new),
            Err(why) => Err(Refused { why, back: new }),
        }
    }

    /// The elements from an index on come one further, and a copy of the first stays (waits).
    fn open<R: Wait>(&mut self, rt: &R, index: usize, end: usize) -> Result<(), Fault>
        requires { index < end }
        ensures done { OnOk result (Opens D.opened self.old.place index end) }
        ensures place { self.new.place ≡ self.old.place }
        ensures refused { IfErr result WhyNotPut }
    {
        self.double(rt, end - 1)?;
        self.move_up(rt, index, end)?;
        Ok(())
    }

    /// A copy of the element at an index goes behind the last one (waits).
    fn double<R: Wait>(&mut self, rt: &R, index: usize) -> Result<(), Fault>
        ensures done { OnOk result (Doubles D.opened self.old.place index) }
        ensures place { self.new.place ≡ self.old.place }
        ensures refused { IfErr result WhyNotPut }
    {
        match self.get(rt, index)? {
            Some(element) => {
                self.push(rt, element)?;
                Ok(())
            }
            None => Ok(()),
        }
    }
}
