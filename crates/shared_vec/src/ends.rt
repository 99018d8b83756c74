//! A vector's end.
ghost use Rattle.std.specs.Prelude.{◌≡◌, IfErr, IfOk, IfSome, OnOk, Some, true};
ghost use Rattle.shared_vec.specs.Refusals.{WhyNotFound, WhyNotPut};
ghost use Rattle.shared_vec.specs.Vectors.{Empties, IsBehind, IsEmpty, IsEnd, IsLeaf, Pops, Pushes, Truncates};

use crate::index::number_at;
use crate::slot::swap_in;
use crate::vector::SharedVec;
use pointers::{Domain, Fault, Refused, Shared};
use std::sync::Wait;

impl<'p, 't, D: Domain> SharedVec<'p, 't, D> {
    /// How many elements there are, in C++ `v.size()` (waits).
    pub fn len<R: Wait>(&mut self, rt: &R) -> Result<usize, Fault>
        ensures end { IfOk result (IsEnd D.opened self.old.place) }
        ensures place { self.new.place ≡ self.old.place }
        ensures refused { IfErr result WhyNotFound }
    {
        let high = self.beyond(rt)?;
        let end = self.end_below(rt, high)?;
        self.end = end;
        Ok(end)
    }

    /// An index at which there is no element (waits): the one where the end was last, or a later one.
    fn beyond<R: Wait>(&self, rt: &R) -> Result<usize, Fault>
        ensures empty { IfOk result (λ n. IsEmpty D.opened self.now.place n true) }
        ensures refused { IfErr result WhyNotFound }
    {
        let mut high = self.end;
        for _ in rt.forever() {
            if self.is_empty_at(rt, high)? {
                return Ok(high);
            }
            high = high.saturating_mul(2).saturating_add(1);
        }
        unreachable!()
    }

    /// The end, which is no later than an index without an element (waits).
    fn end_below<R: Wait>(&self, rt: &R, high: usize) -> Result<usize, Fault>
        requires { IsEmpty D.opened self.now.place high true }
        ensures end { IfOk result (IsEnd D.opened self.now.place) }
        ensures refused { IfErr result WhyNotFound }
    {
        let mut low = 0;
        let mut high = high;
        let mut middle = high.saturating_sub(1);
        while low < high {
            if self.is_empty_at(rt, middle)? {
                high = middle;
            } else {
                low = middle + 1;
            }
            middle = low + (high - low) / 2;
        }
        Ok(low)
    }

    /// The last element comes out, in C++ `back()` and `pop_back()` (waits). None where there is none.
    pub fn pop<R: Wait>(&mut self, rt: &R) -> Result<Option<Shared<'t, D>>, Fault>
        ensures done { IfOk result (Pops D.opened self.old.place) }
        ensures place { self.new.place ≡ self.old.place }
        ensures refused { IfErr result WhyNotFound }
    {
        for _ in rt.forever() {
            let end = self.len(rt)?;
            if end == 0 {
                return Ok(None);
            }
            let last = end - 1;
            if let Some(leaf) = self.leaf(rt, last)? {
                if let Some(owner) = leaf.owner(number_at(last, 0)).take()? {
                    self.end = last;
                    return Ok(Some(owner));
                }
            }
        }
        unreachable!()
    }

    /// The elements from an index on leave, the last one first, in C++ `v.resize(n)` (waits).
    pub fn truncate<R: Wait>(&mut self, rt: &R, length: usize) -> Result<(), Fault>
        ensures done { OnOk result (Truncates D.opened self.old.place length) }
        ensures place { self.new.place ≡ self.old.place }
        ensures refused { IfErr result WhyNotFound }
    {
        let mut end = self.len(rt)?;
        while end > length {
            end -= 1;
            self.clear(rt, end)?;
            self.end = end;
        }
        Ok(())
    }

    /// What is at an index leaves (waits).
    fn clear<R: Wait>(&self, rt: &R, index: usize) -> Result<(), Fault>
        ensures done { OnOk result (Empties D.opened self.now.place index) }
        ensures refused { IfErr result WhyNotFound }
    {
        match self.leaf(rt, index)? {
            Some(leaf) => leaf.owner(number_at(index, 0)).clear(),
            None => Ok(()),
        }
    }
}

impl<'p, 't, D: Domain> SharedVec<'p, 't, D>
where
    D::Value: Default,
{
    /// The pointer goes behind the last element, in C++ `v.push_back(p)` (waits): its index. At a fault it comes back.
    pub fn push<R: Wait>(
        &mut self,
        rt: &R,
        new: Shared<'t, D>,
    ) -> Result<usize, Refused<Shared<'t, D>>>
        ensures done { IfOk result (Pushes D.opened self.old.place new.entry) }
        ensures place { self.new.place ≡ self.old.place }
        ensures back { IfErr result (λ r. r.back ≡ new.entry) }
        ensures refused { IfErr result (λ r. WhyNotPut r.why) }
    {
        let mut new = new;
        for _ in rt.forever() {
            let (end, leaf) = match self.end_leaf(rt) {
                Ok(found) => found,
                Err(why) => return Err(Refused { why, back: new }),
            };
            match swap_in(rt, &leaf.owner(number_at(end, 0)), None, new)? {
                None => {
                    self.end = end.saturating_add(1);
                    return Ok(end);
                }
                Some(back) => new = back,
            }
        }
        unreachable!()
    }

    /// An index just behind an element, and its leaf (waits): where the end was last, if that is so there still.
    fn end_leaf<R: Wait>(&mut self, rt: &R) -> Result<(usize, Shared<'t, D>), Fault>
        ensures behind { IfOk result (λ r. IsBehind D.opened self.old.place r.0) }
        ensures leaf { IfOk result (λ r. IsLeaf D.opened self.old.place r.0 (Some r.1)) }
        ensures place { self.new.place ≡ self.old.place }
        ensures refused { IfErr result WhyNotPut }
    {
        let end = self.end;
        if let Some(leaf) = self.same_end(rt, end)? {
            return Ok((end, leaf));
        }
        let end = self.len(rt)?;
        let leaf = self.leaf_or_new(rt, end)?;
        Ok((end, leaf))
    }

    /// The leaf of an index, if that is behind an element of the same leaf, and none is there (waits).
    fn same_end<R: Wait>(&self, rt: &R, end: usize) -> Result<Option<Shared<'t, D>>, Fault>
        ensures behind { IfOk result (λ r. IfSome r (λ _. IsBehind D.opened self.now.place end)) }
        ensures leaf { IfOk result (λ r. IfSome r (λ leaf. IsLeaf D.opened self.now.place end (Some leaf))) }
        ensures refused { IfErr result WhyNotFound }
    {
        if end % 8 == 0 {
            return Ok(None);
        }
        let Some(leaf) = self.leaf(rt, end)? else {
            return Ok(None);
        };
        let is_behind = !leaf.owner(number_at(end - 1, 0)).holds(None)?;
        if is_behind && leaf.owner(number_at(end, 0)).holds(None)? {
            return Ok(Some(leaf));
        }
        Ok(None)
    }
}
