//! A vector, as one worker has it.
ghost use Rattle.std.specs.Prelude.{◌≡◌, IfErr, IfOk};
ghost use Rattle.shared_vec.specs.Refusals.{WhyNotFound};
ghost use Rattle.shared_vec.specs.Vectors.{Gets, IsEmpty, Sets};

use crate::index::number_at;
use crate::slot::replace;
use pointers::{Desk, Domain, Fault, Member, Refused, Shared};
use std::sync::Wait;

/// A vector of pointers in a place, in C++ a member `std::vector<std::atomic<std::shared_ptr<T>>>`, as one worker has
/// it. Its nodes are objects with eight members for owners, as `team.shape(blocks, 1, 0).with_members(8, 1)` gives; in
/// a domain whose objects have fewer it is refused `Member`.
pub struct SharedVec<'p, 't, D: Domain> {
    pub(crate) desk: &'t Desk<'t, D>,
    /// The place of its root.
    pub(crate) place: Member<'p, 't, D>,
    /// Where the worker found its end last: from here it looks for it.
    pub(crate) end: usize,
}

impl<'p, 't, D: Domain> Drop for SharedVec<'p, 't, D> {
    #[inline(always)]
    fn drop(self) {
        let Self {
            desk: _,
            place: _,
            end: _,
        } = self;
    }
}

impl<'p, 't, D: Domain> SharedVec<'p, 't, D> {
    /// The vector in a place.
    #[inline(always)]
    pub fn at(desk: &'t Desk<'t, D>, place: Member<'p, 't, D>) -> SharedVec<'p, 't, D>
        ensures { result.place ≡ place.entry }
    {
        SharedVec {
            desk,
            place,
            end: 0,
        }
    }

    /// A copy of the element at an index, in C++ `v[i].load()` (waits). None from the end on.
    pub fn get<R: Wait>(&self, rt: &R, index: usize) -> Result<Option<Shared<'t, D>>, Fault>
        ensures done { IfOk result (Gets D.opened self.now.place index) }
        ensures refused { IfErr result WhyNotFound }
    {
        match self.leaf(rt, index)? {
            Some(leaf) => leaf.owner(number_at(index, 0)).load(rt),
            None => Ok(None),
        }
    }

    /// Whether there is no element at an index (waits).
    pub(crate) fn is_empty_at<R: Wait>(&self, rt: &R, index: usize) -> Result<bool, Fault>
        ensures told { IfOk result (IsEmpty D.opened self.now.place index) }
        ensures refused { IfErr result WhyNotFound }
    {
        match self.leaf(rt, index)? {
            Some(leaf) => leaf.owner(number_at(index, 0)).holds(None),
            None => Ok(true),
        }
    }

    /// The pointer takes the place of the element at an index, in C++ `v[i].store(p)`, which lets go (waits): `None`.
    /// From the end on nothing is put in, and the pointer comes back, as it does at a fault.
    pub fn set<R: Wait>(
        &self,
        rt: &R,
        index: usize,
        new: Shared<'t, D>,
    ) -> Result<Option<Shared<'t, D>>, Refused<Shared<'t, D>>>
        ensures done { IfOk result (Sets D.opened self.now.place index new.entry) }
        ensures back { IfErr result (λ r. r.back ≡ new.entry) }
        ensures refused { IfErr result (λ r. WhyNotFound r.why) }
    {
        match self.leaf(rt, index) {
            Ok(Some(leaf)) => replace(rt, &leaf.owner(number_at(index, 0)), new),
            Ok(None) => Ok(Some(new)),
            Err(why) => Err(Refused { why, back: new }),
        }
    }
}
