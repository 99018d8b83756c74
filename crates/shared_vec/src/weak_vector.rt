//! A vector of weak pointers, as one worker has it.
ghost use Rattle.std.specs.Prelude.{◌≡◌, IfErr, IfOk, OnOk};
ghost use Rattle.shared_vec.specs.Refusals.{WhyNotFound, WhyNotPut};
ghost use Rattle.shared_vec.specs.Vectors.{IsEnd, Truncates};
ghost use Rattle.shared_vec.specs.WeakVectors.{GetsWeak, Holds, Locks, PopsWeak, PushesWeak, SetsWeak};

use crate::vector::SharedVec;
use pointers::{Desk, Domain, Fault, Member, Refused, Shared, Weak};
use std::sync::Wait;

/// A vector of weak pointers in a place, in C++ a member `std::vector<std::atomic<std::weak_ptr<T>>>`, as one worker
/// has it. Each weak pointer lies in the member `up` of an object of its own, its *holder*, and a `SharedVec` has the
/// holders. So it wants objects as that does, and stands beside it in one domain.
pub struct WeakVec<'p, 't, D: Domain> {
    pub(crate) holders: SharedVec<'p, 't, D>,
}

impl<'p, 't, D: Domain> Drop for WeakVec<'p, 't, D> {
    #[inline(always)]
    fn drop(self) {
        let Self { holders } = self;
        drop(holders);
    }
}

impl<'p, 't, D: Domain> WeakVec<'p, 't, D> {
    /// The vector in a place.
    #[inline(always)]
    pub fn at(desk: &'t Desk<'t, D>, place: Member<'p, 't, D>) -> WeakVec<'p, 't, D>
        ensures { result.holders.place ≡ place.entry }
    {
        WeakVec {
            holders: SharedVec::at(desk, place),
        }
    }

    /// A copy of the weak pointer at an index, in C++ `v[i].load()` (waits). None from the end on.
    pub fn get<R: Wait>(&self, rt: &R, index: usize) -> Result<Option<Weak<'t, D>>, Fault>
        ensures done { IfOk result (GetsWeak D.opened self.now.holders.place index) }
        ensures refused { IfErr result WhyNotFound }
    {
        match self.holders.get(rt, index)? {
            Some(holder) => holder.up().load(rt),
            None => Ok(None),
        }
    }

    /// An owner of what the weak pointer at an index is of, in C++ `v[i].load().lock()` (waits). None where no owner
    /// remains, and from the end on.
    pub fn lock<R: Wait>(&self, rt: &R, index: usize) -> Result<Option<Shared<'t, D>>, Fault>
        ensures done { IfOk result (Locks D.opened self.now.holders.place index) }
        ensures refused { IfErr result WhyNotFound }
    {
        match self.holders.get(rt, index)? {
            Some(holder) => holder.up().lock(rt),
            None => Ok(None),
        }
    }

    /// The weak pointer takes the place of the one at an index, in C++ `v[i].store(w)`, which lets go (waits): `None`.
    /// From the end on nothing is put in, and the pointer comes back, as it does at a fault.
    pub fn set<R: Wait>(
        &self,
        rt: &R,
        index: usize,
        new: Weak<'t, D>,
    ) -> Result<Option<Weak<'t, D>>, Refused<Weak<'t, D>>>
        ensures done { IfOk result (SetsWeak D.opened self.now.holders.place index new.entry) }
        ensures back { IfErr result (λ r. r.back ≡ new.entry) }
        ensures refused { IfErr result (λ r. WhyNotFound r.why) }
    {
        match self.holders.get(rt, index) {
            Ok(Some(holder)) => match hold(&holder, &new) {
                Ok(()) => Ok(None),
                Err(why) => Err(Refused { why, back: new }),
            },
            Ok(None) => Ok(Some(new)),
            Err(why) => Err(Refused { why, back: new }),
        }
    }

    /// How many elements there are, in C++ `v.size()` (waits).
    pub fn len<R: Wait>(&mut self, rt: &R) -> Result<usize, Fault>
        ensures end { IfOk result (IsEnd D.opened self.old.holders.place) }
        ensures place { self.new.holders.place ≡ self.old.holders.place }
        ensures refused { IfErr result WhyNotFound }
    {
        self.holders.len(rt)
    }

    /// The last element comes out, in C++ `back()` and `pop_back()` (waits). None where there is none.
    pub fn pop<R: Wait>(&mut self, rt: &R) -> Result<Option<Weak<'t, D>>, Fault>
        ensures done { IfOk result (PopsWeak D.opened self.old.holders.place) }
        ensures place { self.new.holders.place ≡ self.old.holders.place }
        ensures refused { IfErr result WhyNotFound }
    {
        match self.holders.pop(rt)? {
            Some(holder) => holder.up().take(),
            None => Ok(None),
        }
    }

    /// The elements from an index on leave, the last one first, in C++ `v.resize(n)` (waits).
    pub fn truncate<R: Wait>(&mut self, rt: &R, length: usize) -> Result<(), Fault>
        ensures done { OnOk result (Truncates D.opened self.old.holders.place length) }
        ensures place { self.new.holders.place ≡ self.old.holders.place }
        ensures refused { IfErr result WhyNotFound }
    {
        self.holders.truncate(rt, length)
    }
}

/// The holder has a copy of the weak pointer from now on, and what it had lets go.
fn hold<'t, D: Domain>(holder: &Shared<'t, D>, weak: &Weak<'t, D>) -> Result<(), Fault>
    ensures done { OnOk result (Holds D.opened holder.now weak.now) }
    ensures refused { IfErr result WhyNotFound }
{
    let copy = weak.share()?;
    holder.up().store(Some(copy))
}

/// A new holder of a copy of the weak pointer.
fn holder_of<'t, D: Domain>(
    desk: &'t Desk<'t, D>,
    weak: &Weak<'t, D>,
) -> Result<Shared<'t, D>, Fault>
where
    D::Value: Default,
    ensures done { IfOk result (λ holder. Holds D.opened holder weak.now) }
    ensures refused { IfErr result WhyNotPut }
{
    let holder = desk.new(Default::default())?;
    hold(&holder, weak)?;
    Ok(holder)
}

impl<'p, 't, D: Domain> WeakVec<'p, 't, D>
where
    D::Value: Default,
{
    /// The weak pointer goes behind the last element, in C++ `v.push_back(w)` (waits): its index. At a fault it comes
    /// back.
    pub fn push<R: Wait>(&mut self, rt: &R, new: Weak<'t, D>) -> Result<usize, Refused<Weak<'t, D>>>
        ensures done { IfOk result (PushesWeak D.opened self.old.holders.place new.entry) }
        ensures place { self.new.holders.place ≡ self.old.holders.place }
        ensures back { IfErr result (λ r. r.back ≡ new.entry) }
        ensures refused { IfErr result (λ r. WhyNotPut r.why) }
    {
        let holder = match holder_of(self.holders.desk, &new) {
            Ok(holder) => holder,
            Err(why) => return Err(Refused { why, back: new }),
        };
        match self.holders.push(rt, holder) {
            Ok(index) => Ok(index),
            Err(refused) => Err(Refused {
                why: refused.why,
                back: new,
            }),
        }
    }
}
