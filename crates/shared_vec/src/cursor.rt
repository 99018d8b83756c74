//! A vector that is looked at index by index.
ghost use Rattle.std.specs.Prelude.{◌≡◌, IfErr, IfOk, None, OnOk};
ghost use Rattle.shared_vec.specs.Cursors.{IsKept};
ghost use Rattle.shared_vec.specs.Refusals.{WhyNotFound};
ghost use Rattle.shared_vec.specs.Vectors.{Gets, IsLeaf, Sets};

use crate::index::number_at;
use crate::slot::replace;
use crate::vector::SharedVec;
use pointers::{Domain, Fault, Refused, Shared};
use std::sync::Wait;

/// A vector that is looked at index by index, as `vector.cursor()` gives it: it keeps the leaf of the last index, so
/// that another of the same eight is one load. **What the leaf has lives on** until an index of another one is asked
/// for, or this is dropped. So where the vector's place is cleared meanwhile, what was there is found still. It has a
/// pointer of its own at a time.
pub struct Cursor<'v, 'p, 't, D: Domain> {
    vector: &'v SharedVec<'p, 't, D>,
    /// The last index, and its leaf.
    index: usize,
    leaf: Option<Shared<'t, D>>,
}

impl<'v, 'p, 't, D: Domain> Drop for Cursor<'v, 'p, 't, D> {
    #[inline(always)]
    fn drop(self) {
        let Self {
            vector: _,
            index: _,
            leaf,
        } = self;
        drop(leaf);
    }
}

impl<'p, 't, D: Domain> SharedVec<'p, 't, D> {
    /// The vector, to be looked at index by index. Nothing is looked at yet.
    #[inline(always)]
    pub fn cursor<'v>(&'v self) -> Cursor<'v, 'p, 't, D>
        ensures vector { result.vector.now ≡ self.now }
        ensures none { result.leaf ≡ None }
    {
        Cursor {
            vector: self,
            index: 0,
            leaf: None,
        }
    }
}

impl<'v, 'p, 't, D: Domain> Cursor<'v, 'p, 't, D> {
    /// A copy of the element at an index (waits). None from the end on.
    pub fn get<R: Wait>(&mut self, rt: &R, index: usize) -> Result<Option<Shared<'t, D>>, Fault>
        ensures done { IsKept D.opened self.old.vector.now.place self.old.index self.old.leaf
            → IfOk result (Gets D.opened self.old.vector.now.place index) }
        ensures kept { IsKept D.opened self.old.vector.now.place self.old.index self.old.leaf
            → IsKept D.opened self.old.vector.now.place self.new.index self.new.leaf }
        ensures vector { self.new.vector ≡ self.old.vector }
        ensures refused { IfErr result WhyNotFound }
    {
        self.go(rt, index)?;
        match &self.leaf {
            Some(leaf) => leaf.owner(number_at(index, 0)).load(rt),
            None => Ok(None),
        }
    }

    /// The pointer takes the place of the element at an index, which lets go (waits): `None`. From the end on nothing
    /// is put in, and the pointer comes back, as it does at a fault.
    pub fn set<R: Wait>(
        &mut self,
        rt: &R,
        index: usize,
        new: Shared<'t, D>,
    ) -> Result<Option<Shared<'t, D>>, Refused<Shared<'t, D>>>
        ensures done { IsKept D.opened self.old.vector.now.place self.old.index self.old.leaf
            → IfOk result (Sets D.opened self.old.vector.now.place index new.entry) }
        ensures kept { IsKept D.opened self.old.vector.now.place self.old.index self.old.leaf
            → IsKept D.opened self.old.vector.now.place self.new.index self.new.leaf }
        ensures vector { self.new.vector ≡ self.old.vector }
        ensures back { IfErr result (λ r. r.back ≡ new.entry) }
        ensures refused { IfErr result (λ r. WhyNotFound r.why) }
    {
        match self.go(rt, index) {
            Ok(()) => self.put(rt, index, new),
            Err(why) => Err(Refused { why, back: new }),
        }
    }

    /// The same, of an index whose leaf is kept (waits).
    fn put<R: Wait>(
        &self,
        rt: &R,
        index: usize,
        new: Shared<'t, D>,
    ) -> Result<Option<Shared<'t, D>>, Refused<Shared<'t, D>>>
        ensures done { IsLeaf D.opened self.now.vector.now.place index self.now.leaf
            → IfOk result (Sets D.opened self.now.vector.now.place index new.entry) }
        ensures back { IfErr result (λ r. r.back ≡ new.entry) }
        ensures refused { IfErr result (λ r. WhyNotFound r.why) }
    {
        match &self.leaf {
            Some(leaf) => replace(rt, &leaf.owner(number_at(index, 0)), new),
            None => Ok(Some(new)),
        }
    }

    /// The leaf of an index is kept from now on (waits).
    fn go<R: Wait>(&mut self, rt: &R, index: usize) -> Result<(), Fault>
        ensures leaf { IsKept D.opened self.old.vector.now.place self.old.index self.old.leaf
            → OnOk result (IsLeaf D.opened self.old.vector.now.place index self.new.leaf) }
        ensures kept { IsKept D.opened self.old.vector.now.place self.old.index self.old.leaf
            → IsKept D.opened self.old.vector.now.place self.new.index self.new.leaf }
        ensures vector { self.new.vector ≡ self.old.vector }
        ensures refused { IfErr result WhyNotFound }
    {
        if self.leaf.is_some() && self.index / 8 == index / 8 {
            return Ok(());
        }
        let leaf = self.vector.leaf(rt, index)?;
        self.leaf = leaf;
        self.index = index;
        Ok(())
    }
}
