//! A worker's access to a map.
ghost use Rattle.std.specs.Prelude.{◌≡◌, ◌+◌, IfErr, IfOk, IfSome, min, vec_len};
ghost use Rattle.pointers.specs.Objects.{IsField};
ghost use Rattle.shared_map.specs.Refusals.{WhyNotFound, WhyNotPut};

use crate::bucket::Bucket;
use crate::key::bucket_of;
use pointers::{Desk, Domain, Fault, Shared};
use std::alloc::Global;
use std::sync::Wait;

mod owners;
pub mod sweeps;
mod weaks;

/// A map of pointers by keys of 64 bits, as one worker has it: `open` gives it. What one worker puts into
/// it all find. An entry's calls are as atomic as those of the object's members that it is made of: `first` has an
/// owner, in C++ an `atomic<shared_ptr>`, and `up` a weak pointer, in C++ an `atomic<weak_ptr>`.
///
/// An entry is made for a key when something is first put there, and stays: a key costs an object for as long as the
/// map lives, also when what was there is removed.
///
/// A call answers `Busy` within a visit, `Crowded` where the desk has as many pointers as it may, and
/// `Refused(_, Null)` or `Refused(_, Outside)` where the map's cell has an object that no map put there. An insert also
/// answers `Refused(Make, Full)`, where no block is vacant for an entry.
pub struct SharedMap<'t, D: Domain> {
    pub(crate) desk: &'t Desk<'t, D>,
    /// All buckets but the last one.
    pub(crate) buckets: Vec<Bucket<'t, D>, Global>,
    pub(crate) last: Bucket<'t, D>,
}

impl<'t, D: Domain> Drop for SharedMap<'t, D> {
    fn drop(self) {
        let Self {
            desk: _,
            buckets,
            last,
        } = self;
        drop(buckets);
        drop(last);
    }
}

impl<'t, D: Domain> SharedMap<'t, D> {
    /// How many buckets it has.
    pub fn buckets(&self) -> usize
        ensures { result ≡ min (vec_len self.now.buckets + 1) 18446744073709551615 }
    {
        self.buckets.len().saturating_add(1)
    }

    /// The number of the key's bucket.
    #[inline(always)]
    fn number_of(&self, key: u64) -> usize {
        bucket_of(key, self.buckets())
    }

    /// The key's entry, if there is one (waits).
    fn find<R: Wait>(&mut self, rt: &R, key: u64) -> Result<Option<Shared<'t, D>>, Fault>
        ensures entry { IfOk result (λ r. IfSome r (λ e. IsField D.opened e key)) }
        ensures refused { IfErr result WhyNotFound }
    {
        let number = self.number_of(key);
        match self.buckets.get_mut(number) {
            Some(bucket) => bucket.find(rt, key),
            None => self.last.find(rt, key),
        }
    }
}

impl<'t, D: Domain> SharedMap<'t, D>
where
    D::Value: Default,
{
    /// The key's entry, a new one where there is none (waits).
    fn entry<R: Wait>(&mut self, rt: &R, key: u64) -> Result<Shared<'t, D>, Fault>
        ensures entry { IfOk result (λ e. IsField D.opened e key) }
        ensures refused { IfErr result WhyNotPut }
    {
        let desk = self.desk;
        let number = self.number_of(key);
        match self.buckets.get_mut(number) {
            Some(bucket) => bucket.entry(rt, desk, key),
            None => self.last.entry(rt, desk, key),
        }
    }
}
