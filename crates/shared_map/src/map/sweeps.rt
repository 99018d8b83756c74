//! Walks over a whole map.
ghost use Rattle.std.specs.Prelude.{IfErr, IfOk};
ghost use Rattle.shared_map.specs.Refusals.{WhyNotFound};
ghost use Rattle.shared_map.specs.Sweeps.{Begins, Counts, CountsMap, PrunesAt, Sifts, SweepsTo};
ghost use Rattle.shared_map.specs.Sweeps.{WhyNotRetained};

use crate::bucket::Bucket;
use crate::entry::{behind, get, key_of, take, take_expired};
use crate::map::SharedMap;
use pointers::{Domain, Fault, Shared};
use std::sync::Wait;

/// Which owners of a map are kept, for `SharedMap::retain`.
pub trait Keep<D: Domain> {
    ghost use Rattle.std.specs.Prelude.{ℕ, Bool, Result};
    ghost use Rattle.pointers.specs.declared.fault.Fault.{Fault};
    ghost use Rattle.pointers.specs.declared.known.Known.{Known};

    /// At a key and its owner it answered that, and was that keeper then. Where it is left out it says nothing.
    ghost judges: { Self → ℕ → Known D.Value → Result Bool Fault → Self → Type 0 } = { λ k n c r h. Unit {0} };

    /// Whether the key's owner stays. A fault ends the walk.
    fn keeps(&mut self, key: u64, owner: &Shared<'_, D>) -> Result<bool, Fault>
        ensures { judges self.old key owner.now result self.new };
}

/// The entry's owner comes out unless it is kept (waits). Whether it came out.
fn sift<D: Domain, R: Wait, K: Keep<D>>(
    rt: &R,
    entry: &Shared<'_, D>,
    keep: &mut K,
) -> Result<bool, Fault>
    ensures sifted { IfOk result (λ out. Sifts K.judges D.opened entry.now keep.old out keep.new) }
    ensures refused { IfErr result (WhyNotRetained K.judges) }
{
    match get(rt, entry)? {
        Some(held) => {
            let key = key_of(entry)?;
            if keep.keeps(key, &held)? {
                return Ok(false);
            }
            take(rt, entry, held)
        }
        None => Ok(false),
    }
}

/// The owners in a bucket come out unless they are kept (waits): how many came out.
fn sift_bucket<D: Domain, R: Wait, K: Keep<D>>(
    rt: &R,
    bucket: &mut Bucket<'_, D>,
    keep: &mut K,
) -> Result<usize, Fault>
    ensures sifted { IfOk result (SweepsTo D.opened (λ b. Begins D.opened b.node b.is_entry)
        (Sifts K.judges D.opened) bucket.old keep.old keep.new) }
    ensures refused { IfErr result (WhyNotRetained K.judges) }
{
    let mut at = bucket.first(rt)?;
    let mut removed = 0usize;
    for _ in rt.forever() {
        let Some(entry) = at else {
            return Ok(removed);
        };
        let out = sift(rt, &entry, keep)?;
        removed = removed.saturating_add(usize::from(out));
        at = behind(rt, &entry)?;
    }
    unreachable!()
}

/// The same over some buckets.
fn sift_buckets<D: Domain, R: Wait, K: Keep<D>>(
    rt: &R,
    buckets: &mut [Bucket<'_, D>],
    keep: &mut K,
) -> Result<usize, Fault>
    ensures sifted { IfOk result (Counts D.opened (λ b. Begins D.opened b.node b.is_entry)
        (Sifts K.judges D.opened) buckets.old keep.old keep.new) }
    ensures refused { IfErr result (WhyNotRetained K.judges) }
{
    let mut removed = 0usize;
    for bucket in buckets.iter_mut() {
        removed = removed.saturating_add(sift_bucket(rt, bucket, keep)?);
    }
    Ok(removed)
}

/// The weak pointers in a bucket whose object has ended come out (waits): how many did.
fn prune_bucket<D: Domain, R: Wait>(rt: &R, bucket: &mut Bucket<'_, D>) -> Result<usize, Fault>
    ensures pruned { IfOk result (SweepsTo D.opened (λ b. Begins D.opened b.node b.is_entry)
        (PrunesAt D.opened) bucket.old tt tt) }
    ensures refused { IfErr result WhyNotFound }
{
    let mut at = bucket.first(rt)?;
    let mut pruned = 0usize;
    for _ in rt.forever() {
        let Some(entry) = at else {
            return Ok(pruned);
        };
        let out = take_expired(rt, &entry)?;
        pruned = pruned.saturating_add(usize::from(out));
        at = behind(rt, &entry)?;
    }
    unreachable!()
}

/// The same over some buckets.
fn prune_buckets<D: Domain, R: Wait>(rt: &R, buckets: &mut [Bucket<'_, D>]) -> Result<usize, Fault>
    ensures pruned { IfOk result (Counts D.opened (λ b. Begins D.opened b.node b.is_entry)
        (PrunesAt D.opened) buckets.old tt tt) }
    ensures refused { IfErr result WhyNotFound }
{
    let mut removed = 0usize;
    for bucket in buckets.iter_mut() {
        removed = removed.saturating_add(prune_bucket(rt, bucket)?);
    }
    Ok(removed)
}

impl<'t, D: Domain> SharedMap<'t, D> {
    /// The owners that `keep` doesn't keep are removed (waits): how many were. What comes to a key meanwhile stays.
    /// Faults: those of `get`, and what `keep` answers.
    pub fn retain<R: Wait, K: Keep<D>>(&mut self, rt: &R, keep: &mut K) -> Result<usize, Fault>
        ensures retained { IfOk result (CountsMap D.opened (λ b. Begins D.opened b.node b.is_entry)
            (Sifts K.judges D.opened) self.old.buckets.items self.old.last keep.old keep.new) }
        ensures refused { IfErr result (WhyNotRetained K.judges) }
    {
        let removed = sift_buckets(rt, &mut self.buckets, keep)?;
        Ok(removed.saturating_add(sift_bucket(rt, &mut self.last, keep)?))
    }

    /// The weak pointers whose object has ended are removed, so that its block is vacant again (waits): how many were.
    /// Faults: those of `get`.
    pub fn remove_expired<R: Wait>(&mut self, rt: &R) -> Result<usize, Fault>
        ensures removed { IfOk result (CountsMap D.opened (λ b. Begins D.opened b.node b.is_entry)
            (PrunesAt D.opened) self.old.buckets.items self.old.last tt tt) }
        ensures refused { IfErr result WhyNotFound }
    {
        let removed = prune_buckets(rt, &mut self.buckets)?;
        Ok(removed.saturating_add(prune_bucket(rt, &mut self.last)?))
    }
}
