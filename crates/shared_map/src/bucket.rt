//! Buckets of a map.
ghost use Rattle.std.specs.Prelude.{◌≡◌, IfErr, IfOk, IfSome};
ghost use Rattle.pointers.specs.Objects.{IsField};
ghost use Rattle.shared_map.specs.Maps.{Gets, Locks};
ghost use Rattle.shared_map.specs.Refusals.{WhyNotFound, WhyNotPut};
ghost use Rattle.shared_map.specs.Sweeps.{Begins, LeadsInto, node_if};

use crate::entry::{behind, get, lock};
use crate::node::node_in;
use pointers::{Desk, Domain, Fault, Shared};
use std::sync::Wait;

/// What a worker keeps of a bucket: its first entry, or the bucket's own object while it has seen no entry. Behind each
/// lies the next entry of the bucket, in the member `next`. None ever leaves.
pub(crate) struct Bucket<'t, D: Domain> {
    pub node: Shared<'t, D>,
    pub is_entry: bool,
}

impl<'t, D: Domain> Drop for Bucket<'t, D> {
    #[inline(always)]
    fn drop(self) {
        let Self { node, is_entry: _ } = self;
        drop(node);
    }
}

impl<'t, D: Domain> Bucket<'t, D> {
    /// The bucket's first entry is known from now on.
    #[inline(always)]
    fn keep(&mut self, first: Shared<'t, D>)
        ensures { self.new.node ≡ first.entry }
    {
        self.node = first;
        self.is_entry = true;
    }

    /// Whether the bucket has an entry (waits). The first is known then.
    #[inline(always)]
    fn has_entry<R: Wait>(&mut self, rt: &R) -> Result<bool, Fault>
        ensures first { IfOk result (λ has. LeadsInto D.opened self.old.node self.old.is_entry
            (node_if has self.new.node)) }
        ensures refused { IfErr result WhyNotFound }
    {
        if self.is_entry {
            return Ok(true);
        }
        let first = behind(rt, &self.node)?;
        match first {
            Some(first) => {
                self.keep(first);
                Ok(true)
            }
            None => Ok(false),
        }
    }

    /// The bucket's first entry, if there is one (waits).
    pub(crate) fn first<R: Wait>(&mut self, rt: &R) -> Result<Option<Shared<'t, D>>, Fault>
        ensures begins { IfOk result (Begins D.opened self.old.node self.old.is_entry) }
        ensures refused { IfErr result WhyNotFound }
    {
        if self.has_entry(rt)? {
            let first = self.node.share()?;
            return Ok(Some(first));
        }
        Ok(None)
    }

    /// The entry of the key, if there is one (waits).
    pub(crate) fn find<R: Wait>(&mut self, rt: &R, key: u64) -> Result<Option<Shared<'t, D>>, Fault>
        ensures entry { IfOk result (λ r. IfSome r (λ e. IsField D.opened e key)) }
        ensures refused { IfErr result WhyNotFound }
    {
        let first = self.first(rt)?;
        find_from(rt, first, key)
    }

    /// A copy of the owner of the key's entry (waits).
    #[tactic(auto, using(crate::proofs::Entries::gets))]
    #[inline(always)]
    pub(crate) fn get<R: Wait>(&mut self, rt: &R, key: u64) -> Result<Option<Shared<'t, D>>, Fault>
        ensures done { IfOk result (Gets D.opened key) }
        ensures refused { IfErr result WhyNotFound }
    {
        if !self.has_entry(rt)? {
            return Ok(None);
        }
        if self.node.read()? == key {
            return get(rt, &self.node);
        }
        get_behind(rt, &self.node, key)
    }

    /// An owner of what the weak pointer of the key's entry is of (waits).
    #[tactic(auto, using(crate::proofs::Entries::locks))]
    #[inline(always)]
    pub(crate) fn lock<R: Wait>(&mut self, rt: &R, key: u64) -> Result<Option<Shared<'t, D>>, Fault>
        ensures done { IfOk result (Locks D.opened key) }
        ensures refused { IfErr result WhyNotFound }
    {
        if !self.has_entry(rt)? {
            return Ok(None);
        }
        if self.node.read()? == key {
            return lock(rt, &self.node);
        }
        lock_behind(rt, &self.node, key)
    }
}

impl<'t, D: Domain> Bucket<'t, D>
where
    D::Value: Default,
{
    /// The entry of the key, a new one where there is none (waits).
    pub(crate) fn entry<R: Wait>(
        &mut self,
        rt: &R,
        desk: &'t Desk<'t, D>,
        key: u64,
    ) -> Result<Shared<'t, D>, Fault>
        ensures entry { IfOk result (λ e. IsField D.opened e key) }
        ensures refused { IfErr result WhyNotPut }
    {
        if !self.is_entry {
            let first = node_in(rt, desk, &self.node.next(), key)?;
            self.keep(first);
        }
        let first = self.node.share()?;
        entry_from(rt, desk, first, key)
    }
}

/// A copy of the owner of the key's entry behind another of its bucket (waits).
#[tactic(auto, using(crate::proofs::Entries::gets))]
fn get_behind<'t, D: Domain, R: Wait>(
    rt: &R,
    before: &Shared<'t, D>,
    key: u64,
) -> Result<Option<Shared<'t, D>>, Fault>
    ensures done { IfOk result (Gets D.opened key) }
    ensures refused { IfErr result WhyNotFound }
{
    let first = before.next().load(rt)?;
    match find_from(rt, first, key)? {
        Some(entry) => get(rt, &entry),
        None => Ok(None),
    }
}

/// An owner of what the weak pointer of the key's entry behind another is of (waits).
#[tactic(auto, using(crate::proofs::Entries::locks))]
fn lock_behind<'t, D: Domain, R: Wait>(
    rt: &R,
    before: &Shared<'t, D>,
    key: u64,
) -> Result<Option<Shared<'t, D>>, Fault>
    ensures done { IfOk result (Locks D.opened key) }
    ensures refused { IfErr result WhyNotFound }
{
    let first = before.next().load(rt)?;
    match find_from(rt, first, key)? {
        Some(entry) => lock(rt, &entry),
        None => Ok(None),
    }
}

/// The entry of the key, from one of its bucket on, if there is one (waits).
fn find_from<'t, D: Domain, R: Wait>(
    rt: &R,
    first: Option<Shared<'t, D>>,
    key: u64,
) -> Result<Option<Shared<'t, D>>, Fault>
    ensures entry { IfOk result (λ r. IfSome r (λ e. IsField D.opened e key)) }
    ensures refused { IfErr result WhyNotFound }
{
    let mut at = first;
    for _ in rt.forever() {
        let Some(node) = at else {
            return Ok(None);
        };
        if node.read()? == key {
            return Ok(Some(node));
        }
        at = node.next().load(rt)?;
    }
    unreachable!()
}

/// The same, a new one behind all others where there is none.
fn entry_from<'t, D: Domain, R: Wait>(
    rt: &R,
    desk: &'t Desk<'t, D>,
    first: Shared<'t, D>,
    key: u64,
) -> Result<Shared<'t, D>, Fault>
where
    D::Value: Default,
    ensures entry { IfOk result (λ e. IsField D.opened e key) }
    ensures refused { IfErr result WhyNotPut }
{
    let mut node = first;
    for _ in rt.forever() {
        if node.read()? == key {
            return Ok(node);
        }
        let next = node_in(rt, desk, &node.next(), key)?;
        node = next;
    }
    unreachable!()
}
