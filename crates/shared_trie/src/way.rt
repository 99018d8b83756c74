//! A key's way down a trie.
ghost use Rattle.std.specs.Prelude.{◌≡◌, ◌+◌, ◌≤◌, IfErr, IfOk};
ghost use Rattle.shared_trie.specs.Refusals.{WhyNotFound, WhyNotPut};
ghost use Rattle.shared_trie.specs.Tries.{Ends, IsOf, Leads};

use crate::key::{LAST, number_at};
use crate::node::{FOREIGN, is_node, key_of};
use crate::slot::sink;
use crate::trie::SharedTrie;
use pointers::{Domain, Fault, Shared};
use std::sync::Wait;

/// Where a key's way ends: at its member of a node of a level, and what that held.
#[derive(Drop)]
pub(crate) struct End<'t, D: Domain> {
    pub node: Shared<'t, D>,
    pub level: u32,
    pub held: Option<Shared<'t, D>>,
}

/// The level below. The last one has none: what would lie there, no trie put there.
#[inline(always)]
pub(crate) fn below(level: u32) -> Result<u32, Fault>
    ensures below { IfOk result (λ l. (l ≡ level + 1) × (l ≤ 21)) }
    ensures refused { IfErr result WhyNotFound }
{
    if level < LAST {
        Ok(level + 1)
    } else {
        Err(FOREIGN)
    }
}

impl<'t, D: Domain> SharedTrie<'t, D> {
    /// Where the key's way ends (waits).
    pub(crate) fn end_of<R: Wait>(&self, rt: &R, key: u64) -> Result<End<'t, D>, Fault>
        ensures ends { IfOk result (λ e. Ends D.opened self.now.root key e.node e.level e.held) }
        ensures refused { IfErr result WhyNotFound }
    {
        let root = self.root.share()?;
        self.end_from(rt, root, 0, key)
    }

    /// The same from a node on its way.
    pub(crate) fn end_from<R: Wait>(
        &self,
        rt: &R,
        node: Shared<'t, D>,
        level: u32,
        key: u64,
    ) -> Result<End<'t, D>, Fault>
        requires { Leads D.opened self.now.root key level node × (level ≤ 21) }
        ensures ends { IfOk result (λ e. Ends D.opened self.now.root key e.node e.level e.held) }
        ensures refused { IfErr result WhyNotFound }
    {
        let mut node = node;
        let mut level = level;
        for _ in rt.forever() {
            let held = node.owner(number_at(key, level)).load(rt)?;
            let Some(next) = held else {
                return Ok(End {
                    node,
                    level,
                    held: None,
                });
            };
            if !is_node(&next) {
                return Ok(End {
                    node,
                    level,
                    held: Some(next),
                });
            }
            level = below(level)?;
            node = next;
        }
        unreachable!()
    }
}

impl<'t, D: Domain> SharedTrie<'t, D>
where
    D::Value: Default,
{
    /// Where there is nothing, or an entry of the key, at the end of the key's way (waits). An entry of another key
    /// goes into a new node there.
    pub(crate) fn end_for<R: Wait>(&self, rt: &R, key: u64) -> Result<End<'t, D>, Fault>
        ensures ends { IfOk result (λ e. Ends D.opened self.now.root key e.node e.level e.held) }
        ensures of { IfOk result (λ e. IsOf D.opened key e.held) }
        ensures refused { IfErr result WhyNotPut }
    {
        let root = self.root.share()?;
        self.end_for_from(rt, root, 0, key)
    }

    /// The same from a node on its way.
    pub(crate) fn end_for_from<R: Wait>(
        &self,
        rt: &R,
        node: Shared<'t, D>,
        level: u32,
        key: u64,
    ) -> Result<End<'t, D>, Fault>
        requires { Leads D.opened self.now.root key level node × (level ≤ 21) }
        ensures ends { IfOk result (λ e. Ends D.opened self.now.root key e.node e.level e.held) }
        ensures of { IfOk result (λ e. IsOf D.opened key e.held) }
        ensures refused { IfErr result WhyNotPut }
    {
        let mut end = self.end_from(rt, node, level, key)?;
        for _ in rt.forever() {
            let End { node, level, held } = end;
            let Some(entry) = held else {
                return Ok(End {
                    node,
                    level,
                    held: None,
                });
            };
            if key_of(&entry)? == key {
                return Ok(End {
                    node,
                    level,
                    held: Some(entry),
                });
            }
            let place = node.owner(number_at(key, level));
            sink(rt, self.desk, &place, entry, below(level)?)?;
            drop(place);
            end = self.end_from(rt, node, level, key)?;
        }
        unreachable!()
    }
}
