//! The leaf of an index.
ghost use Rattle.std.specs.Prelude.{◌≡◌, ◌≤◌, IfErr, IfOk, Some};
ghost use Rattle.shared_vec.specs.Refusals.{WhyNotFound, WhyNotPut};
ghost use Rattle.shared_vec.specs.Vectors.{Descends, Grows, IsLeaf};

use crate::index::{nodes_before, number_at};
use crate::node::{level_of, node_in};
use crate::vector::SharedVec;
use pointers::{Desk, Domain, Fault, Shared};
use std::sync::Wait;

/// The leaf of an index below a node of a level, if there is one (waits).
fn descend<'t, D: Domain, R: Wait>(
    rt: &R,
    node: Shared<'t, D>,
    level: u32,
    index: usize,
) -> Result<Option<Shared<'t, D>>, Fault>
    requires { level ≤ 21 }
    ensures reached { IfOk result (Descends D.opened index level (Some node.entry)) }
    ensures refused { IfErr result WhyNotFound }
{
    let mut node = node;
    let mut level = level;
    while level > 0 {
        let below = node.owner(number_at(index, level)).load(rt)?;
        let Some(below) = below else {
            return Ok(None);
        };
        node = below;
        level -= 1;
    }
    Ok(Some(node))
}

/// The same, with new nodes where there are none.
fn descend_or_make<'t, D: Domain, R: Wait>(
    rt: &R,
    desk: &'t Desk<'t, D>,
    node: Shared<'t, D>,
    level: u32,
    index: usize,
) -> Result<Shared<'t, D>, Fault>
where
    D::Value: Default,
    requires { level ≤ 21 }
    ensures reached { IfOk result (λ leaf. Descends D.opened index level (Some node.entry) (Some leaf)) }
    ensures refused { IfErr result WhyNotPut }
{
    let mut node = node;
    let mut level = level;
    while level > 0 {
        let place = node.owner(number_at(index, level));
        level -= 1;
        let below = node_in(rt, desk, &place, level)?;
        drop(place);
        node = below;
    }
    Ok(node)
}

impl<'p, 't, D: Domain> SharedVec<'p, 't, D> {
    /// The leaf of an index, if there is one (waits).
    pub(crate) fn leaf<R: Wait>(&self, rt: &R, index: usize) -> Result<Option<Shared<'t, D>>, Fault>
        ensures leaf { IfOk result (IsLeaf D.opened self.now.place index) }
        ensures refused { IfErr result WhyNotFound }
    {
        let Some(root) = self.place.load(rt)? else {
            return Ok(None);
        };
        let level = level_of(&root)?;
        if nodes_before(index, level) >= 8 {
            return Ok(None);
        }
        descend(rt, root, level, index)
    }
}

impl<'p, 't, D: Domain> SharedVec<'p, 't, D>
where
    D::Value: Default,
{
    /// The leaf of an index, a new one where there is none, below a new root where that one has no room (waits).
    pub(crate) fn leaf_or_new<R: Wait>(&self, rt: &R, index: usize) -> Result<Shared<'t, D>, Fault>
        ensures leaf { IfOk result (λ leaf. IsLeaf D.opened self.now.place index (Some leaf)) }
        ensures refused { IfErr result WhyNotPut }
    {
        for _ in rt.forever() {
            let root = node_in(rt, self.desk, &self.place, 0)?;
            let level = level_of(&root)?;
            if nodes_before(index, level) < 8 {
                return descend_or_make(rt, self.desk, root, level, index);
            }
            self.grow(rt, root, level)?;
        }
        unreachable!()
    }

    /// A new root above this one, if this one is the vector's still (waits). Whether it was.
    fn grow<R: Wait>(&self, rt: &R, root: Shared<'t, D>, level: u32) -> Result<bool, Fault>
        requires { level ≤ 21 }
        ensures grown { IfOk result (Grows D.opened self.now.place root.entry level) }
        ensures refused { IfErr result WhyNotPut }
    {
        let new = self
            .desk
            .make([u64::from(level) + 1, 0, 0, 0], Default::default())?;
        new.first().store(Some(root.share()?))?;
        let mut held = Some(root);
        let mut new = Some(new);
        self.place.compare_exchange_strong(rt, &mut held, &mut new)
    }
}
