//! Trees of nodes: each owns its first child and its next sibling, and knows its parent.
ghost use Rattle.std.specs.Prelude.{◌⊎◌, IfErr, IfOk, IsTrue, OnOk};
ghost use Rattle.pointers.specs.ListChanges.{IsRefusedAt};
ghost use Rattle.pointers.specs.Lists.{Leads, behind, next_of};
ghost use Rattle.pointer_structures.specs.Trees.{Detaches, IsChildRefused, IsNoChild, Joins, LeavesChildren};
ghost use Rattle.pointer_structures.specs.Trees.{Unlinks, WhyNotDetached, WhyNotJoined, first_of};

use crate::stack::{Stack, next, put_next};
use pointers::{Domain, Fault, Shared};
use std::sync::Wait;

/// The child becomes the parent's first one, and has the one that was first as its next sibling (waits). Where it has a
/// parent, it is detached first. `Refused(_, Null)` or `Refused(_, Outside)` where a pointer isn't into the object that
/// it owns; the child has let go then. One thread at a time moves a node. A call wants five pointers of the desk's to
/// be unused.
pub fn add_child<'t, R: Wait, D: Domain>(
    rt: &R,
    parent: &Shared<'t, D>,
    child: Shared<'t, D>,
) -> Result<(), Fault>
    ensures joined { OnOk result (Joins D.opened parent.now child.entry) }
    ensures fault { IfErr result (WhyNotJoined D.opened parent.now child.entry) }
{
    let children = Stack::at(parent.first());
    drop(children.top(rt)?);
    detach(rt, &child)?;
    child.up().store(Some(parent.downgrade()?))?;
    children.push(rt, child)
}

/// The node goes out of its parent's children, and its `next` and `up` are empty then (waits). Where it has no parent,
/// nothing changes. Refused as `add_child` is.
pub fn detach<'t, R: Wait, D: Domain>(rt: &R, node: &Shared<'t, D>) -> Result<(), Fault>
    ensures detached { OnOk result (Detaches D.opened node.now) }
    ensures fault { IfErr result (WhyNotDetached D.opened node.now) }
{
    let Some(parent) = node.parent(rt)? else {
        return Ok(());
    };
    for _ in rt.forever() {
        if goes_out(rt, &parent, node)? {
            put_next(node, None)?;
            return node.up().clear();
        }
    }
    unreachable!()
}

/// The node goes out of its parent's children, where it is among them (waits): whether it was tried to the end. Where
/// another thread changed what owned it, it is not.
fn goes_out<'t, R: Wait, D: Domain>(
    rt: &R,
    parent: &Shared<'t, D>,
    node: &Shared<'t, D>,
) -> Result<bool, Fault>
    ensures out { IfOk result (λ done. IsTrue done
        → LeavesChildren D.opened parent.now node.now ⊎ IsNoChild D.opened parent.now node.now) }
    ensures fault { IfErr result (IsChildRefused D.opened parent.now node.now) }
{
    let mut before: Option<Shared<'t, D>> = None;
    for _ in rt.forever() {
        let Some(child) = child_behind(rt, parent, &before)? else {
            return Ok(true);
        };
        if child.is(node) {
            return unlink(rt, parent, &before, child, node);
        }
        before = Some(child);
    }
    unreachable!()
}

/// The child behind another, or the first one (waits). None where there is none.
fn child_behind<'t, R: Wait, D: Domain>(
    rt: &R,
    parent: &Shared<'t, D>,
    before: &Option<Shared<'t, D>>,
) -> Result<Option<Shared<'t, D>>, Fault>
    ensures led { IfOk result (Leads D.opened (behind before.now (first_of parent.now))) }
    ensures fault { IfErr result (IsRefusedAt D.opened (behind before.now (first_of parent.now))) }
{
    match before {
        Some(sibling) => sibling.next().load(rt),
        None => parent.first().load(rt),
    }
}

/// The child behind another, or the first one, goes out, where it is there still (waits): whether it was.
fn unlink<'t, R: Wait, D: Domain>(
    rt: &R,
    parent: &Shared<'t, D>,
    before: &Option<Shared<'t, D>>,
    child: Shared<'t, D>,
    node: &Shared<'t, D>,
) -> Result<bool, Fault>
    ensures out { IfOk result (λ done. IsTrue done
        → Unlinks D.opened (behind before.now (first_of parent.now)) child.entry node.now) }
    ensures fault { IfErr result (λ why. IsRefusedAt D.opened (next_of node.now) why
        ⊎ IsRefusedAt D.opened (behind before.now (first_of parent.now)) why) }
{
    let mut rest = next(rt, node)?;
    let mut held = Some(child);
    match before {
        Some(sibling) => sibling
            .next()
            .compare_exchange_strong(rt, &mut held, &mut rest),
        None => parent
            .first()
            .compare_exchange_strong(rt, &mut held, &mut rest),
    }
}
