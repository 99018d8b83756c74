//! Elements that go out of a list.
ghost use Rattle.std.specs.Prelude.{◌⊎◌, ◌↔◌, Err, IfErr, IfOk, IsTrue, Ok, OnOk, Option, Some};
ghost use Rattle.pointers.specs.ListChanges.{Empties, IsListRefused, IsPlaceOf, IsRefusedAt, Pops, Tells};
ghost use Rattle.pointers.specs.ListRemovals.{IsFound, IsThatNode, IsUnlinked, Judges, Removes, Retains};
ghost use Rattle.pointers.specs.ListRemovals.{WhyNotRetained};
ghost use Rattle.pointers.specs.Lists.{Leads, behind, next_of};
ghost use Rattle.pointers.specs.SiteCalls.{WhyNotDone};
ghost use Rattle.control_word.specs.declared.model.handle.Kind.TheVariants.{Owner};

use crate::domain::Domain;
use crate::fault::Fault;
use crate::fault::call::Call;
use crate::list::List;
use crate::list::element::Element;
use crate::list::insertions::put_behind;
use crate::shared::Shared;
use std::sync::Wait;

impl<'p, 't, D: Domain, E: Element<Shared<'t, D>>> List<'p, 't, D, E> {
    /// The first element comes out (waits), in C++ `front()` and `pop_front()`. None where there is no node.
    pub fn pop_front<R: Wait>(&self, rt: &R) -> Result<Option<E>, Fault>
        ensures popped { IfOk result (Pops D.opened E.copied self.now) }
        ensures fault { IfErr result (IsListRefused D.opened E.refused self.now) }
    {
        for _ in rt.forever() {
            let Some(node) = self.behind(rt, &None)? else {
                return Ok(None);
            };
            let element = E::get(rt, &node)?;
            let mut rest = behind_node(rt, &node)?;
            let mut first = Some(node);
            if self.swap_first(rt, &mut first, &mut rest)? {
                return Ok(element);
            }
        }
        unreachable!()
    }

    /// The node behind another, or the first one, goes out of the list, if it is there still (waits): whether it was.
    fn unlink<R: Wait>(
        &self,
        rt: &R,
        before: &Option<Shared<'t, D>>,
        node: Shared<'t, D>,
    ) -> Result<bool, Fault>
        requires place { IsPlaceOf D.opened self.now (behind before.now self.now) }
        requires leads { Leads D.opened (behind before.now self.now) (Some node) }
        ensures out { IfOk result (IsUnlinked D.opened self.now node.entry) }
        ensures refused { IfErr result (IsListRefused D.opened E.refused self.now) }
    {
        let rest = behind_node(rt, &node)?;
        match before {
            Some(before) => {
                put_behind(before, rest)?;
                Ok(true)
            }
            None => self.unlink_first(rt, node, rest),
        }
    }

    /// The node that was first goes out of the list, also where others came before it meanwhile (waits).
    fn unlink_first<R: Wait>(
        &self,
        rt: &R,
        node: Shared<'t, D>,
        rest: Option<Shared<'t, D>>,
    ) -> Result<bool, Fault>
        requires leads { Leads D.opened self.now (Some node) }
        requires next { Leads D.opened (next_of node) rest }
        ensures out { IfOk result (IsUnlinked D.opened self.now node.entry) }
        ensures refused { IfErr result (IsListRefused D.opened E.refused self.now) }
    {
        let mut rest = rest;
        let mut first = Some(node.share()?);
        if self.replace_first(rt, &mut first, &mut rest)? {
            return Ok(true);
        }
        self.unlink_behind(rt, first, node, rest)
    }

    /// The node goes out of the list where another has it as its next one, from this one on (waits).
    fn unlink_behind<R: Wait>(
        &self,
        rt: &R,
        from: Option<Shared<'t, D>>,
        node: Shared<'t, D>,
        rest: Option<Shared<'t, D>>,
    ) -> Result<bool, Fault>
        requires told { Tells D.opened self.now from }
        requires next { Leads D.opened (next_of node) rest }
        ensures out { IfOk result (IsUnlinked D.opened self.now node.entry) }
        ensures refused { IfErr result (IsListRefused D.opened E.refused self.now) }
    {
        let mut before = from;
        for _ in rt.forever() {
            let Some(one) = before else {
                return Ok(false);
            };
            let next = behind_node(rt, &one)?;
            if is_node(&next, &node) {
                put_behind(&one, rest)?;
                return Ok(true);
            }
            before = next;
        }
        unreachable!()
    }

    /// The elements for which `keep` answers false go out, in C++ `std::erase_if` (waits): how many did. Where it
    /// answers a fault the walk ends with it.
    pub fn retain<R: Wait, F: FnMut(&E) -> Result<bool, Fault>>(
        &self,
        rt: &R,
        keep: F,
    ) -> Result<usize, Fault>
        requires { F.IsAlwaysCallable keep }
        ensures retained { IfOk result (Retains D.opened E.copied E.refused F.FnMut self.now keep) }
        ensures fault { IfErr result (WhyNotRetained D.opened E.copied E.refused F.FnMut self.now keep) }
    {
        let mut keep = keep;
        let mut out = 0usize;
        let mut before = None;
        for _ in rt.forever() {
            let Some(node) = self.behind(rt, &before)? else {
                return Ok(out);
            };
            if stays(rt, &node, &mut keep)? {
                before = Some(node);
            } else if self.unlink(rt, &before, node)? {
                out = out.saturating_add(1);
            }
        }
        unreachable!()
    }

    /// The first element that is of the same object as this one goes out (waits): whether there was one.
    pub fn remove<R: Wait>(&self, rt: &R, element: &E) -> Result<bool, Fault>
        ensures removed { IfOk result (Removes D.opened E.copied E.is_same self.now element.now) }
        ensures fault { IfErr result (IsListRefused D.opened E.refused self.now) }
    {
        let mut before = None;
        for _ in rt.forever() {
            let Some(node) = self.behind(rt, &before)? else {
                return Ok(false);
            };
            if !has(rt, &node, element)? {
                before = Some(node);
            } else if self.unlink(rt, &before, node)? {
                return Ok(true);
            } else {
                before = None;
            }
        }
        unreachable!()
    }

    /// All elements go out, in C++ `clear()`.
    pub fn clear(&self) -> Result<(), Fault>
        ensures cleared { OnOk result (Empties D.opened self.now) }
        ensures fault { IfErr result (WhyNotDone D.opened Owner self.now Call.Clear) }
    {
        self.head.clear()
    }
}

/// The node behind this one (waits). None where there is none.
#[inline(always)]
fn behind_node<'t, R: Wait, D: Domain>(
    rt: &R,
    node: &Shared<'t, D>,
) -> Result<Option<Shared<'t, D>>, Fault>
    ensures led { IfOk result (Leads D.opened (next_of node.now)) }
    ensures refused { IfErr result (IsRefusedAt D.opened (next_of node.now)) }
{
    node.next().load(rt)
}

/// Whether a node's element is of the same object as this one (waits).
fn has<'t, R: Wait, D: Domain, E: Element<Shared<'t, D>>>(
    rt: &R,
    node: &Shared<'t, D>,
    element: &E,
) -> Result<bool, Fault>
    ensures found { IfOk result (IsFound E.copied E.is_same node.now element.now) }
    ensures refused { IfErr result (E.refused node.now) }
{
    match E::get(rt, node)? {
        Some(found) => Ok(found.same(element)),
        None => Ok(false),
    }
}

/// Whether a node's element stays, as `keep` answers (waits). A node without one doesn't.
fn stays<'t, R: Wait, D: Domain, E: Element<Shared<'t, D>>, F: FnMut(&E) -> Result<bool, Fault>>(
    rt: &R,
    node: &Shared<'t, D>,
    keep: &mut F,
) -> Result<bool, Fault>
    requires { F.IsAlwaysCallable keep.old }
    ensures judged { IfOk result (λ stays. (x : Option E) × Judges E.copied F.FnMut keep.old node.now x (Ok stays)
        keep.new) }
    ensures refused { IfErr result (λ why. E.refused node.now why
        ⊎ ((x : Option E) × Judges E.copied F.FnMut keep.old node.now x (Err why) keep.new)) }
    ensures callable { F.IsAlwaysCallable keep.new }
{
    match E::get(rt, node)? {
        Some(element) => keep(&element),
        None => Ok(false),
    }
}

/// Whether it is an owner of the node.
fn is_node<'t, D: Domain>(one: &Option<Shared<'t, D>>, node: &Shared<'t, D>) -> bool
    ensures { IsTrue result ↔ IsThatNode one.now node.now }
{
    match one {
        Some(one) => one.is(node),
        None => false,
    }
}
