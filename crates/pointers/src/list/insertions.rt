//! Elements that come into a list.
ghost use Rattle.std.specs.Prelude.{◌≡◌, ◌⊎◌, IfErr, IfOk, IfSome, IsFalse, IsSomeAnd, IsTrue, OnOk, Some};
ghost use Rattle.pointers.specs.Faults.{WhyNoMore};
ghost use Rattle.pointers.specs.ListChanges.{Appends, AreAlike, Comes, Follows, Heads, IsLast, IsListRefused, IsNode};
ghost use Rattle.pointers.specs.ListChanges.{IsRefusedAt, Swaps, Tells, WhyNoNode, WhyNotPushed};
ghost use Rattle.pointers.specs.Lists.{next_of};

use crate::domain::Domain;
use crate::fault::Fault;
use crate::fault::call::Call;
use crate::list::List;
use crate::list::element::Element;
use crate::shared::Shared;
use std::sync::Wait;

impl<'p, 't, D: Domain, E: Element<Shared<'t, D>>> List<'p, 't, D, E> {
    /// A node that has the element.
    fn node(&self, element: E, value: D::Value) -> Result<Shared<'t, D>, Fault>
        ensures made { IfOk result (IsNode D.opened E.goes_in element value) }
        ensures refused { IfErr result (WhyNoNode D.opened E.refused value) }
    {
        let node = self.head.desk.new(value)?;
        element.put(&node)?;
        Ok(node)
    }

    /// The last node (waits). None where there is no node.
    fn last<R: Wait>(&self, rt: &R) -> Result<Option<Shared<'t, D>>, Fault>
        ensures last { IfOk result (IsLast D.opened self.now) }
        ensures refused { IfErr result (IsListRefused D.opened E.refused self.now) }
    {
        let mut last = None;
        for _ in rt.forever() {
            let Some(node) = self.behind(rt, &last)? else {
                return Ok(last);
            };
            last = Some(node);
        }
        unreachable!()
    }

    /// The first node is swapped for another, where it is the one that is expected (waits). Else it may be another, and
    /// is in `expected` then.
    #[inline(always)]
    pub(crate) fn swap_first<R: Wait>(
        &self,
        rt: &R,
        expected: &mut Option<Shared<'t, D>>,
        desired: &mut Option<Shared<'t, D>>,
    ) -> Result<bool, Fault>
        ensures swapped { IfOk result (λ done. IsTrue done → Swaps D.opened self.now expected.old desired.old) }
        ensures stays { IfOk result (λ done. IsFalse done → desired.new ≡ desired.old) }
        ensures refused { IfErr result (IsRefusedAt D.opened self.now) }
    {
        self.head.compare_exchange_weak(rt, expected, desired)
    }

    /// As `swap_first`, and the first node is another where it isn't swapped.
    pub(crate) fn replace_first<R: Wait>(
        &self,
        rt: &R,
        expected: &mut Option<Shared<'t, D>>,
        desired: &mut Option<Shared<'t, D>>,
    ) -> Result<bool, Fault>
        ensures swapped { IfOk result (λ done. IsTrue done → Swaps D.opened self.now expected.old desired.old) }
        ensures stays { IfOk result (λ done. IsFalse done → desired.new ≡ desired.old) }
        ensures found { IfOk result (λ done. IsFalse done → Tells D.opened self.now expected.new) }
        ensures refused { IfErr result (IsRefusedAt D.opened self.now) }
    {
        self.head.compare_exchange_strong(rt, expected, desired)
    }

    /// The element comes behind all others, in C++ `push_back`, in a node with the default value (waits). It goes over
    /// the whole list. At a fault the element has let go.
    pub fn push<R: Wait>(&self, rt: &R, element: E) -> Result<(), Fault>
    where
        D::Value: Default,
        ensures pushed { OnOk result ((x : D.Value) × D.Value.is_default x
            × Appends D.opened E.goes_in self.now element x) }
        ensures fault { IfErr result (λ why. (x : D.Value) × D.Value.is_default x
            × WhyNotPushed D.opened E.refused self.now x why) }
    {
        self.push_with(rt, element, D::Value::default())
    }

    /// The element comes before all others, in C++ `push_front`, in a node with the default value (waits). Any thread
    /// may do so at any time. At a fault the element has let go.
    pub fn push_front<R: Wait>(&self, rt: &R, element: E) -> Result<(), Fault>
    where
        D::Value: Default,
        ensures pushed { OnOk result ((x : D.Value) × D.Value.is_default x
            × Heads D.opened E.goes_in self.now element x) }
        ensures fault { IfErr result (λ why. (x : D.Value) × D.Value.is_default x
            × WhyNotPushed D.opened E.refused self.now x why) }
    {
        self.push_front_with(rt, element, D::Value::default())
    }

    /// As `push`, in a node with this value.
    pub fn push_with<R: Wait>(&self, rt: &R, element: E, value: D::Value) -> Result<(), Fault>
        ensures pushed { OnOk result (Appends D.opened E.goes_in self.now element value) }
        ensures fault { IfErr result (WhyNotPushed D.opened E.refused self.now value) }
    {
        let mut node = Some(self.node(element, value)?);
        for _ in rt.forever() {
            match self.last(rt)? {
                Some(last) => return put_behind(&last, node),
                None => {
                    let mut none = None;
                    if self.swap_first(rt, &mut none, &mut node)? {
                        return Ok(());
                    }
                }
            }
        }
        unreachable!()
    }

    /// As `push_front`, in a node with this value.
    pub fn push_front_with<R: Wait>(&self, rt: &R, element: E, value: D::Value) -> Result<(), Fault>
        ensures pushed { OnOk result (Heads D.opened E.goes_in self.now element value) }
        ensures fault { IfErr result (WhyNotPushed D.opened E.refused self.now value) }
    {
        let mut node = Some(self.node(element, value)?);
        for _ in rt.forever() {
            let mut first = self.behind(rt, &None)?;
            follow(&node, &first)?;
            if self.swap_first(rt, &mut first, &mut node)? {
                return Ok(());
            }
        }
        unreachable!()
    }
}

/// The node behind another is this one from now on, or there is none.
#[inline(always)]
pub(crate) fn put_behind<'t, D: Domain>(
    node: &Shared<'t, D>,
    next: Option<Shared<'t, D>>,
) -> Result<(), Fault>
    ensures comes { OnOk result (Comes D.opened (next_of node.now) next.entry) }
    ensures refused { IfErr result (IsRefusedAt D.opened (next_of node.now)) }
{
    node.next().store(next)
}

/// The node is before another, or is the last one.
fn follow<'t, D: Domain>(
    node: &Option<Shared<'t, D>>,
    next: &Option<Shared<'t, D>>,
) -> Result<(), Fault>
    ensures follows { OnOk result (IfSome node.now (λ c. Follows D.opened c next.now)) }
    ensures refused { IfErr result (λ why. IsSomeAnd node.now (λ c. IsRefusedAt D.opened (next_of c) why)
        ⊎ IsSomeAnd next.now (λ c. WhyNoMore D.opened (Some c) Call.Share why)) }
{
    let Some(node) = node else {
        return Ok(());
    };
    put_behind(node, shared(next)?)
}

/// One owner more, where there is one.
fn shared<'t, D: Domain>(of: &Option<Shared<'t, D>>) -> Result<Option<Shared<'t, D>>, Fault>
    ensures alike { IfOk result (AreAlike D.opened of.now) }
    ensures refused { IfErr result (λ why. IsSomeAnd of.now (λ c. WhyNoMore D.opened (Some c) Call.Share why)) }
{
    match of {
        Some(of) => Ok(Some(of.share()?)),
        None => Ok(None),
    }
}
