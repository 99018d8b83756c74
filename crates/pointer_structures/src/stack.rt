//! A stack in a place, which threads push on and pop from without a lock.
ghost use Rattle.std.specs.Prelude.{◌≡◌, ◌⊎◌, IfErr, IfOk, IfSome, IsFalse, IsSomeAnd, IsTrue, OnOk, Some};
ghost use Rattle.pointers.specs.Faults.{WhyNoMore};
ghost use Rattle.pointers.specs.ListChanges.{AreAlike, Comes, Follows, IsRefusedAt, Swaps};
ghost use Rattle.pointers.specs.Lists.{Leads, next_of};
ghost use Rattle.pointer_structures.specs.Refusals.{IsChainRefused};
ghost use Rattle.pointer_structures.specs.Stacks.{GoesFirst, Pops, WhyNotPushed};

use pointers::{Call, Domain, Fault, Member, Shared};
use std::marker::Model;
use std::sync::Wait;

/// A stack in a place for an owner, in C++ an `atomic<shared_ptr<Node>>` with the top: each object owns the one below
/// it by its member `next`. All that have the same place share the stack. A push wants two pointers of the desk's to be
/// unused, a pop three.
pub struct Stack<'p, 't, D: Domain> {
    place: Member<'p, 't, D>,
}

impl<'p, 't, D: Domain> Model for Stack<'p, 't, D> {
    ghost use Rattle.control_block.specs.contracts.handles.Shared as shared_handle;
    ghost use Rattle.control_block.specs.contracts.handles.Weak as weak_handle;
    ghost use Rattle.std.specs.Coded.{codes};
    ghost use Rattle.pointers.specs.Sites.{Site};

    ghost Value = { Site D.Value };

    ghost coded = { Prim.hlevel (codes, shared_handle.the_row.coded, weak_handle.the_row.coded) };

    ghost view = { λ s. s.place };
}

impl<'p, 't, D: Domain> Drop for Stack<'p, 't, D> {
    fn drop(self) {
        let Self { place } = self;
        drop(place);
    }
}

impl<'p, 't, D: Domain> Stack<'p, 't, D> {
    /// The stack whose top a place owns.
    pub fn at(top: Member<'p, 't, D>) -> Stack<'p, 't, D>
        ensures { result ≡ top.entry }
    {
        Stack { place: top }
    }

    /// The node goes on top (waits). At a fault it has let go.
    pub fn push<R: Wait>(&self, rt: &R, node: Shared<'t, D>) -> Result<(), Fault>
        ensures pushed { OnOk result (GoesFirst D.opened self.now node.entry) }
        ensures fault { IfErr result (WhyNotPushed D.opened self.now node.entry) }
    {
        let mut new = Some(node);
        for _ in rt.forever() {
            let mut first = self.top(rt)?;
            follow(&new, &first)?;
            if self.swap(rt, &mut first, &mut new)? {
                return Ok(());
            }
        }
        unreachable!()
    }

    /// The top node comes out (waits). None where there is none. It keeps what its `next` owns. It may be pushed again
    /// once each `pop` that was under way has ended: one that had looked at it takes it for the top that it saw.
    pub fn pop<R: Wait>(&self, rt: &R) -> Result<Option<Shared<'t, D>>, Fault>
        ensures popped { IfOk result (Pops D.opened self.now) }
        ensures fault { IfErr result (IsChainRefused D.opened self.now) }
    {
        for _ in rt.forever() {
            let Some(node) = self.top(rt)? else {
                return Ok(None);
            };
            let mut below = next(rt, &node)?;
            let mut top = Some(node);
            if self.swap(rt, &mut top, &mut below)? {
                return Ok(top);
            }
        }
        unreachable!()
    }

    /// The top node, which stays (waits). None where there is none.
    #[inline(always)]
    pub(crate) fn top<R: Wait>(&self, rt: &R) -> Result<Option<Shared<'t, D>>, Fault>
        ensures led { IfOk result (Leads D.opened self.now) }
        ensures fault { IfErr result (IsRefusedAt D.opened self.now) }
    {
        self.place.load(rt)
    }

    /// The top node is swapped for another, where it is the one that is expected (waits): whether it was.
    #[inline(always)]
    fn swap<R: Wait>(
        &self,
        rt: &R,
        expected: &mut Option<Shared<'t, D>>,
        desired: &mut Option<Shared<'t, D>>,
    ) -> Result<bool, Fault>
        ensures swapped { IfOk result (λ done. IsTrue done → Swaps D.opened self.now expected.old desired.old) }
        ensures kept { IfOk result (λ done. IsTrue done → expected.new ≡ expected.old) }
        ensures stays { IfOk result (λ done. IsFalse done → desired.new ≡ desired.old) }
        ensures fault { IfErr result (IsRefusedAt D.opened self.now) }
    {
        self.place.compare_exchange_weak(rt, expected, desired)
    }
}

/// The node that this one owns by its `next` (waits). None where there is none.
#[inline(always)]
pub(crate) fn next<'t, R: Wait, D: Domain>(
    rt: &R,
    node: &Shared<'t, D>,
) -> Result<Option<Shared<'t, D>>, Fault>
    ensures led { IfOk result (Leads D.opened (next_of node.now)) }
    ensures fault { IfErr result (IsRefusedAt D.opened (next_of node.now)) }
{
    node.next().load(rt)
}

/// The node owns this one by its `next` from now on, or none.
#[inline(always)]
pub(crate) fn put_next<'t, D: Domain>(
    node: &Shared<'t, D>,
    next: Option<Shared<'t, D>>,
) -> Result<(), Fault>
    ensures comes { OnOk result (Comes D.opened (next_of node.now) next.entry) }
    ensures fault { IfErr result (IsRefusedAt D.opened (next_of node.now)) }
{
    node.next().store(next)
}

/// The node is before another, or is the last one.
#[inline(always)]
fn follow<'t, D: Domain>(
    node: &Option<Shared<'t, D>>,
    next: &Option<Shared<'t, D>>,
) -> Result<(), Fault>
    ensures follows { OnOk result (IfSome node.now (λ c. Follows D.opened c next.now)) }
    ensures fault { IfErr result (λ why. IsSomeAnd node.now (λ c. IsRefusedAt D.opened (next_of c) why)
        ⊎ IsSomeAnd next.now (λ c. WhyNoMore D.opened (Some c) Call.Share why)) }
{
    let Some(node) = node else {
        return Ok(());
    };
    put_next(node, share(next)?)
}

/// One owner more, where there is one.
#[inline(always)]
fn share<'t, D: Domain>(of: &Option<Shared<'t, D>>) -> Result<Option<Shared<'t, D>>, Fault>
    ensures alike { IfOk result (AreAlike D.opened of.now) }
    ensures fault { IfErr result (λ why. IsSomeAnd of.now (λ c. WhyNoMore D.opened (Some c) Call.Share why)) }
{
    match of {
        Some(of) => Ok(Some(of.share()?)),
        None => Ok(None),
    }
}
