//! A stack, observers and trees, with ample memory.

use crate::plays::plays;
use pointer_calls::row;
use pointer_structures::{Observers, Stack, add_child, detach};
use pointers::{Desk, Domain, Fault, Program, Refusal, Shared, SharedCell, Team, run};
use std::sync::Wait;
use std::sync::atomic::{AtomicU64, Ordering};
use std::thread::Threads;

/// A new object with the number as its first field.
fn numbered<'t, D: Domain<Value = u64>>(
    desk: &'t Desk<'t, D>,
    number: u64,
) -> Result<Shared<'t, D>, Fault> {
    Ok(desk.make([number, 0, 0, 0], number)?)
}

/// A stack in a free cell: the last comes first.
struct OneStack;

impl<R: Threads + Wait> Program<u64, R> for OneStack {
    fn work<D: Domain<Value = u64>>(
        &self,
        rt: &R,
        _number: usize,
        desk: &Desk<D>,
    ) -> Result<(), Fault> {
        let stack = Stack::at(desk.cell(SharedCell(0)));
        row(1, stack.pop(rt)?.is_none())?;
        for number in 1..4 {
            stack.push(rt, numbered(desk, number)?)?;
        }
        let Some(three) = stack.pop(rt)? else {
            return row(2, false);
        };
        row(3, three.read()? == 3)?;
        let Some(two) = three.next().take()? else {
            return row(4, false);
        };
        row(5, two.read()? == 2 && three.use_count()? == 1)?;
        let Some(popped) = stack.pop(rt)? else {
            return row(6, false);
        };
        row(7, popped.is(&two) && two.use_count()? == 2)?;
        stack.push(rt, three)?;
        row(8, popped_field(rt, &stack)? == 3)?;
        row(9, popped_field(rt, &stack)? == 1)?;
        row(10, stack.pop(rt)?.is_none())?;
        let beyond = Stack::at(desk.cell(SharedCell(2)));
        row(11, beyond.push(rt, two).is_err() && beyond.pop(rt).is_err())
    }
}

/// The field of the top object, which comes out.
fn popped_field<R: Wait, D: Domain>(rt: &R, stack: &Stack<'_, '_, D>) -> Result<u64, Fault> {
    match stack.pop(rt)? {
        Some(top) => top.read(),
        None => Err(Fault::Other(1_000)),
    }
}

#[test]
fn a_stack_pops_what_was_pushed_last(rt: HostRuntime) {
    plays(&rt, rt.alloc(), &OneStack);
}

/// Observers in a free cell: those are told whose subject lives.
struct Watchers;

/// The fields of the subjects that live, as decimal digits, the one that was attached last first.
fn heard<R: Wait, D: Domain>(rt: &R, desk: &Desk<D>) -> Result<u64, Fault> {
    let mut heard = 0u64;
    desk.cell(SharedCell(1)).weak_list().each(rt, |weak| {
        if let Some(subject) = weak.lock(rt)? {
            heard = heard.wrapping_mul(10).wrapping_add(subject.read()?);
        }
        Ok(())
    })?;
    Ok(heard)
}

impl<R: Threads + Wait> Program<u64, R> for Watchers {
    fn work<D: Domain<Value = u64>>(
        &self,
        rt: &R,
        _number: usize,
        desk: &Desk<D>,
    ) -> Result<(), Fault> {
        let observers = Observers::at(desk.cell(SharedCell(1)));
        let one = numbered(desk, 1)?;
        let two = numbered(desk, 2)?;
        observers.attach(rt, &one, 8)?;
        observers.attach(rt, &two, 8)?;
        row(1, heard(rt, desk)? == 21)?;
        row(2, observers.prune(rt)? == 0)?;
        drop(two);
        row(3, heard(rt, desk)? == 1)?;
        row(4, desk.cell(SharedCell(1)).weak_list().count(rt)? == 2)?;
        row(5, observers.prune(rt)? == 1)?;
        row(6, desk.cell(SharedCell(1)).weak_list().count(rt)? == 1)?;
        row(7, one.use_count()? == 1)?;
        drop(one);
        row(8, heard(rt, desk)? == 0 && observers.prune(rt)? == 1)?;
        row(9, desk.load(rt, SharedCell(1))?.is_none())
    }
}

#[test]
fn observers_are_told_of_what_lives(rt: HostRuntime) {
    plays(&rt, rt.alloc(), &Watchers);
}

/// A tree: a child that comes last is its parent's first, and knows it.
struct Family;

impl Family {
    /// A node goes out of its parent's children, the last one and the first one of two.
    fn leaves<'t, R: Wait, D: Domain<Value = u64>>(
        rt: &R,
        root: &Shared<'t, D>,
        two: &Shared<'t, D>,
        three: &Shared<'t, D>,
    ) -> Result<(), Fault> {
        detach(rt, two)?;
        row(
            5,
            two.parent(rt)?.is_none() && three.next().load(rt)?.is_none(),
        )?;
        row(6, two.use_count()? == 1 && two.first().load(rt)?.is_some())?;
        detach(rt, two)?;
        add_child(rt, root, two.share()?)?;
        detach(rt, two)?;
        row(7, two.use_count()? == 1 && two.next().load(rt)?.is_none())?;
        let Some(first) = root.first().load(rt)? else {
            return row(8, false);
        };
        row(9, first.is(three))?;
        drop(first);
        detach(rt, three)?;
        row(
            10,
            three.use_count()? == 1 && root.first().load(rt)?.is_none(),
        )
    }

    /// A pointer to nowhere has no children, and is nobody's child.
    fn nowhere<'t, R: Wait, D: Domain<Value = u64>>(
        rt: &R,
        root: &Shared<'t, D>,
        child: &Shared<'t, D>,
    ) -> Result<(), Fault> {
        let nowhere = root.alias(None)?;
        let refused = add_child(rt, &nowhere, child.share()?);
        let Err(why) = refused else {
            return row(12, false);
        };
        row(
            13,
            why.is_refusal(Refusal::Null) && detach(rt, &nowhere).is_err(),
        )
    }
}

impl<R: Threads + Wait> Program<u64, R> for Family {
    fn work<D: Domain<Value = u64>>(
        &self,
        rt: &R,
        _number: usize,
        desk: &Desk<D>,
    ) -> Result<(), Fault> {
        let root = numbered(desk, 1)?;
        let two = numbered(desk, 2)?;
        let three = numbered(desk, 3)?;
        add_child(rt, &root, two.share()?)?;
        add_child(rt, &root, three.share()?)?;
        add_child(rt, &two, numbered(desk, 4)?)?;
        let (Some(first), Some(second)) = (root.first().load(rt)?, three.next().load(rt)?) else {
            return row(1, false);
        };
        row(2, first.is(&three) && second.is(&two))?;
        drop(first);
        drop(second);
        let Some(parent) = two.parent(rt)? else {
            return row(3, false);
        };
        row(4, parent.is(&root))?;
        Family::leaves(rt, &root, &two, &three)?;
        add_child(rt, &three, two.share()?)?;
        row(11, two.use_count()? == 2)?;
        Family::nowhere(rt, &root, &two)?;
        let Some(parent) = two.parent(rt)? else {
            return row(14, false);
        };
        row(15, parent.is(&three))
    }
}

#[test]
fn a_tree_has_children(rt: HostRuntime) {
    plays(&rt, rt.alloc(), &Family);
}

/// Workers that push and pop, each as often, with room for three pointers at a time.
#[derive(Drop)]
struct Pushers {
    pushed: AtomicU64,
    popped: AtomicU64,
}

impl<R: Threads + Wait + Sync> Program<u64, R> for Pushers {
    fn work<D: Domain<Value = u64>>(
        &self,
        rt: &R,
        _number: usize,
        desk: &Desk<D>,
    ) -> Result<(), Fault> {
        let stack = Stack::at(desk.cell(SharedCell(0)));
        for number in 0..500u64 {
            stack.push(rt, numbered(desk, number)?)?;
            self.pushed.fetch_add(number, Ordering::SeqCst);
            let top = popped_field(rt, &stack)?;
            self.popped.fetch_add(top, Ordering::SeqCst);
        }
        Ok(())
    }
}

#[test]
fn what_four_workers_push_is_popped_once(rt: HostRuntime) {
    let team = Team {
        workers: 4,
        pointers: 1,
    };
    let pushers = Pushers {
        pushed: AtomicU64::new(0),
        popped: AtomicU64::new(0),
    };
    match run(&rt, rt.alloc(), team.shape(64, 1, 0), team, &pushers) {
        Ok(ran) => assert_eq!(rt; (ran.fault(), ran.census.vacant()), (None, 64)),
        Err(why) => panic!(rt; "not run: {why}"),
    }
    assert_eq!(rt; pushers.pushed.load(Ordering::SeqCst), 499_000);
    assert_eq!(rt; pushers.popped.load(Ordering::SeqCst), 499_000);
}
