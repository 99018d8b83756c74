//! Members by number, in objects with more of them than three.

use pointer_calls::{BLOCKS, row, worked_in};
use pointers::{Call, Desk, Domain, Fault, Program, Shared, Spot, Team};
use std::alloc::Global;
use std::process::Abort;
use std::sync::Wait;
use std::thread::Threads;

/// Members for owners, and weak ones, of an object of the test.
const OWNERS: u8 = 8;

const WEAKS: u8 = 7;

/// The value of what a member owns, if it owns something.
fn value<R: Wait, D: Domain<Value = u64>>(
    rt: &R,
    whole: &Shared<'_, D>,
    number: u8,
) -> Result<Option<u64>, Fault> {
    match whole.owner(number).load(rt)? {
        Some(part) => Ok(Some(part.snapshot(rt)?)),
        None => Ok(None),
    }
}

/// Each member for owners has a part of its own, from the first to the last.
struct Parts;

impl<R: Threads + Wait + Sync> Program<u64, R> for Parts {
    fn work<D: Domain<Value = u64>>(
        &self,
        rt: &R,
        _number: usize,
        desk: &Desk<D>,
    ) -> Result<(), Fault> {
        let whole = desk.new(100)?;
        for number in 0..OWNERS {
            row(1, value(rt, &whole, number)? == None)?;
            whole
                .owner(number)
                .store(Some(desk.new(u64::from(number))?))?;
        }
        for number in 0..OWNERS {
            row(2, value(rt, &whole, number)? == Some(u64::from(number)))?;
        }
        row(3, whole.first().load(rt)?.is_some())?;
        row(4, whole.up().load(rt)?.is_none())?;
        whole.up().store(Some(whole.downgrade()?))?;
        row(5, whole.weak(0).lock(rt)?.is_some())?;
        whole.owner(7).clear()?;
        row(6, value(rt, &whole, 7)? == None)?;
        row(7, value(rt, &whole, 6)? == Some(6))?;
        row(8, value(rt, &whole, 2)? == Some(2))
    }
}

/// Numbers beyond the members of an object are refused.
struct Beyond;

impl<R: Threads + Wait + Sync> Program<u64, R> for Beyond {
    fn work<D: Domain<Value = u64>>(
        &self,
        rt: &R,
        _number: usize,
        desk: &Desk<D>,
    ) -> Result<(), Fault> {
        let whole = desk.new(100)?;
        let eighth = Spot::Owner(8);
        let part = desk.new(1)?;
        let load = whole.owner(8).load(rt).err();
        row(1, load == Some(Fault::Member(Call::Load(eighth))))?;
        let store = whole.owner(8).store(Some(part));
        row(2, store == Err(Fault::Member(Call::Store(eighth))))?;
        let holds = whole.owner(8).holds(None);
        row(3, holds == Err(Fault::Member(Call::Holds(eighth))))?;
        let most = whole.owner(255).take().err();
        row(
            4,
            most == Some(Fault::Member(Call::Exchange(Spot::Owner(255)))),
        )?;
        let weak = whole.weak(1).clear();
        row(
            5,
            weak == Err(Fault::Member(Call::Clear(Spot::WeakMember(1)))),
        )?;
        row(6, whole.owner(7).holds(None)?)
    }
}

/// A list in the place of a number, and one in that of another.
struct Lists;

impl<R: Threads + Wait + Sync> Program<u64, R> for Lists {
    fn work<D: Domain<Value = u64>>(
        &self,
        rt: &R,
        _number: usize,
        desk: &Desk<D>,
    ) -> Result<(), Fault> {
        let whole = desk.new(100)?;
        let five = whole.owner(5).list();
        five.push(rt, desk.new(1)?)?;
        five.push(rt, desk.new(2)?)?;
        row(1, five.count(rt)? == 2)?;
        row(2, whole.owner(6).list().count(rt)? == 0)?;
        five.clear()?;
        row(3, whole.owner(5).holds(None)?)
    }
}

/// Seven weak members, and two for owners.
struct Watchers;

impl<R: Threads + Wait + Sync> Program<u64, R> for Watchers {
    fn work<D: Domain<Value = u64>>(
        &self,
        rt: &R,
        _number: usize,
        desk: &Desk<D>,
    ) -> Result<(), Fault> {
        let whole = desk.new(100)?;
        let other = desk.new(1)?;
        for number in 0..WEAKS {
            row(1, whole.weak(number).lock(rt)?.is_none())?;
            whole.weak(number).store(Some(other.downgrade()?))?;
        }
        whole.weak(6).store(Some(whole.downgrade()?))?;
        match whole.weak(6).lock(rt)? {
            Some(found) => row(2, found.is(&whole))?,
            None => row(2, false)?,
        }
        match whole.weak(5).lock(rt)? {
            Some(found) => row(3, found.is(&other))?,
            None => row(3, false)?,
        }
        let owner = whole.owner(2).clear();
        row(4, owner == Err(Fault::Member(Call::Clear(Spot::Owner(2)))))?;
        let weak = whole.weak(7).holds(None);
        row(
            5,
            weak == Err(Fault::Member(Call::Holds(Spot::WeakMember(7)))),
        )?;
        row(6, !whole.weak(6).holds(Some(&other.downgrade()?))?)?;
        row(7, whole.weak(5).holds(Some(&other.downgrade()?))?)
    }
}

#[cfg(test)]
mod tests {
    use super::*;
    use crate::players::same;

    /// The program's rows are as they should be, by one worker, over objects of so many members, and all blocks are
    /// vacant then.
    fn plays<R, P>(rt: &R, alloc: Global, (owners, weaks): (u32, u32), program: &P)
    where
        R: Abort + Threads + Wait + Sync,
        P: Program<u64, R> + Sync,
    {
        let team = Team {
            workers: 1,
            pointers: 8,
        };
        let shape = team.shape(BLOCKS, 1, 1).with_members(owners, weaks);
        let told = worked_in(rt, alloc, team, shape, program);
        same(rt, told, Ok((None, 1, BLOCKS)));
    }

    #[test]
    fn eight_members_own_a_part_each(rt: HostRuntime) {
        plays(&rt, rt.alloc(), (8, 1), &Parts);
    }

    #[test]
    fn a_number_beyond_is_refused(rt: HostRuntime) {
        plays(&rt, rt.alloc(), (8, 1), &Beyond);
    }

    #[test]
    fn a_list_lies_in_any_member(rt: HostRuntime) {
        plays(&rt, rt.alloc(), (8, 1), &Lists);
    }

    #[test]
    fn seven_members_watch(rt: HostRuntime) {
        plays(&rt, rt.alloc(), (2, 7), &Watchers);
    }
}
