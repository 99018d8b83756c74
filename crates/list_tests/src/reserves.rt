//! Vacant blocks between desks and the shelf, and what is left to end.

use crate::plays::plays;
use pointer_calls::row;
use pointers::{Call, Desk, Domain, Fault, Program, RESERVE, SharedCell, Team, run};
use std::alloc::Global;
use std::rt::{HostRuntime, Runtime};
use std::sync::Wait;
use std::thread::Threads;

/// A desk fills its reserve and gives it away, and has no more than that after objects end.
#[derive(Drop)]
struct Spares {
    alloc: Global,
}

impl<R: Threads + Wait> Program<u64, R> for Spares {
    fn work<D: Domain<Value = u64>>(
        &self,
        rt: &R,
        _number: usize,
        desk: &Desk<D>,
    ) -> Result<(), Fault> {
        row(1, desk.unshelve()? == 2)?;
        row(2, desk.unshelve()? == 0)?;
        row(3, desk.shelve()? == 2)?;
        row(4, desk.shelve()? == 0)?;
        let mut owners = Vec::new(self.alloc);
        for value in 0..6u64 {
            owners.push(desk.new(value)?)?;
        }
        drop(owners);
        row(5, desk.shelve()? <= RESERVE)?;
        let mut weaks = Vec::new(self.alloc);
        for value in 0..6u64 {
            weaks.push(desk.new(value)?.downgrade()?)?;
        }
        row(6, desk.shelve()? == 0)?;
        drop(weaks);
        row(7, desk.shelve()? <= RESERVE)?;
        is_settled(rt, desk)
    }
}

/// Nothing is left to end with the desk, and within a visit it neither settles nor moves blocks.
fn is_settled<R: Wait, D: Domain<Value = u64>>(rt: &R, desk: &Desk<D>) -> Result<(), Fault> {
    row(8, desk.settle(rt) == Ok(()))?;
    let mut ended = 0u32;
    let settled = desk.settle_with(rt, |_| ended = ended.saturating_add(1));
    row(9, settled == Ok(()) && ended == 0)?;
    let busy = desk.new(1)?.visit(rt, |_| {
        (
            desk.settle(rt).err(),
            desk.shelve().err(),
            desk.unshelve().err(),
        )
    })?;
    row(10, busy.0 == Some(Fault::Busy(Call::Settle)))?;
    row(11, busy.1 == Some(Fault::Busy(Call::Shelve)))?;
    row(12, busy.2 == Some(Fault::Busy(Call::Unshelve)))
}

#[test]
fn a_desk_keeps_its_reserve(rt: HostRuntime) {
    let alloc = rt.alloc();
    plays(&rt, alloc, &Spares { alloc });
}

/// The first worker ends seven objects, keeps one and waits; then the second makes as many as there are blocks, but for
/// that one and the first worker's reserve.
#[derive(Drop)]
struct Relay {
    alloc: Global,
}

const BLOCKS: u32 = 10;

const MADE: u64 = 7;

/// The cell by which the second worker learns that it may begin, and that by which the first learns that it is done.
const BEGUN: SharedCell = SharedCell(0);

const DONE: SharedCell = SharedCell(1);

/// So many owners of new objects.
fn made<D: Domain<Value = u64>>(desk: &Desk<D>, alloc: Global) -> Result<(), Fault> {
    let mut owners = Vec::new(alloc);
    for value in 0..MADE {
        owners.push(desk.new(value)?)?;
    }
    Ok(())
}

/// The cell has a pointer.
fn wait_for<R: Wait, D: Domain>(rt: &R, desk: &Desk<D>, cell: SharedCell) -> Result<(), Fault> {
    for _ in 0..u64::MAX {
        if desk.load(rt, cell)?.is_some() {
            break;
        }
    }
    Ok(())
}

impl<R: Threads + Wait> Program<u64, R> for Relay {
    fn work<D: Domain<Value = u64>>(
        &self,
        rt: &R,
        number: usize,
        desk: &Desk<D>,
    ) -> Result<(), Fault> {
        if number == 0 {
            made(desk, self.alloc)?;
            desk.new(0)?.store(BEGUN)?;
            return wait_for(rt, desk, DONE);
        }
        wait_for(rt, desk, BEGUN)?;
        let end = made(desk, self.alloc);
        desk.store(DONE, desk.load(rt, BEGUN)?)?;
        end
    }
}

#[test]
fn blocks_are_the_domains(rt: HostRuntime) {
    let team = Team {
        workers: 2,
        pointers: 16,
    };
    let alloc = rt.alloc();
    match run(&rt, alloc, team.shape(BLOCKS, 2, 0), team, &Relay { alloc }) {
        Ok(ran) => {
            assert_eq!(&rt; ran.fault(), None);
            assert_eq!(&rt; ran.census.vacant(), 9);
        }
        Err(why) => panic!(&rt; "not run: {why}"),
    }
}
