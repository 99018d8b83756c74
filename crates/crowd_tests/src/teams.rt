//! Several workers at once.

use crate::same::same;
use pointer_calls::worked;
use pointers::{Desk, Domain, Fault, FreeCells, Program, Shared, SharedCell, Team, WeakCell};
use std::alloc::{AllocError, Global};
use std::sync::atomic::{AtomicU64, Ordering};
use std::sync::{Mutex, Wait};
use std::thread::Threads;

/// Workers that load, store and exchange in three cells.
struct Crowd;

/// One turn of a worker.
fn turn<R: Wait, D: Domain<Value = u64>>(rt: &R, desk: &Desk<D>, turn: u32) -> Result<(), Fault> {
    let cell = SharedCell(turn % 3);
    let other = SharedCell((turn / 3) % 3);
    if let Some(now) = desk.load(rt, cell)? {
        moved(rt, now, other)?;
    }
    desk.make([u64::from(turn), 0, 0, 0], 0)?.store(cell)
}

/// The owner goes into another cell, and is locked there.
fn moved<R: Wait, D: Domain<Value = u64>>(
    rt: &R,
    now: Shared<'_, D>,
    to: SharedCell,
) -> Result<(), Fault> {
    let weak = now.downgrade()?;
    drop(now.exchange(to)?);
    drop(weak.lock(rt)?);
    Ok(())
}

/// The cells are empty, as far as this worker knows.
fn leave<D: Domain<Value = u64>>(desk: &Desk<D>) -> Result<(), Fault> {
    for number in 0..3 {
        desk.clear(SharedCell(number))?;
    }
    Ok(())
}

impl<R: Threads + Wait + Sync> Program<u64, R> for Crowd {
    fn work<D: Domain<Value = u64>>(
        &self,
        rt: &R,
        number: usize,
        desk: &Desk<D>,
    ) -> Result<(), Fault> {
        let first = u32::try_from(number).unwrap_or(0);
        for at in 0..2_000u32 {
            turn(rt, desk, at.wrapping_mul(7).wrapping_add(first))?;
        }
        leave(desk)
    }
}

/// An object that owns another.
fn two<'t, D: Domain<Value = u64>>(desk: &'t Desk<'t, D>) -> Result<Shared<'t, D>, Fault> {
    let of = desk.new(3)?;
    of.next().store(Some(desk.new(2)?))?;
    Ok(of)
}

/// So many workers, one of which makes all objects but those that other desks' reserves may have.
struct Pool;

impl<R: Threads + Wait + Sync> Program<u64, R> for Pool {
    fn work<D: Domain<Value = u64>>(
        &self,
        _rt: &R,
        _number: usize,
        desk: &Desk<D>,
    ) -> Result<(), Fault> {
        for _ in 0..500u32 {
            let one = desk.new(1)?;
            drop(two(desk)?);
            drop(one);
        }
        Ok(())
    }
}

/// The value of a new object.
fn value_of<R: Wait, D: Domain<Value = u64>>(
    rt: &R,
    desk: &Desk<D>,
    value: u64,
) -> Result<u64, Fault> {
    desk.new(value)?.visit(rt, |value| *value)
}

/// Workers that visit one object. Its value counts in two steps, so that visits at the same time would be lost.
#[derive(Drop)]
struct Visitors {
    most: AtomicU64,
}

/// How often each of them visits it.
const VISITS: u32 = 1_000;

impl<R: Threads + Wait + Sync> Program<u64, R> for Visitors {
    fn work<D: Domain<Value = u64>>(
        &self,
        rt: &R,
        _number: usize,
        desk: &Desk<D>,
    ) -> Result<(), Fault> {
        let cell = SharedCell(0);
        let (mut none, mut new) = (None, Some(desk.new(0)?));
        if !desk
            .cell(cell)
            .compare_exchange_strong(rt, &mut none, &mut new)?
        {
            drop(new);
        }
        let Some(common) = desk.load(rt, cell)? else {
            return Err(Fault::Other(1));
        };
        let mut seen = 0;
        for _ in 0..VISITS {
            seen = common.visit(rt, |value| {
                let before = *value;
                *value = before.wrapping_add(1);
                *value
            })?;
        }
        self.most.fetch_max(seen, Ordering::SeqCst);
        Ok(())
    }
}

/// Workers with a state of their own each, behind a lock that no other worker takes.
#[derive(Drop)]
struct Counters {
    of: Vec<Mutex<u64>>,
}

impl<R: Threads + Wait + Sync> Program<u64, R> for Counters {
    fn work<D: Domain<Value = u64>>(
        &self,
        rt: &R,
        number: usize,
        desk: &Desk<D>,
    ) -> Result<(), Fault> {
        let Some(own) = self.of.get(number) else {
            return Err(Fault::Other(1));
        };
        let mut own = own.lock(rt);
        for _ in 0..10u32 {
            *own = own.wrapping_add(value_of(rt, desk, number as u64)?);
        }
        Ok(())
    }
}

/// A state for each of three workers.
fn states(alloc: Global) -> Result<Vec<Mutex<u64>>, AllocError> {
    let mut of = Vec::with_capacity(alloc, 3)?;
    for _ in 0..3u32 {
        of.push(Mutex::new(0))?;
    }
    Ok(of)
}

/// The sums of the workers' states.
fn sums<R: Wait>(rt: &R, counters: &Counters) -> u64 {
    let mut sums = 0u64;
    for own in &counters.of {
        sums = sums.wrapping_mul(1_000).wrapping_add(*own.lock(rt));
    }
    sums
}

/// What a pool gives, as often as it is asked: the number of a cell, or none.
fn takes<R: Wait>(rt: &R, pool: &FreeCells<SharedCell>, wanted: &[Option<u32>]) -> bool {
    for number in wanted {
        if pool.take(rt) != number.map(SharedCell) {
            return false;
        }
    }
    true
}

/// Whether cells come back to their pool, each once.
fn pools<R: Wait>(rt: &R, alloc: Global) -> Result<bool, AllocError> {
    let pool = FreeCells::shared(alloc, 3, 2)?;
    let first = takes(rt, &pool, &[Some(3), Some(4), None]);
    pool.give_back(rt, SharedCell(4));
    pool.give_back(rt, SharedCell(4));
    Ok(first && takes(rt, &pool, &[Some(4), None]))
}

/// What a pool of cells for weak pointers gives first.
fn first_weak<R: Wait>(rt: &R, alloc: Global) -> Result<Option<WeakCell>, AllocError> {
    Ok(FreeCells::weak(alloc, 0, 1)?.take(rt))
}

#[cfg(test)]
mod tests {
    use super::*;

    #[test]
    fn four_workers_leave_nothing(rt: HostRuntime) {
        let team = Team {
            workers: 4,
            pointers: 8,
        };
        let told = worked(&rt, rt.alloc(), team, (64, 3), &Crowd);
        same(&rt, told, Ok((None, 4, 64)));
    }

    #[test]
    fn no_visit_of_four_workers_is_lost(rt: HostRuntime) {
        let team = Team {
            workers: 4,
            pointers: 4,
        };
        let visitors = Visitors {
            most: AtomicU64::new(0),
        };
        let told = worked(&rt, rt.alloc(), team, (16, 1), &visitors);
        same(&rt, told, Ok((None, 4, 15)));
        same(&rt, visitors.most.load(Ordering::SeqCst), 4_000);
    }

    #[test]
    fn blocks_are_the_domains(rt: HostRuntime) {
        let team = Team {
            workers: 3,
            pointers: 4,
        };
        let told = worked(&rt, rt.alloc(), team, (13, 0), &Pool);
        same(&rt, told, Ok((None, 3, 13)));
    }

    #[test]
    fn each_worker_has_a_state_of_its_own(rt: HostRuntime) {
        let team = Team {
            workers: 3,
            pointers: 2,
        };
        let Ok(of) = states(rt.alloc()) else {
            panic!(rt; "no memory");
        };
        let counters = Counters { of };
        let told = worked(&rt, rt.alloc(), team, (9, 0), &counters);
        same(&rt, told, Ok((None, 3, 9)));
        same(&rt, sums(&rt, &counters), 10_020);
    }

    #[test]
    fn cells_come_back_to_their_pool(rt: HostRuntime) {
        same(&rt, pools(&rt, rt.alloc()), Ok(true));
        same(&rt, first_weak(&rt, rt.alloc()), Ok(Some(WeakCell(0))));
    }
}
