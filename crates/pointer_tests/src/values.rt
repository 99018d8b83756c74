//! The values of what places hold: read again and again, and replaced by what is made of them.

use pointer_calls::row;
use pointers::{CachedValue, Call, Desk, Domain, Fault, Program, SharedCell, Spot};
use std::alloc::Global;
use std::sync::atomic::{AtomicU32, Ordering};
use std::sync::{Arc, Wait};
use std::thread::Threads;

const CELL: SharedCell = SharedCell(0);

const NO_CELL: SharedCell = SharedCell(2);

/// A number of the closure's own.
const OWN: Fault = Fault::Other(7);

/// What a cached read finds, or nothing.
fn value<D: Domain<Value = u64>, R: Wait>(
    rt: &R,
    cached: &mut CachedValue<'_, '_, D>,
) -> Result<Option<u64>, Fault> {
    match cached.get(rt)? {
        Some(value) => Ok(Some(*value)),
        None => Ok(None),
    }
}

/// A cell whose value is read again and again: what was found last lives on until the next read.
struct Reads;

impl<R: Threads + Wait + Sync> Program<u64, R> for Reads {
    fn work<D: Domain<Value = u64>>(
        &self,
        rt: &R,
        _number: usize,
        desk: &Desk<D>,
    ) -> Result<(), Fault> {
        let mut cached = desk.cached_value(CELL);
        row(1, value(rt, &mut cached)? == None)?;
        let first = desk.new(1)?;
        let watch = first.downgrade()?;
        first.store(CELL)?;
        row(2, value(rt, &mut cached)? == Some(1))?;
        row(3, watch.use_count()? == 2)?;
        row(4, value(rt, &mut cached)? == Some(1))?;
        desk.new(2)?.store(CELL)?;
        row(5, !watch.expired()?)?;
        row(6, value(rt, &mut cached)? == Some(2))?;
        row(7, watch.expired()?)?;
        desk.make_null(3)?.store(CELL)?;
        row(8, value(rt, &mut cached)? == Some(3))?;
        desk.clear(CELL)?;
        row(9, value(rt, &mut cached)? == None)?;
        row(10, cached.found().is_none())?;
        let none = Fault::Cell(Call::Load(Spot::Shared(2)));
        row(11, value(rt, &mut desk.cached_value(NO_CELL)) == Err(none))?;
        members(rt, desk)
    }
}

/// A member that is read so.
fn members<D: Domain<Value = u64>, R: Wait>(rt: &R, desk: &Desk<D>) -> Result<(), Fault> {
    let whole = desk.new(4)?;
    let mut cached = whole.first().cached_value();
    whole.first().store(Some(desk.new(5)?))?;
    cached.look(rt)?;
    row(12, cached.value() == Some(&5))?;
    match cached.found() {
        Some(part) => row(13, part.use_count()? == 2),
        None => row(13, false),
    }
}

/// One published value, which readers share.
#[derive(Drop)]
struct Published {
    alloc: Global,
}

impl<R: Threads + Wait + Sync> Program<Arc<u64, Global>, R> for Published {
    fn work<D: Domain<Value = Arc<u64, Global>>>(
        &self,
        rt: &R,
        _number: usize,
        desk: &Desk<D>,
    ) -> Result<(), Fault> {
        desk.new(Arc::new(self.alloc, 8)?)?.store(CELL)?;
        let mut cached = desk.cached_value(CELL);
        match cached.get(rt)? {
            Some(value) => {
                row(1, **value == 8)?;
                row(2, Arc::strong_count(value) == 2)
            }
            None => row(1, false),
        }
    }
}

/// A cell whose value is replaced, by one worker.
struct Updates;

impl<R: Threads + Wait + Sync> Program<u64, R> for Updates {
    fn work<D: Domain<Value = u64>>(
        &self,
        rt: &R,
        _number: usize,
        desk: &Desk<D>,
    ) -> Result<(), Fault> {
        let mut cached = desk.cached_value(CELL);
        desk.update(rt, CELL, |old| Ok(Some(old.unwrap_or(40))))?;
        row(1, value(rt, &mut cached)? == Some(40))?;
        desk.update(rt, CELL, |old| Ok(old.map(|old| old.wrapping_add(2))))?;
        row(2, value(rt, &mut cached)? == Some(42))?;
        row(3, desk.update(rt, CELL, |_| Err(OWN)) == Err(OWN))?;
        row(4, value(rt, &mut cached)? == Some(42))?;
        let mut tries = 0u32;
        desk.update(rt, CELL, |old| {
            tries = tries.wrapping_add(1);
            if tries == 1 {
                desk.new(50)?.store(CELL)?; // as another thread would meanwhile
            }
            Ok(old.map(|old| old.wrapping_add(3)))
        })?;
        row(5, tries == 2)?;
        row(6, value(rt, &mut cached)? == Some(53))?;
        desk.update(rt, CELL, |_| Ok(None))?;
        row(7, value(rt, &mut cached)? == None)?;
        let none = Fault::Cell(Call::Load(Spot::Shared(2)));
        row(8, desk.update(rt, NO_CELL, |old| Ok(old)) == Err(none))?;
        let whole = desk.new(1)?;
        whole.next().update(rt, |_| Ok(Some(6)))?;
        row(9, value(rt, &mut whole.next().cached_value())? == Some(6))
    }
}

const WORKERS: usize = 3;

const TURNS: u32 = 50;

/// Workers that count in one cell.
#[derive(Drop)]
struct Counts {
    done: AtomicU32,
}

impl<R: Threads + Wait + Sync> Program<u64, R> for Counts {
    fn work<D: Domain<Value = u64>>(
        &self,
        rt: &R,
        _number: usize,
        desk: &Desk<D>,
    ) -> Result<(), Fault> {
        for _ in 0..TURNS {
            desk.update(rt, CELL, |old| Ok(Some(old.unwrap_or(0).wrapping_add(1))))?;
        }
        if self.done.fetch_add(1, Ordering::SeqCst) as usize == WORKERS - 1 {
            row(1, value(rt, &mut desk.cached_value(CELL))? == Some(150))?;
            desk.clear(CELL)?;
        }
        Ok(())
    }
}

#[cfg(test)]
mod tests {
    use super::*;
    use crate::players::same;
    use pointer_calls::{BLOCKS, worked};
    use pointers::{Team, run};
    use std::process::Abort;

    /// The program's rows are as they should be, and all blocks are vacant then.
    fn plays<R, P>(rt: &R, alloc: Global, workers: usize, program: &P)
    where
        R: Abort + Threads + Wait + Sync,
        P: Program<u64, R> + Sync,
    {
        let team = Team {
            workers,
            pointers: 8,
        };
        let told = worked(rt, alloc, team, (BLOCKS, 2), program);
        same(rt, told, Ok((None, workers, BLOCKS)));
    }

    #[test]
    fn a_cached_read_finds_the_value_of_what_the_cell_holds(rt: HostRuntime) {
        plays(&rt, rt.alloc(), 1, &Reads);
    }

    #[test]
    fn an_update_puts_in_what_is_made_of_what_it_found(rt: HostRuntime) {
        plays(&rt, rt.alloc(), 1, &Updates);
    }

    #[test]
    fn no_update_of_several_threads_is_lost(rt: HostRuntime) {
        let counts = Counts {
            done: AtomicU32::new(0),
        };
        plays(&rt, rt.alloc(), WORKERS, &counts);
    }

    #[test]
    fn a_published_value_is_shared_with_its_object(rt: HostRuntime) {
        let team = Team {
            workers: 1,
            pointers: 4,
        };
        let published = Published { alloc: rt.alloc() };
        match run(&rt, rt.alloc(), team.shape(8, 1, 0), team, &published) {
            Ok(ran) => assert_eq!(rt; (ran.fault(), ran.census.vacant()), (None, 7)),
            Err(why) => panic!(rt; "{why}"),
        }
    }
}
