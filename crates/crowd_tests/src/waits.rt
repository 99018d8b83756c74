//! Workers that wait for what others put into cells.

use pointer_calls::row;
use pointers::{Desk, Domain, Fault, Program, Shared, SharedCell, WeakCell};
use std::sync::Wait;
use std::thread::Threads;
use std::time::{Clock, Duration, Instant};

/// Where the first worker puts what the second one waits for.
const NEWS: SharedCell = SharedCell(0);
/// Where the second one says that it saw that.
const SEEN: WeakCell = WeakCell(0);

/// The value of what the cell of news holds, if it holds something.
fn news<R: Wait, D: Domain<Value = u64>>(rt: &R, desk: &Desk<D>) -> Result<Option<u64>, Fault> {
    match desk.load(rt, NEWS)? {
        Some(found) => Ok(Some(found.snapshot(rt)?)),
        None => Ok(None),
    }
}

/// The first worker stores two values one after another, the second one waits for each: for the first at an empty
/// cell. What the second one says by a weak cell the first one waits for.
struct Two;

impl Two {
    fn tells<R: Wait, D: Domain<Value = u64>>(&self, rt: &R, desk: &Desk<D>) -> Result<(), Fault> {
        desk.new(1)?.store(NEWS)?;
        desk.wait_while_weak(rt, SEEN, None)?;
        desk.new(2)?.store(NEWS)
    }

    fn hears<'t, R: Wait, D: Domain<Value = u64>>(
        &self,
        rt: &R,
        desk: &'t Desk<'t, D>,
    ) -> Result<(), Fault> {
        desk.wait_while(rt, NEWS, None)?;
        let first: Option<Shared<'t, D>> = desk.load(rt, NEWS)?;
        row(1, news(rt, desk)? == Some(1))?;
        if let Some(first) = first {
            first.downgrade()?.store(SEEN)?;
            desk.wait_while(rt, NEWS, Some(&first))?;
        }
        row(2, news(rt, desk)? == Some(2))?;
        desk.clear(NEWS)?;
        desk.clear_weak(SEEN)
    }
}

impl<R: Threads + Wait + Sync> Program<u64, R> for Two {
    fn work<D: Domain<Value = u64>>(
        &self,
        rt: &R,
        number: usize,
        desk: &Desk<D>,
    ) -> Result<(), Fault> {
        if number == 0 {
            self.tells(rt, desk)
        } else {
            self.hears(rt, desk)
        }
    }
}

/// A wait for what never comes ends when its time is over, and one for what is there at once.
struct Timed;

impl<R: Threads + Wait + Clock + Sync> Program<u64, R> for Timed {
    fn work<D: Domain<Value = u64>>(
        &self,
        rt: &R,
        _number: usize,
        desk: &Desk<D>,
    ) -> Result<(), Fault> {
        let most = Duration::from_millis(20);
        let start = Instant::now(rt)?;
        let place = desk.cell(NEWS);
        row(1, !place.wait_timeout_while(rt, None, most)?)?;
        row(2, start.elapsed(rt)? >= most)?;
        let whole = desk.new(1)?;
        whole.share()?.store(NEWS)?;
        row(3, place.wait_timeout_while(rt, None, most)?)?;
        row(4, !place.wait_timeout_while(rt, Some(&whole), most)?)?;
        row(5, !whole.up().wait_timeout_while(rt, None, most)?)?;
        desk.clear(NEWS)
    }
}

#[cfg(test)]
mod tests {
    use super::*;
    use crate::same::same;
    use pointer_calls::{BLOCKS, worked};
    use pointers::Team;
    use std::alloc::Global;
    use std::process::Abort;

    /// The program's rows are as they should be, by so many workers, and all blocks are vacant then.
    fn plays<R, P>(rt: &R, alloc: Global, workers: usize, program: &P)
    where
        R: Abort + Threads + Wait + Sync,
        P: Program<u64, R> + Sync,
    {
        let team = Team {
            workers,
            pointers: 8,
        };
        let told = worked(rt, alloc, team, (BLOCKS, 2), program);
        same(rt, told, Ok((None, workers, BLOCKS)));
    }

    #[test]
    fn a_worker_hears_what_another_tells(rt: HostRuntime) {
        plays(&rt, rt.alloc(), 2, &Two);
    }

    #[test]
    fn a_wait_ends_with_its_time(rt: HostRuntime) {
        plays(&rt, rt.alloc(), 1, &Timed);
    }
}
