//! Memory that is refused. `tests/refuse_allocations` runs this with each allocation refused in turn.

use crate::plays::{VECTOR, numbered, reads, row};
use pointers::{Desk, Domain, Fault, NotRun, Program, Shared, Team, run};
use shared_vec::SharedVec;
use std::alloc::Global;
use std::sync::Wait;
use std::test::Fail;
use std::thread::Threads;

/// A sort, which is made again where memory was refused for it: all elements stood as they did.
#[derive(Drop)]
struct Sorted {
    alloc: Global,
}

impl Sorted {
    fn sort<D: Domain<Value = u64>, R: Wait>(
        &self,
        rt: &R,
        vector: &mut SharedVec<'_, '_, D>,
    ) -> Result<(), Fault> {
        let by = |element: &Shared<D>| Ok(element.read()?);
        match vector.sort_by_key(rt, self.alloc, by) {
            Ok(()) => Ok(()),
            Err(came) => {
                row(1, came.back.is_none())?;
                row(2, reads(rt, vector, &[30, 20, 10])?)?;
                Err(came.why)
            }
        }
    }
}

impl<R: Threads + Wait> Program<u64, R> for Sorted {
    fn work<D: Domain<Value = u64>>(
        &self,
        rt: &R,
        _number: usize,
        desk: &Desk<D>,
    ) -> Result<(), Fault> {
        let mut vector = SharedVec::at(desk, desk.cell(VECTOR));
        for number in [30u64, 20, 10] {
            vector.push(rt, numbered(desk, number)?)?;
        }
        match self.sort(rt, &mut vector) {
            Err(Fault::Memory) => self.sort(rt, &mut vector)?,
            sorted => sorted?,
        }
        row(3, reads(rt, &mut vector, &[10, 20, 30])?)?;
        desk.clear(VECTOR)
    }
}

/// A run of it, in which all blocks are vacant at the end.
fn sorts_once<R: Threads + Wait + Sync>(rt: &R, alloc: Global) -> Result<(), Fault> {
    let team = Team {
        workers: 1,
        pointers: 8,
    };
    let shape = team.shape(6, 2, 0).with_members(8, 1);
    match run(rt, alloc, shape, team, &Sorted { alloc }) {
        Ok(ran) => match ran.fault() {
            None => row(4, ran.census.vacant() == 6),
            Some(why) => Err(why),
        },
        Err(NotRun::Memory) => Err(Fault::Memory),
        Err(_) => Err(Fault::Other(30)),
    }
}

/// The run is made again where memory was refused for it.
#[test]
fn a_refused_sort_is_made_again(rt: HostRuntime) -> Result<(), Fail> {
    match sorts_once(&rt, rt.alloc()) {
        Err(Fault::Memory) => sorts_once(&rt, rt.alloc())?,
        done => done?,
    }
    Ok(())
}
