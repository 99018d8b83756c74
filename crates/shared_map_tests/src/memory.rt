//! Memory that is refused. `tests/refuse_allocations` runs this with each allocation refused in turn.

use crate::plays::{MAP, row};
use pointers::{Desk, Domain, Fault, NotRun, Program, Team, run};
use shared_map::SharedMap;
use std::alloc::Global;
use std::sync::Wait;
use std::test::Fail;
use std::thread::Threads;

/// A map that is opened again where memory was refused for it.
#[derive(Drop)]
struct Again {
    alloc: Global,
}

impl<R: Threads + Wait> Program<u64, R> for Again {
    fn work<D: Domain<Value = u64>>(
        &self,
        rt: &R,
        _number: usize,
        desk: &Desk<D>,
    ) -> Result<(), Fault> {
        let mut map = match SharedMap::open(rt, desk, self.alloc, MAP, 3) {
            Err(Fault::Memory) => SharedMap::open(rt, desk, self.alloc, MAP, 3)?,
            opened => opened?,
        };
        row(1, map.insert(rt, 5, desk.new(6)?)?.is_none())?;
        row(2, map.remove(rt, 5)?.is_some())
    }
}

/// A run of it, in which all blocks but the map's own are vacant at the end.
fn opened<R: Threads + Wait + Sync>(rt: &R, alloc: Global) -> Result<(), Fault> {
    let team = Team {
        workers: 1,
        pointers: 8,
    };
    match run(rt, alloc, team.shape(6, 2, 0), team, &Again { alloc }) {
        Ok(ran) => match ran.fault() {
            None => row(3, ran.census.vacant() == 2),
            Some(why) => Err(why),
        },
        Err(NotRun::Memory) => Err(Fault::Memory),
        Err(_) => Err(Fault::Other(30)),
    }
}

/// The run is made again where memory was refused for it.
#[test]
fn a_refused_opening_is_made_again(rt: HostRuntime) -> Result<(), Fail> {
    match opened(&rt, rt.alloc()) {
        Err(Fault::Memory) => opened(&rt, rt.alloc())?,
        done => done?,
    }
    Ok(())
}
