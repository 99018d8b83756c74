//! Runs of several workers, over objects whose values are numbers.

use pointers::{Fault, NotRun, Program, Ran, Shape, Team, run};
use std::alloc::Global;
use std::sync::Wait;
use std::thread::Threads;

/// What a run tells: the fault of the first worker that has one, how many workers worked, and how many blocks are
/// vacant then.
pub type Worked = Result<(Option<Fault>, usize, u32), NotRun>;

fn told(ran: Result<Ran<u64>, NotRun>) -> Worked {
    match ran {
        Ok(ran) => Ok((ran.fault(), ran.workers, ran.census.vacant())),
        Err(why) => Err(why),
    }
}

/// The program's workers work in a domain of that shape.
pub fn worked_in<R: Threads + Wait + Sync, P: Program<u64, R> + Sync>(
    rt: &R,
    alloc: Global,
    team: Team,
    shape: Shape,
    program: &P,
) -> Worked {
    told(run(rt, alloc, shape, team, program))
}

/// The program's workers work in a domain of so many blocks, and free cells of each kind.
pub fn worked<R: Threads + Wait + Sync, P: Program<u64, R> + Sync>(
    rt: &R,
    alloc: Global,
    team: Team,
    (blocks, cells): (u32, u32),
    program: &P,
) -> Worked {
    worked_in(rt, alloc, team, team.shape(blocks, cells, cells), program)
}

/// The row is as it should be, or the fault has its number.
pub fn row(number: u32, is: bool) -> Result<(), Fault> {
    if is {
        Ok(())
    } else {
        Err(Fault::Other(number))
    }
}
