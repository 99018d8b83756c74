//! A play: what one worker does at its desk, which ends with the number of the first row that is not as it should be.

use pointers::{Domain, Fault, Program, Ran, Shared, SharedCell, Team, run};
use shared_map::Keep;
use std::alloc::Global;
use std::process::Abort;
use std::sync::Wait;
use std::thread::Threads;

/// The cell with the map.
pub(crate) const MAP: SharedCell = SharedCell(0);

/// The row is as it should be, or the play ends with its number.
pub(crate) fn row(number: u32, is: bool) -> Result<(), Fault> {
    if is {
        Ok(())
    } else {
        Err(Fault::Other(number))
    }
}

/// Keeps no owner.
#[derive(Drop)]
pub(crate) struct NoOwner;

impl<D: Domain> Keep<D> for NoOwner {
    fn keeps(&mut self, _key: u64, _owner: &Shared<'_, D>) -> Result<bool, Fault> {
        Ok(false)
    }
}

/// What is told of a run: its fault, and how many blocks are vacant.
fn of_run<V: Drop>(ran: &Ran<V>) -> (Option<Fault>, u32) {
    (ran.fault(), ran.census.vacant())
}

/// How many workers play, with how many pointers each, over how many blocks, and how many blocks their map keeps.
#[derive(Clone, Copy, Drop)]
pub(crate) struct Size {
    pub workers: usize,
    pub pointers: u32,
    pub blocks: u32,
    pub kept: u32,
}

/// The play's rows are as they should be, and all blocks but those that the map keeps are vacant then.
pub(crate) fn plays<R, P>(rt: &R, alloc: Global, size: Size, play: &P)
where
    R: Abort + Threads + Wait + Sync,
    P: Program<u64, R> + Sync,
{
    let team = Team {
        workers: size.workers,
        pointers: size.pointers,
    };
    match run(rt, alloc, team.shape(size.blocks, 2, 0), team, play) {
        Ok(ran) => {
            let left = size.blocks.saturating_sub(size.kept);
            assert_eq!(rt; of_run(&ran), (None, left))
        }
        Err(why) => panic!(rt; "not run: {why}"),
    }
}
