//! A play: what one worker does at its desk, which ends with the number of the first row that is not as it should be.

use pointer_calls::worked;
use pointers::{Program, Team};
use std::alloc::Global;
use std::process::Abort;
use std::sync::Wait;
use std::thread::Threads;

/// How many blocks there are, and free cells of each kind.
const BLOCKS: u32 = 16;

const CELLS: u32 = 2;

/// The play's rows are as they should be, by one worker with 16 pointers, and all blocks are vacant then.
pub(crate) fn plays<R, P>(rt: &R, alloc: Global, play: &P)
where
    R: Abort + Threads + Wait + Sync,
    P: Program<u64, R> + Sync,
{
    let team = Team {
        workers: 1,
        pointers: 16,
    };
    let told = worked(rt, alloc, team, (BLOCKS, CELLS), play);
    assert_eq!(rt; told, Ok((None, 1, BLOCKS)));
}
