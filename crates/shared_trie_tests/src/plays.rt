//! A play: what one worker does at its desk, which ends with the number of the first row that is not as it should be.

use pointers::{Desk, Domain, Fault, Program, Ran, Refused, Shared, SharedCell, Team, run};
use shared_trie::Keep;
use std::alloc::Global;
use std::process::Abort;
use std::sync::Wait;
use std::thread::Threads;

/// The cell with the trie.
pub(crate) const TRIE: SharedCell = SharedCell(0);

/// Keeps nothing.
#[derive(Drop)]
pub(crate) struct Nothing;

impl<D: Domain> Keep<D> for Nothing {
    fn keeps(&mut self, _key: u64, _owner: &Shared<'_, D>) -> Result<bool, Fault> {
        Ok(false)
    }
}

/// The row is as it should be, or the play ends with its number.
pub(crate) fn row(number: u32, is: bool) -> Result<(), Fault> {
    if is {
        Ok(())
    } else {
        Err(Fault::Other(number))
    }
}

/// The fault of a refused call, and what the pointer reads that came back.
pub(crate) fn refused<A: Drop, D: Domain>(
    came: Result<A, Refused<Shared<'_, D>>>,
) -> Result<(Fault, u64), Fault> {
    match came {
        Ok(_) => Err(Fault::Other(99)),
        Err(refused) => Ok((refused.why, refused.back.read()?)),
    }
}

/// The key that this number is spread from: such keys of numbers nearby have one way but for its end.
pub(crate) fn spread_to(number: u64) -> u64 {
    number.wrapping_mul(0xF1DE_83E1_9937_733D)
}

/// A new object of that key.
pub(crate) fn keyed<'t, D: Domain<Value = u64>>(
    desk: &'t Desk<'t, D>,
    key: u64,
    value: u64,
) -> Result<Shared<'t, D>, Fault> {
    Ok(desk.make([key, 0, 0, 0], value)?)
}

/// The object's value, if there is one.
pub(crate) fn value<D: Domain<Value = u64>, R: Wait>(
    rt: &R,
    entry: Option<Shared<'_, D>>,
) -> Result<Option<u64>, Fault> {
    match entry {
        Some(entry) => Ok(Some(entry.visit(rt, |value| *value)?)),
        None => Ok(None),
    }
}

/// What is told of a run: its fault, and how many blocks are vacant.
fn of_run<V: Drop>(ran: &Ran<V>) -> (Option<Fault>, u32) {
    (ran.fault(), ran.census.vacant())
}

/// How many workers play, with how many pointers each, over how many blocks, of objects with so many owners.
#[derive(Clone, Copy, Drop)]
pub(crate) struct Size {
    pub workers: usize,
    pub pointers: u32,
    pub blocks: u32,
    pub owners: u32,
}

/// The play's rows are as they should be, and all blocks are vacant then.
pub(crate) fn plays<R, P>(rt: &R, alloc: Global, size: Size, play: &P)
where
    R: Abort + Threads + Wait + Sync,
    P: Program<u64, R> + Sync,
{
    let team = Team {
        workers: size.workers,
        pointers: size.pointers,
    };
    let shape = team.shape(size.blocks, 2, 0).with_members(size.owners, 1);
    match run(rt, alloc, shape, team, play) {
        Ok(ran) => assert_eq!(rt; of_run(&ran), (None, size.blocks)),
        Err(why) => panic!(rt; "not run: {why}"),
    }
}
