//! A play: what workers do at their desks, which ends with the number of the first row that is not as it should be.

use pointers::{Desk, Domain, Fault, Program, Ran, Refused, Shared, SharedCell, Team, run};
use shared_vec::SharedVec;
use std::alloc::Global;
use std::process::Abort;
use std::sync::Wait;
use std::thread::Threads;

/// The cell with the vector.
pub(crate) const VECTOR: SharedCell = SharedCell(0);

/// The row is as it should be, or the play ends with its number.
pub(crate) fn row(number: u32, is: bool) -> Result<(), Fault> {
    if is {
        Ok(())
    } else {
        Err(Fault::Other(number))
    }
}

/// What the element reads, if there is one.
pub(crate) fn read<D: Domain>(element: Option<Shared<'_, D>>) -> Result<Option<u64>, Fault> {
    match element {
        Some(element) => Ok(Some(element.read()?)),
        None => Ok(None),
    }
}

/// An object whose field is that number.
pub(crate) fn numbered<'t, D: Domain<Value = u64>>(
    desk: &'t Desk<'t, D>,
    number: u64,
) -> Result<Shared<'t, D>, Fault> {
    Ok(desk.make([number, 0, 0, 0], 0)?)
}

/// Elements whose fields are their indexes come, from the one up to the other.
pub(crate) fn fill<'t, D: Domain<Value = u64>, R: Wait>(
    rt: &R,
    desk: &'t Desk<'t, D>,
    vector: &mut SharedVec<'_, 't, D>,
    from: u64,
    until: u64,
) -> Result<(), Fault> {
    for number in from..until {
        vector.push(rt, numbered(desk, number)?)?;
    }
    Ok(())
}

/// Whether the elements read just these.
pub(crate) fn reads<D: Domain<Value = u64>, R: Wait>(
    rt: &R,
    vector: &mut SharedVec<'_, '_, D>,
    fields: &[u64],
) -> Result<bool, Fault> {
    let mut same = vector.len(rt)? == fields.len();
    let mut index = 0usize;
    for field in fields {
        same = same && read(vector.get(rt, index)?)? == Some(*field);
        index = index.saturating_add(1);
    }
    Ok(same)
}

/// A new object with that number is inserted, or comes back: then what it reads.
pub(crate) fn insert<'t, D: Domain<Value = u64>, R: Wait>(
    rt: &R,
    desk: &'t Desk<'t, D>,
    vector: &mut SharedVec<'_, 't, D>,
    index: usize,
    number: u64,
) -> Result<Option<u64>, Fault> {
    let new = numbered(desk, number)?;
    let back = vector.insert(rt, index, new)?;
    read(back)
}

/// What the element reads that is removed, if there is one.
pub(crate) fn remove<D: Domain, R: Wait>(
    rt: &R,
    vector: &mut SharedVec<'_, '_, D>,
    index: usize,
) -> Result<Option<u64>, Fault> {
    let removed = vector.remove(rt, index)?;
    read(removed)
}

/// The fault of a refused call, and what the pointer reads that came back.
pub(crate) fn refused<A: Drop, D: Domain>(
    came: Result<A, Refused<Shared<'_, D>>>,
) -> Result<(Fault, u64), Fault> {
    match came {
        Ok(_) => Err(Fault::Other(99)),
        Err(refused) => Ok((refused.why, refused.back.read()?)),
    }
}

/// What is told of a run: its fault, and how many blocks are vacant.
fn of_run<V: Drop>(ran: &Ran<V>) -> (Option<Fault>, u32) {
    (ran.fault(), ran.census.vacant())
}

/// How many workers play, with how many pointers each, over how many blocks, of objects with so many owners.
#[derive(Clone, Copy, Drop)]
pub(crate) struct Size {
    pub workers: usize,
    pub pointers: u32,
    pub blocks: u32,
    pub owners: u32,
}

impl Size {
    /// One worker with eight pointers, over so many blocks of objects with eight owners.
    pub(crate) fn alone(blocks: u32) -> Size {
        Size {
            workers: 1,
            pointers: 8,
            blocks,
            owners: 8,
        }
    }
}

/// The play's rows are as they should be, and all blocks are vacant then.
pub(crate) fn plays<R, P>(rt: &R, alloc: Global, size: Size, play: &P)
where
    R: Abort + Threads + Wait + Sync,
    P: Program<u64, R> + Sync,
{
    let team = Team {
        workers: size.workers,
        pointers: size.pointers,
    };
    let shape = team.shape(size.blocks, 2, 0).with_members(size.owners, 1);
    match run(rt, alloc, shape, team, play) {
        Ok(ran) => assert_eq!(rt; of_run(&ran), (None, size.blocks)),
        Err(why) => panic!(rt; "not run: {why}"),
    }
}

/// What one worker does with the vector.
pub(crate) trait Play {
    fn play<'t, D: Domain<Value = u64>, R: Wait>(
        &self,
        rt: &R,
        desk: &'t Desk<'t, D>,
        vector: &mut SharedVec<'t, 't, D>,
    ) -> Result<(), Fault>;
}

/// A worker who has the vector, and empties its cell at the end.
#[derive(Drop)]
struct Alone<P> {
    play: P,
}

impl<P: Play + Sync, R: Threads + Wait> Program<u64, R> for Alone<P> {
    fn work<D: Domain<Value = u64>>(
        &self,
        rt: &R,
        _number: usize,
        desk: &Desk<D>,
    ) -> Result<(), Fault> {
        let mut vector = SharedVec::at(desk, desk.cell(VECTOR));
        self.play.play(rt, desk, &mut vector)?;
        desk.clear(VECTOR)
    }
}

/// The same of a play of one worker.
pub(crate) fn plays_alone<R, P>(rt: &R, alloc: Global, size: Size, play: P)
where
    R: Abort + Threads + Wait + Sync,
    P: Play + Sync + Drop,
{
    plays(rt, alloc, size, &Alone { play });
}
