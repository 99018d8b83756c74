//! Memory that is refused. `tests/refuse_allocations` runs these with each allocation refused in turn: a run that was
//! refused is made again, and none leaves a block or a value behind.

use pointer_calls::row;
use pointers::{
    Desk, Domain, Fault, FreeCells, Leader, Manned, NotRun, Program, Ran, Shared, SharedCell, Team,
    run, run_leader,
};
use std::alloc::{AllocError, Global};
use std::sync::atomic::{AtomicU32, Ordering};
use std::sync::{Arc, Wait};
use std::test::Fail;
use std::thread::Threads;

/// How many blocks there are.
const BLOCKS: u32 = 24;

/// One of so many that there are.
struct Counted {
    count: Arc<AtomicU32>,
}

impl Drop for Counted {
    fn drop(self) {
        let Self { count } = self;
        count.fetch_sub(1, Ordering::SeqCst);
    }
}

impl Clone for Counted {
    fn clone(&self) -> Result<Counted, AllocError> {
        one_more(&self.count)
    }
}

/// One more.
fn one_more(count: &Arc<AtomicU32>) -> Result<Counted, AllocError> {
    let count = count.clone()?;
    count.fetch_add(1, Ordering::SeqCst);
    Ok(Counted { count })
}

/// A text that is counted.
#[derive(Clone, Drop)]
struct Text {
    text: String,
    counted: Counted,
}

/// Workers whose calls ask for memory.
#[derive(Drop)]
struct Writer {
    alloc: Global,
    count: Arc<AtomicU32>,
    /// How many workers have done all.
    done: AtomicU32,
    teams: u32,
}

impl Writer {
    fn new(alloc: Global) -> Result<Writer, AllocError> {
        Ok(Writer {
            alloc,
            count: Arc::new(alloc, AtomicU32::new(0))?,
            done: AtomicU32::new(0),
            teams: 0,
        })
    }

    /// A text.
    fn text(&self, text: &str) -> Result<Text, Fault> {
        let text = String::from_str(self.alloc, text)?;
        let counted = one_more(&self.count)?;
        Ok(Text { text, counted })
    }

    /// An object that owns two others, of which copies are read, and two free cells, of which one is taken.
    fn write<D: Domain<Value = Text>, R: Wait>(&self, rt: &R, desk: &Desk<D>) -> Result<(), Fault> {
        let of = desk.new(self.text("root")?)?;
        of.first().store(Some(desk.new(self.text("leaf")?)?))?;
        of.next().store(Some(desk.new(self.text("leaf")?)?))?;
        is_leaf(rt, of.first().load(rt)?)?;
        is_leaf(rt, of.next().load(rt)?)?;
        drops_within(rt, &of)?;
        takes(rt, self.alloc)?;
        self.done.fetch_add(1, Ordering::SeqCst);
        Ok(())
    }

    /// A run left no block and no text, and each worker that worked either did all or has a fault.
    fn left(&self, ran: Ran<Text>) -> Result<(), Fault> {
        row(10, ran.census.vacant() == BLOCKS)?;
        row(11, self.count.load(Ordering::SeqCst) == 0)?;
        let done = self.done.load(Ordering::SeqCst) as usize;
        row(12, done.checked_add(workers_in(&ran)) == Some(ran.workers))?;
        match ran.fault() {
            Some(why) => Err(why),
            None if ran.fewer.is_some() => Err(Fault::Memory),
            None => Ok(()),
        }
    }
}

/// How many workers ended with a fault.
fn workers_in(ran: &Ran<Text>) -> usize {
    let workers = ran.failed.iter().filter(|it| it.worker != usize::MAX);
    workers.count()
}

/// A copy of the value is read.
fn is_leaf<D: Domain<Value = Text>, R: Wait>(
    rt: &R,
    of: Option<Shared<'_, D>>,
) -> Result<(), Fault> {
    let Some(of) = of else {
        return row(3, false);
    };
    let copy = of.snapshot(rt)?;
    row(1, copy.text.as_str() == "leaf")
}

/// A pointer is dropped within a visit, and lets go when that is over.
fn drops_within<D: Domain<Value = Text>, R: Wait>(rt: &R, of: &Shared<'_, D>) -> Result<(), Fault> {
    let one = of.share()?;
    of.visit(rt, move |_| drop(one))?;
    row(4, of.use_count()? == 1)
}

/// A free cell is taken out of a pool.
fn takes<R: Wait>(rt: &R, alloc: Global) -> Result<(), Fault> {
    let free = FreeCells::shared(alloc, 0, 2)?;
    row(2, free.take(rt) == Some(SharedCell(0)))
}

impl<R: Threads + Wait + Sync> Program<Text, R> for Writer {
    fn work<D: Domain<Value = Text>>(
        &self,
        rt: &R,
        _number: usize,
        desk: &Desk<D>,
    ) -> Result<(), Fault> {
        self.write(rt, desk)
    }
}

impl<R: Threads + Wait + Sync> Leader<Text, R> for Writer {
    fn lead<'t, D: Domain<Value = Text>>(
        &mut self,
        _rt: &R,
        _before: Option<Manned>,
        desk: &'t Desk<D>,
        kept: &mut Vec<Shared<'t, D>>,
    ) -> Result<Option<Team>, Fault> {
        row(20, kept.len() as u64 == u64::from(self.teams))?;
        kept.push(desk.new(self.text("kept")?)?)?;
        self.teams = self.teams.saturating_add(1);
        Ok(if self.teams < 3 { Some(TEAM) } else { None })
    }
}

const TEAM: Team = Team {
    workers: 2,
    pointers: 6,
};

/// What a program that was not run is a fault by.
fn not_run(why: NotRun) -> Fault {
    match why {
        NotRun::Memory => Fault::Memory,
        _ => Fault::Other(30),
    }
}

/// Two workers write.
fn wrote<R: Threads + Wait + Sync>(rt: &R, alloc: Global) -> Result<(), Fault> {
    let writer = Writer::new(alloc)?;
    match run(rt, alloc, TEAM.shape(BLOCKS, 0, 0), TEAM, &writer) {
        Ok(ran) => writer.left(ran),
        Err(why) => Err(not_run(why)),
    }
}

/// Two teams of two workers write, and a leader keeps an object more at each call.
fn led<R: Threads + Wait + Sync>(rt: &R, alloc: Global) -> Result<(), Fault> {
    let mut writer = Writer::new(alloc)?;
    let team = Team {
        workers: 3,
        pointers: 6,
    };
    match run_leader(rt, alloc, team.shape(BLOCKS, 0, 0), 4, &mut writer) {
        Ok(ran) => writer.left(ran),
        Err(why) => Err(not_run(why)),
    }
}

#[cfg(test)]
mod tests {
    use super::*;

    #[test]
    fn a_refused_run_is_made_again(rt: HostRuntime) -> Result<(), Fail> {
        match wrote(&rt, rt.alloc()) {
            Err(Fault::Memory) => wrote(&rt, rt.alloc())?,
            done => done?,
        }
        Ok(())
    }

    #[test]
    fn a_refused_leader_is_run_again(rt: HostRuntime) -> Result<(), Fail> {
        match led(&rt, rt.alloc()) {
            Err(Fault::Memory) => led(&rt, rt.alloc())?,
            done => done?,
        }
        Ok(())
    }
}
