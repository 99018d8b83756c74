//! Functions that keep pointers of their own, which let go at their ends, and pointers that are forgotten.

use crate::players::same;
use pointer_calls::{Told, Value, begin, ended, new_ends, object, order, row};
use pointers::{
    Call, Desk, Domain, Fault, Holders, Program, Ran, Refusal, Shared, SharedCell, Team, run,
};
use std::alloc::Global;
use std::sync::Wait;
use std::thread::Threads;

/// Functions that keep pointers.
#[derive(Drop)]
struct Keeper {
    told: Told,
    alloc: Global,
}

impl Keeper {
    /// The values with these numbers have ended since this was asked last, in this order.
    fn ends(&self, number: u32, wanted: u64) -> Result<(), Fault> {
        let is = order(&self.told) == wanted;
        begin(&self.told);
        row(number, is)
    }

    /// A fault ends it early.
    fn early<D: Domain<Value = Value>>(&self, desk: &Desk<D>) -> Result<u64, Fault> {
        let one = object(desk, &self.told, 1)?;
        let _more = one.share()?;
        one.alias(None)?.read()
    }

    /// Four objects in a vector, of which two go out, and the others are dropped with it.
    fn retained<D: Domain<Value = Value>>(&self, desk: &Desk<D>) -> Result<(), Fault> {
        let mut all = Vec::with_capacity(self.alloc, 4)?;
        for number in 1..=4 {
            all.push(object(desk, &self.told, number)?)?;
        }
        all.retain(|pointer: &Shared<'_, D>| pointer.read().unwrap_or(0) % 2 == 0);
        self.ends(3, 13)
    }

    /// A variable gets a pointer in place of another.
    fn assigned<D: Domain<Value = Value>>(&self, desk: &Desk<D>) -> Result<(), Fault> {
        let mut now = object(desk, &self.told, 5)?;
        now = object(desk, &self.told, 6)?;
        self.ends(5, 5)?;
        drop(now);
        self.ends(6, 6)
    }
}

/// Whether nothing came of a read of a pointer that points nowhere.
fn is_null(read: Result<u64, Fault>) -> bool {
    read == Err(Fault::Refused(Call::Read, Refusal::Null))
}

impl<R: Threads + Wait + Sync> Program<Value, R> for Keeper {
    fn work<D: Domain<Value = Value>>(
        &self,
        _rt: &R,
        _number: usize,
        desk: &Desk<D>,
    ) -> Result<(), Fault> {
        row(1, is_null(self.early(desk)))?;
        self.ends(2, 1)?;
        self.retained(desk)?;
        self.ends(4, 24)?;
        self.assigned(desk)
    }
}

/// An owner, an owner of an object with a weak pointer, and one that only a weak pointer was of are forgotten.
#[derive(Drop)]
struct Forgetful {
    told: Told,
}

impl<R: Threads + Wait + Sync> Program<Value, R> for Forgetful {
    fn work<D: Domain<Value = Value>>(
        &self,
        _rt: &R,
        _number: usize,
        desk: &Desk<D>,
    ) -> Result<(), Fault> {
        std::mem::forget(object(desk, &self.told, 1)?);
        let two = object(desk, &self.told, 2)?;
        std::mem::forget(two.downgrade()?);
        drop(two);
        Ok(())
    }
}

/// Three objects are left: the first in a cell, the second in its first member and forgotten too, and the third only
/// forgotten.
#[derive(Drop)]
struct Leaving {
    told: Told,
}

impl<R: Threads + Wait + Sync> Program<Value, R> for Leaving {
    fn work<D: Domain<Value = Value>>(
        &self,
        _rt: &R,
        _number: usize,
        desk: &Desk<D>,
    ) -> Result<(), Fault> {
        let one = object(desk, &self.told, 1)?;
        let two = object(desk, &self.told, 2)?;
        one.first().store(Some(two.share()?))?;
        std::mem::forget(two);
        std::mem::forget(object(desk, &self.told, 3)?);
        one.store(SharedCell(0))
    }
}

/// How many cells hold an object, and how many owners and weak handles of it are in none.
fn counts_of(holders: &Holders) -> (usize, u32, u32) {
    let forgotten = holders.forgotten;
    (holders.cells.len(), forgotten.owners, forgotten.weaks)
}

/// Of how many blocks the census tells this.
fn told_so(all: &[Holders], wanted: (usize, u32, u32)) -> usize {
    all.iter().filter(|it| counts_of(it) == wanted).count()
}

/// Whether all holders are told as those of each block alone.
fn told_alike(alloc: Global, ran: &Ran<Value>, all: &[Holders]) -> bool {
    for ((block, _), holders) in ran.census.each().zip(all) {
        match ran.census.holders(alloc, block) {
            Ok(alone) if counts_of(&alone) == counts_of(holders) => {}
            _ => return false,
        }
    }
    true
}

/// Of a run that leaves three objects: of how many of its eight blocks a cell alone is told, a cell beside a forgotten
/// owner, a forgotten owner alone, and nothing; and whether each is told so alone.
fn left<R: Threads + Wait + Sync>(rt: &R, alloc: Global) -> Result<([usize; 4], bool), Fault> {
    let ends = new_ends(alloc)?;
    let leaving = Leaving {
        told: ends.clone()?,
    };
    let team = Team {
        workers: 1,
        pointers: 6,
    };
    let Ok(ran) = run(rt, alloc, team.shape(8, 1, 0), team, &leaving) else {
        return Err(Fault::Other(0));
    };
    let Ok(all) = ran.census.all_holders(alloc) else {
        return Err(Fault::Other(1));
    };
    let rows = [(1, 0, 0), (1, 1, 0), (0, 1, 0), (0, 0, 0)].map(|row| told_so(&all, row));
    Ok((rows, told_alike(alloc, &ran, &all)))
}

/// What is told of a run by one worker with four pointers: its fault, how many blocks are vacant of eight, and how many
/// values ended.
fn told<R: Threads + Wait + Sync, P: Program<Value, R> + Sync>(
    rt: &R,
    alloc: Global,
    ends: &Told,
    program: &P,
) -> Result<(Option<Fault>, u32, u32), Fault> {
    let team = Team {
        workers: 1,
        pointers: 4,
    };
    match run(rt, alloc, team.shape(8, 0, 0), team, program) {
        Ok(ran) => Ok((ran.fault(), ran.census.vacant(), ended(ends))),
        Err(_) => Err(Fault::Other(0)),
    }
}

fn kept<R: Threads + Wait + Sync>(
    rt: &R,
    alloc: Global,
) -> Result<(Option<Fault>, u32, u32), Fault> {
    let ends = new_ends(alloc)?;
    let told_to = ends.clone()?;
    let keeper = Keeper {
        told: told_to,
        alloc,
    };
    told(rt, alloc, &ends, &keeper)
}

fn forgot<R: Threads + Wait + Sync>(
    rt: &R,
    alloc: Global,
) -> Result<(Option<Fault>, u32, u32), Fault> {
    let ends = new_ends(alloc)?;
    let told_to = ends.clone()?;
    told(rt, alloc, &ends, &Forgetful { told: told_to })
}

#[cfg(test)]
mod tests {
    use super::*;

    #[test]
    fn pointers_end_where_they_lie(rt: HostRuntime) {
        same(&rt, kept(&rt, rt.alloc()), Ok((None, 8, 0)));
    }

    #[test]
    fn all_holders_are_told_at_once(rt: HostRuntime) {
        same(&rt, left(&rt, rt.alloc()), Ok(([1, 1, 1, 5], true)));
    }

    /// The first object lives on, and the other one's block is kept.
    #[test]
    fn what_is_forgotten_is_in_the_census(rt: HostRuntime) {
        same(&rt, forgot(&rt, rt.alloc()), Ok((None, 6, 1)));
    }
}
