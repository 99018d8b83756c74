//! Workers on one vector.

use crate::plays::{Size, VECTOR, fill, numbered, plays, read, row};
use pointers::{Desk, Domain, Fault, Program, Shared};
use shared_vec::SharedVec;
use std::sync::Wait;
use std::sync::atomic::{AtomicU32, AtomicU64, Ordering};
use std::thread::{Threads, yield_now};

/// So many workers.
const WORKERS: u64 = 4;

/// So many elements come from each.
const EACH: u64 = 150;

/// So many rounds of reads and sets.
const ROUNDS: u64 = 1_500;

#[derive(Drop)]
struct Racing {
    /// How many workers came so far.
    came: AtomicU32,
    /// The sum of what was pushed.
    sum: AtomicU64,
}

impl Racing {
    /// Waits for all workers to come to the point of that number.
    fn meet<R: Wait>(&self, rt: &R, point: u32) {
        self.came.fetch_add(1, Ordering::SeqCst);
        for _ in rt.forever() {
            if u64::from(self.came.load(Ordering::SeqCst)) >= u64::from(point) * WORKERS {
                break;
            }
            yield_now();
        }
    }

    /// All workers push at once: each element is at its index then, and each comes once.
    fn push_all<'t, D: Domain<Value = u64>, R: Wait>(
        &self,
        rt: &R,
        desk: &'t Desk<'t, D>,
        vector: &mut SharedVec<'_, 't, D>,
        number: u64,
    ) -> Result<(), Fault> {
        for round in 0..EACH {
            let field = round.wrapping_mul(WORKERS).wrapping_add(number);
            self.sum.fetch_add(field, Ordering::SeqCst);
            let new = numbered(desk, field)?;
            let index = vector.push(rt, new.share()?)?;
            match vector.get(rt, index)? {
                Some(there) => row(1, there.is(&new))?,
                None => row(2, false)?,
            }
        }
        Ok(())
    }

    /// What all elements read is what was pushed.
    fn is_all<'t, D: Domain<Value = u64>, R: Wait>(
        &self,
        rt: &R,
        vector: &mut SharedVec<'_, 't, D>,
    ) -> Result<(), Fault> {
        let count = vector.len(rt)?;
        row(3, count as u64 == WORKERS * EACH)?;
        let mut sum = 0u64;
        for index in 0..count {
            match vector.get(rt, index)? {
                Some(there) => sum = sum.wrapping_add(there.read()?),
                None => row(4, false)?,
            }
        }
        row(5, sum == self.sum.load(Ordering::SeqCst))
    }

    /// A walk shows the elements in order.
    fn walk<D: Domain<Value = u64>, R: Wait>(
        rt: &R,
        vector: &SharedVec<'_, '_, D>,
    ) -> Result<(), Fault> {
        let mut index = 0u64;
        vector.each(rt, |there: &Shared<D>| {
            row(10, there.read()? % 1_000 == index)?;
            index = index.saturating_add(1);
            Ok(())
        })?;
        row(11, index >= 500)
    }

    /// The first worker pops and pushes, the others read and set, and the last one walks too: what is at an index has
    /// its number in its first field's low part.
    fn write_and_set<'t, D: Domain<Value = u64>, R: Wait>(
        &self,
        rt: &R,
        desk: &'t Desk<'t, D>,
        vector: &mut SharedVec<'_, 't, D>,
        number: u64,
    ) -> Result<(), Fault> {
        for round in 0..ROUNDS {
            if number == 0 {
                if round / 100 % 2 == 0 {
                    row(6, vector.pop(rt)?.is_some())?;
                } else {
                    let end = vector.len(rt)? as u64;
                    row(7, vector.push(rt, numbered(desk, end)?)? as u64 == end)?;
                }
                continue;
            }
            if number == 3 && round % 100 == 0 {
                Racing::walk(rt, vector)?;
            }
            let index = round.wrapping_mul(number) % 700;
            if let Some(there) = vector.get(rt, index as usize)? {
                row(8, there.read()? % 1_000 == index)?;
            }
            let new = numbered(desk, number.wrapping_mul(1_000).wrapping_add(index))?;
            drop(vector.set(rt, index as usize, new)?);
        }
        Ok(())
    }

    /// The first worker numbers all elements by their indexes.
    fn number_all<'t, D: Domain<Value = u64>, R: Wait>(
        &self,
        rt: &R,
        desk: &'t Desk<'t, D>,
        vector: &mut SharedVec<'_, 't, D>,
    ) -> Result<(), Fault> {
        for index in 0..vector.len(rt)? {
            let new = numbered(desk, index as u64)?;
            row(9, vector.set(rt, index, new)?.is_none())?;
        }
        Ok(())
    }
}

impl<R: Threads + Wait> Program<u64, R> for Racing {
    fn work<D: Domain<Value = u64>>(
        &self,
        rt: &R,
        number: usize,
        desk: &Desk<D>,
    ) -> Result<(), Fault> {
        let mut vector = SharedVec::at(desk, desk.cell(VECTOR));
        self.push_all(rt, desk, &mut vector, number as u64)?;
        self.meet(rt, 1);
        self.is_all(rt, &mut vector)?;
        self.meet(rt, 2);
        if number == 0 {
            self.number_all(rt, desk, &mut vector)?;
        }
        self.meet(rt, 3);
        self.write_and_set(rt, desk, &mut vector, number as u64)?;
        self.meet(rt, 4);
        desk.clear(VECTOR)
    }
}

#[test]
fn workers_push_at_once_and_one_writes_while_others_set(rt: HostRuntime) {
    let size = Size {
        workers: 4,
        pointers: 16,
        ..Size::alone(800)
    };
    let play = Racing {
        came: AtomicU32::new(0),
        sum: AtomicU64::new(0),
    };
    plays(&rt, rt.alloc(), size, &play);
}

/// So many elements stay while others are inserted and removed.
const STAY: u64 = 60;

/// The first worker inserts and removes, and the others walk meanwhile.
#[derive(Drop)]
struct Moving {
    /// Whether the elements that stay are there, and whether the first worker is done.
    begun: AtomicU32,
    done: AtomicU32,
}

impl Moving {
    /// Elements come at each index in turn, and leave again: those that stay are as they were.
    fn change<'t, D: Domain<Value = u64>, R: Wait>(
        &self,
        rt: &R,
        desk: &'t Desk<'t, D>,
        vector: &mut SharedVec<'_, 't, D>,
    ) -> Result<(), Fault> {
        fill(rt, desk, vector, 0, STAY)?;
        self.begun.store(1, Ordering::SeqCst);
        for round in 0..200u64 {
            let index = (round.wrapping_mul(7) % (STAY + 1)) as usize;
            let new = numbered(desk, round.wrapping_add(1_000))?;
            row(12, vector.insert(rt, index, new)?.is_none())?;
            row(
                13,
                read(vector.remove(rt, index)?)? == Some(round.wrapping_add(1_000)),
            )?;
        }
        row(14, vector.len(rt)? as u64 == STAY)?;
        for index in 0..STAY {
            row(15, read(vector.get(rt, index as usize)?)? == Some(index))?;
        }
        Ok(())
    }

    /// A walk shows elements that stay in their order, some maybe twice, some maybe not.
    fn walk<D: Domain<Value = u64>, R: Wait>(
        rt: &R,
        vector: &SharedVec<'_, '_, D>,
    ) -> Result<(), Fault> {
        let mut last = 0u64;
        vector.each(rt, |there: &Shared<D>| {
            let field = there.read()?;
            row(16, field >= 1_000 || field >= last)?;
            if field < 1_000 {
                last = field;
            }
            Ok(())
        })
    }
}

impl<R: Threads + Wait> Program<u64, R> for Moving {
    fn work<D: Domain<Value = u64>>(
        &self,
        rt: &R,
        number: usize,
        desk: &Desk<D>,
    ) -> Result<(), Fault> {
        let mut vector = SharedVec::at(desk, desk.cell(VECTOR));
        if number == 0 {
            let told = self.change(rt, desk, &mut vector);
            self.begun.store(1, Ordering::SeqCst);
            self.done.store(1, Ordering::SeqCst);
            told?;
            return desk.clear(VECTOR);
        }
        for _ in rt.forever() {
            if self.begun.load(Ordering::SeqCst) == 0 {
                yield_now();
                continue;
            }
            if self.done.load(Ordering::SeqCst) > 0 {
                return Ok(());
            }
            Moving::walk(rt, &vector)?;
        }
        unreachable!()
    }
}

#[test]
fn one_worker_inserts_and_removes_while_others_walk(rt: HostRuntime) {
    let size = Size {
        workers: 3,
        pointers: 16,
        ..Size::alone(120)
    };
    let play = Moving {
        begun: AtomicU32::new(0),
        done: AtomicU32::new(0),
    };
    plays(&rt, rt.alloc(), size, &play);
}
