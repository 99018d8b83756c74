//! Workers on one map.

use crate::plays::{MAP, NoOwner, Size, plays, row};
use pointers::{Desk, Domain, Fault, Program};
use shared_map::SharedMap;
use std::alloc::Global;
use std::sync::Wait;
use std::sync::atomic::{AtomicI64, AtomicU32, Ordering};
use std::thread::{Threads, yield_now};

/// So many workers.
const WORKERS: u32 = 4;

/// So many keys, over so many buckets.
const KEYS: u64 = 100;

const BUCKETS: u32 = 16;

/// So many rounds.
const ROUNDS: u64 = 30;

#[derive(Drop)]
struct Racing {
    alloc: Global,
    /// How many owners the map has.
    owners: AtomicI64,
    /// How often a worker was the first at a key.
    firsts: AtomicU32,
    /// How many workers came so far.
    came: AtomicU32,
}

impl Racing {
    /// Waits for all workers to come to the point of that number.
    fn meet<R: Wait>(&self, rt: &R, point: u32) {
        self.came.fetch_add(1, Ordering::SeqCst);
        for _ in rt.forever() {
            if self.came.load(Ordering::SeqCst) >= point.wrapping_mul(WORKERS) {
                break;
            }
            yield_now();
        }
    }

    /// All workers put owners at all keys where there is none: of each key one is the first.
    fn be_first<'t, D: Domain<Value = u64>, R: Wait>(
        &self,
        rt: &R,
        desk: &'t Desk<'t, D>,
        map: &mut SharedMap<'t, D>,
    ) -> Result<(), Fault> {
        for key in 0..KEYS {
            let new = desk.make([key, 0, 0, 0], 0)?;
            match map.insert_if_absent(rt, key, new)? {
                None => {
                    self.firsts.fetch_add(1, Ordering::SeqCst);
                }
                Some(there) => row(1, there.read()? == key)?,
            }
        }
        Ok(())
    }

    /// Owners come to keys and go. What a worker takes out is what some worker put there.
    fn come_and_go<'t, D: Domain<Value = u64>, R: Wait>(
        &self,
        rt: &R,
        desk: &'t Desk<'t, D>,
        map: &mut SharedMap<'t, D>,
        number: u64,
    ) -> Result<(), Fault> {
        for round in 0..ROUNDS * KEYS {
            let key = round.wrapping_mul(7).wrapping_add(number.wrapping_mul(31)) % KEYS;
            let out = if round % 2 == 0 {
                let new = desk.make([key, 0, 0, 0], 0)?;
                self.owners.fetch_add(1, Ordering::SeqCst);
                map.insert(rt, key, new)?
            } else {
                map.remove(rt, key)?
            };
            if let Some(out) = out {
                self.owners.fetch_sub(1, Ordering::SeqCst);
                row(2, out.read()? == key)?;
            }
        }
        Ok(())
    }
}

impl<R: Threads + Wait> Program<u64, R> for Racing {
    fn work<D: Domain<Value = u64>>(
        &self,
        rt: &R,
        number: usize,
        desk: &Desk<D>,
    ) -> Result<(), Fault> {
        let mut map = SharedMap::open(rt, desk, self.alloc, MAP, BUCKETS)?;
        self.meet(rt, 1);
        self.be_first(rt, desk, &mut map)?;
        self.meet(rt, 2);
        row(3, u64::from(self.firsts.load(Ordering::SeqCst)) == KEYS)?;
        self.come_and_go(rt, desk, &mut map, number as u64)?;
        self.meet(rt, 3);
        let left = map.retain(rt, &mut NoOwner)?;
        self.owners
            .fetch_sub(i64::try_from(left).unwrap_or(0), Ordering::SeqCst);
        self.meet(rt, 4);
        let less = i64::try_from(KEYS).unwrap_or(0);
        let owners = self.owners.load(Ordering::SeqCst);
        row(4, owners.checked_add(less) == Some(0))
    }
}

/// The map keeps one object for each bucket and each key.
#[test]
fn workers_race(rt: HostRuntime) {
    let size = Size {
        workers: 4,
        pointers: 32,
        blocks: 16 + 100 + 100 + 16,
        kept: 16 + 100,
    };
    let alloc = rt.alloc();
    let play = Racing {
        alloc,
        owners: AtomicI64::new(0),
        firsts: AtomicU32::new(0),
        came: AtomicU32::new(0),
    };
    plays(&rt, alloc, size, &play);
}
