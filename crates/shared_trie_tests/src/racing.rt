//! Workers on one trie.

use crate::plays::{Nothing, Size, TRIE, keyed, plays, row, spread_to, value};
use pointers::{Desk, Domain, Fault, Program};
use shared_trie::SharedTrie;
use std::sync::Wait;
use std::sync::atomic::{AtomicU32, AtomicU64, Ordering};
use std::thread::{Threads, yield_now};

/// So many workers.
const WORKERS: u64 = 4;

/// So many objects come from each.
const EACH: u64 = 200;

/// So many rounds of calls on few keys.
const ROUNDS: u64 = 2_000;

#[derive(Drop)]
struct Racing {
    /// How many workers came so far.
    came: AtomicU32,
    /// How many objects went into the few keys, and how many came out again.
    went_in: AtomicU64,
    came_out: AtomicU64,
}

impl Racing {
    /// Waits for all workers to come to the point of that number.
    fn meet<R: Wait>(&self, rt: &R, point: u32) {
        self.came.fetch_add(1, Ordering::SeqCst);
        for _ in rt.forever() {
            if u64::from(self.came.load(Ordering::SeqCst)) >= u64::from(point) * WORKERS {
                break;
            }
            yield_now();
        }
    }

    /// All workers put in at once, each keys of its own: none is lost, and none of another's is there twice.
    fn put_all<'t, D: Domain<Value = u64>, R: Wait>(
        &self,
        rt: &R,
        desk: &'t Desk<'t, D>,
        trie: &SharedTrie<'t, D>,
        me: u64,
    ) -> Result<(), Fault> {
        for round in 0..EACH {
            let key = round.wrapping_mul(WORKERS).wrapping_add(me);
            row(1, trie.insert(rt, keyed(desk, key, key)?)?.is_none())?;
            row(2, value(rt, trie.get(rt, key)?)? == Some(key))?;
        }
        Ok(())
    }

    /// Each finds what all put in, and takes out what another put in.
    fn take_all<D: Domain<Value = u64>, R: Wait>(
        &self,
        rt: &R,
        trie: &SharedTrie<'_, D>,
        me: u64,
    ) -> Result<(), Fault> {
        for key in 0..WORKERS * EACH {
            row(3, value(rt, trie.get(rt, key)?)? == Some(key))?;
        }
        self.meet(rt, 2);
        for round in 0..EACH {
            let key = round
                .wrapping_mul(WORKERS)
                .wrapping_add(me.wrapping_add(1) % WORKERS);
            row(4, value(rt, trie.remove(rt, key)?)? == Some(key))?;
            row(5, trie.get(rt, key)?.is_none())?;
        }
        Ok(())
    }

    /// All work on few keys, which go one way for long: what went in comes out once, or is there at the end.
    fn work_on_few<'t, D: Domain<Value = u64>, R: Wait>(
        &self,
        rt: &R,
        desk: &'t Desk<'t, D>,
        trie: &SharedTrie<'t, D>,
        me: u64,
    ) -> Result<(), Fault> {
        for round in 0..ROUNDS {
            let key = spread_to(round.wrapping_mul(me.wrapping_add(3)) % 9);
            if round % 500 == 499 {
                self.take_each(rt, trie)?;
            }
            let was = match round % 4 {
                0 => {
                    self.went_in.fetch_add(1, Ordering::SeqCst);
                    trie.insert(rt, keyed(desk, key, key)?)?
                }
                1 => {
                    if trie.insert_if_absent(rt, keyed(desk, key, key)?)?.is_none() {
                        self.went_in.fetch_add(1, Ordering::SeqCst);
                    }
                    None
                }
                2 => {
                    if let Some(there) = trie.get(rt, key)? {
                        row(6, there.read()? == key)?;
                    }
                    None
                }
                _ => trie.remove(rt, key)?,
            };
            if let Some(was) = was {
                row(7, was.read()? == key)?;
                self.came_out.fetch_add(1, Ordering::SeqCst);
            }
        }
        Ok(())
    }

    /// One takes out whatever it finds.
    fn take_each<D: Domain<Value = u64>, R: Wait>(
        &self,
        rt: &R,
        trie: &SharedTrie<'_, D>,
    ) -> Result<(), Fault> {
        let out = trie.retain(rt, &mut Nothing)?;
        self.came_out.fetch_add(out as u64, Ordering::SeqCst);
        Ok(())
    }

    /// What went into the few keys is what came out and what is there.
    fn is_all<D: Domain<Value = u64>, R: Wait>(
        &self,
        rt: &R,
        trie: &SharedTrie<'_, D>,
    ) -> Result<(), Fault> {
        let mut there = 0u64;
        for number in 0..9 {
            if trie.get(rt, spread_to(number))?.is_some() {
                there = there.wrapping_add(1);
            }
        }
        let out = self.came_out.load(Ordering::SeqCst);
        row(
            8,
            self.went_in.load(Ordering::SeqCst) == out.wrapping_add(there),
        )
    }
}

impl<R: Threads + Wait> Program<u64, R> for Racing {
    fn work<D: Domain<Value = u64>>(
        &self,
        rt: &R,
        number: usize,
        desk: &Desk<D>,
    ) -> Result<(), Fault> {
        let me = number as u64 % WORKERS;
        let trie = SharedTrie::open(rt, desk, &desk.cell(TRIE))?;
        self.put_all(rt, desk, &trie, me)?;
        self.meet(rt, 1);
        self.take_all(rt, &trie, me)?;
        self.meet(rt, 3);
        self.work_on_few(rt, desk, &trie, me)?;
        self.meet(rt, 4);
        self.is_all(rt, &trie)?;
        self.meet(rt, 5);
        desk.clear(TRIE)
    }
}

#[test]
fn workers_put_in_and_take_out_at_once(rt: HostRuntime) {
    let size = Size {
        workers: 4,
        pointers: 16,
        blocks: 1_300,
        owners: 8,
    };
    let play = Racing {
        came: AtomicU32::new(0),
        went_in: AtomicU64::new(0),
        came_out: AtomicU64::new(0),
    };
    plays(&rt, rt.alloc(), size, &play);
}
