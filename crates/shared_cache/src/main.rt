//! A cache that threads share: it knows the values of 10,000 keys by weak pointers, as long as some thread has them.
#![tactic(auto)]

use pointers::{Desk, Domain, Fault, Program, Shared, SharedCell, Team, run};
use shared_map::SharedMap;
use std::alloc::Global;
use std::io;
use std::sync::Wait;
use std::sync::atomic::{AtomicU32, Ordering};
use std::thread::Threads;

/// So many keys there are, in so many buckets.
const KEYS: u64 = 10_000;

const BUCKETS: u32 = 16_384;

/// Each worker asks so often, and has so many values at a time, the last ones.
const TURNS: usize = 100_000;

const HELD: usize = 1_000;

#[derive(Drop)]
struct Value {
    text: String,
    reads: u32,
}

/// A value, or none in the map's own objects.
type Object = Option<Value>;

#[derive(Drop)]
struct Cache {
    alloc: Global,
    gets: AtomicU32,
}

impl Cache {
    /// The value of a key, a new one where nobody has it any more.
    fn get<'t, D: Domain<Value = Object>, R: Wait>(
        &self,
        rt: &R,
        desk: &'t Desk<'t, D>,
        map: &mut SharedMap<'t, D>,
        key: u64,
    ) -> Result<Shared<'t, D>, Fault> {
        if let Some(value) = map.lock(rt, key)? {
            return Ok(value);
        }
        let text = format!(in self.alloc; "value of {key}")?;
        let value = desk.new(Some(Value { text, reads: 0 }))?;
        match map.insert_weak_if_expired(rt, key, value.downgrade()?)? {
            Some(others) => Ok(others),
            None => Ok(value),
        }
    }

    /// Asks for values by keys of a row of random numbers.
    fn ask<'t, D: Domain<Value = Object>, R: Wait>(
        &self,
        rt: &R,
        desk: &'t Desk<'t, D>,
        map: &mut SharedMap<'t, D>,
        number: usize,
    ) -> Result<(), Fault> {
        let mut held = Vec::with_capacity(self.alloc, HELD)?;
        let mut random = number as u64;
        for turn in 0..TURNS {
            random = random
                .wrapping_mul(6_364_136_223_846_793_005)
                .wrapping_add(1_442_695_040_888_963_407);
            let value = self.get(rt, desk, map, (random >> 33) % KEYS)?;
            value.visit(rt, |value| {
                if let Some(value) = value {
                    value.reads = value.reads.saturating_add(1);
                }
            })?;
            self.gets.fetch_add(1, Ordering::SeqCst);
            match held.get_mut(turn % HELD) {
                Some(oldest) => *oldest = value,
                None => held.push(value)?,
            }
        }
        Ok(())
    }
}

impl<R: Threads + Wait + Sync> Program<Object, R> for Cache {
    fn work<D: Domain<Value = Object>>(
        &self,
        rt: &R,
        number: usize,
        desk: &Desk<D>,
    ) -> Result<(), Fault> {
        let mut map = SharedMap::open(rt, desk, self.alloc, SharedCell(0), BUCKETS)?;
        self.ask(rt, desk, &mut map, number)?;
        map.remove_expired(rt)?;
        Ok(())
    }
}

fn main(rt: HostRuntime) -> io::Result<()> {
    let team = Team {
        workers: 3,
        pointers: 17_400,
    };
    let cache = Cache {
        alloc: rt.alloc(),
        gets: AtomicU32::new(0),
    };
    match run(&rt, rt.alloc(), team.shape(65_535, 1, 0), team, &cache) {
        Ok(ran) => {
            println!(&rt; "{} values were got", cache.gets.load(Ordering::SeqCst))?;
            println!(&rt;
                "{} workers, {} faults, {} blocks vacant",
                ran.workers,
                ran.failed.len(),
                ran.census.vacant()
            )
        }
        Err(why) => println!(&rt; "not run: {why}"),
    }
}
