//! A cache of the 400 texts that were used last, which four threads ask.
#![tactic(auto)]

use lru::LruCache;
use pointers::{Desk, Domain, Fault, Program, Shared, SharedCell, Team, run};
use shared_map::SharedMap;
use std::io;
use std::num::NonZeroUsize;
use std::sync::{Mutex, Wait};
use std::thread::Threads;

/// So many texts are kept, each in the shared map by a number.
const SIZE: u32 = 400;

/// A text, or none in the map's own objects.
type Object = Option<String>;

#[derive(Drop)]
struct Cache {
    /// The number of each key, the last used one first.
    numbers: Mutex<LruCache<String, u64>>,
}

impl Cache {
    fn put<'t, D: Domain<Value = Object>, R: Wait>(
        &self,
        rt: &R,
        map: &mut SharedMap<'t, D>,
        key: String,
        text: Shared<'t, D>,
    ) -> Result<(), Fault> {
        let mut numbers = self.numbers.lock(rt);
        let next = numbers.len() as u64;
        let number = match numbers.peek(&key) {
            Some(number) => *number,
            None if next < u64::from(SIZE) => next,
            None => numbers.peek_lru().map_or(0, |(_, oldest)| *oldest),
        };
        map.insert(rt, number, text)?;
        numbers.put(key, number)?; // where all numbers are taken, the oldest key goes
        Ok(())
    }

    fn get<'t, D: Domain<Value = Object>, R: Wait>(
        &self,
        rt: &R,
        map: &mut SharedMap<'t, D>,
        key: &String,
    ) -> Result<Option<Shared<'t, D>>, Fault> {
        let mut numbers = self.numbers.lock(rt);
        match numbers.get(key) {
            Some(number) => map.get(rt, *number),
            None => Ok(None),
        }
    }
}

impl<R: Threads + Wait + Sync + AllocGlobal> Program<Object, R> for Cache {
    fn work<D: Domain<Value = Object>>(
        &self,
        rt: &R,
        me: usize,
        desk: &Desk<D>,
    ) -> Result<(), Fault> {
        let mut map = SharedMap::open(rt, desk, rt.alloc(), SharedCell(0), SIZE)?;
        let mut random = me as u64;
        for _ in 0..2000 {
            random = random.wrapping_mul(6364136223846793005).wrapping_add(1);
            let key = format!(in rt.alloc(); "key {}", (random >> 33) % 800)?;
            let text = Some(format!(in rt.alloc(); "value of {key}")?);
            if let Some(it) = self.get(rt, &mut map, &key)? {
                if it.visit(rt, |it| *it != text)? {
                    return Err(Fault::Other(1));
                }
            } else {
                self.put(rt, &mut map, key, desk.new(text)?)?;
            }
        }
        Ok(())
    }
}

fn main(rt: HostRuntime) -> io::Result<()> {
    let size = NonZeroUsize::new(SIZE as usize).unwrap_or(NonZeroUsize::MIN);
    let cache = Cache {
        numbers: Mutex::new(LruCache::new(rt.alloc(), size)?),
    };
    let team = Team {
        workers: 4,
        pointers: 410,
    };
    match run(&rt, rt.alloc(), team.shape(1300, 1, 0), team, &cache) {
        Ok(ran) => {
            println!(&rt; "{} kept", cache.numbers.lock(&rt).len())?;
            println!(&rt; "{} workers, {} faults", ran.workers, ran.failed.len())
        }
        Err(why) => println!(&rt; "not run: {why}"),
    }
}
