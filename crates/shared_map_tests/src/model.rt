//! A map beside a `BTreeMap`: 4,000 calls in an order that a generator gives.

use crate::plays::{MAP, NoOwner, Size, plays, row};
use pointers::{Desk, Domain, Fault, Program, Shared};
use shared_map::SharedMap;
use std::alloc::Global;
use std::collections::BTreeMap;
use std::sync::Wait;
use std::thread::Threads;

/// So many keys.
const KEYS: u64 = 30;

/// So many calls.
const CALLS: u32 = 4_000;

#[derive(Drop)]
struct Beside {
    alloc: Global,
}

/// What the owner reads.
fn read<D: Domain>(owner: Option<Shared<'_, D>>) -> Result<Option<u64>, Fault> {
    match owner {
        Some(owner) => Ok(Some(owner.read()?)),
        None => Ok(None),
    }
}

/// One call on both, by a number. Whether they answer the same.
fn same<'t, D: Domain<Value = u64>, R: Wait>(
    rt: &R,
    desk: &'t Desk<'t, D>,
    map: &mut SharedMap<'t, D>,
    model: &mut BTreeMap<u64, u64>,
    number: u64,
) -> Result<bool, Fault> {
    let key = (number >> 40) % KEYS;
    let here = model.get(&key).copied();
    match (number >> 33) % 4 {
        0 => Ok(read(map.get(rt, key)?)? == here),
        1 => {
            let was = map.insert(rt, key, desk.make([number, 0, 0, 0], 0)?)?;
            model.insert(key, number)?;
            Ok(read(was)? == here)
        }
        2 => {
            let there = map.insert_if_absent(rt, key, desk.make([number, 0, 0, 0], 0)?)?;
            if here.is_none() {
                model.insert(key, number)?;
            }
            Ok(read(there)? == here)
        }
        _ => {
            model.remove(&key);
            Ok(read(map.remove(rt, key)?)? == here)
        }
    }
}

impl<R: Threads + Wait> Program<u64, R> for Beside {
    fn work<D: Domain<Value = u64>>(
        &self,
        rt: &R,
        _number: usize,
        desk: &Desk<D>,
    ) -> Result<(), Fault> {
        let mut map = SharedMap::open(rt, desk, self.alloc, MAP, 8)?;
        let mut model = BTreeMap::new(self.alloc);
        let mut number = 1u64;
        for call in 0..CALLS {
            number = number
                .wrapping_mul(6_364_136_223_846_793_005)
                .wrapping_add(1_442_695_040_888_963_407);
            row(call, same(rt, desk, &mut map, &mut model, number)?)?;
        }
        row(CALLS, map.retain(rt, &mut NoOwner)? == model.len())
    }
}

/// All keys come up, and have objects at the end.
#[test]
fn a_map_answers_as_a_sequential_one(rt: HostRuntime) {
    let size = Size {
        workers: 1,
        pointers: 16,
        blocks: 8 + 2 * 30 + 2,
        kept: 8 + 30,
    };
    let alloc = rt.alloc();
    plays(&rt, alloc, size, &Beside { alloc });
}
