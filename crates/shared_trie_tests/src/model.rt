//! A trie beside a `BTreeMap`: 4,000 calls in an order that a generator gives.

use crate::plays::{Nothing, Size, TRIE, keyed, plays, row, spread_to, value};
use pointers::{Desk, Domain, Fault, Program};
use shared_trie::SharedTrie;
use std::alloc::Global;
use std::collections::BTreeMap;
use std::sync::Wait;
use std::thread::Threads;

/// So many calls.
const CALLS: u32 = 4_000;

#[derive(Drop)]
struct Beside {
    alloc: Global,
}

/// A key of few: the first ones, the last ones, or such as go one way for long.
fn key_of(number: u64) -> u64 {
    let small = (number >> 40) % 20;
    match (number >> 50) % 3 {
        0 => small,
        1 => u64::MAX - small,
        _ => spread_to(small),
    }
}

/// An insert on both. Whether they answer the same.
fn inserts_alike<'t, D: Domain<Value = u64>, R: Wait>(
    rt: &R,
    desk: &'t Desk<'t, D>,
    trie: &SharedTrie<'t, D>,
    model: &mut BTreeMap<u64, u64>,
    entry: (u64, u64),
) -> Result<bool, Fault> {
    let (key, number) = entry;
    let here = model.get(&key).copied();
    let was = trie.insert(rt, keyed(desk, key, number)?)?;
    model.insert(key, number)?;
    Ok(value(rt, was)? == here)
}

/// The same where the key is absent.
fn fills_alike<'t, D: Domain<Value = u64>, R: Wait>(
    rt: &R,
    desk: &'t Desk<'t, D>,
    trie: &SharedTrie<'t, D>,
    model: &mut BTreeMap<u64, u64>,
    entry: (u64, u64),
) -> Result<bool, Fault> {
    let (key, number) = entry;
    let here = model.get(&key).copied();
    match trie.insert_if_absent(rt, keyed(desk, key, number)?)? {
        Some(occupied) => {
            let there = value(rt, Some(occupied.there))?;
            let back = value(rt, Some(occupied.back))?;
            Ok(there == here && back == Some(number))
        }
        None => {
            model.insert(key, number)?;
            Ok(here.is_none())
        }
    }
}

/// One call on both, by a number. Whether they answer the same.
fn same<'t, D: Domain<Value = u64>, R: Wait>(
    rt: &R,
    desk: &'t Desk<'t, D>,
    trie: &SharedTrie<'t, D>,
    model: &mut BTreeMap<u64, u64>,
    number: u64,
) -> Result<bool, Fault> {
    let key = key_of(number);
    match (number >> 33) % 4 {
        0 => Ok(value(rt, trie.get(rt, key)?)? == model.get(&key).copied()),
        1 => inserts_alike(rt, desk, trie, model, (key, number)),
        2 => fills_alike(rt, desk, trie, model, (key, number)),
        _ => Ok(value(rt, trie.remove(rt, key)?)? == model.remove(&key)),
    }
}

impl<R: Threads + Wait> Program<u64, R> for Beside {
    fn work<D: Domain<Value = u64>>(
        &self,
        rt: &R,
        _number: usize,
        desk: &Desk<D>,
    ) -> Result<(), Fault> {
        let trie = SharedTrie::open(rt, desk, &desk.cell(TRIE))?;
        let mut model = BTreeMap::new(self.alloc);
        let mut number = 1u64;
        for call in 0..CALLS {
            number = number
                .wrapping_mul(6_364_136_223_846_793_005)
                .wrapping_add(1_442_695_040_888_963_407);
            row(call, same(rt, desk, &trie, &mut model, number)?)?;
        }
        row(CALLS, trie.retain(rt, &mut Nothing)? == model.len())?;
        desk.clear(TRIE)
    }
}

#[test]
fn a_trie_answers_as_a_sequential_map(rt: HostRuntime) {
    let size = Size {
        workers: 1,
        pointers: 12,
        blocks: 400,
        owners: 8,
    };
    let alloc = rt.alloc();
    plays(&rt, alloc, size, &Beside { alloc });
}
