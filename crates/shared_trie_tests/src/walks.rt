//! Walks over a whole trie.

use crate::plays::{Nothing, Size, TRIE, keyed, plays, row, spread_to};
use pointers::{Desk, Domain, Fault, Program, Shared};
use shared_trie::{Keep, SharedTrie};
use std::sync::Wait;
use std::thread::Threads;

/// So many keys, from 0 on.
const MANY: u64 = 300;

/// Keeps each third key, and counts what it is asked about. Or it ends the walk.
#[derive(Drop)]
struct Thirds {
    asked: u64,
    sum: u64,
    ends: bool,
}

impl<D: Domain> Keep<D> for Thirds {
    fn keeps(&mut self, key: u64, owner: &Shared<'_, D>) -> Result<bool, Fault> {
        if self.ends {
            return Err(Fault::Other(99));
        }
        row(1, owner.read()? == key)?;
        self.asked = self.asked.wrapping_add(1);
        self.sum = self.sum.wrapping_add(key);
        Ok(key % 3 == 0)
    }
}

/// Each third key stays, and each was asked about once. A keeper's fault ends the walk.
fn thirds_stay<D: Domain<Value = u64>, R: Wait>(
    rt: &R,
    trie: &SharedTrie<'_, D>,
) -> Result<(), Fault> {
    let mut thirds = Thirds {
        asked: 0,
        sum: 0,
        ends: false,
    };
    row(2, trie.retain(rt, &mut thirds)? == 200)?;
    row(3, thirds.asked == MANY && thirds.sum == 44_850)?;
    row(
        4,
        trie.get(rt, 298)?.is_none() && trie.get(rt, 297)?.is_some(),
    )?;
    row(5, trie.retain(rt, &mut thirds)? == 0 && thirds.asked == 400)?;
    thirds.ends = true;
    row(
        6,
        trie.retain(rt, &mut thirds).err() == Some(Fault::Other(99)),
    )
}

/// The keys at the first place of all, at the next, and at the last one go too.
fn all_go<'t, D: Domain<Value = u64>, R: Wait>(
    rt: &R,
    desk: &'t Desk<'t, D>,
    trie: &SharedTrie<'t, D>,
) -> Result<(), Fault> {
    for place in [1, u64::MAX] {
        let new = keyed(desk, spread_to(place), 0)?;
        row(7, trie.insert(rt, new)?.is_none())?;
    }
    row(8, trie.retain(rt, &mut Nothing)? == 102)?;
    row(
        9,
        trie.get(rt, 0)?.is_none() && trie.get(rt, spread_to(u64::MAX))?.is_none(),
    )?;
    row(10, trie.retain(rt, &mut Nothing)? == 0)
}

/// A worker walks that has four pointers left.
#[derive(Drop)]
struct Walks;

impl<R: Threads + Wait> Program<u64, R> for Walks {
    fn work<D: Domain<Value = u64>>(
        &self,
        rt: &R,
        _number: usize,
        desk: &Desk<D>,
    ) -> Result<(), Fault> {
        let trie = SharedTrie::open(rt, desk, &desk.cell(TRIE))?;
        for key in 0..MANY {
            drop(trie.insert(rt, keyed(desk, key, 0)?)?);
        }
        let another = keyed(desk, MANY, 0)?;
        thirds_stay(rt, &trie)?;
        drop(another);
        all_go(rt, desk, &trie)?;
        desk.clear(TRIE)
    }
}

#[test]
fn a_walk_comes_to_each_key(rt: HostRuntime) {
    let size = Size {
        workers: 1,
        pointers: 4,
        blocks: 500,
        owners: 8,
    };
    plays(&rt, rt.alloc(), size, &Walks);
}
