//! Each call on a trie, with ample memory.

use crate::plays::{Size, TRIE, keyed, plays, row, spread_to, value};
use pointers::{Desk, Domain, Fault, Program};
use shared_trie::SharedTrie;
use std::sync::Wait;
use std::thread::Threads;

/// So many keys: more than a node has members, and more than nodes of two levels have.
const MANY: u64 = 300;

#[derive(Drop)]
struct Calls;

/// Objects come in, and each is found by its key.
fn comes<'t, D: Domain<Value = u64>, R: Wait>(
    rt: &R,
    desk: &'t Desk<'t, D>,
    trie: &SharedTrie<'t, D>,
) -> Result<(), Fault> {
    row(
        1,
        trie.get(rt, 0)?.is_none() && trie.remove(rt, u64::MAX)?.is_none(),
    )?;
    for key in 0..MANY {
        row(2, trie.insert(rt, keyed(desk, key, key + 1)?)?.is_none())?;
    }
    for key in 0..MANY {
        row(3, value(rt, trie.get(rt, key)?)? == Some(key + 1))?;
    }
    row(
        4,
        trie.get(rt, MANY)?.is_none() && trie.get(rt, u64::MAX)?.is_none(),
    )
}

/// An object takes the place of the one of its key, or comes back where it is not to.
fn is_replaced<'t, D: Domain<Value = u64>, R: Wait>(
    rt: &R,
    desk: &'t Desk<'t, D>,
    trie: &SharedTrie<'t, D>,
) -> Result<(), Fault> {
    row(
        5,
        value(rt, trie.insert(rt, keyed(desk, 7, 1_000)?)?)? == Some(8),
    )?;
    row(6, value(rt, trie.get(rt, 7)?)? == Some(1_000))?;
    match trie.insert_if_absent(rt, keyed(desk, 7, 2_000)?)? {
        Some(occupied) => {
            row(7, value(rt, Some(occupied.there))? == Some(1_000))?;
            row(8, value(rt, Some(occupied.back))? == Some(2_000))
        }
        None => row(9, false),
    }
}

/// A key's object comes out, and another comes in.
fn goes_and_comes<'t, D: Domain<Value = u64>, R: Wait>(
    rt: &R,
    desk: &'t Desk<'t, D>,
    trie: &SharedTrie<'t, D>,
) -> Result<(), Fault> {
    row(10, value(rt, trie.remove(rt, 7)?)? == Some(1_000))?;
    row(
        11,
        trie.get(rt, 7)?.is_none() && trie.remove(rt, 7)?.is_none(),
    )?;
    row(
        12,
        trie.insert_if_absent(rt, keyed(desk, 7, 3_000)?)?.is_none(),
    )?;
    row(
        13,
        value(rt, trie.get(rt, 7)?)? == Some(3_000) && value(rt, trie.get(rt, 8)?)? == Some(9),
    )
}

/// Keys whose ways part at their last member, and the last key.
fn go_deep<'t, D: Domain<Value = u64>, R: Wait>(
    rt: &R,
    desk: &'t Desk<'t, D>,
    trie: &SharedTrie<'t, D>,
) -> Result<(), Fault> {
    for number in [0, 1, 2, 3, 64, u64::MAX] {
        let key = spread_to(number);
        drop(trie.insert(rt, keyed(desk, key, number ^ 5)?)?);
    }
    drop(trie.insert(rt, keyed(desk, u64::MAX, 77)?)?);
    Ok(())
}

/// Each of them is found, and no neighbour of theirs.
fn are_found_deep<D: Domain<Value = u64>, R: Wait>(
    rt: &R,
    trie: &SharedTrie<'_, D>,
) -> Result<(), Fault> {
    for number in [0, 1, 2, 3, 64, u64::MAX] {
        row(
            14,
            value(rt, trie.get(rt, spread_to(number))?)? == Some(number ^ 5),
        )?;
    }
    row(15, value(rt, trie.get(rt, 0)?)? == Some(5))?;
    row(16, value(rt, trie.get(rt, u64::MAX)?)? == Some(77))?;
    row(17, trie.get(rt, spread_to(4))?.is_none())?;
    row(18, value(rt, trie.remove(rt, spread_to(1))?)? == Some(4))?;
    row(19, trie.get(rt, spread_to(1))?.is_none())?;
    row(20, value(rt, trie.get(rt, spread_to(0))?)? == Some(5))
}

/// Whoever opens the map of a place has the same one, and takes out what came in.
fn is_opened_again<'t, D: Domain<Value = u64>, R: Wait>(
    rt: &R,
    desk: &'t Desk<'t, D>,
    trie: &SharedTrie<'t, D>,
) -> Result<(), Fault> {
    let again = SharedTrie::open(rt, desk, &desk.cell(TRIE))?;
    row(21, value(rt, again.get(rt, 9)?)? == Some(10))?;
    for key in 0..MANY {
        drop(again.remove(rt, key)?);
    }
    row(22, trie.get(rt, 9)?.is_none())
}

/// A map in a member of an object is another one.
fn lies_in_a_member<'t, D: Domain<Value = u64>, R: Wait>(
    rt: &R,
    desk: &'t Desk<'t, D>,
    trie: &SharedTrie<'t, D>,
) -> Result<(), Fault> {
    let object = keyed(desk, 1, 0)?;
    let inner = SharedTrie::open(rt, desk, &object.owner(5))?;
    row(23, inner.insert(rt, keyed(desk, 3, 4)?)?.is_none())?;
    row(24, value(rt, inner.get(rt, 3)?)? == Some(4))?;
    row(25, trie.get(rt, 3)?.is_none())
}

impl<R: Threads + Wait> Program<u64, R> for Calls {
    fn work<D: Domain<Value = u64>>(
        &self,
        rt: &R,
        _number: usize,
        desk: &Desk<D>,
    ) -> Result<(), Fault> {
        let trie = SharedTrie::open(rt, desk, &desk.cell(TRIE))?;
        comes(rt, desk, &trie)?;
        is_replaced(rt, desk, &trie)?;
        goes_and_comes(rt, desk, &trie)?;
        go_deep(rt, desk, &trie)?;
        are_found_deep(rt, &trie)?;
        is_opened_again(rt, desk, &trie)?;
        lies_in_a_member(rt, desk, &trie)?;
        desk.clear(TRIE)
    }
}

#[test]
fn objects_come_and_go(rt: HostRuntime) {
    let size = Size {
        workers: 1,
        pointers: 12,
        blocks: 540,
        owners: 8,
    };
    plays(&rt, rt.alloc(), size, &Calls);
}
