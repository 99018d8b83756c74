//! Tries in full domains, and what is refused. No pointer is lost by it.

use crate::plays::{Size, TRIE, keyed, plays, refused, row, spread_to, value};
use pointers::{Call, Desk, Domain, Fault, Place, Program, Refusal, Shared, SharedCell, Spot};
use shared_trie::SharedTrie;
use std::sync::Wait;
use std::thread::Threads;

/// The fault of a make that finds no vacant block.
const FULL: Fault = Fault::Refused(Call::Make, Refusal::Full);

/// The fault of a call that finds an object which no trie put there.
const FOREIGN: Fault = Fault::Refused(Call::Read, Refusal::Outside);

/// An object comes back that wants a node on each level, since there are not so many blocks.
fn comes_back<'t, D: Domain<Value = u64>, R: Wait>(
    rt: &R,
    trie: &SharedTrie<'t, D>,
    new: &Shared<'t, D>,
) -> Result<(), Fault> {
    row(
        2,
        refused(trie.insert(rt, new.share()?))? == (FULL, spread_to(1)),
    )?;
    row(
        3,
        refused(trie.insert_if_absent(rt, new.share()?))? == (FULL, spread_to(1)),
    )?;
    row(4, new.use_count()? == 1)?;
    row(5, trie.get(rt, spread_to(1))?.is_none())
}

/// Two keys that go one way to the last level don't fit. Where the one comes out, the other goes in.
#[derive(Drop)]
struct Filled;

impl<R: Threads + Wait> Program<u64, R> for Filled {
    fn work<D: Domain<Value = u64>>(
        &self,
        rt: &R,
        _number: usize,
        desk: &Desk<D>,
    ) -> Result<(), Fault> {
        let trie = SharedTrie::open(rt, desk, &desk.cell(TRIE))?;
        drop(trie.insert(rt, keyed(desk, spread_to(0), 10)?)?);
        let new = keyed(desk, spread_to(1), 11)?;
        comes_back(rt, &trie, &new)?;
        row(6, value(rt, trie.get(rt, spread_to(0))?)? == Some(10))?;
        row(7, value(rt, trie.remove(rt, spread_to(0))?)? == Some(10))?;
        row(8, trie.insert(rt, new)?.is_none())?;
        row(9, value(rt, trie.get(rt, spread_to(1))?)? == Some(11))?;
        desk.clear(TRIE)
    }
}

#[test]
fn a_small_domain_is_full(rt: HostRuntime) {
    let size = Size {
        workers: 1,
        pointers: 12,
        blocks: 20,
        owners: 8,
    };
    plays(&rt, rt.alloc(), size, &Filled);
}

/// There is no map in a cell that isn't there, and none in one with an object of the program.
fn has_no_map<'t, D: Domain<Value = u64>, R: Wait>(
    rt: &R,
    desk: &'t Desk<'t, D>,
    object: &Shared<'t, D>,
) -> Result<(), Fault> {
    let none = SharedTrie::open(rt, desk, &desk.cell(SharedCell(2)));
    row(
        1,
        none.err() == Some(Fault::Cell(Call::Load(Spot::Shared(2)))),
    )?;
    object.share()?.store(SharedCell(1))?;
    let other = SharedTrie::open(rt, desk, &desk.cell(SharedCell(1)));
    row(2, other.err() == Some(FOREIGN))?;
    desk.clear(SharedCell(1))
}

/// A pointer at the last field has no key.
fn has_no_key<'t, D: Domain<Value = u64>, R: Wait>(
    rt: &R,
    trie: &SharedTrie<'t, D>,
    object: &Shared<'t, D>,
) -> Result<(), Fault> {
    let Some(place) = object.place() else {
        return row(3, false);
    };
    let block = place.block;
    let last = object.alias(Some(Place { block, field: 3 }))?;
    match trie.insert(rt, last) {
        Ok(_) => row(4, false),
        Err(refused) => row(5, refused.why == FOREIGN && refused.back.is(object)),
    }
}

/// A pointer that points nowhere has none either.
fn points_nowhere<'t, D: Domain<Value = u64>, R: Wait>(
    rt: &R,
    trie: &SharedTrie<'t, D>,
    object: &Shared<'t, D>,
) -> Result<(), Fault> {
    match trie.insert_if_absent(rt, object.alias(None)?) {
        Ok(_) => row(6, false),
        Err(refused) => row(
            7,
            refused.why == Fault::Refused(Call::Read, Refusal::Null) && refused.back.is(object),
        ),
    }
}

/// What is no map, and what has no key; and a call within a visit.
#[derive(Drop)]
struct Misused;

impl<R: Threads + Wait> Program<u64, R> for Misused {
    fn work<D: Domain<Value = u64>>(
        &self,
        rt: &R,
        _number: usize,
        desk: &Desk<D>,
    ) -> Result<(), Fault> {
        let object = keyed(desk, 5, 6)?;
        has_no_map(rt, desk, &object)?;
        let trie = SharedTrie::open(rt, desk, &desk.cell(TRIE))?;
        has_no_key(rt, &trie, &object)?;
        points_nowhere(rt, &trie, &object)?;
        let busy = object.visit(rt, |_| trie.get(rt, 0).err())?;
        row(8, matches!(busy, Some(Fault::Busy(_))))?;
        desk.clear(TRIE)
    }
}

#[test]
fn misuse_is_refused(rt: HostRuntime) {
    let size = Size {
        workers: 1,
        pointers: 12,
        blocks: 10,
        owners: 8,
    };
    plays(&rt, rt.alloc(), size, &Misused);
}

/// A domain whose objects have two owners: most keys are refused, and none is lost.
#[derive(Drop)]
struct Narrow;

impl<R: Threads + Wait> Program<u64, R> for Narrow {
    fn work<D: Domain<Value = u64>>(
        &self,
        rt: &R,
        _number: usize,
        desk: &Desk<D>,
    ) -> Result<(), Fault> {
        let trie = SharedTrie::open(rt, desk, &desk.cell(TRIE))?;
        row(1, trie.insert(rt, keyed(desk, 0, 0)?)?.is_none())?;
        let last = spread_to(u64::MAX);
        let why = Fault::Member(Call::Load(Spot::Owner(7)));
        row(2, trie.get(rt, last).err() == Some(why))?;
        row(3, trie.remove(rt, last).err() == Some(why))?;
        row(
            4,
            refused(trie.insert(rt, keyed(desk, last, 2)?))? == (why, last),
        )?;
        row(5, value(rt, trie.get(rt, 0)?)? == Some(0))?;
        desk.clear(TRIE)
    }
}

#[test]
fn objects_with_two_owners_are_too_narrow(rt: HostRuntime) {
    let size = Size {
        workers: 1,
        pointers: 12,
        blocks: 10,
        owners: 2,
    };
    plays(&rt, rt.alloc(), size, &Narrow);
}

/// With three pointers too many an insert is refused, and its pointer comes back.
fn is_crowded<'t, D: Domain<Value = u64>, R: Wait>(
    rt: &R,
    trie: &SharedTrie<'t, D>,
    one: &Shared<'t, D>,
) -> Result<(), Fault> {
    let _first = one.share()?;
    let _second = one.share()?;
    let _third = one.share()?;
    match refused(trie.insert(rt, one.share()?))? {
        (Fault::Crowded(_), key) => row(2, key == spread_to(1)),
        _ => row(3, false),
    }
}

/// A worker has as many pointers as it may: no call loses one. With four more an insert makes all nodes that it wants.
#[derive(Drop)]
struct Crowded;

impl<R: Threads + Wait> Program<u64, R> for Crowded {
    fn work<D: Domain<Value = u64>>(
        &self,
        rt: &R,
        _number: usize,
        desk: &Desk<D>,
    ) -> Result<(), Fault> {
        let trie = SharedTrie::open(rt, desk, &desk.cell(TRIE))?;
        row(1, trie.insert(rt, keyed(desk, spread_to(0), 5)?)?.is_none())?;
        let one = keyed(desk, spread_to(1), 6)?;
        is_crowded(rt, &trie, &one)?;
        row(4, trie.insert(rt, one)?.is_none())?;
        row(5, value(rt, trie.get(rt, spread_to(0))?)? == Some(5))?;
        row(6, value(rt, trie.remove(rt, spread_to(1))?)? == Some(6))?;
        desk.clear(TRIE)
    }
}

#[test]
fn a_crowded_desk_gets_its_pointer_back(rt: HostRuntime) {
    let size = Size {
        workers: 1,
        pointers: 4,
        blocks: 30,
        owners: 8,
    };
    plays(&rt, rt.alloc(), size, &Crowded);
}
