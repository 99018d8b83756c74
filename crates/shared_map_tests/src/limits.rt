//! Maps at the last number and the next.

use crate::plays::{MAP, NoOwner, Size, plays, row};
use pointers::{Call, Desk, Domain, Fault, Program, Refusal, SharedCell, Spot};
use shared_map::SharedMap;
use std::alloc::Global;
use std::sync::Wait;
use std::thread::Threads;

/// The fault of a make that finds no vacant block.
const FULL: Fault = Fault::Refused(Call::Make, Refusal::Full);

/// A domain whose blocks a map of so many buckets fills with so many keys: one object is at all of them.
#[derive(Drop)]
struct Filled {
    alloc: Global,
    buckets: u32,
    keys: u64,
}

impl<R: Threads + Wait> Program<u64, R> for Filled {
    fn work<D: Domain<Value = u64>>(
        &self,
        rt: &R,
        _number: usize,
        desk: &Desk<D>,
    ) -> Result<(), Fault> {
        let mut map = SharedMap::open(rt, desk, self.alloc, MAP, self.buckets)?;
        row(8, map.buckets() == self.buckets as usize)?;
        let one = desk.new(1)?;
        for key in 0..self.keys {
            row(1, map.insert(rt, key, one.share()?)?.is_none())?;
        }
        row(
            2,
            map.insert(rt, self.keys, one.share()?).err() == Some(FULL),
        )?;
        row(3, map.get(rt, self.keys)?.is_none())?;
        for key in 0..self.keys {
            row(4, map.get(rt, key)?.is_some())?;
        }
        let owners = u64::from(one.use_count()?);
        row(5, owners.checked_sub(1) == Some(self.keys))?;
        row(6, map.retain(rt, &mut NoOwner)? as u64 == self.keys)?;
        row(7, one.use_count()? == 1)
    }
}

#[test]
fn a_small_domain_is_full(rt: HostRuntime) {
    let size = Size {
        workers: 1,
        pointers: 6,
        blocks: 6,
        kept: 5,
    };
    let play = Filled {
        alloc: rt.alloc(),
        buckets: 2,
        keys: 3,
    };
    plays(&rt, rt.alloc(), size, &play);
}

#[test]
fn a_map_of_70_000_buckets_is_full(rt: HostRuntime) {
    let size = Size {
        workers: 1,
        pointers: 70_010,
        blocks: 80_000,
        kept: 79_999,
    };
    let play = Filled {
        alloc: rt.alloc(),
        buckets: 70_000,
        keys: 9_999,
    };
    plays(&rt, rt.alloc(), size, &play);
}

/// What is refused when a map is opened: a cell that isn't there, objects, pointers; and a call within a visit.
#[derive(Drop)]
struct Refused {
    alloc: Global,
}

impl<R: Threads + Wait> Program<u64, R> for Refused {
    fn work<D: Domain<Value = u64>>(
        &self,
        rt: &R,
        _number: usize,
        desk: &Desk<D>,
    ) -> Result<(), Fault> {
        let none = SharedMap::open(rt, desk, self.alloc, SharedCell(2), 1).err();
        row(1, none == Some(Fault::Cell(Call::Load(Spot::Shared(2)))))?;
        let many = SharedMap::open(rt, desk, self.alloc, MAP, 9).err();
        row(2, many == Some(FULL))?;
        desk.clear(MAP)?;
        let busy = desk.new(0)?;
        let mut map = SharedMap::open(rt, desk, self.alloc, SharedCell(1), 0)?;
        row(3, map.buckets() == 1 && desk.load(rt, MAP)?.is_none())?;
        let why = busy.visit(rt, |_| map.get(rt, 1).err())?;
        row(4, why == Some(Fault::Busy(Call::Load(Spot::Owner(1)))))
    }
}

#[test]
fn an_opening_is_refused(rt: HostRuntime) {
    let size = Size {
        workers: 1,
        pointers: 16,
        blocks: 8,
        kept: 1,
    };
    let alloc = rt.alloc();
    plays(&rt, alloc, size, &Refused { alloc });
}

/// A map with more buckets than the worker may have pointers.
#[derive(Drop)]
struct Crowded {
    alloc: Global,
}

impl<R: Threads + Wait> Program<u64, R> for Crowded {
    fn work<D: Domain<Value = u64>>(
        &self,
        rt: &R,
        _number: usize,
        desk: &Desk<D>,
    ) -> Result<(), Fault> {
        match SharedMap::open(rt, desk, self.alloc, MAP, 40).err() {
            Some(Fault::Crowded(_)) => {}
            _ => return row(1, false),
        }
        desk.clear(MAP)?;
        let map = SharedMap::open(rt, desk, self.alloc, MAP, 8)?;
        row(2, map.buckets() == 8)
    }
}

#[test]
fn a_map_takes_a_pointer_for_each_bucket(rt: HostRuntime) {
    let size = Size {
        workers: 1,
        pointers: 10,
        blocks: 50,
        kept: 8,
    };
    let alloc = rt.alloc();
    plays(&rt, alloc, size, &Crowded { alloc });
}
