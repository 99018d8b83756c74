//! Each call on the weak pointers of a map, with ample memory.

use crate::plays::{MAP, Size, plays, row};
use pointers::{Desk, Domain, Fault, Program, Shared};
use shared_map::SharedMap;
use std::alloc::Global;
use std::sync::Wait;
use std::thread::Threads;

/// Weak pointers in a map of two buckets.
#[derive(Drop)]
struct Weaks {
    alloc: Global,
}

/// Whether it is an owner of the same object.
fn is_of<'t, D: Domain>(came: Option<Shared<'t, D>>, owner: &Shared<'t, D>) -> bool {
    match came {
        Some(came) => came.is(owner),
        None => false,
    }
}

impl<R: Threads + Wait> Program<u64, R> for Weaks {
    fn work<D: Domain<Value = u64>>(
        &self,
        rt: &R,
        _number: usize,
        desk: &Desk<D>,
    ) -> Result<(), Fault> {
        let mut map = SharedMap::open(rt, desk, self.alloc, MAP, 2)?;
        row(
            1,
            map.get_weak(rt, 5)?.is_none() && map.lock(rt, 5)?.is_none(),
        )?;
        let one = desk.new(1)?;
        row(2, map.insert_weak(rt, 5, one.downgrade()?)?.is_none())?;
        row(
            3,
            map.get_weak(rt, 5)?.is_some() && is_of(map.lock(rt, 5)?, &one),
        )?;
        row(4, map.get(rt, 5)?.is_none() && one.use_count()? == 1)?;
        let two = desk.new(2)?;
        let there = map.insert_weak_if_expired(rt, 5, two.downgrade()?)?;
        row(5, is_of(there, &one))?;
        row(6, map.remove_expired(rt)? == 0)?;
        drop(one);
        row(
            7,
            map.lock(rt, 5)?.is_none() && map.get_weak(rt, 5)?.is_some(),
        )?;
        row(
            8,
            map.insert_weak_if_expired(rt, 5, two.downgrade()?)?
                .is_none(),
        )?;
        row(9, is_of(map.lock(rt, 5)?, &two))?;
        row(
            10,
            map.insert_weak_if_expired(rt, 6, two.downgrade()?)?
                .is_none(),
        )?;
        row(11, is_of(map.lock(rt, 6)?, &two))?;
        let was = map.insert_weak(rt, 6, desk.new(3)?.downgrade()?)?;
        row(12, was.is_some() && map.lock(rt, 6)?.is_none())?;
        row(
            13,
            map.remove_expired(rt)? == 1 && map.get_weak(rt, 6)?.is_none(),
        )?;
        row(
            14,
            map.remove_weak(rt, 5)?.is_some() && map.remove_weak(rt, 5)?.is_none(),
        )?;
        row(15, map.remove_weak(rt, 7)?.is_none())
    }
}

#[test]
fn weak_pointers_come_and_go(rt: HostRuntime) {
    let size = Size {
        workers: 1,
        pointers: 9,
        blocks: 7,
        kept: 4,
    };
    let alloc = rt.alloc();
    plays(&rt, alloc, size, &Weaks { alloc });
}
