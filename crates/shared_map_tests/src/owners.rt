//! Each call on the owners of a map, with ample memory: in one bucket, so that all keys collide, and in three.

use crate::plays::{MAP, Size, plays, row};
use pointers::{Desk, Domain, Fault, Program, Shared};
use shared_map::{Keep, SharedMap, hash_of};
use std::alloc::Global;
use std::sync::Wait;
use std::thread::Threads;

/// Owners in a map of so many buckets.
#[derive(Drop)]
struct Owners {
    alloc: Global,
    buckets: u16,
}

/// What the owner reads, 0 where there is none.
fn read<D: Domain>(owner: Option<Shared<'_, D>>) -> Result<u64, Fault> {
    match owner {
        Some(owner) => owner.read(),
        None => Ok(0),
    }
}

/// Three keys get owners, and lose them.
fn comes_and_goes<'t, D: Domain<Value = u64>, R: Wait>(
    rt: &R,
    desk: &'t Desk<'t, D>,
    map: &mut SharedMap<'t, D>,
) -> Result<(), Fault> {
    row(1, map.get(rt, 7)?.is_none() && map.remove(rt, 7)?.is_none())?;
    for (key, field) in [(7, 70), (8, 80), (u64::MAX, 90)] {
        row(
            2,
            map.insert(rt, key, desk.make([field, 0, 0, 0], 1)?)?
                .is_none(),
        )?;
    }
    row(
        3,
        read(map.get(rt, 7)?)? == 70 && read(map.get(rt, 8)?)? == 80,
    )?;
    row(
        4,
        read(map.get(rt, u64::MAX)?)? == 90 && map.get(rt, 9)?.is_none(),
    )?;
    let was = map.insert(rt, 8, desk.make([81, 0, 0, 0], 1)?)?;
    row(5, read(was)? == 80 && read(map.get(rt, 8)?)? == 81)?;
    row(
        6,
        read(map.remove(rt, 7)?)? == 70 && map.get(rt, 7)?.is_none(),
    )?;
    row(
        7,
        map.remove(rt, 7)?.is_none() && read(map.get(rt, 8)?)? == 81,
    )?;
    let new = desk.make([71, 0, 0, 0], 1)?;
    row(8, map.insert_if_absent(rt, 7, new)?.is_none())?;
    let new = desk.make([72, 0, 0, 0], 1)?;
    let there = map.insert_if_absent(rt, 7, new.share()?)?;
    row(9, read(there)? == 71 && read(map.get(rt, 7)?)? == 71)?;
    row(10, new.use_count()? == 1)
}

/// Keeps owners at even keys, and sums up what all read. Where it is told so it ends with a fault.
#[derive(Drop)]
struct Even {
    sum: u64,
    ends: bool,
}

impl<D: Domain> Keep<D> for Even {
    fn keeps(&mut self, key: u64, owner: &Shared<'_, D>) -> Result<bool, Fault> {
        if self.ends {
            return Err(Fault::Other(99));
        }
        self.sum = self.sum.wrapping_add(owner.read()?);
        Ok(key % 2 == 0)
    }
}

/// Of the keys with owners the even ones are kept.
fn is_retained<'t, D: Domain<Value = u64>, R: Wait>(
    rt: &R,
    map: &mut SharedMap<'t, D>,
) -> Result<(), Fault> {
    let mut even = Even {
        sum: 0,
        ends: false,
    };
    row(
        11,
        map.retain(rt, &mut even)? == 2 && even.sum == 71 + 81 + 90,
    )?;
    row(
        12,
        read(map.get(rt, 8)?)? == 81 && map.get(rt, 7)?.is_none(),
    )?;
    row(13, map.retain(rt, &mut even)? == 0)?;
    even.ends = true;
    row(
        14,
        map.retain(rt, &mut even).err() == Some(Fault::Other(99)),
    )?;
    row(15, read(map.remove(rt, 8)?)? == 81)
}

impl<R: Threads + Wait> Program<u64, R> for Owners {
    fn work<D: Domain<Value = u64>>(
        &self,
        rt: &R,
        _number: usize,
        desk: &Desk<D>,
    ) -> Result<(), Fault> {
        let mut map = SharedMap::open(rt, desk, self.alloc, MAP, u32::from(self.buckets))?;
        row(20, map.buckets() == usize::from(self.buckets))?;
        comes_and_goes(rt, desk, &mut map)?;
        is_retained(rt, &mut map)?;
        let mut again = SharedMap::open(rt, desk, self.alloc, MAP, 100)?;
        row(21, again.buckets() == usize::from(self.buckets))?;
        let (key, other) = (hash_of(&"one"), hash_of(&"two"));
        row(22, key != other && key == hash_of(&"one"))?;
        again.insert(rt, key, desk.new(5)?)?;
        row(
            23,
            map.get(rt, key)?.is_some() && map.get(rt, other)?.is_none(),
        )?;
        row(
            24,
            map.remove(rt, key)?.is_some() && again.get(rt, key)?.is_none(),
        )
    }
}

/// Four keys are in the map at the end, without owners.
fn owners_in(buckets: u16, alloc: Global) -> (Size, Owners) {
    let kept = u32::from(buckets) + 4;
    let size = Size {
        workers: 1,
        pointers: 2 * u32::from(buckets) + 6,
        blocks: kept + 3,
        kept,
    };
    (size, Owners { alloc, buckets })
}

#[test]
fn owners_come_and_go_in_one_bucket(rt: HostRuntime) {
    let (size, play) = owners_in(1, rt.alloc());
    plays(&rt, rt.alloc(), size, &play);
}

#[test]
fn owners_come_and_go_in_three_buckets(rt: HostRuntime) {
    let (size, play) = owners_in(3, rt.alloc());
    plays(&rt, rt.alloc(), size, &play);
}
