//! Each call on a vector, with ample memory.

use crate::plays::{Play, Size, VECTOR, numbered, plays_alone, read, row};
use pointers::{Desk, Domain, Fault};
use shared_vec::SharedVec;
use std::sync::Wait;

/// So many elements: more than a leaf, and more than a root above leaves, has.
const MANY: u64 = 600;

#[derive(Drop)]
struct Calls;

/// In a vector of none there is nothing to get, set or pop.
fn is_of_none<'t, D: Domain<Value = u64>, R: Wait>(
    rt: &R,
    desk: &'t Desk<'t, D>,
    vector: &mut SharedVec<'_, 't, D>,
) -> Result<(), Fault> {
    row(1, vector.len(rt)? == 0 && vector.pop(rt)?.is_none())?;
    row(
        2,
        vector.get(rt, 0)?.is_none() && vector.get(rt, usize::MAX)?.is_none(),
    )?;
    let back = vector.set(rt, 0, numbered(desk, 7)?)?;
    row(3, read(back)? == Some(7) && vector.get(rt, 0)?.is_none())
}

/// Elements come one behind another, and each is at its index.
fn comes<'t, D: Domain<Value = u64>, R: Wait>(
    rt: &R,
    desk: &'t Desk<'t, D>,
    vector: &mut SharedVec<'_, 't, D>,
) -> Result<(), Fault> {
    for number in 0..MANY {
        let index = vector.push(rt, numbered(desk, number)?)?;
        row(4, index as u64 == number)?;
    }
    for number in 0..MANY {
        row(5, read(vector.get(rt, number as usize)?)? == Some(number))?;
    }
    row(6, vector.len(rt)? as u64 == MANY)?;
    row(
        7,
        vector.get(rt, MANY as usize)?.is_none() && vector.get(rt, 4_096)?.is_none(),
    )
}

/// What is set is there, and nothing is set behind the last element.
fn is_set<'t, D: Domain<Value = u64>, R: Wait>(
    rt: &R,
    desk: &'t Desk<'t, D>,
    vector: &mut SharedVec<'_, 't, D>,
) -> Result<(), Fault> {
    for index in [0, 7, 8, 63, 64, 511, 512, 599] {
        let back = vector.set(rt, index, numbered(desk, index as u64 + 1_000)?)?;
        row(8, back.is_none())?;
    }
    row(9, read(vector.get(rt, 63)?)? == Some(1_063))?;
    row(
        10,
        read(vector.get(rt, 62)?)? == Some(62) && read(vector.get(rt, 65)?)? == Some(65),
    )?;
    row(11, read(vector.get(rt, 512)?)? == Some(1_512))?;
    let back = vector.set(rt, 600, numbered(desk, 5)?)?;
    row(12, read(back)? == Some(5) && vector.len(rt)? == 600)
}

/// Elements go from the last on, and come again.
fn goes<'t, D: Domain<Value = u64>, R: Wait>(
    rt: &R,
    desk: &'t Desk<'t, D>,
    vector: &mut SharedVec<'_, 't, D>,
) -> Result<(), Fault> {
    row(
        13,
        read(vector.pop(rt)?)? == Some(1_599) && vector.len(rt)? == 599,
    )?;
    for _ in 0..590 {
        row(14, vector.pop(rt)?.is_some())?;
    }
    row(15, vector.len(rt)? == 9 && vector.get(rt, 9)?.is_none())?;
    row(16, vector.push(rt, numbered(desk, 90)?)? == 9)?;
    row(
        17,
        read(vector.get(rt, 9)?)? == Some(90) && read(vector.get(rt, 8)?)? == Some(1_008),
    )?;
    for _ in 0..10 {
        row(18, vector.pop(rt)?.is_some())?;
    }
    row(19, vector.pop(rt)?.is_none() && vector.len(rt)? == 0)
}

/// Elements from an index on leave, and no other.
fn is_truncated<'t, D: Domain<Value = u64>, R: Wait>(
    rt: &R,
    desk: &'t Desk<'t, D>,
    vector: &mut SharedVec<'_, 't, D>,
) -> Result<(), Fault> {
    vector.truncate(rt, 601)?;
    vector.truncate(rt, 600)?;
    row(24, vector.len(rt)? == 600)?;
    vector.truncate(rt, 513)?;
    row(25, vector.len(rt)? == 513 && vector.get(rt, 513)?.is_none())?;
    row(26, read(vector.get(rt, 512)?)? == Some(512))?;
    row(27, vector.push(rt, numbered(desk, 7)?)? == 513)?;
    vector.truncate(rt, 0)?;
    row(28, vector.len(rt)? == 0 && vector.pop(rt)?.is_none())
}

impl Play for Calls {
    fn play<'t, D: Domain<Value = u64>, R: Wait>(
        &self,
        rt: &R,
        desk: &'t Desk<'t, D>,
        vector: &mut SharedVec<'t, 't, D>,
    ) -> Result<(), Fault> {
        is_of_none(rt, desk, vector)?;
        comes(rt, desk, vector)?;
        is_set(rt, desk, vector)?;
        let mut again = SharedVec::at(desk, desk.cell(VECTOR));
        row(20, again.len(rt)? == 600)?;
        goes(rt, desk, vector)?;
        row(21, again.len(rt)? == 0)?;
        comes(rt, desk, &mut again)?;
        is_truncated(rt, desk, vector)?;
        let object = numbered(desk, 1)?;
        let mut inner = SharedVec::at(desk, object.owner(5));
        row(22, inner.push(rt, numbered(desk, 2)?)? == 0)?;
        row(
            23,
            read(inner.get(rt, 0)?)? == Some(2) && object.owner(4).load(rt)?.is_none(),
        )
    }
}

#[test]
fn elements_come_and_go(rt: HostRuntime) {
    plays_alone(&rt, rt.alloc(), Size::alone(720), Calls);
}
