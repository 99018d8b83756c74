//! Elements that come and go between others.

use crate::plays::{
    Play, Size, fill, insert, numbered, plays_alone, read, reads, refused, remove, row,
};
use pointers::{Call, Desk, Domain, Fault, Refusal, Spot};
use shared_vec::SharedVec;
use std::sync::Wait;

/// Elements are inserted in front, in the middle and at the end, and beyond it none is.
#[derive(Drop)]
struct Inserts;

/// Into a vector of none, in front of its first elements and between them.
fn first_come<'t, D: Domain<Value = u64>, R: Wait>(
    rt: &R,
    desk: &'t Desk<'t, D>,
    vector: &mut SharedVec<'_, 't, D>,
) -> Result<(), Fault> {
    row(1, insert(rt, desk, vector, 1, 9)? == Some(9))?;
    row(2, insert(rt, desk, vector, 0, 4)?.is_none())?;
    row(3, insert(rt, desk, vector, 1, 6)?.is_none())?;
    row(4, insert(rt, desk, vector, 0, 3)?.is_none())?;
    row(5, insert(rt, desk, vector, 2, 5)?.is_none())?;
    row(6, reads(rt, vector, &[3, 4, 5, 6])?)
}

/// In front of a leaf that fills, and before the element that begins the next leaf.
fn a_leaf_fills<'t, D: Domain<Value = u64>, R: Wait>(
    rt: &R,
    desk: &'t Desk<'t, D>,
    vector: &mut SharedVec<'_, 't, D>,
) -> Result<(), Fault> {
    for number in (0..3).rev() {
        row(7, insert(rt, desk, vector, 0, number)?.is_none())?;
    }
    row(8, reads(rt, vector, &[0, 1, 2, 3, 4, 5, 6])?)?;
    row(9, insert(rt, desk, vector, 7, 8)?.is_none())?;
    row(10, insert(rt, desk, vector, 7, 7)?.is_none())?;
    row(11, reads(rt, vector, &[0, 1, 2, 3, 4, 5, 6, 7, 8])?)?;
    row(12, insert(rt, desk, vector, 10, 1)? == Some(1))
}

impl Play for Inserts {
    fn play<'t, D: Domain<Value = u64>, R: Wait>(
        &self,
        rt: &R,
        desk: &'t Desk<'t, D>,
        vector: &mut SharedVec<'t, 't, D>,
    ) -> Result<(), Fault> {
        first_come(rt, desk, vector)?;
        a_leaf_fills(rt, desk, vector)?;
        match vector.get(rt, 8)? {
            Some(last) => row(13, last.use_count()? == 2),
            None => row(13, false),
        }
    }
}

#[test]
fn elements_are_inserted(rt: HostRuntime) {
    plays_alone(&rt, rt.alloc(), Size::alone(20), Inserts);
}

/// Elements are removed in front, in the middle and at the end, and from there on none is.
#[derive(Drop)]
struct Removals;

/// From a vector of none, and from one of ten.
fn first_leave<'t, D: Domain<Value = u64>, R: Wait>(
    rt: &R,
    desk: &'t Desk<'t, D>,
    vector: &mut SharedVec<'_, 't, D>,
) -> Result<(), Fault> {
    row(1, remove(rt, vector, 0)?.is_none())?;
    fill(rt, desk, vector, 0, 10)?;
    row(2, remove(rt, vector, 10)?.is_none())?;
    row(3, remove(rt, vector, usize::MAX)?.is_none())?;
    row(4, remove(rt, vector, 9)? == Some(9))?;
    row(5, remove(rt, vector, 0)? == Some(0))?;
    match vector.remove(rt, 3)? {
        Some(removed) => row(6, removed.read()? == 4 && removed.use_count()? == 1)?,
        None => row(6, false)?,
    }
    row(7, reads(rt, vector, &[1, 2, 3, 5, 6, 7, 8])?)
}

/// One after another in front, to the last.
fn all_leave<D: Domain<Value = u64>, R: Wait>(
    rt: &R,
    vector: &mut SharedVec<'_, '_, D>,
) -> Result<(), Fault> {
    for _ in 0..7 {
        row(9, remove(rt, vector, 0)?.is_some())?;
    }
    row(10, reads(rt, vector, &[9])?)?;
    row(11, remove(rt, vector, 0)? == Some(9))?;
    row(12, reads(rt, vector, &[])?)
}

impl Play for Removals {
    fn play<'t, D: Domain<Value = u64>, R: Wait>(
        &self,
        rt: &R,
        desk: &'t Desk<'t, D>,
        vector: &mut SharedVec<'t, 't, D>,
    ) -> Result<(), Fault> {
        first_leave(rt, desk, vector)?;
        vector.push(rt, numbered(desk, 9)?)?;
        row(8, reads(rt, vector, &[1, 2, 3, 5, 6, 7, 8, 9])?)?;
        all_leave(rt, vector)
    }
}

#[test]
fn elements_are_removed(rt: HostRuntime) {
    plays_alone(&rt, rt.alloc(), Size::alone(20), Removals);
}

/// Where no block is left for a node an insert is refused, and the vector is as it was. A removal needs none.
#[derive(Drop)]
struct Filled;

impl Play for Filled {
    fn play<'t, D: Domain<Value = u64>, R: Wait>(
        &self,
        rt: &R,
        desk: &'t Desk<'t, D>,
        vector: &mut SharedVec<'t, 't, D>,
    ) -> Result<(), Fault> {
        fill(rt, desk, vector, 0, 8)?;
        let new = numbered(desk, 8)?;
        let full = Fault::Refused(Call::Make, Refusal::Full);
        row(1, refused(vector.insert(rt, 3, new.share()?))? == (full, 8))?;
        row(2, new.use_count()? == 1)?;
        row(3, reads(rt, vector, &[0, 1, 2, 3, 4, 5, 6, 7])?)?;
        row(4, remove(rt, vector, 6)? == Some(6))?;
        row(5, vector.insert(rt, 3, new)?.is_none())?;
        row(6, reads(rt, vector, &[0, 1, 2, 8, 3, 4, 5, 7])?)
    }
}

#[test]
fn an_insert_is_refused_where_no_block_is_left(rt: HostRuntime) {
    plays_alone(&rt, rt.alloc(), Size::alone(10), Filled);
}

/// A domain whose objects have two owners: an insert of a third element is refused, with the elements as they were.
/// A removal is refused at the third place, and what was to be removed comes back.
#[derive(Drop)]
struct Narrow;

impl Play for Narrow {
    fn play<'t, D: Domain<Value = u64>, R: Wait>(
        &self,
        rt: &R,
        desk: &'t Desk<'t, D>,
        vector: &mut SharedVec<'t, 't, D>,
    ) -> Result<(), Fault> {
        fill(rt, desk, vector, 0, 2)?;
        let why = Fault::Member(Call::Holds(Spot::Owner(2)));
        row(
            1,
            refused(vector.insert(rt, 0, numbered(desk, 2)?))? == (why, 2),
        )?;
        row(2, read(vector.get(rt, 0)?)? == Some(0))?;
        match vector.remove(rt, 0) {
            Ok(_) => row(3, false)?,
            Err(came) => row(3, came.why == why && read(came.back)? == Some(0))?,
        }
        row(4, read(vector.get(rt, 0)?)? == Some(0))
    }
}

#[test]
fn what_was_to_be_removed_comes_back(rt: HostRuntime) {
    let size = Size {
        owners: 2,
        ..Size::alone(10)
    };
    plays_alone(&rt, rt.alloc(), size, Narrow);
}
