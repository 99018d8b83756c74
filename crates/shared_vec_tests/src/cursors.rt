//! Cursors: vectors that are looked at index by index.

use crate::plays::{Play, Size, VECTOR, fill, numbered, plays_alone, read, row};
use pointers::{Desk, Domain, Fault};
use shared_vec::{Cursor, SharedVec};
use std::sync::Wait;

/// A cursor finds what the vector has at each index, forward, backward and far apart, and sets it.
#[derive(Drop)]
struct Looks;

/// What the element reads that a cursor finds, if there is one.
fn look<D: Domain, R: Wait>(
    rt: &R,
    cursor: &mut Cursor<'_, '_, '_, D>,
    index: usize,
) -> Result<Option<u64>, Fault> {
    let found = cursor.get(rt, index)?;
    read(found)
}

/// In order, and back again.
fn goes_along<D: Domain, R: Wait>(rt: &R, cursor: &mut Cursor<'_, '_, '_, D>) -> Result<(), Fault> {
    for index in 0..100 {
        row(2, look(rt, cursor, index as usize)? == Some(index))?;
    }
    row(3, look(rt, cursor, 100)?.is_none())?;
    row(4, look(rt, cursor, 4_096)?.is_none())?;
    for index in (0..100).rev() {
        row(5, look(rt, cursor, index as usize)? == Some(index))?;
    }
    row(6, look(rt, cursor, 64)? == Some(64))?;
    row(7, look(rt, cursor, 63)? == Some(63))
}

impl Play for Looks {
    fn play<'t, D: Domain<Value = u64>, R: Wait>(
        &self,
        rt: &R,
        desk: &'t Desk<'t, D>,
        vector: &mut SharedVec<'t, 't, D>,
    ) -> Result<(), Fault> {
        row(1, vector.cursor().get(rt, 0)?.is_none())?;
        fill(rt, desk, vector, 0, 100)?;
        let mut cursor = vector.cursor();
        goes_along(rt, &mut cursor)?;
        row(8, cursor.set(rt, 62, numbered(desk, 7)?)?.is_none())?;
        let back = cursor.set(rt, 100, numbered(desk, 8)?)?;
        row(9, read(back)? == Some(8))?;
        row(10, look(rt, &mut cursor, 62)? == Some(7))?;
        row(11, read(vector.get(rt, 62)?)? == Some(7))
    }
}

#[test]
fn a_cursor_finds_each_element(rt: HostRuntime) {
    plays_alone(&rt, rt.alloc(), Size::alone(130), Looks);
}

/// What another puts in and takes out is seen, and a leaf lives on while a cursor has it.
#[derive(Drop)]
struct Keeps;

impl Play for Keeps {
    fn play<'t, D: Domain<Value = u64>, R: Wait>(
        &self,
        rt: &R,
        desk: &'t Desk<'t, D>,
        vector: &mut SharedVec<'t, 't, D>,
    ) -> Result<(), Fault> {
        fill(rt, desk, vector, 0, 9)?;
        let mut other = SharedVec::at(desk, desk.cell(VECTOR));
        let mut cursor = vector.cursor();
        row(1, look(rt, &mut cursor, 8)? == Some(8))?;
        row(2, look(rt, &mut cursor, 9)?.is_none())?;
        other.push(rt, numbered(desk, 9)?)?;
        row(3, look(rt, &mut cursor, 9)? == Some(9))?;
        drop(other.pop(rt)?);
        row(4, look(rt, &mut cursor, 9)?.is_none())?;
        desk.clear(VECTOR)?;
        row(5, look(rt, &mut cursor, 8)? == Some(8))?;
        row(6, other.get(rt, 8)?.is_none())?;
        row(7, look(rt, &mut cursor, 0)?.is_none())?;
        row(8, look(rt, &mut cursor, 8)?.is_none())
    }
}

#[test]
fn a_cursor_keeps_a_leaf(rt: HostRuntime) {
    plays_alone(&rt, rt.alloc(), Size::alone(20), Keeps);
}
