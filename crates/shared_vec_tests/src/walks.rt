//! Walks over a vector, from the first element on.

use crate::plays::{Play, Size, fill, numbered, plays_alone, row};
use pointers::{Call, Desk, Domain, Fault, Shared, Spot};
use shared_vec::SharedVec;
use std::sync::Wait;

/// What a walk was shown: how many elements, whether each read its index, and the sum of what they read.
#[derive(Clone, Copy, PartialEq, Drop)]
struct Walked {
    count: u64,
    in_order: bool,
    sum: u64,
}

/// A walk of all elements, or up to so many, which ends by this fault.
fn walk<'t, D: Domain<Value = u64>, R: Wait>(
    rt: &R,
    vector: &SharedVec<'_, 't, D>,
    most: u64,
) -> Result<(Walked, Result<(), Fault>), Fault> {
    let mut walked = Walked {
        count: 0,
        in_order: true,
        sum: 0,
    };
    let ended = vector.each(rt, |element: &Shared<D>| {
        let field = element.read()?;
        walked.in_order = walked.in_order && field == walked.count;
        walked.count = walked.count.saturating_add(1);
        walked.sum = walked.sum.wrapping_add(field);
        if walked.count == most {
            return Err(Fault::Other(77));
        }
        Ok(())
    });
    Ok((walked, ended))
}

/// A walk shows each element once, in order.
fn shows<'t, D: Domain<Value = u64>, R: Wait>(
    rt: &R,
    vector: &SharedVec<'_, 't, D>,
    count: u64,
    sum: u64,
) -> Result<bool, Fault> {
    let (walked, ended) = walk(rt, vector, 0)?;
    let all = Walked {
        count,
        in_order: true,
        sum,
    };
    Ok(walked == all && ended == Ok(()))
}

#[derive(Drop)]
struct Walks;

/// Walks over none, one, a leaf, and over more and more levels.
fn grows<'t, D: Domain<Value = u64>, R: Wait>(
    rt: &R,
    desk: &'t Desk<'t, D>,
    vector: &mut SharedVec<'_, 't, D>,
) -> Result<(), Fault> {
    row(1, shows(rt, vector, 0, 0)?)?;
    fill(rt, desk, vector, 0, 1)?;
    row(2, shows(rt, vector, 1, 0)?)?;
    fill(rt, desk, vector, 1, 8)?;
    row(3, shows(rt, vector, 8, 28)?)?;
    fill(rt, desk, vector, 8, 65)?;
    row(4, shows(rt, vector, 65, 2_080)?)?;
    fill(rt, desk, vector, 65, 600)?;
    row(5, shows(rt, vector, 600, 179_700)?)
}

impl Play for Walks {
    fn play<'t, D: Domain<Value = u64>, R: Wait>(
        &self,
        rt: &R,
        desk: &'t Desk<'t, D>,
        vector: &mut SharedVec<'t, 't, D>,
    ) -> Result<(), Fault> {
        grows(rt, desk, vector)?;
        let (told, ended) = walk(rt, vector, 10)?;
        row(6, told.count == 10 && told.in_order && told.sum == 45)?;
        row(7, ended == Err(Fault::Other(77)))?;
        let new = numbered(desk, 1_000)?;
        drop(vector.set(rt, 0, new)?);
        let (told, ended) = walk(rt, vector, 0)?;
        row(8, told.count == 600 && !told.in_order && ended == Ok(()))?;
        row(9, told.sum == 180_700)?;
        vector.truncate(rt, 3)?;
        let (told, _) = walk(rt, vector, 0)?;
        row(10, told.count == 3 && told.sum == 1_003)
    }
}

#[test]
fn a_walk_shows_each_element_once(rt: HostRuntime) {
    plays_alone(&rt, rt.alloc(), Size::alone(720), Walks);
}

/// A domain whose objects have two owners: a walk shows both elements, and is refused at the third.
#[derive(Drop)]
struct Narrow;

impl Play for Narrow {
    fn play<'t, D: Domain<Value = u64>, R: Wait>(
        &self,
        rt: &R,
        desk: &'t Desk<'t, D>,
        vector: &mut SharedVec<'t, 't, D>,
    ) -> Result<(), Fault> {
        fill(rt, desk, vector, 0, 2)?;
        let (told, ended) = walk(rt, vector, 0)?;
        row(1, told.count == 2 && told.in_order)?;
        row(2, ended == Err(Fault::Member(Call::Load(Spot::Owner(2)))))
    }
}

#[test]
fn a_walk_is_refused_where_a_member_is_not_there(rt: HostRuntime) {
    let size = Size {
        owners: 2,
        ..Size::alone(10)
    };
    plays_alone(&rt, rt.alloc(), size, Narrow);
}
