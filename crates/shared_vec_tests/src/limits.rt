//! Vectors at the last number and the next, and what is refused. No pointer is lost by it.

use crate::plays::{Play, Size, fill, numbered, plays_alone, read, refused, row};
use pointers::{Call, Desk, Domain, Fault, Refusal, SharedCell, Spot};
use shared_vec::SharedVec;
use std::sync::Wait;

/// The fault of a make that finds no vacant block.
const FULL: Fault = Fault::Refused(Call::Make, Refusal::Full);

/// Elements fill a domain, and the next node is refused.
#[derive(Drop)]
struct Filled;

impl Play for Filled {
    fn play<'t, D: Domain<Value = u64>, R: Wait>(
        &self,
        rt: &R,
        desk: &'t Desk<'t, D>,
        vector: &mut SharedVec<'t, 't, D>,
    ) -> Result<(), Fault> {
        fill(rt, desk, vector, 0, 8)?;
        let last = numbered(desk, 8)?;
        row(2, refused(vector.push(rt, last.share()?))? == (FULL, 8))?;
        row(3, last.use_count()? == 1 && vector.len(rt)? == 8)?;
        row(4, read(vector.get(rt, 7)?)? == Some(7))?;
        drop(vector.pop(rt)?);
        row(5, vector.push(rt, last)? == 7)
    }
}

#[test]
fn a_small_domain_is_full(rt: HostRuntime) {
    plays_alone(&rt, rt.alloc(), Size::alone(10), Filled);
}

/// A cell that isn't there, and a call within a visit.
#[derive(Drop)]
struct Misused;

impl Play for Misused {
    fn play<'t, D: Domain<Value = u64>, R: Wait>(
        &self,
        rt: &R,
        desk: &'t Desk<'t, D>,
        vector: &mut SharedVec<'t, 't, D>,
    ) -> Result<(), Fault> {
        let mut none = SharedVec::at(desk, desk.cell(SharedCell(2)));
        let why = Fault::Cell(Call::Load(Spot::Shared(2)));
        row(
            1,
            none.get(rt, 0).err() == Some(why) && none.len(rt).err() == Some(why),
        )?;
        row(
            2,
            none.pop(rt).err() == Some(why) && none.truncate(rt, 0).err() == Some(why),
        )?;
        let new = numbered(desk, 5)?;
        row(3, refused(none.push(rt, new.share()?))? == (why, 5))?;
        row(4, refused(none.set(rt, 0, new.share()?))? == (why, 5))?;
        row(5, new.use_count()? == 1)?;
        let busy = new.visit(rt, |_| vector.get(rt, 0).err())?;
        row(6, busy == Some(Fault::Busy(Call::Load(Spot::Shared(0)))))
    }
}

#[test]
fn misuse_is_refused(rt: HostRuntime) {
    plays_alone(&rt, rt.alloc(), Size::alone(10), Misused);
}

/// A domain whose objects have two owners: the third element is refused, and the vector is as it was.
#[derive(Drop)]
struct Narrow;

impl Play for Narrow {
    fn play<'t, D: Domain<Value = u64>, R: Wait>(
        &self,
        rt: &R,
        desk: &'t Desk<'t, D>,
        vector: &mut SharedVec<'t, 't, D>,
    ) -> Result<(), Fault> {
        fill(rt, desk, vector, 0, 2)?;
        let why = Fault::Member(Call::Holds(Spot::Owner(2)));
        row(3, refused(vector.push(rt, numbered(desk, 2)?))? == (why, 2))?;
        row(4, read(vector.get(rt, 1)?)? == Some(1))
    }
}

#[test]
fn objects_with_two_owners_are_too_narrow(rt: HostRuntime) {
    let size = Size {
        owners: 2,
        ..Size::alone(10)
    };
    plays_alone(&rt, rt.alloc(), size, Narrow);
}

/// A worker has as many pointers as it may: no call loses one.
#[derive(Drop)]
struct Crowded;

impl Play for Crowded {
    fn play<'t, D: Domain<Value = u64>, R: Wait>(
        &self,
        rt: &R,
        desk: &'t Desk<'t, D>,
        vector: &mut SharedVec<'t, 't, D>,
    ) -> Result<(), Fault> {
        fill(rt, desk, vector, 0, 1)?;
        let one = numbered(desk, 4)?;
        let more = (one.share()?, one.share()?, one.share()?, one.share()?);
        match refused(vector.push(rt, one))? {
            (Fault::Crowded(_), 4) => {}
            _ => return row(2, false),
        }
        drop(more);
        Ok(())
    }
}

#[test]
fn a_crowded_desk_gets_its_pointer_back(rt: HostRuntime) {
    let size = Size {
        pointers: 5,
        ..Size::alone(10)
    };
    plays_alone(&rt, rt.alloc(), size, Crowded);
}
