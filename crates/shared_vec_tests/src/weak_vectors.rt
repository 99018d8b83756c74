//! Vectors of weak pointers.

use crate::plays::{Play, Size, VECTOR, fill, numbered, plays_alone, read, row};
use pointers::{Call, Desk, Domain, Fault, Refusal, Shared, Weak};
use shared_vec::{SharedVec, WeakVec};
use std::sync::Wait;

/// Whether both are of one object.
fn is_of<D: Domain>(found: Option<Weak<'_, D>>, weak: &Weak<'_, D>) -> bool {
    match found {
        Some(found) => found.is(weak),
        None => false,
    }
}

/// What the owner reads that a lock gives, if there is one.
fn lock<D: Domain, R: Wait>(
    rt: &R,
    vector: &WeakVec<'_, '_, D>,
    index: usize,
) -> Result<Option<u64>, Fault> {
    let owner = vector.lock(rt, index)?;
    read(owner)
}

/// Weak pointers come, are got, locked and set, and leave.
#[derive(Drop)]
struct Calls;

/// In a vector of none there is nothing to get, lock, set or pop.
fn is_of_none<'t, D: Domain<Value = u64>, R: Wait>(
    rt: &R,
    vector: &mut WeakVec<'_, 't, D>,
    one: &Shared<'t, D>,
) -> Result<(), Fault> {
    row(1, vector.len(rt)? == 0 && vector.pop(rt)?.is_none())?;
    row(
        2,
        vector.get(rt, 0)?.is_none() && vector.lock(rt, 0)?.is_none(),
    )?;
    let weak = one.downgrade()?;
    let back = vector.set(rt, 0, weak.share()?)?;
    row(3, is_of(back, &weak))
}

/// Twenty come, of the one and the other in turn. No owner is kept by them.
fn comes<'t, D: Domain<Value = u64>, R: Wait>(
    rt: &R,
    vector: &mut WeakVec<'_, 't, D>,
    one: &Shared<'t, D>,
    two: &Shared<'t, D>,
) -> Result<(), Fault> {
    for index in 0..20 {
        let new = if index % 2 == 0 { one } else { two };
        row(4, vector.push(rt, new.downgrade()?)? == index)?;
    }
    row(5, vector.len(rt)? == 20 && vector.get(rt, 20)?.is_none())?;
    row(6, one.use_count()? == 1 && two.use_count()? == 1)?;
    row(
        7,
        lock(rt, vector, 7)? == Some(2) && lock(rt, vector, 8)? == Some(1),
    )?;
    let last = vector.get(rt, 19)?;
    row(8, is_of(last, &two.downgrade()?))
}

/// A walk shows each, in order, and ends with a fault.
fn is_walked<'t, D: Domain<Value = u64>, R: Wait>(
    rt: &R,
    vector: &WeakVec<'_, 't, D>,
    one: &Weak<'t, D>,
    two: &Weak<'t, D>,
) -> Result<(), Fault> {
    let mut shown = 0u64;
    let ended = vector.each(rt, |weak: &Weak<D>| {
        let is_one = weak.is(one);
        row(20, is_one == (shown % 2 == 0) && (is_one || weak.is(two)))?;
        shown = shown.saturating_add(1);
        Ok(())
    });
    row(16, ended == Ok(()) && shown == 20)?;
    let ended = vector.each(rt, |weak: &Weak<D>| row(21, weak.is(one)));
    row(17, ended == Err(Fault::Other(21)))
}

/// One is set, and stands alone where it was.
fn is_set<'t, D: Domain<Value = u64>, R: Wait>(
    rt: &R,
    vector: &WeakVec<'_, 't, D>,
    one: &Shared<'t, D>,
) -> Result<(), Fault> {
    row(9, vector.set(rt, 7, one.downgrade()?)?.is_none())?;
    row(
        10,
        lock(rt, vector, 7)? == Some(1) && lock(rt, vector, 9)? == Some(2),
    )
}

/// They leave, those of an object that ended too.
fn goes<'t, D: Domain<Value = u64>, R: Wait>(
    rt: &R,
    vector: &mut WeakVec<'_, 't, D>,
    one: &Shared<'t, D>,
) -> Result<(), Fault> {
    row(
        11,
        vector.lock(rt, 9)?.is_none() && vector.get(rt, 9)?.is_some(),
    )?;
    let weak = one.downgrade()?;
    row(12, !is_of(vector.pop(rt)?, &weak) && vector.len(rt)? == 19)?;
    row(13, is_of(vector.pop(rt)?, &weak) && vector.len(rt)? == 18)?;
    vector.truncate(rt, 3)?;
    row(14, vector.len(rt)? == 3 && lock(rt, vector, 2)? == Some(1))?;
    row(15, vector.lock(rt, 3)?.is_none())
}

impl Play for Calls {
    fn play<'t, D: Domain<Value = u64>, R: Wait>(
        &self,
        rt: &R,
        desk: &'t Desk<'t, D>,
        _vector: &mut SharedVec<'t, 't, D>,
    ) -> Result<(), Fault> {
        let mut vector = WeakVec::at(desk, desk.cell(VECTOR));
        let (one, two) = (numbered(desk, 1)?, numbered(desk, 2)?);
        is_of_none(rt, &mut vector, &one)?;
        comes(rt, &mut vector, &one, &two)?;
        is_walked(rt, &vector, &one.downgrade()?, &two.downgrade()?)?;
        is_set(rt, &vector, &one)?;
        drop(two);
        goes(rt, &mut vector, &one)
    }
}

#[test]
fn weak_pointers_come_and_go(rt: HostRuntime) {
    plays_alone(&rt, rt.alloc(), Size::alone(40), Calls);
}

/// Where no block is left for a holder a push is refused, and the weak pointer comes back.
#[derive(Drop)]
struct Filled;

impl Play for Filled {
    fn play<'t, D: Domain<Value = u64>, R: Wait>(
        &self,
        rt: &R,
        desk: &'t Desk<'t, D>,
        vector: &mut SharedVec<'t, 't, D>,
    ) -> Result<(), Fault> {
        fill(rt, desk, vector, 0, 3)?;
        let object = numbered(desk, 3)?;
        let mut weak = WeakVec::at(desk, object.owner(5));
        row(1, weak.push(rt, object.downgrade()?)? == 0)?;
        row(2, read(weak.lock(rt, 0)?)? == Some(3))?;
        let last = numbered(desk, 4)?;
        match weak.push(rt, object.downgrade()?) {
            Ok(_) => row(3, false)?,
            Err(came) => {
                row(3, came.why == Fault::Refused(Call::Make, Refusal::Full))?;
                row(4, is_of(Some(came.back), &object.downgrade()?))?;
            }
        }
        drop(last);
        row(5, weak.push(rt, object.downgrade()?)? == 1)
    }
}

#[test]
fn a_weak_pointer_comes_back(rt: HostRuntime) {
    plays_alone(&rt, rt.alloc(), Size::alone(8), Filled);
}
