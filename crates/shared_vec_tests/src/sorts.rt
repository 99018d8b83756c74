//! Elements in the order of a key: the tens of what they read.

use crate::plays::{Play, Size, numbered, plays_alone, reads, row};
use pointers::{Desk, Domain, Fault, Shared};
use shared_vec::SharedVec;
use std::alloc::Global;
use std::sync::Wait;

/// Elements with these numbers come behind the last one.
fn push_all<'t, D: Domain<Value = u64>, R: Wait>(
    rt: &R,
    desk: &'t Desk<'t, D>,
    vector: &mut SharedVec<'_, 't, D>,
    numbers: &[u64],
) -> Result<(), Fault> {
    for number in numbers {
        vector.push(rt, numbered(desk, *number)?)?;
    }
    Ok(())
}

/// The elements come into the order of their tens.
fn sort<D: Domain<Value = u64>, R: Wait>(
    rt: &R,
    alloc: Global,
    vector: &SharedVec<'_, '_, D>,
) -> Result<(), Fault> {
    vector.sort_by_key(rt, alloc, |element: &Shared<D>| Ok(element.read()? / 10))?;
    Ok(())
}

/// None, one, those that stand in order, and those that don't: of one ten each stays where it was among the others.
#[derive(Drop)]
struct Sorts {
    alloc: Global,
}

impl Play for Sorts {
    fn play<'t, D: Domain<Value = u64>, R: Wait>(
        &self,
        rt: &R,
        desk: &'t Desk<'t, D>,
        vector: &mut SharedVec<'t, 't, D>,
    ) -> Result<(), Fault> {
        sort(rt, self.alloc, vector)?;
        row(1, vector.len(rt)? == 0)?;
        push_all(rt, desk, vector, &[57])?;
        sort(rt, self.alloc, vector)?;
        row(2, reads(rt, vector, &[57])?)?;
        push_all(rt, desk, vector, &[9, 35, 38, 31, 90, 12, 55, 3, 11])?;
        let sorted = [9, 3, 12, 11, 35, 38, 31, 57, 55, 90];
        sort(rt, self.alloc, vector)?;
        row(3, reads(rt, vector, &sorted)?)?;
        sort(rt, self.alloc, vector)?;
        row(4, reads(rt, vector, &sorted)?)?;
        match vector.get(rt, 6)? {
            Some(element) => row(5, element.use_count()? == 2),
            None => row(5, false),
        }
    }
}

#[test]
fn elements_are_sorted(rt: HostRuntime) {
    let alloc = rt.alloc();
    plays_alone(&rt, alloc, Size::alone(20), Sorts { alloc });
}

/// 600 elements stand as a `Vec` of their numbers that is sorted by the same key.
#[derive(Drop)]
struct Beside {
    alloc: Global,
}

impl Play for Beside {
    fn play<'t, D: Domain<Value = u64>, R: Wait>(
        &self,
        rt: &R,
        desk: &'t Desk<'t, D>,
        vector: &mut SharedVec<'t, 't, D>,
    ) -> Result<(), Fault> {
        let mut model = Vec::new(self.alloc);
        for step in 0..600u64 {
            model.push(step.wrapping_mul(467) % 600)?;
        }
        push_all(rt, desk, vector, &model)?;
        sort(rt, self.alloc, vector)?;
        model.sort_by_key(|number| *number / 10)?;
        row(6, reads(rt, vector, &model)?)
    }
}

#[test]
fn many_stand_as_a_sequential_sort_has_them(rt: HostRuntime) {
    let alloc = rt.alloc();
    plays_alone(&rt, alloc, Size::alone(720), Beside { alloc });
}

/// A sort ends with the fault that the closure answers, and all stand as they did.
#[derive(Drop)]
struct Stopped {
    alloc: Global,
}

impl Play for Stopped {
    fn play<'t, D: Domain<Value = u64>, R: Wait>(
        &self,
        rt: &R,
        desk: &'t Desk<'t, D>,
        vector: &mut SharedVec<'t, 't, D>,
    ) -> Result<(), Fault> {
        push_all(rt, desk, vector, &[30, 20, 10])?;
        let came = vector.sort_by_key(rt, self.alloc, |element: &Shared<D>| {
            let field = element.read()?;
            row(77, field > 10)?;
            Ok(field)
        });
        match came {
            Ok(()) => row(7, false)?,
            Err(came) => row(8, came.why == Fault::Other(77) && came.back.is_none())?,
        }
        row(9, reads(rt, vector, &[30, 20, 10])?)
    }
}

#[test]
fn a_fault_of_a_key_moves_nothing(rt: HostRuntime) {
    let alloc = rt.alloc();
    plays_alone(&rt, alloc, Size::alone(10), Stopped { alloc });
}
