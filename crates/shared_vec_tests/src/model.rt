//! A vector beside a `Vec`: 4,000 calls in an order that a generator gives.

use crate::plays::{Play, Size, numbered, plays_alone, read, row};
use pointers::{Desk, Domain, Fault};
use shared_vec::SharedVec;
use std::alloc::Global;
use std::sync::Wait;

/// So many calls.
const CALLS: u32 = 4_000;

#[derive(Drop)]
struct Beside {
    alloc: Global,
}

/// One call on both, by a number. Whether they answer the same.
fn same<'t, D: Domain<Value = u64>, R: Wait>(
    rt: &R,
    desk: &'t Desk<'t, D>,
    vector: &mut SharedVec<'_, 't, D>,
    model: &mut Vec<u64, Global>,
    number: u64,
) -> Result<bool, Fault> {
    let index = ((number >> 40) % 90) as usize;
    let here = model.get(index).copied();
    match (number >> 33) % 8 {
        0 => Ok(read(vector.get(rt, index)?)? == here),
        1 => {
            let back = vector.set(rt, index, numbered(desk, number)?)?;
            match model.get_mut(index) {
                Some(at) => {
                    *at = number;
                    Ok(back.is_none())
                }
                None => Ok(read(back)? == Some(number)),
            }
        }
        2 => Ok(vector.len(rt)? == model.len()),
        3 => Ok(read(vector.pop(rt)?)? == model.pop()),
        4 if number % 64 == 0 => {
            vector.truncate(rt, index)?;
            model.truncate(index);
            Ok(vector.len(rt)? == model.len())
        }
        _ => {
            let at = vector.push(rt, numbered(desk, number)?)?;
            let end = model.len();
            model.push(number)?;
            Ok(at == end)
        }
    }
}

impl Play for Beside {
    fn play<'t, D: Domain<Value = u64>, R: Wait>(
        &self,
        rt: &R,
        desk: &'t Desk<'t, D>,
        vector: &mut SharedVec<'t, 't, D>,
    ) -> Result<(), Fault> {
        let mut model = Vec::new(self.alloc);
        let mut number = 1u64;
        for call in 0..CALLS {
            number = number
                .wrapping_mul(6_364_136_223_846_793_005)
                .wrapping_add(1_442_695_040_888_963_407);
            row(call, same(rt, desk, vector, &mut model, number)?)?;
        }
        Ok(())
    }
}

#[test]
fn a_vector_answers_as_a_sequential_one(rt: HostRuntime) {
    let alloc = rt.alloc();
    plays_alone(&rt, alloc, Size::alone(3_000), Beside { alloc });
}
