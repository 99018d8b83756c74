//! The largest and the least domain, and those just beyond.
use crate::desks::splits::abandon;
use crate::same::same;
use crate::shapes::{shape, shape_with_cells};
use control_block::domain::open;
use control_word::Shape;
use std::alloc::Global;

// The number of the refusal of a domain of this shape; 0 where it is opened.
fn answer(alloc: Global, shape: Shape) -> u8 {
    match open::<u64>(alloc, shape) {
        Ok((domain, desk)) => {
            abandon(domain, desk);
            0
        }
        Err(why) => why.number(),
    }
}

#[test]
fn a_domain_has_limits(rt: HostRuntime) {
    let alloc = rt.alloc();
    let answers = [
        answer(alloc, shape_with_cells(4_000_000, 60_000, 5_536, 4_194_304)),
        answer(alloc, shape(1, 1)),
        answer(alloc, shape(4_000_001, 1)),
        answer(alloc, shape(0, 1)),
        answer(alloc, shape_with_cells(1, 60_000, 5_537, 1)),
        answer(alloc, shape(1, 4_194_305)),
        answer(alloc, shape(1, 0)),
    ];
    same(&rt, answers, [0, 0, 2, 2, 2, 2, 2]);
}
