//! Growths that are refused. `tests/refuse_allocations` runs these with each allocation refused in turn, and compares
//! how many allocations other tests take, whose calls take none, with a test that only opens such a domain and closes
//! it.
use crate::desks::splits::{abandon, numbers, refusal};
use crate::parts::shut;
use crate::same::is_told;
use crate::shapes::shape;
use control_block::domain::open;
use control_word::Refusal;
use std::alloc::Global;
use std::test::Fail;

mod splits;

// What the first desk of a domain has.
fn opened(alloc: Global) -> Result<(u32, u32, u32), Refusal> {
    match open::<u64>(alloc, shape(4, 8)) {
        Ok((domain, desk)) => {
            let all = numbers(&desk);
            abandon(domain, desk);
            Ok(all)
        }
        Err(why) => Err(why),
    }
}

#[test]
fn a_refused_opening_leaves_nothing(rt: HostRuntime) -> Result<(), Fail> {
    let told = match opened(rt.alloc()) {
        Err(Refusal::Memory) => opened(rt.alloc()),
        told => told,
    };
    is_told(&rt, told, (8, 0, 4))
}

// What a split answers, what the desk has then, and what the same split answers next.
type Twice = (u8, (u32, u32, u32), u8);

fn split_twice(alloc: Global) -> Result<Twice, Refusal> {
    let (domain, mut desk) = match open::<u64>(alloc, shape(4, 8)) {
        Ok(opened) => opened,
        Err(why) => return Err(why),
    };
    let first = refusal(&domain, &mut desk, alloc, 3, 1);
    let between = numbers(&desk);
    let second = refusal(&domain, &mut desk, alloc, 3, 1);
    abandon(domain, desk);
    if second == Refusal::Memory.number() {
        return Err(Refusal::Memory);
    }
    Ok((or_refused(first), between, second))
}

// What a split answers, where it may be refused for want of memory too.
fn or_refused(answer: u8) -> u8 {
    if answer == Refusal::Memory.number() {
        0
    } else {
        answer
    }
}

#[test]
fn a_refused_split_changes_nothing(rt: HostRuntime) -> Result<(), Fail> {
    is_told(&rt, split_twice(rt.alloc()), (0, (8, 0, 4), 0))
}

// A domain of so many blocks is opened and closed: how many were vacant.
fn vacant_of(alloc: Global, blocks: u32) -> Result<u32, Refusal> {
    match open::<u64>(alloc, shape(blocks, 8)) {
        Ok((domain, desk)) => Ok(shut(domain, desk)),
        Err(why) => Err(why),
    }
}

#[test]
fn one_block_is_opened_and_closed(rt: HostRuntime) -> Result<(), Fail> {
    is_told(&rt, vacant_of(rt.alloc(), 1), 1)
}

#[test]
fn two_blocks_are_opened_and_closed(rt: HostRuntime) -> Result<(), Fail> {
    is_told(&rt, vacant_of(rt.alloc(), 2), 2)
}

#[test]
fn four_blocks_are_opened_and_closed(rt: HostRuntime) -> Result<(), Fail> {
    is_told(&rt, vacant_of(rt.alloc(), 4), 4)
}
