//! Handles and endings that are given up: how a domain's census tells of them.
ghost use Rattle.std.specs.Prelude.{◌≡◌, ◌<◌};
ghost use Rattle.shared_handle.specs.Prelude.{Owner, Belongs, IsSameDesk, HoldsHandle};

use crate::desks::splits::{abandon, closed};
use crate::ending::drops::{Counted, made};
use crate::parts::told;
use crate::same::same;
use crate::shapes::{shape, shape_with_cells};
use atomic_cells::SharedAt;
use control_block::desk::Desk;
use control_block::domain::{Domain, open};
use control_word::{Block, Counts, Shape};
use shared_handle::{Left, Shared, downgrade, make, release, share, use_count};
use std::alloc::Global;
use std::sync::atomic::{AtomicU64, Ordering};

// The domain is closed: the counts of the block, and how many blocks are taken.
pub(crate) fn counted<V: Drop>(
    domain: Domain<V>,
    desk: Desk<V>,
    block: Option<Block>,
) -> Option<(Counts, u32)>
    requires { Belongs desk domain }
{
    match (closed(domain, desk), block) {
        (Some(census), Some(block)) => {
            let taken = census.blocks().saturating_sub(census.vacant());
            Some((census.counts(block), taken))
        }
        _ => None,
    }
}

// The same, between how many values were dropped before and how many after it: the block's owners, and how many blocks
// are taken.
pub(crate) fn dropped_with_census<'a>(
    domain: Domain<Counted<'a>>,
    desk: Desk<Counted<'a>>,
    block: Option<Block>,
    drops: &'a AtomicU64,
) -> Option<[u64; 4]>
    requires { Belongs desk domain }
{
    let before = drops.load(Ordering::SeqCst);
    match counted(domain, desk, block) {
        Some((counts, taken)) => {
            let after = drops.load(Ordering::SeqCst);
            Some([before, u64::from(counts.owners), u64::from(taken), after])
        }
        None => None,
    }
}

// One more owner, which is forgotten.
fn forget_copy(domain: &Domain<u64>, desk: &mut Desk<u64>, owner: &Shared)
    requires domain { Belongs desk.old domain.now }
    requires holds { HoldsHandle desk.old Owner owner.now.block owner.now.place }
    ensures desk { IsSameDesk desk.old desk.new }
    ensures holds { HoldsHandle desk.new Owner owner.now.block owner.now.place }
{
    match share(domain, desk, owner) {
        Ok(other) => {
            other.into_word();
        }
        Err(_) => {}
    }
}

// A weak handle, which is forgotten.
pub(crate) fn forget_weak(domain: &Domain<u64>, desk: &mut Desk<u64>, owner: &Shared)
    requires domain { Belongs desk.old domain.now }
    requires holds { HoldsHandle desk.old Owner owner.now.block owner.now.place }
    ensures desk { IsSameDesk desk.old desk.new }
    ensures holds { HoldsHandle desk.new Owner owner.now.block owner.now.place }
{
    match downgrade(domain, desk, owner) {
        Ok(weak) => {
            weak.into_word();
        }
        Err(_) => {}
    }
}

// So many owners of a new object and so many weak handles, all forgotten: its block, if there is one, and how many
// owners it told of.
fn forget_all(
    domain: &Domain<u64>,
    desk: &mut Desk<u64>,
    owners: u32,
    weaks: u32,
) -> (Option<Block>, u32)
    requires domain { Belongs desk.old domain.now }
    ensures desk { IsSameDesk desk.old desk.new }
{
    let Ok(owner) = make(domain, desk, [0; 4], false, 5) else {
        return (None, 0);
    };
    for _ in 1..owners {
        forget_copy(domain, desk, &owner);
    }
    for _ in 0..weaks {
        forget_weak(domain, desk, &owner);
    }
    let told = use_count(domain, desk, &owner);
    (owner.into_word().block(), told)
}

// What is told of so many handles that are forgotten: by a look, how many owners there are; by the desk, how many
// handles it holds; by the census, how many owners, weak handles and taken blocks there are.
fn told_of(alloc: Global, shape: Shape, owners: u32, weaks: u32) -> Option<[u32; 5]> {
    match open(alloc, shape) {
        Ok((domain, desk)) => forgotten_in(domain, desk, owners, weaks),
        Err(_) => None,
    }
}

// The same in a domain that is open.
fn forgotten_in(domain: Domain<u64>, desk: Desk<u64>, owners: u32, weaks: u32) -> Option<[u32; 5]>
    requires { Belongs desk domain }
{
    let mut desk = desk;
    let (block, told) = forget_all(&domain, &mut desk, owners, weaks);
    let held = desk.held();
    match counted(domain, desk, block) {
        Some((counts, taken)) => Some([told, held, counts.owners, counts.weaks, taken]),
        None => None,
    }
}

#[test]
fn forgotten_handles_stand_in_the_census(rt: HostRuntime) {
    let told = told_of(rt.alloc(), shape(2, 8), 2, 1);
    same(&rt, told, Some([2, 3, 2, 1, 1]));
}

#[test]
fn a_desk_holds_a_thousand_handles(rt: HostRuntime) {
    let told = told_of(rt.alloc(), shape(1, 4_194_304), 1_000, 0);
    same(&rt, told, Some([1_000, 1_000, 1_000, 0, 1]));
}

// The domain is closed: how many cells hold the block, and how many more owners and weak handles it has.
fn held(
    alloc: Global,
    domain: Domain<u64>,
    desk: Desk<u64>,
    block: Block,
) -> Option<(usize, u32, u32)>
    requires { Belongs desk domain }
{
    let Some(census) = closed(domain, desk) else {
        return None;
    };
    match census.holders(alloc, block) {
        Ok(holders) => {
            let forgotten = holders.forgotten;
            Some((holders.cells.len(), forgotten.owners, forgotten.weaks))
        }
        Err(_) => None,
    }
}

// An owner of a new object is in the cell, and another one is forgotten: its block.
fn forget_beside(domain: &Domain<u64>, desk: &mut Desk<u64>, at: u32) -> Option<Block>
    requires domain { Belongs desk.old domain.now }
    requires cell { at < desk.old.shape.shared_cells }
    ensures desk { IsSameDesk desk.old desk.new }
{
    let Ok(owner) = make(domain, desk, [0; 4], false, 5) else {
        return None;
    };
    forget_copy(domain, desk, &owner);
    let block = owner.block();
    told(SharedAt::free(at).store(domain, desk, owner));
    block
}

// How many cells hold that object, and how many more owners and weak handles it has.
fn held_beside(alloc: Global) -> Option<(usize, u32, u32)> {
    let Ok((domain, mut desk)) = open::<u64>(alloc, shape_with_cells(2, 1, 0, 8)) else {
        return None;
    };
    match forget_beside(&domain, &mut desk, 0) {
        Some(block) => held(alloc, domain, desk, block),
        None => {
            abandon(domain, desk);
            None
        }
    }
}

#[test]
fn a_cell_holds_an_object_beside_a_forgotten_owner(rt: HostRuntime) {
    same(&rt, held_beside(rt.alloc()), Some((1, 1, 0)));
}

// An object's last owner leaves, and its end is given up: the block.
fn give_up_ending<'a>(
    domain: &Domain<Counted<'a>>,
    desk: &mut Desk<Counted<'a>>,
    drops: &'a AtomicU64,
) -> Option<Block>
    requires domain { Belongs desk.old domain.now }
    ensures desk { IsSameDesk desk.old desk.new }
{
    let Some(owner) = made(domain, desk, drops) else {
        return None;
    };
    match release(domain, desk, owner) {
        Left::Empty | Left::Others => None,
        Left::Last(ending) => Some(ending.forget()),
    }
}

// How that value is dropped.
fn given_up(alloc: Global, drops: &AtomicU64) -> Option<[u64; 4]> {
    let Ok((domain, mut desk)) = open(alloc, shape(2, 8)) else {
        return None;
    };
    let block = give_up_ending(&domain, &mut desk, drops);
    dropped_with_census(domain, desk, block, drops)
}

#[test]
fn a_value_of_an_unfinished_end_is_dropped_with_the_census(rt: HostRuntime) {
    let drops = AtomicU64::new(0);
    same(&rt, given_up(rt.alloc(), &drops), Some([0, 0, 1, 1]));
}
