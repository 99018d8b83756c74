//! The shelf: what goes there, and who gets it.
ghost use Rattle.std.specs.Prelude.{◌≡◌, ◌+◌, ◌≤◌, length};
ghost use Rattle.control_block.specs.Desks.{Belongs, IsSameDesk};

use crate::desks::splits::{abandon, cut, vacant_blocks};
use crate::parts::{end, shape};
use crate::same::same;
use control_block::desk::Desk;
use control_block::domain::{Domain, open};
use control_word::Refused;
use shared_handle::make;
use std::alloc::Global;
use std::sync::Wait;
use std::thread::{Threads, join_mut};

// What a make answers: 0 where there is an object, which ends again; else the number of the refusal.
fn try_make(domain: &Domain<u64>, desk: &mut Desk<u64>) -> u8
    requires domain { Belongs desk.old domain.now }
    ensures desk { IsSameDesk desk.old desk.new }
{
    match make(domain, desk, [0; 4], false, 7) {
        Ok(owner) => {
            end(domain, desk, owner);
            0
        }
        Err(refused) => {
            let Refused { why, back: _ } = refused;
            why.number()
        }
    }
}

// What calls on the shelf answer and leave in the store, what two makes answer between them, and whether each block is
// vacant with three of them on the shelf.
type Shelved = ([u32; 8], [u8; 2], Option<[bool; 4]>);

fn shelve_and_make(domain: Domain<u64>, desk: Desk<u64>) -> Shelved
    requires { Belongs desk domain }
{
    let mut desk = desk;
    let two = desk.shelve(&domain, 2);
    let half = desk.stock();
    let rest = desk.shelve(&domain, 9);
    let none = desk.stock();
    let refused = try_make(&domain, &mut desk);
    let one = desk.unshelve(&domain, 1);
    let answered = try_make(&domain, &mut desk);
    let three = desk.unshelve(&domain, 9);
    let no_more = desk.unshelve(&domain, 1);
    let left = desk.shelve(&domain, 3);
    let counts = [two, half, rest, none, one, three, no_more, left];
    (counts, [refused, answered], vacant_blocks(domain, desk))
}

// All this in a domain of four blocks.
fn shelve_in_four(alloc: Global) -> Option<Shelved> {
    match open(alloc, shape(4, 4)) {
        Ok((domain, desk)) => Some(shelve_and_make(domain, desk)),
        Err(_) => None,
    }
}

#[test]
fn spare_blocks_go_to_the_shelf_and_come_back(rt: HostRuntime) {
    let wanted = ([2, 2, 2, 0, 1, 3, 0, 3], [3, 0], Some([true; 4]));
    same(&rt, shelve_in_four(rt.alloc()), Some(wanted));
}

// All blocks of a domain go to the shelf, and so many come back.
fn there_and_back(alloc: Global, blocks: u32) -> Option<[u32; 3]> {
    let Ok((domain, mut desk)) = open::<u64>(alloc, shape(blocks, 1)) else {
        return None;
    };
    let shelved = desk.shelve(&domain, blocks);
    let back = desk.unshelve(&domain, u32::MAX);
    let stock = desk.stock();
    abandon(domain, desk);
    Some([shelved, back, stock])
}

#[test]
fn the_blocks_at_the_ends_of_words_come_back(rt: HostRuntime) {
    for blocks in [1, 63, 64, 65, 128, 4_095, 4_096, 65_535] {
        same(&rt, there_and_back(rt.alloc(), blocks), Some([blocks; 3]));
    }
}

// In a thread: 1,000 tries to take one block. How many were taken.
fn take(domain: &Domain<u64>, desk: &mut Desk<u64>) -> u32
    requires domain { Belongs desk.old domain.now }
    ensures desk { IsSameDesk desk.old desk.new }
{
    let mut taken: u32 = 0;
    for _ in 0..1_000 {
        taken = taken.wrapping_add(desk.unshelve(domain, 1));
    }
    taken
}

// Two desks take from one shelf, in a thread each.
fn take_both<R: Threads + Wait + Sync>(
    rt: &R,
    domain: &Domain<u64>,
    one: &mut Desk<u64>,
    two: &mut Desk<u64>,
) -> u32
    requires domain { Belongs one.old domain.now × Belongs two.old domain.now }
    ensures one { IsSameDesk one.old one.new }
    ensures two { IsSameDesk two.old two.new }
{
    let (a, b) = join_mut(rt, &mut || take(domain, one), &mut || take(domain, two));
    a.wrapping_add(b)
}

// Both shelve what they have, take it in their threads, and are joined: how many blocks went there, how many were
// taken, and how many are in the store then.
fn shelve_and_take<R: Threads + Wait + Sync>(
    rt: &R,
    domain: &Domain<u64>,
    one: &mut Desk<u64>,
    two: Desk<u64>,
) -> [u32; 3]
    requires domain { Belongs one.old domain.now × Belongs two domain.now }
{
    let mut two = two;
    let shelved = one.shelve(domain, 8).wrapping_add(two.shelve(domain, 8));
    let taken = take_both(rt, domain, one, &mut two);
    one.join(domain, two);
    [shelved, taken, one.stock()]
}

// All this in a domain of eight blocks, of which each desk has four.
fn take_in_eight<R: Threads + Wait + Sync>(rt: &R, alloc: Global) -> Option<[u32; 3]> {
    let Ok((domain, mut one)) = open::<u64>(alloc, shape(8, 8)) else {
        return None;
    };
    let told = match cut(&domain, &mut one, alloc, 4, 4) {
        Ok(two) => Some(shelve_and_take(rt, &domain, &mut one, two)),
        Err(_) => None,
    };
    abandon(domain, one);
    told
}

#[test]
fn each_block_is_taken_once(rt: HostRuntime) {
    same(&rt, take_in_eight(&rt, rt.alloc()), Some([8, 8, 8]));
}
