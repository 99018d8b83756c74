//! A desk parts with an allowance, blocks and handles, and the second desk works in a thread of its own.
ghost use Rattle.std.specs.Prelude.{◌≡◌, ◌+◌, ◌<◌, drop, take, IfErr, IfOk};
ghost use Rattle.control_block.specs.Desks.{Belongs, IsSameDesk, allowance_of};
ghost use Rattle.handle_tests.specs.Hands.{HoldsSlots};

use crate::bare::alone::six_slots;
use crate::desks::splits::{Parts, abandon, closed, numbers};
use crate::listed::slots::wind_up;
use crate::listed::{Answer, Call, Cell, Look, New, Outcome, Way, all};
use crate::same::same;
use crate::shapes::{shape, shape_with_cells};
use control_block::census::close;
use control_block::desk::Desk;
use control_block::domain::{Domain, open};
use control_block::handles::Held;
use control_word::{Refusal, Refused, Shape};
use std::alloc::Global;
use std::process::Abort;
use std::sync::Wait;
use std::thread::{Threads, join_mut};

/// What a desk does before, the part that a second one gets, what that does, and what the first does once they are one
/// again. The last two of six slots are the second one's.
struct Story<'a> {
    before: &'a [(Call, Answer)],
    allowance: u32,
    blocks: u32,
    apart: &'a [(Call, Answer)],
    after: &'a [(Call, Answer)],
}

/// Why a domain isn't closed while another desk is out.
fn unclosed(domain: Domain<u64>, desk: Desk<u64>) -> (Domain<u64>, Desk<u64>, u8)
    requires domain { Belongs desk domain }
    requires sole { allowance_of desk < domain.shape.allowance }
    ensures { (result.0 ≡ domain) × (result.1 ≡ desk) }
{
    match close(domain, desk) {
        Ok(census) => {
            drop(census);
            unreachable!()
        }
        Err(refused) => {
            let Refused {
                why,
                back: (domain, desk),
            } = refused;
            (domain, desk, why.number())
        }
    }
}

/// A second desk makes calls on the last two slots.
fn work_apart<R: Abort + Wait>(
    rt: &R,
    domain: &Domain<u64>,
    two: &mut Desk<u64>,
    slots: &mut Vec<Option<Held>>,
    calls: &[(Call, Answer)],
)
    requires domain { Belongs two.old domain.now }
    requires holds { HoldsSlots two.old (drop 4 slots.old.items) }
    ensures desk { IsSameDesk two.old two.new }
    ensures holds { HoldsSlots two.new (drop 4 slots.new.items) }
    ensures mine { take 4 slots.new.items ≡ take 4 slots.old.items }
{
    if slots.len() < 4 {
        return;
    }
    let (_mine, theirs) = slots.as_mut_slice().split_at_mut(4);
    all(rt, domain, two, theirs, calls);
}

/// The same in a thread of its own.
fn work_in_thread<R: Abort + Threads + Wait + Sync>(
    rt: &R,
    domain: &Domain<u64>,
    two: &mut Desk<u64>,
    slots: &mut Vec<Option<Held>>,
    calls: &[(Call, Answer)],
)
    requires domain { Belongs two.old domain.now }
    requires holds { HoldsSlots two.old (drop 4 slots.old.items) }
    ensures desk { IsSameDesk two.old two.new }
    ensures holds { HoldsSlots two.new (drop 4 slots.new.items) }
    ensures mine { take 4 slots.new.items ≡ take 4 slots.old.items }
{
    join_mut(
        rt,
        &mut || work_apart(rt, domain, two, slots, calls),
        &mut || (),
    );
}

/// The second desk works, and the two are joined.
fn work_and_join<R: Abort + Threads + Wait + Sync>(
    rt: &R,
    domain: &Domain<u64>,
    one: &mut Desk<u64>,
    two: Desk<u64>,
    slots: &mut Vec<Option<Held>>,
    calls: &[(Call, Answer)],
) -> Parts
    requires domain { Belongs one.old domain.now × Belongs two domain.now }
    requires mine { HoldsSlots one.old (take 4 slots.old.items) }
    requires theirs { HoldsSlots two (drop 4 slots.old.items) }
    ensures domain { Belongs one.new domain.now }
    ensures sum { allowance_of one.new ≡ allowance_of one.old + allowance_of two }
    ensures holds { HoldsSlots one.new slots.new.items }
{
    let mut two = two;
    let (kept, given) = (numbers(one), numbers(&two));
    work_in_thread(rt, domain, &mut two, slots, calls);
    one.assert_invariant();
    two.assert_invariant();
    one.join(domain, two);
    [kept, given, numbers(one)]
}

/// The second desk, which has the last two slots; none where there are fewer blocks or slots than that.
fn lend(
    domain: &Domain<u64>,
    desk: &mut Desk<u64>,
    alloc: Global,
    slots: &[Option<Held>],
    story: &Story<'_>,
) -> Result<Desk<u64>, Refusal>
    requires domain { Belongs desk.old domain.now }
    requires holds { HoldsSlots desk.old slots.now }
    ensures one { Belongs desk.new domain.now }
    ensures two { IfOk result (λ d. Belongs d domain.now) }
    ensures sum { IfOk result (λ d. allowance_of desk.new + allowance_of d ≡ allowance_of desk.old) }
    ensures less { IfOk result (λ _. allowance_of desk.new < allowance_of desk.old) }
    ensures mine { IfOk result (λ _. HoldsSlots desk.new (take 4 slots.now)) }
    ensures theirs { IfOk result (λ d. HoldsSlots d (drop 4 slots.now)) }
    ensures same { IfErr result (λ _. desk.new ≡ desk.old) }
{
    if desk.stock() < story.blocks || slots.len() < 4 {
        return Err(Refusal::Full);
    }
    let (_, lent) = slots.split_at(4);
    match desk.split_slots(alloc, domain, story.allowance, story.blocks, lent) {
        Ok(two) => Ok(two),
        Err(why) => Err(why),
    }
}

/// What the desks have while they are two and once they are one again, and why the first one couldn't close the domain
/// before that.
type Told = (Parts, u8);

/// A desk parts, and is joined with its part.
fn part_and_join<R: Abort + Threads + Wait + Sync>(
    rt: &R,
    alloc: Global,
    domain: Domain<u64>,
    desk: Desk<u64>,
    slots: &mut Vec<Option<Held>>,
    story: &Story<'_>,
) -> (Domain<u64>, Desk<u64>, Result<Told, Refusal>)
    requires domain { Belongs desk domain }
    requires sole { allowance_of desk ≡ domain.shape.allowance }
    requires holds { HoldsSlots desk slots.old.items }
    ensures domain { (result.0 ≡ domain) × Belongs result.1 domain }
    ensures sole { allowance_of result.1 ≡ domain.shape.allowance }
    ensures holds { HoldsSlots result.1 slots.new.items }
{
    let mut desk = desk;
    match lend(&domain, &mut desk, alloc, slots.as_slice(), story) {
        Ok(two) => {
            let (domain, mut desk, why) = unclosed(domain, desk);
            let parts = work_and_join(rt, &domain, &mut desk, two, slots, story.apart);
            (domain, desk, Ok((parts, why)))
        }
        Err(why) => (domain, desk, Err(why)),
    }
}

/// What is told of the story in a domain of its own, and how many blocks are vacant once it is closed.
#[tactic(auto, using(crate::proofs::Hands::none_held))]
fn told<R: Abort + Threads + Wait + Sync>(
    rt: &R,
    alloc: Global,
    shape: Shape,
    story: &Story<'_>,
) -> Result<(Told, u32), Refusal> {
    let (domain, mut desk) = match open(alloc, shape) {
        Ok(opened) => opened,
        Err(why) => return Err(why),
    };
    let Ok(mut slots) = six_slots(alloc) else {
        abandon(domain, desk);
        return Err(Refusal::Memory);
    };
    all(rt, &domain, &mut desk, &mut slots, story.before);
    let (domain, mut desk, told) = part_and_join(rt, alloc, domain, desk, &mut slots, story);
    all(rt, &domain, &mut desk, &mut slots, story.after);
    wind_up(&domain, &mut desk, slots);
    let vacant = match closed(domain, desk) {
        Some(census) => census.vacant(),
        None => 0,
    };
    match told {
        Ok(told) => Ok((told, vacant)),
        Err(why) => Err(why),
    }
}

const CELL: Cell = Cell::Shared(0);

/// A part of the desk replaces the object in a cell, and the desk has two owners of what comes out.
const REPLACING: Story<'_> = Story {
    before: &[
        (
            Call::New(New::Object([5, 0, 0, 0], false, 5), 0),
            Answer::Done,
        ),
        (Call::Come(0, Way::Share, 1), Answer::Done),
        (Call::Store(1, CELL), Answer::Left(Outcome::Empty)),
        (Call::Load(CELL, 2), Answer::Done),
        (Call::Tell(2, Look::Read), Answer::Field(5)),
        (Call::Tell(2, Look::UseCount), Answer::Count(3)),
    ],
    allowance: 2,
    blocks: 1,
    apart: &[
        (
            Call::New(New::Object([6, 0, 0, 0], false, 6), 0),
            Answer::Done,
        ),
        (Call::Exchange(0, CELL), Answer::Done),
        (Call::Release(0), Answer::Left(Outcome::Others)),
    ],
    after: &[
        (Call::Load(CELL, 3), Answer::Done),
        (Call::Tell(3, Look::Read), Answer::Field(6)),
        (Call::Tell(0, Look::UseCount), Answer::Count(2)),
    ],
};

#[test]
fn a_part_replaces_the_object_in_a_cell(rt: HostRuntime) {
    let told = told(&rt, rt.alloc(), shape_with_cells(4, 1, 0, 8), &REPLACING);
    let parts = [(6, 2, 2), (2, 0, 1), (8, 2, 2)];
    same(&rt, told, Ok(((parts, 9), 3)));
}

/// An object's two owners are on two desks, and the second is replaced there.
const TWO_OWNERS: Story<'_> = Story {
    before: &[
        (Call::New(New::Object([0; 4], false, 7), 0), Answer::Done),
        (Call::Come(0, Way::Share, 4), Answer::Done),
    ],
    allowance: 3,
    blocks: 1,
    apart: &[
        (Call::Come(0, Way::Share, 1), Answer::Done),
        (Call::Release(0), Answer::Left(Outcome::Others)),
        (Call::Tell(1, Look::UseCount), Answer::Count(2)),
    ],
    after: &[
        (Call::Release(0), Answer::Left(Outcome::Others)),
        (Call::Release(5), Answer::Left(Outcome::Ended(7))),
    ],
};

#[test]
fn two_desks_part_and_meet_again(rt: HostRuntime) {
    let told = told(&rt, rt.alloc(), shape(4, 8), &TWO_OWNERS);
    let parts = [(5, 1, 2), (3, 1, 1), (8, 2, 3)];
    same(&rt, told, Ok(((parts, 9), 4)));
}
