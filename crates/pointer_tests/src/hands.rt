//! A desk that is held: what the calls of its hand answer, what plain calls answer meanwhile, and what leaves when.

use pointer_calls::row;
use pointers::{Call, Desk, Domain, Fault, Program, Refusal, Shared, SharedCell, Spot, Team, run};
use std::sync::Wait;
use std::thread::Threads;

/// The one shared cell, and one that isn't there.
const CELL: SharedCell = SharedCell(0);

const NO_CELL: SharedCell = SharedCell(1);

/// Whether it is a pointer to the same object.
fn is_one<'t, D: Domain>(found: Option<Shared<'t, D>>, one: &Shared<'t, D>) -> bool {
    match found {
        Some(found) => found.is(one),
        None => false,
    }
}

/// Owners of one object, and weak pointers to it.
fn owners<R: Wait, D: Domain<Value = ()>>(rt: &R, desk: &Desk<D>) -> Result<(), Fault> {
    let mut hand = desk.hold()?;
    let one = hand.make([7, 0, 0, 0], ())?;
    row(1, hand.use_count(&one) == 1)?;
    let weak = hand.downgrade(&one)?;
    row(2, !hand.expired(&weak))?;
    let other = hand.lock(rt, &weak)?;
    row(3, hand.use_count(&one) == 2)?;
    row(4, one.use_count() == Err(Fault::Busy(Call::UseCount)))?;
    drop(other);
    row(5, hand.use_count(&one) == 2)?;
    let third = hand.upgrade(rt, &weak)?;
    row(6, hand.use_count(&one) == 3)?;
    hand.let_go(third);
    row(7, hand.use_count(&one) == 2)?;
    drop(hand);
    row(8, one.use_count()? == 1)?;
    let mut hand = desk.hold()?;
    hand.let_go(one);
    row(9, hand.expired(&weak))?;
    row(10, hand.lock(rt, &weak)?.is_none())?;
    let none = hand.upgrade(rt, &weak);
    row(
        11,
        why(none) == Some(Fault::Refused(Call::Upgrade, Refusal::BadWeak)),
    )
}

/// Why there is no pointer.
fn why<T: Drop>(answer: Result<T, Fault>) -> Option<Fault> {
    match answer {
        Ok(_) => None,
        Err(why) => Some(why),
    }
}

/// A free cell, and a member.
fn cells<R: Wait, D: Domain<Value = ()>>(rt: &R, desk: &Desk<D>) -> Result<(), Fault> {
    let cell = desk.cell(CELL);
    let mut hand = desk.hold()?;
    let one = hand.make([1, 0, 0, 0], ())?;
    let two = hand.make([2, 0, 0, 0], ())?;
    let copy = hand.share(&one)?;
    hand.store(&cell, Some(copy))?;
    row(12, is_one(hand.load(rt, &cell)?, &one))?;
    let copy = hand.share(&two)?;
    row(13, is_one(hand.exchange(&cell, Some(copy))?, &one))?;
    let child = one.first();
    let empty = hand.load(rt, &child)?;
    row(14, is_one(hand.exchange(&cell, empty)?, &two))?;
    row(15, hand.load(rt, &cell)?.is_none())?;
    hand.store(&child, Some(two))?;
    row(16, hand.load(rt, &child)?.is_some())?;
    let none = hand.load(rt, &desk.cell(NO_CELL));
    row(
        17,
        why(none) == Some(Fault::Cell(Call::Load(Spot::Shared(1)))),
    )
}

/// A strong compare of a free cell: it finds something else, and then what is expected.
fn compares<R: Wait, D: Domain<Value = ()>>(rt: &R, desk: &Desk<D>) -> Result<(), Fault> {
    let cell = desk.cell(CELL);
    let mut hand = desk.hold()?;
    let one = hand.make([1, 0, 0, 0], ())?;
    let two = hand.make([2, 0, 0, 0], ())?;
    let copy = hand.share(&one)?;
    hand.store(&cell, Some(copy))?;
    let mut expected = Some(hand.share(&two)?);
    let mut desired = Some(hand.share(&two)?);
    row(22, hand.use_count(&two) == 3)?;
    let swapped = hand.compare_exchange_strong(rt, &cell, &mut expected, &mut desired)?;
    row(23, !swapped && is_one(desired.take(), &two))?;
    row(24, hand.use_count(&one) == 3 && hand.use_count(&two) == 2)?;
    desired = Some(hand.share(&two)?);
    let swapped = hand.compare_exchange_strong(rt, &cell, &mut expected, &mut desired)?;
    row(25, swapped && desired.is_none() && is_one(expected, &one))?;
    row(26, is_one(hand.load(rt, &cell)?, &two))?;
    let mut none = None;
    let crowded = hand.compare_exchange_strong(rt, &cell, &mut none, &mut desired);
    let why_not = Fault::Crowded(Call::CompareExchange(Spot::Shared(0)));
    row(27, why(crowded) == Some(why_not))?;
    row(28, none.is_none() && desired.is_none())
}

/// Compares with empty pointers, and weak ones, of a member.
fn compares_none<R: Wait, D: Domain<Value = ()>>(rt: &R, desk: &Desk<D>) -> Result<(), Fault> {
    let mut hand = desk.hold()?;
    let one = hand.make([1, 0, 0, 0], ())?;
    let two = hand.make([2, 0, 0, 0], ())?;
    let child = one.first();
    let mut expected = None;
    let mut desired = Some(two);
    let swapped = hand.compare_exchange_strong(rt, &child, &mut expected, &mut desired)?;
    row(29, swapped && expected.is_none() && desired.is_none())?;
    let swapped = hand.compare_exchange_weak(rt, &child, &mut expected, &mut desired)?;
    row(30, !swapped && desired.is_none())?;
    let Some(held) = &expected else {
        return Err(Fault::Other(31));
    };
    row(31, hand.use_count(held) == 2)?;
    for _ in rt.forever() {
        if hand.compare_exchange_weak(rt, &child, &mut expected, &mut desired)? {
            break;
        }
    }
    row(32, hand.load(rt, &child)?.is_none() && expected.is_some())?;
    let beyond = one.owner(9);
    let none = hand.compare_exchange_weak(rt, &beyond, &mut expected, &mut desired);
    let why_not = Fault::Member(Call::CompareExchange(Spot::Owner(9)));
    row(33, why(none) == Some(why_not) && expected.is_some())
}

/// All pointers that the desk may have, and all blocks.
fn limits<D: Domain<Value = ()>>(desk: &Desk<D>) -> Result<(), Fault> {
    let mut hand = desk.hold()?;
    row(18, why(desk.hold()) == Some(Fault::Busy(Call::Hold)))?;
    let one = hand.make([0; 4], ())?;
    let two = hand.make([0; 4], ())?;
    match hand.make([0; 4], ()) {
        Ok(_) => return Err(Fault::Other(19)),
        Err(refused) => row(19, refused.why == Fault::Refused(Call::Make, Refusal::Full))?,
    }
    let copies = (hand.share(&one)?, hand.share(&two)?, hand.share(&two)?);
    let more = hand.share(&one)?;
    row(
        20,
        why(hand.share(&one)) == Some(Fault::Crowded(Call::Share)),
    )?;
    hand.let_go(more);
    row(21, hand.share(&one).is_ok())?;
    drop(copies);
    Ok(())
}

/// A worker that holds its desk, and then makes plain calls again.
#[derive(Drop)]
struct Holder {}

impl<R: Threads + Wait + Sync> Program<(), R> for Holder {
    fn work<D: Domain<Value = ()>>(
        &self,
        rt: &R,
        _number: usize,
        desk: &Desk<D>,
    ) -> Result<(), Fault> {
        owners(rt, desk)?;
        cells(rt, desk)?;
        limits(desk)?;
        desk.clear(CELL)?;
        compares(rt, desk)?;
        desk.clear(CELL)?;
        compares_none(rt, desk)?;
        desk.new(())?.store(CELL)
    }
}

#[cfg(test)]
mod tests {
    use super::*;

    #[test]
    fn a_held_desk_answers_as_a_plain_one(rt: HostRuntime) {
        let team = Team {
            workers: 1,
            pointers: 4,
        };
        match run(&rt, rt.alloc(), team.shape(2, 1, 0), team, &Holder {}) {
            Ok(ran) => assert_eq!(rt; (ran.fault(), ran.census.vacant()), (None, 1)),
            Err(why) => panic!(rt; "{why}"),
        }
    }
}
