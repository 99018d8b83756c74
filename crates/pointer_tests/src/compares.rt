//! Compares, of owners and of weak pointers. Slots 8 and 9, 18 and 19 are vacant: there an empty pointer is expected or
//! desired.

use crate::players::{answers, answers_within};
use pointer_calls::Answer::{Done, Is, Not, Nothing, Number};
use pointer_calls::Form::{Strong, Until, Weak};
use pointer_calls::Look::{Read, UseCount};
use pointer_calls::New::Object;
use pointer_calls::Step::{
    Both, Clear, Come, Compare, Drop, Ends, Load, Look, Make, Shares, Store,
};
use pointer_calls::Way::{Downgrade, Nowhere, Share};
use pointer_calls::{Cell, Look as Asks, Pair, Row, Way};
use pointers::{Call, Fault, Refusal, Spot};

/// A free cell, by its place.
const CELL: Cell = Cell::Place(0);

/// An empty cell, and one that holds what was expected.
const SWAPS: [Row; 15] = [
    (Make(Object, 1, 0), Done),
    (Come(0, Share, 1), Done),
    (Compare(Strong, CELL, 9, 1), Is(true)),
    (Drop(9), Nothing),
    (Drop(1), Nothing),
    (Look(0, UseCount), Number(2)),
    (Make(Object, 2, 1), Done),
    (Compare(Until, CELL, 0, 1), Is(true)),
    (Drop(1), Nothing),
    (Look(0, UseCount), Number(1)),
    (Drop(0), Done),
    (Ends, Number(1)),
    (Load(CELL, 0), Done),
    (Compare(Strong, CELL, 0, 9), Is(true)),
    (Load(CELL, 1), Nothing),
];

#[test]
fn what_is_expected_is_exchanged(rt: HostRuntime) {
    answers(&rt, rt.alloc(), &SWAPS);
}

/// A cell that holds something else: what was expected becomes a copy of that.
const DIFFERS: [Row; 16] = [
    (Make(Object, 3, 0), Done),
    (Store(0, CELL), Done),
    (Compare(Strong, CELL, 8, 9), Is(false)),
    (Look(8, Read), Number(3)),
    (Compare(Strong, CELL, 8, 9), Is(true)),
    (Drop(8), Done),
    (Ends, Number(3)),
    (Make(Object, 4, 1), Done),
    (Make(Object, 5, 2), Done),
    (Compare(Weak, CELL, 1, 2), Is(false)),
    (Ends, Number(4)),
    (Drop(1), Nothing),
    (Look(2, Read), Number(5)),
    (Compare(Strong, CELL, 9, 2), Is(true)),
    (Clear(CELL), Done),
    (Ends, Number(5)),
];

#[test]
fn what_differs_is_told(rt: HostRuntime) {
    answers(&rt, rt.alloc(), &DIFFERS);
}

/// The same of weak pointers.
const WEAK: [Row; 13] = [
    (Make(Object, 6, 0), Done),
    (Come(0, Downgrade, 10), Done),
    (Compare(Until, Cell::WeakPlace(0), 19, 10), Is(true)),
    (Drop(19), Nothing),
    (Drop(10), Nothing),
    (Compare(Strong, Cell::WeakPlace(0), 18, 19), Is(false)),
    (Compare(Strong, Cell::WeakPlace(0), 18, 19), Is(true)),
    (Drop(18), Done),
    (Load(Cell::WeakPlace(0), 11), Nothing),
    (Come(0, Downgrade, 10), Done),
    (Compare(Weak, Cell::WeakPlace(0), 10, 19), Is(false)),
    (Drop(10), Nothing),
    (Look(0, UseCount), Number(1)),
];

#[test]
fn weak_pointers_are_compared(rt: HostRuntime) {
    answers(&rt, rt.alloc(), &WEAK);
}

/// A cell that isn't there: both pointers stay.
const NO_CELL: [Row; 10] = [
    (Make(Object, 7, 0), Done),
    (
        Compare(Strong, Cell::Place(9), 9, 0),
        Not(Fault::Cell(Call::CompareExchange(Spot::Shared(9)))),
    ),
    (Drop(9), Nothing),
    (Look(0, UseCount), Number(1)),
    (Come(0, Downgrade, 10), Done),
    (
        Compare(Weak, Cell::WeakPlace(9), 10, 19),
        Not(Fault::Cell(Call::CompareExchange(Spot::Weak(9)))),
    ),
    (Drop(19), Nothing),
    (Drop(10), Done),
    (Drop(0), Done),
    (Ends, Number(7)),
];

#[test]
fn a_refused_compare_keeps_both(rt: HostRuntime) {
    answers(&rt, rt.alloc(), &NO_CELL);
}

/// Equivalent is what has the same place, and the same object or none.
const PLACES: [Row; 15] = [
    (Make(Object, 1, 0), Done),
    (Make(Object, 2, 1), Done),
    (Come(0, Share, 2), Done),
    (Store(2, CELL), Done),
    (Come(1, Way::Into(0), 2), Done),
    (Compare(Strong, CELL, 2, 9), Is(false)),
    (Both(2, Pair::Is, 0), Is(true)),
    (Come(0, Nowhere, 2), Done),
    (Compare(Strong, CELL, 2, 9), Is(false)),
    (Look(2, Asks::Field), Number(0)),
    (Come(0, Nowhere, 2), Done),
    (Store(2, CELL), Done),
    (Compare(Strong, CELL, 8, 1), Is(false)),
    (Look(8, Asks::Field), Nothing),
    (Compare(Strong, CELL, 8, 9), Is(true)),
];

#[test]
fn places_and_objects_are_compared(rt: HostRuntime) {
    answers(&rt, rt.alloc(), &PLACES);
}

/// Members by a pointer that points nowhere, and by one that points into another object: both pointers stay.
const NOWHERE: [Row; 14] = [
    (Make(Object, 1, 0), Done),
    (Make(Object, 2, 1), Done),
    (Come(0, Nowhere, 2), Done),
    (Come(1, Way::Into(0), 3), Done),
    (Come(0, Share, 4), Done),
    (Come(0, Downgrade, 14), Done),
    (
        Compare(Weak, Cell::First(2), 9, 4),
        Not(Fault::Refused(FIRST, Refusal::Null)),
    ),
    (
        Compare(Strong, Cell::Next(3), 4, 9),
        Not(Fault::Refused(NEXT, Refusal::Outside)),
    ),
    (
        Compare(Weak, Cell::Up(2), 19, 14),
        Not(Fault::Refused(UP, Refusal::Null)),
    ),
    (Both(4, Pair::Is, 0), Is(true)),
    (Drop(4), Done),
    (Drop(14), Done),
    (Look(0, UseCount), Number(2)),
    (Look(1, UseCount), Number(2)),
];

const FIRST: Call = Call::CompareExchange(Spot::Owner(0));

const NEXT: Call = Call::CompareExchange(Spot::Owner(1));

const UP: Call = Call::CompareExchange(Spot::WeakMember(0));

#[test]
fn a_pointer_to_nowhere_compares_no_members(rt: HostRuntime) {
    answers(&rt, rt.alloc(), &NOWHERE);
}

/// Members, and links.
const MEMBERS: [Row; 10] = [
    (Make(Object, 1, 0), Done),
    (Make(Object, 2, 1), Done),
    (Compare(Strong, Cell::First(0), 9, 1), Is(true)),
    (Drop(1), Nothing),
    (Load(Cell::First(0), 1), Done),
    (Compare(Until, Cell::First(0), 1, 9), Is(true)),
    (Drop(1), Done),
    (Ends, Number(2)),
    (Come(0, Downgrade, 10), Done),
    (Compare(Until, Cell::Up(0), 19, 10), Is(true)),
];

#[test]
fn members_are_compared(rt: HostRuntime) {
    answers(&rt, rt.alloc(), &MEMBERS);
}

/// Two pointers, which are all that lie in slots but for copies of the first.
const HOLDS: [Row; 3] = [
    (Make(Object, 1, 0), Done),
    (Come(0, Share, 1), Done),
    (Come(0, Downgrade, 20), Done),
];

/// Calls within a visit.
const BUSY: [Row; 2] = [
    (Compare(Strong, CELL, 0, 1), Not(Fault::Busy(SHARED))),
    (
        Compare(Strong, Cell::WeakPlace(0), 20, 19),
        Not(Fault::Busy(WEAK_CELL)),
    ),
];

/// Both pointers stayed. Then as many pointers as a desk may have: a compare brings a copy of what the cell holds.
const CROWDED: [Row; 7] = [
    (Look(0, UseCount), Number(2)),
    (Shares(0, 2, 15), Done),
    (Come(0, Share, 18), Not(Fault::Crowded(Call::Share))),
    (Compare(Strong, CELL, 0, 1), Not(Fault::Crowded(SHARED))),
    (Compare(Weak, CELL, 21, 1), Not(Fault::Crowded(SHARED))),
    (Look(0, UseCount), Number(17)),
    (Compare(Strong, CELL, 21, 22), Not(Fault::Crowded(SHARED))),
];

const SHARED: Call = Call::CompareExchange(Spot::Shared(0));

const WEAK_CELL: Call = Call::CompareExchange(Spot::Weak(0));

#[test]
fn a_crowded_or_busy_compare_keeps_both(rt: HostRuntime) {
    answers_within(&rt, rt.alloc(), &HOLDS, &BUSY, &CROWDED);
}
