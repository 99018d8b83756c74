//! What may be done within a visit. The second list of each test is made there, in that of an object of number 9, which
//! ends then.

use crate::players::answers_within;
use pointer_calls::Answer::{Done, Is, Not, Nothing, Number};
use pointer_calls::Look::{Expired, Read, UseCount, Visit};
use pointer_calls::New::{Enabled, Object};
use pointer_calls::Pair::{Before, SamePlace};
use pointer_calls::Step::{
    Both, Clear, Come, Drop, Ends, EndsCount, Exchange, Load, Lock, Look, Make, Store, Take,
};
use pointer_calls::Way::{Downgrade, Share, WeakOfThis};
use pointer_calls::{Cell, Look as Asks, Pair, Row, Way};
use pointers::{Call, Fault, Spot};

/// An object in slot 0 with a weak pointer to it.
const OBJECT: [Row; 2] = [(Make(Enabled, 1, 0), Done), (Come(0, Downgrade, 10), Done)];

/// Each call on a pointer.
const POINTERS: [Row; 20] = [
    (Come(0, Way::Share, 1), Not(Fault::Busy(Call::Share))),
    (Come(0, Way::Nowhere, 1), Not(Fault::Busy(Call::Alias))),
    (Come(0, Way::Field(2), 1), Not(Fault::Busy(Call::Alias))),
    (
        Come(0, Way::This, 1),
        Not(Fault::Busy(Call::SharedFromThis)),
    ),
    (Come(0, Way::AtItsDesk(4), 1), Not(Fault::Busy(Call::Make))),
    (Come(0, Downgrade, 11), Not(Fault::Busy(Call::Downgrade))),
    (
        Come(0, WeakOfThis, 11),
        Not(Fault::Busy(Call::WeakFromThis)),
    ),
    (Come(10, Share, 11), Not(Fault::Busy(Call::Share))),
    (Come(10, Way::Lock, 1), Not(Fault::Busy(Call::Lock))),
    (Come(10, Way::Upgrade, 1), Not(Fault::Busy(Call::Upgrade))),
    (Look(0, Read), Not(Fault::Busy(Call::Read))),
    (Look(0, UseCount), Not(Fault::Busy(Call::UseCount))),
    (Look(0, Asks::Field), Number(0)),
    (Look(0, Visit), Not(Fault::Busy(Call::Visit))),
    (Look(10, Expired), Not(Fault::Busy(Call::Expired))),
    (Look(10, UseCount), Not(Fault::Busy(Call::UseCount))),
    (Both(0, Pair::Is, 0), Is(true)),
    (Both(0, SamePlace, 0), Is(true)),
    (Both(0, Before, 10), Is(false)),
    (Make(Object, 2, 1), Not(Fault::Busy(Call::Make))),
];

/// The refused makes' two values and the visited object ended, and nothing else changed.
const AS_BEFORE: [Row; 5] = [
    (EndsCount, Number(3)),
    (Look(0, UseCount), Number(1)),
    (Look(10, UseCount), Number(1)),
    (Drop(0), Done),
    (Ends, Number(1)),
];

#[test]
fn a_call_on_a_pointer_is_refused_within_a_visit(rt: HostRuntime) {
    answers_within(&rt, rt.alloc(), &OBJECT, &POINTERS, &AS_BEFORE);
}

/// Two objects in slots 0 and 1, a third in cell 0, and a weak pointer to the second.
const OBJECTS: [Row; 5] = [
    (Make(Object, 1, 0), Done),
    (Make(Object, 2, 1), Done),
    (Come(1, Downgrade, 10), Done),
    (Make(Object, 3, 2), Done),
    (Store(2, Cell::Free(0)), Done),
];

const SHARED: Spot = Spot::Shared(0);

const WEAK: Spot = Spot::Weak(0);

const FREE: Cell = Cell::Free(0);

const WATCHED: Cell = Cell::Weak(0);

/// Each call on a free cell or a member. What is handed in to a store or an exchange lets go when the visit is over.
const PLACES: [Row; 19] = [
    (Load(FREE, 3), Not(Fault::Busy(Call::Load(SHARED)))),
    (Store(9, FREE), Not(Fault::Busy(Call::Store(SHARED)))),
    (Clear(FREE), Not(Fault::Busy(Call::Clear(SHARED)))),
    (Take(FREE, 3), Not(Fault::Busy(Call::Exchange(SHARED)))),
    (
        Load(Cell::First(0), 3),
        Not(Fault::Busy(Call::Load(Spot::Owner(0)))),
    ),
    (
        Exchange(9, Cell::Next(0)),
        Not(Fault::Busy(Call::Exchange(Spot::Owner(1)))),
    ),
    (Load(WATCHED, 13), Not(Fault::Busy(Call::Load(WEAK)))),
    (Lock(WATCHED, 3), Not(Fault::Busy(Call::Load(WEAK)))),
    (Store(19, WATCHED), Not(Fault::Busy(Call::Store(WEAK)))),
    (Clear(WATCHED), Not(Fault::Busy(Call::Clear(WEAK)))),
    (Take(WATCHED, 13), Not(Fault::Busy(Call::Exchange(WEAK)))),
    (
        Take(Cell::Up(0), 13),
        Not(Fault::Busy(Call::Exchange(Spot::WeakMember(0)))),
    ),
    (Store(10, WATCHED), Not(Fault::Busy(Call::Store(WEAK)))),
    (Drop(10), Nothing),
    (Exchange(0, FREE), Not(Fault::Busy(Call::Exchange(SHARED)))),
    (Drop(0), Nothing),
    (Store(1, FREE), Not(Fault::Busy(Call::Store(SHARED)))),
    (Drop(1), Nothing),
    (EndsCount, Number(0)),
];

/// Both owners' objects ended, and the visited one.
const CELLS_AS_BEFORE: [Row; 5] = [
    (EndsCount, Number(3)),
    (Load(WATCHED, 13), Nothing),
    (Load(FREE, 3), Done),
    (Look(3, UseCount), Number(2)),
    (Clear(FREE), Done),
];

#[test]
fn a_call_on_a_cell_is_refused_within_a_visit(rt: HostRuntime) {
    answers_within(&rt, rt.alloc(), &OBJECTS, &PLACES, &CELLS_AS_BEFORE);
}

/// Two owners of an object, an owner of another, and weak pointers to both.
const OWNED: [Row; 5] = [
    (Make(Object, 1, 0), Done),
    (Come(0, Way::Share, 1), Done),
    (Make(Object, 2, 2), Done),
    (Come(0, Downgrade, 10), Done),
    (Come(2, Downgrade, 11), Done),
];

/// They are dropped.
const DROPPED: [Row; 4] = [
    (Drop(1), Done),
    (Drop(10), Done),
    (Drop(2), Done),
    (Ends, Number(0)),
];

/// They let go when the visit is over, before the visited object does.
const LET_GO: [Row; 3] = [
    (Ends, Number(29)),
    (Look(0, UseCount), Number(1)),
    (Look(11, Expired), Is(true)),
];

#[test]
fn what_is_dropped_within_a_visit_lets_go_after_it(rt: HostRuntime) {
    answers_within(&rt, rt.alloc(), &OWNED, &DROPPED, &LET_GO);
}
