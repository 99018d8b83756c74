//! Each call on a weak pointer, and on free cells for them.

use crate::players::answers;
use pointer_calls::Answer::{Done, Is, Not, Nothing, Number};
use pointer_calls::Look::{Expired, Read, UseCount};
use pointer_calls::New::Object;
use pointer_calls::Pair::Before;
use pointer_calls::Step::{Both, Clear, Come, Drop, Exchange, Load, Lock, Look, Make, Store, Take};
use pointer_calls::Way::{AtItsDesk, Downgrade, Share};
use pointer_calls::{Cell, Pair, Row, Way};
use pointers::{Call, Fault, Refusal, Spot};

/// While the object lives, and after its end.
const LOCKS: [Row; 15] = [
    (Make(Object, 1, 0), Done),
    (Come(0, Downgrade, 10), Done),
    (Look(10, Expired), Is(false)),
    (Look(10, UseCount), Number(1)),
    (Come(10, Way::Lock, 1), Done),
    (Both(1, Pair::Is, 0), Is(true)),
    (Drop(1), Done),
    (Come(10, Way::Upgrade, 1), Done),
    (Look(1, UseCount), Number(2)),
    (Drop(0), Done),
    (Drop(1), Done),
    (Look(10, Expired), Is(true)),
    (Look(10, UseCount), Number(0)),
    (Come(10, Way::Lock, 1), Nothing),
    (
        Come(10, Way::Upgrade, 1),
        Not(Fault::Refused(Call::Upgrade, Refusal::BadWeak)),
    ),
];

#[test]
fn a_weak_pointer_locks_while_an_owner_remains(rt: HostRuntime) {
    answers(&rt, rt.alloc(), &LOCKS);
}

/// Copies, and whose they are. The first object has the lower block, or the higher one.
const COPIES: [Row; 12] = [
    (Make(Object, 1, 0), Done),
    (Make(Object, 2, 1), Done),
    (Come(0, Downgrade, 10), Done),
    (Come(10, Share, 11), Done),
    (Come(1, Downgrade, 12), Done),
    (Both(10, Pair::Is, 11), Is(true)),
    (Both(10, Pair::Is, 12), Is(false)),
    (Both(10, Before, 11), Is(false)),
    (Both(10, Before, 0), Is(false)),
    (Both(0, Before, 10), Is(false)),
    (Come(10, AtItsDesk(7), 3), Done),
    (Look(3, Read), Number(7)),
];

#[test]
fn copies_are_of_one_object(rt: HostRuntime) {
    answers(&rt, rt.alloc(), &COPIES);
}

/// Free cells, with what a desk stores and what their places do.
const CELLS: [Row; 28] = [
    (Load(Cell::Weak(1), 10), Nothing),
    (Lock(Cell::Weak(1), 0), Nothing),
    (Make(Object, 1, 0), Done),
    (Come(0, Downgrade, 10), Done),
    (Store(10, Cell::Weak(1)), Done),
    (Lock(Cell::Weak(1), 1), Done),
    (Lock(Cell::WeakPlace(1), 1), Done),
    (Make(Object, 2, 2), Done),
    (Come(2, Downgrade, 11), Done),
    (Exchange(11, Cell::Weak(1)), Done),
    (Come(0, Downgrade, 10), Done),
    (Both(10, Pair::Is, 11), Is(true)),
    (Drop(2), Done),
    (Lock(Cell::Weak(1), 3), Nothing),
    (Load(Cell::Weak(1), 13), Done),
    (Look(13, Expired), Is(true)),
    (Clear(Cell::Weak(1)), Done),
    (Load(Cell::WeakPlace(1), 13), Nothing),
    (Store(10, Cell::WeakDesk(1)), Done),
    (Store(14, Cell::WeakDesk(1)), Done),
    (Take(Cell::WeakPlace(1), 13), Nothing),
    (Store(11, Cell::WeakPlace(1)), Done),
    (Exchange(14, Cell::WeakPlace(1)), Done),
    (Come(14, Way::Lock, 3), Done),
    (Store(14, Cell::Weak(1)), Done),
    (Take(Cell::Weak(1), 14), Done),
    (Store(15, Cell::Weak(1)), Done),
    (Clear(Cell::WeakPlace(1)), Done),
];

#[test]
fn a_free_cell_has_a_weak_pointer(rt: HostRuntime) {
    answers(&rt, rt.alloc(), &CELLS);
}

const OUTSIDE: Spot = Spot::Weak(2);

/// A cell that isn't there: what was handed in lets go.
const NO_CELL: [Row; 13] = [
    (Make(Object, 3, 0), Done),
    (Come(0, Downgrade, 10), Done),
    (Come(10, Share, 11), Done),
    (
        Load(Cell::Weak(2), 12),
        Not(Fault::Cell(Call::Load(OUTSIDE))),
    ),
    (
        Lock(Cell::Weak(2), 2),
        Not(Fault::Cell(Call::Load(OUTSIDE))),
    ),
    (
        Store(10, Cell::Weak(2)),
        Not(Fault::Cell(Call::Store(OUTSIDE))),
    ),
    (Drop(10), Nothing),
    (
        Exchange(11, Cell::Weak(2)),
        Not(Fault::Cell(Call::Exchange(OUTSIDE))),
    ),
    (Drop(11), Nothing),
    (
        Store(13, Cell::WeakDesk(2)),
        Not(Fault::Cell(Call::Store(OUTSIDE))),
    ),
    (Clear(Cell::Weak(2)), Not(Fault::Cell(Call::Clear(OUTSIDE)))),
    (
        Take(Cell::WeakPlace(2), 12),
        Not(Fault::Cell(Call::Exchange(OUTSIDE))),
    ),
    (Look(0, UseCount), Number(1)),
];

#[test]
fn a_call_on_no_cell_for_weak_pointers_is_refused(rt: HostRuntime) {
    answers(&rt, rt.alloc(), &NO_CELL);
}
