//! Each call on a free cell for owners.

use crate::players::{answers, answers_often};
use pointer_calls::Answer::{Done, Not, Nothing, Number};
use pointer_calls::Look::Read;
use pointer_calls::New::Object;
use pointer_calls::Step::{Clear, Drop, Ends, Exchange, Load, Lock, Look, Make, Store, Take};
use pointer_calls::{Cell, Row};
use pointers::{Call, Fault, Spot};

/// Stores, loads, exchanges, and cells that are emptied in each way.
const CALLS: [Row; 37] = [
    (Load(Cell::Free(0), 0), Nothing),
    (Make(Object, 1, 0), Done),
    (Store(0, Cell::Free(0)), Done),
    (Drop(0), Nothing),
    (Load(Cell::Free(0), 0), Done),
    (Look(0, Read), Number(1)),
    (Drop(0), Done),
    (Make(Object, 2, 0), Done),
    (Store(0, Cell::Place(0)), Done),
    (Ends, Number(1)),
    (Make(Object, 3, 0), Done),
    (Exchange(0, Cell::Free(0)), Done),
    (Look(0, Read), Number(2)),
    (Load(Cell::Place(0), 1), Done),
    (Look(1, Read), Number(3)),
    (Drop(1), Done),
    (Store(0, Cell::Desk(0)), Done),
    (Ends, Number(3)),
    (Store(9, Cell::Desk(0)), Done),
    (Ends, Number(2)),
    (Load(Cell::Free(0), 0), Nothing),
    (Take(Cell::Free(1), 0), Nothing),
    (Make(Object, 4, 0), Done),
    (Store(0, Cell::Free(1)), Done),
    (Take(Cell::Free(1), 0), Done),
    (Look(0, Read), Number(4)),
    (Load(Cell::Free(1), 1), Nothing),
    (Exchange(0, Cell::Place(1)), Nothing),
    (Exchange(9, Cell::Place(1)), Done),
    (Drop(9), Done),
    (Ends, Number(4)),
    (Clear(Cell::Free(1)), Done),
    (Make(Object, 5, 0), Done),
    (Store(0, Cell::Free(1)), Done),
    (Clear(Cell::Place(1)), Done),
    (Ends, Number(5)),
    (Take(Cell::Place(1), 0), Nothing),
];

#[test]
fn a_free_cell_has_an_owner(rt: HostRuntime) {
    answers(&rt, rt.alloc(), &CALLS);
}

const OUTSIDE: Spot = Spot::Shared(2);

/// A cell that isn't there: what was handed in lets go.
const NO_CELL: [Row; 14] = [
    (
        Load(Cell::Free(2), 0),
        Not(Fault::Cell(Call::Load(OUTSIDE))),
    ),
    (Clear(Cell::Free(2)), Not(Fault::Cell(Call::Clear(OUTSIDE)))),
    (
        Store(9, Cell::Desk(2)),
        Not(Fault::Cell(Call::Store(OUTSIDE))),
    ),
    (
        Take(Cell::Free(2), 0),
        Not(Fault::Cell(Call::Exchange(OUTSIDE))),
    ),
    (Make(Object, 1, 0), Done),
    (
        Store(0, Cell::Free(2)),
        Not(Fault::Cell(Call::Store(OUTSIDE))),
    ),
    (Ends, Number(1)),
    (Make(Object, 2, 0), Done),
    (
        Exchange(0, Cell::Free(2)),
        Not(Fault::Cell(Call::Exchange(OUTSIDE))),
    ),
    (Ends, Number(2)),
    (Make(Object, 3, 0), Done),
    (
        Store(0, Cell::Place(2)),
        Not(Fault::Cell(Call::Store(OUTSIDE))),
    ),
    (Ends, Number(3)),
    (
        Load(Cell::Free(u32::MAX), 0),
        Not(Fault::Cell(Call::Load(Spot::Shared(u32::MAX)))),
    ),
];

#[test]
fn a_call_on_no_cell_is_refused(rt: HostRuntime) {
    answers(&rt, rt.alloc(), &NO_CELL);
}

/// What finds nothing.
const FINDS: [Row; 5] = [
    (Load(Cell::Free(0), 0), Nothing),
    (Lock(Cell::Weak(0), 0), Nothing),
    (Take(Cell::Free(0), 0), Nothing),
    (Take(Cell::Weak(0), 10), Nothing),
    (
        Load(Cell::Free(2), 0),
        Not(Fault::Cell(Call::Load(OUTSIDE))),
    ),
];

/// A desk of 16 pointers keeps none for what found nothing.
#[test]
fn what_finds_nothing_keeps_no_pointer(rt: HostRuntime) {
    answers_often(&rt, rt.alloc(), &FINDS);
}
