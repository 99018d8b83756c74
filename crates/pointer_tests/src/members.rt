//! Members of objects, and links to them.

use crate::players::answers;
use pointer_calls::Answer::{Done, Is, Not, Nothing, Number};
use pointer_calls::Look::{Read, UseCount};
use pointer_calls::New::Object;
use pointer_calls::Step::{
    Both, Clear, Come, Drop, Ends, EndsCount, Exchange, First, Load, Lock, Look, Make, Next, Store,
    Take,
};
use pointer_calls::Way::{Downgrade, Nowhere, Parent};
use pointer_calls::{ByLink, Cell, Pair, Row};
use pointers::{Call, Fault, Refusal, Spot};

/// A tree of two, whose child is moved from one member to the other.
const MOVES: [Row; 21] = [
    (Make(Object, 1, 0), Done),
    (Make(Object, 2, 1), Done),
    (Come(0, Downgrade, 10), Done),
    (Store(10, Cell::Up(1)), Done),
    (Store(1, Cell::First(0)), Done),
    (Take(Cell::First(0), 1), Done),
    (Load(Cell::First(0), 2), Nothing),
    (Come(1, Parent, 2), Done),
    (Both(2, Pair::Is, 0), Is(true)),
    (Drop(2), Done),
    (Exchange(1, Cell::Next(0)), Nothing),
    (Load(Cell::Next(0), 1), Done),
    (Look(1, Read), Number(2)),
    (Clear(Cell::Next(0)), Done),
    (Look(1, UseCount), Number(1)),
    (Store(1, Cell::First(0)), Done),
    (Load(Cell::First(0), 1), Done),
    (Look(1, UseCount), Number(2)),
    (Drop(1), Done),
    (Drop(0), Done),
    (EndsCount, Number(2)),
];

#[test]
fn members_own(rt: HostRuntime) {
    answers(&rt, rt.alloc(), &MOVES);
}

/// Members by links, which keep their object.
const LINKS: [Row; 18] = [
    (Make(Object, 3, 0), Done),
    (First(0, ByLink::Load(1)), Nothing),
    (Make(Object, 4, 1), Done),
    (First(0, ByLink::Store(1)), Done),
    (First(0, ByLink::Load(1)), Done),
    (Next(1, ByLink::Load(2)), Nothing),
    (Make(Object, 5, 2), Done),
    (Store(2, Cell::Next(1)), Done),
    (Next(1, ByLink::Load(2)), Done),
    (Look(2, Read), Number(5)),
    (First(0, ByLink::Exchange(2)), Done),
    (Look(2, Read), Number(4)),
    (First(0, ByLink::Take(3)), Done),
    (Look(3, Read), Number(5)),
    (First(0, ByLink::Store(3)), Done),
    (First(0, ByLink::Clear), Done),
    (Look(0, Read), Number(3)),
    (First(0, ByLink::Load(3)), Nothing),
];

#[test]
fn links_keep_their_object(rt: HostRuntime) {
    answers(&rt, rt.alloc(), &LINKS);
}

/// The weak member.
const UPS: [Row; 14] = [
    (Make(Object, 6, 0), Done),
    (Load(Cell::Up(0), 10), Nothing),
    (Come(0, Parent, 1), Nothing),
    (Come(0, Downgrade, 10), Done),
    (Store(10, Cell::Up(0)), Done),
    (Lock(Cell::Up(0), 1), Done),
    (Both(1, Pair::Is, 0), Is(true)),
    (Exchange(19, Cell::Up(0)), Done),
    (Store(19, Cell::Up(0)), Done),
    (Take(Cell::Up(0), 13), Done),
    (Take(Cell::Up(0), 14), Nothing),
    (Store(13, Cell::Up(0)), Done),
    (Store(14, Cell::Up(0)), Done),
    (Clear(Cell::Up(0)), Done),
];

#[test]
fn a_member_watches(rt: HostRuntime) {
    answers(&rt, rt.alloc(), &UPS);
}

/// Members by a pointer that points nowhere: what was handed in lets go.
const NOWHERE: [Row; 8] = [
    (Make(Object, 6, 0), Done),
    (Come(0, Nowhere, 1), Done),
    (
        Load(Cell::Next(1), 2),
        Not(Fault::Refused(Call::Load(Spot::Owner(1)), Refusal::Null)),
    ),
    (
        Clear(Cell::Up(1)),
        Not(Fault::Refused(Call::Clear(Spot::WeakMember(0)), Refusal::Null)),
    ),
    (
        Come(1, Parent, 2),
        Not(Fault::Refused(Call::Load(Spot::WeakMember(0)), Refusal::Null)),
    ),
    (Make(Object, 7, 2), Done),
    (
        Store(2, Cell::First(1)),
        Not(Fault::Refused(Call::Store(Spot::Owner(0)), Refusal::Null)),
    ),
    (Ends, Number(7)),
];

#[test]
fn a_pointer_to_nowhere_has_no_members(rt: HostRuntime) {
    answers(&rt, rt.alloc(), &NOWHERE);
}
