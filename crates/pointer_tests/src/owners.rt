//! Each call on an owner.

use crate::players::answers;
use pointer_calls::Answer::{Done, Is, Not, Nothing, Number};
use pointer_calls::Look::{Read, UseCount, Visit};
use pointer_calls::New::{Enabled, Null, Object, Zeros};
use pointer_calls::Pair::{Before, SamePlace};
use pointer_calls::Step::{Both, Come, Drop, Ends, Look, Make};
use pointer_calls::Way::{AtItsDesk, Nowhere, Share, This, WeakOfThis};
use pointer_calls::{Look as Asks, Pair, Row, Way};
use pointers::{Call, Fault, Refusal};

/// Two owners of one object.
const SHARED: [Row; 12] = [
    (Make(Object, 1, 0), Done),
    (Look(0, Read), Number(1)),
    (Look(0, UseCount), Number(1)),
    (Come(0, Share, 1), Done),
    (Look(1, UseCount), Number(2)),
    (Both(0, Pair::Is, 1), Is(true)),
    (Both(0, SamePlace, 1), Is(true)),
    (Drop(0), Done),
    (Look(1, UseCount), Number(1)),
    (Ends, Number(0)),
    (Drop(1), Done),
    (Ends, Number(1)),
];

#[test]
fn the_last_owner_ends_its_object(rt: HostRuntime) {
    answers(&rt, rt.alloc(), &SHARED);
}

/// Owners that point at a field, nowhere, and into another object.
const ALIASES: [Row; 26] = [
    (Make(Object, 1, 0), Done),
    (Look(0, Asks::Field), Number(0)),
    (Come(0, Way::Field(2), 1), Done),
    (Look(1, Read), Number(30)),
    (Both(1, Pair::Is, 0), Is(true)),
    (Both(1, SamePlace, 0), Is(false)),
    (Come(0, Nowhere, 2), Done),
    (Look(2, Asks::Field), Nothing),
    (
        Look(2, Read),
        Not(Fault::Refused(Call::Read, Refusal::Null)),
    ),
    (Look(2, Visit), Number(1)),
    (Come(0, Way::Field(4), 3), Not(Fault::Place(Call::Alias))),
    (Look(2, UseCount), Number(3)),
    (Make(Object, 2, 3), Done),
    (Come(0, Way::Into(3), 4), Done),
    (Both(4, SamePlace, 3), Is(true)),
    (Both(4, Pair::Is, 3), Is(false)),
    (
        Look(4, Read),
        Not(Fault::Refused(Call::Read, Refusal::Outside)),
    ),
    (Look(4, Visit), Number(1)),
    (Both(0, Before, 4), Is(false)),
    (Drop(0), Done),
    (Drop(1), Done),
    (Drop(2), Done),
    (Drop(3), Done),
    (Ends, Number(2)),
    (Drop(4), Done),
    (Ends, Number(1)),
];

#[test]
fn an_alias_owns_one_object_and_points_at_another(rt: HostRuntime) {
    answers(&rt, rt.alloc(), &ALIASES);
}

/// Pointers that an object gives of itself, and owners of null.
const THIS: [Row; 22] = [
    (Make(Enabled, 5, 0), Done),
    (Come(0, This, 1), Done),
    (Look(1, UseCount), Number(2)),
    (Both(1, SamePlace, 0), Is(true)),
    (Come(0, WeakOfThis, 10), Done),
    (Come(10, Way::Lock, 2), Done),
    (Both(2, Pair::Is, 0), Is(true)),
    (Make(Zeros, 2, 3), Done),
    (Look(3, Read), Number(0)),
    (
        Come(3, This, 4),
        Not(Fault::Refused(Call::SharedFromThis, Refusal::NotEnabled)),
    ),
    (
        Come(3, WeakOfThis, 11),
        Not(Fault::Refused(Call::WeakFromThis, Refusal::NotEnabled)),
    ),
    (Make(Null, 3, 4), Done),
    (Look(4, Asks::Field), Nothing),
    (Look(4, UseCount), Number(1)),
    (Look(4, Visit), Number(3)),
    (Look(4, Asks::Number(9)), Number(9)),
    (Look(4, Visit), Number(9)),
    (Drop(4), Done),
    (Ends, Number(9)),
    (Come(3, AtItsDesk(7), 5), Done),
    (Look(5, Read), Number(7)),
    (Both(3, Pair::Is, 5), Is(false)),
];

#[test]
fn an_object_gives_pointers_of_itself(rt: HostRuntime) {
    answers(&rt, rt.alloc(), &THIS);
}
