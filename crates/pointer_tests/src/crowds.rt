//! A desk with as many pointers as it may have, and a domain with as many objects.

use crate::players::answers;
use pointer_calls::Answer::{Done, Is, Not, Number};
use pointer_calls::Look::{Expired, UseCount};
use pointer_calls::New::{Enabled, Null, Object};
use pointer_calls::Step::{
    Chain, Clear, Come, Drop, Ends, EndsCount, Load, Look, Make, Shares, Store, Take,
};
use pointer_calls::Way::{Downgrade, Nowhere, Share, This, Upgrade, WeakOfThis};
use pointer_calls::{Cell, Row, Way};
use pointers::{Call, Fault, Refusal, Spot};

/// A free cell, which has an owner of the object.
const CELL: Cell = Cell::Free(0);

const SPOT: Spot = Spot::Shared(0);

/// How many pointers a desk has above those that its team says.
const SPARE: usize = 2;

/// Each call that brings a pointer, at a desk that has all that it may have: owners in the first slots, and a weak
/// pointer in slot 22.
const CROWD: [Row; 27] = [
    (Make(Enabled, 1, 0), Done),
    (Come(0, Share, 1), Done),
    (Store(1, CELL), Done),
    (Come(0, Downgrade, 22), Done),
    (Shares(0, 1, 14 + SPARE), Done),
    (Come(0, Share, 20), Not(Fault::Crowded(Call::Share))),
    (Come(0, Nowhere, 20), Not(Fault::Crowded(Call::Alias))),
    (Come(0, This, 20), Not(Fault::Crowded(Call::SharedFromThis))),
    (Come(0, Downgrade, 20), Not(Fault::Crowded(Call::Downgrade))),
    (
        Come(0, WeakOfThis, 20),
        Not(Fault::Crowded(Call::WeakFromThis)),
    ),
    (Come(22, Share, 20), Not(Fault::Crowded(Call::Share))),
    (Come(22, Way::Lock, 20), Not(Fault::Crowded(Call::Lock))),
    (Come(22, Upgrade, 20), Not(Fault::Crowded(Call::Upgrade))),
    (Load(CELL, 20), Not(Fault::Crowded(Call::Load(SPOT)))),
    (Take(CELL, 20), Not(Fault::Crowded(Call::Exchange(SPOT)))),
    (
        Load(Cell::Weak(0), 20),
        Not(Fault::Crowded(Call::Load(Spot::Weak(0)))),
    ),
    (
        Load(Cell::First(0), 20),
        Not(Fault::Crowded(Call::Load(Spot::Owner(0)))),
    ),
    (Make(Enabled, 2, 20), Not(Fault::Crowded(Call::Make))),
    (Make(Null, 3, 20), Not(Fault::Crowded(Call::Make))),
    (Ends, Number(23)),
    (Drop(3), Done),
    (Look(0, UseCount), Number(15 + SPARE as u64)),
    (Look(22, Expired), Is(false)),
    (Clear(CELL), Done),
    (Look(22, UseCount), Number(14 + SPARE as u64)),
    (Come(0, Share, 3), Done),
    (Come(0, Share, 20), Not(Fault::Crowded(Call::Share))),
];

#[test]
fn a_crowded_desk_brings_no_pointer(rt: HostRuntime) {
    answers(&rt, rt.alloc(), &CROWD);
}

/// Objects until the domain has no block more, in a chain.
const FULL: [Row; 6] = [
    (Chain(64, 0), Done),
    (
        Make(Object, 7, 1),
        Not(Fault::Refused(Call::Make, Refusal::Full)),
    ),
    (EndsCount, Number(1)),
    (Drop(0), Done),
    (EndsCount, Number(64)),
    (Make(Object, 7, 1), Done),
];

#[test]
fn a_full_domain_makes_no_object(rt: HostRuntime) {
    answers(&rt, rt.alloc(), &FULL);
}
