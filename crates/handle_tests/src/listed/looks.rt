//! What handles tell, and work on a value.
ghost use Rattle.shared_handle.specs.Prelude.{Owner, Weak, HoldsHandle};
ghost use Rattle.control_block.specs.Desks.{Belongs, IsSameDesk};
ghost use Rattle.control_block.specs.HandleLists.{IsHeldByDesk};
ghost use Rattle.handle_tests.specs.Hands.{HoldsSlots, Stays};

use crate::listed::slots::held_at;
use crate::listed::{Answer, Look, Pair};
use control_block::desk::Desk;
use control_block::domain::Domain;
use control_block::handles::{self, Held};
use shared_handle::{
    Shared, expired, owner_before, place, read, same_place, use_count, use_count_weak, visit,
};
use std::sync::Wait;

/// 1 is added to the value.
fn add_to_value<R: Wait>(
    rt: &R,
    domain: &Domain<u64>,
    desk: &mut Desk<u64>,
    owner: &Shared,
) -> Answer
    requires domain { Belongs desk.old domain.now }
    requires holds { HoldsHandle desk.old Owner owner.now.block owner.now.place }
    ensures { Stays desk.old desk.new }
{
    let add = |value: &mut u64| {
        *value = value.wrapping_add(1);
        *value
    };
    match visit(rt, domain, desk, owner, add) {
        Ok(value) => Answer::Value(value),
        Err(refused) => Answer::Not(refused.why),
    }
}

/// What an owner tells.
fn owner_tells<R: Wait>(
    rt: &R,
    domain: &Domain<u64>,
    desk: &mut Desk<u64>,
    owner: &Shared,
    look: Look,
) -> Answer
    requires domain { Belongs desk.old domain.now }
    requires holds { HoldsHandle desk.old Owner owner.now.block owner.now.place }
    ensures { Stays desk.old desk.new }
{
    match look {
        Look::UseCount => Answer::Count(use_count(domain, desk, owner)),
        Look::Read => match read(domain, desk, owner) {
            Ok(field) => Answer::Field(field),
            Err(why) => Answer::Not(why),
        },
        Look::Place => Answer::At(place(domain, desk, owner)),
        Look::Visit => add_to_value(rt, domain, desk, owner),
        Look::Expired => Answer::NoSuch,
    }
}

/// What a weak handle tells.
fn weak_tells(
    domain: &Domain<u64>,
    desk: &mut Desk<u64>,
    weak: &handles::Weak,
    look: Look,
) -> Answer
    requires domain { Belongs desk.old domain.now }
    requires holds { HoldsHandle desk.old Weak weak.now.block weak.now.place }
    ensures { Stays desk.old desk.new }
{
    match look {
        Look::UseCount => Answer::Count(use_count_weak(domain, desk, weak)),
        Look::Expired => Answer::Is(expired(domain, desk, weak)),
        Look::Read | Look::Place | Look::Visit => Answer::NoSuch,
    }
}

fn tell_held<R: Wait>(
    rt: &R,
    domain: &Domain<u64>,
    desk: &mut Desk<u64>,
    handle: &Held,
    look: Look,
) -> Answer
    requires domain { Belongs desk.old domain.now }
    requires holds { IsHeldByDesk desk.old handle.now }
    ensures { Stays desk.old desk.new }
{
    match handle {
        Held::Owner(owner) => owner_tells(rt, domain, desk, owner, look),
        Held::Weak(weak) => weak_tells(domain, desk, weak, look),
    }
}

/// What the handle in a slot tells.
#[tactic(auto, using(crate::proofs::Hands::all_still))]
pub(crate) fn tell<R: Wait>(
    rt: &R,
    domain: &Domain<u64>,
    desk: &mut Desk<u64>,
    slots: &[Option<Held>],
    asked: (usize, Look),
) -> Answer
    requires domain { Belongs desk.old domain.now }
    requires holds { HoldsSlots desk.old slots.now }
    ensures desk { IsSameDesk desk.old desk.new }
    ensures holds { HoldsSlots desk.new slots.now }
{
    let (of, look) = asked;
    match held_at(desk, slots, of) {
        Some(handle) => tell_held(rt, domain, desk, handle, look),
        None => Answer::NoSuch,
    }
}

/// What an owner tells of another handle.
#[tactic(auto, using(crate::proofs::Hands::same_stays))]
fn owner_tells_of(
    domain: &Domain<u64>,
    desk: &mut Desk<u64>,
    owner: &Shared,
    pair: Pair,
    other: &Held,
) -> Answer
    ensures { Stays desk.old desk.new }
{
    match other {
        Held::Owner(other) => match pair {
            Pair::SamePlace => Answer::Is(same_place(domain, desk, owner, other)),
            Pair::OwnerBefore => Answer::Is(owner_before(domain, desk, owner, other)),
        },
        Held::Weak(other) => match pair {
            Pair::SamePlace => Answer::NoSuch,
            Pair::OwnerBefore => Answer::Is(owner_before(domain, desk, owner, other)),
        },
    }
}

/// What a weak handle tells of another handle.
#[tactic(auto, using(crate::proofs::Hands::same_stays))]
fn weak_tells_of(
    domain: &Domain<u64>,
    desk: &mut Desk<u64>,
    weak: &handles::Weak,
    pair: Pair,
    other: &Held,
) -> Answer
    ensures { Stays desk.old desk.new }
{
    if let Pair::SamePlace = pair {
        return Answer::NoSuch;
    }
    match other {
        Held::Owner(other) => Answer::Is(owner_before(domain, desk, weak, other)),
        Held::Weak(other) => Answer::Is(owner_before(domain, desk, weak, other)),
    }
}

/// What two handles tell of each other.
fn pair_tells(domain: &Domain<u64>, desk: &mut Desk<u64>, a: &Held, pair: Pair, b: &Held) -> Answer
    ensures { Stays desk.old desk.new }
{
    match a {
        Held::Owner(a) => owner_tells_of(domain, desk, a, pair, b),
        Held::Weak(a) => weak_tells_of(domain, desk, a, pair, b),
    }
}

/// The same of those in two slots.
#[tactic(auto, using(crate::proofs::Hands::all_still))]
pub(crate) fn tell_both(
    domain: &Domain<u64>,
    desk: &mut Desk<u64>,
    slots: &[Option<Held>],
    asked: (usize, Pair, usize),
) -> Answer
    requires holds { HoldsSlots desk.old slots.now }
    ensures desk { IsSameDesk desk.old desk.new }
    ensures holds { HoldsSlots desk.new slots.now }
{
    let (a, pair, b) = asked;
    let Some(a) = held_at(desk, slots, a) else {
        return Answer::NoSuch;
    };
    match held_at(desk, slots, b) {
        Some(b) => pair_tells(domain, desk, a, pair, b),
        None => Answer::NoSuch,
    }
}
