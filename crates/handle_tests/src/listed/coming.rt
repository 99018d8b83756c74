//! Handles that come of others, and of none.
ghost use Rattle.shared_handle.specs.Prelude.{Owner, Weak, HoldsHandle};
ghost use Rattle.control_block.specs.Desks.{Belongs, IsSameDesk};
ghost use Rattle.control_block.specs.HandleLists.{IsHeldByDesk};
ghost use Rattle.handle_tests.specs.Hands.{Comes, HoldsCame, HoldsSlots};

use crate::listed::slots::held_at;
use crate::listed::{Answer, New, Way};
use control_block::desk::Desk;
use control_block::domain::Domain;
use control_block::handles::{self, Held};
use control_word::Refused;
use shared_handle::{
    Shared, alias, empty, empty_weak, lock, make, make_null, share, shared_from_this, upgrade,
};
use std::sync::Wait;

/// An owner that comes of an owner.
#[tactic(auto, using(crate::proofs::Hands::owner_gained, crate::proofs::Hands::same_stays, crate::proofs::Hands::keeps_desk))]
fn owner_of(
    domain: &Domain<u64>,
    desk: &mut Desk<u64>,
    owner: &Shared,
    way: Way,
) -> Result<Held, Answer>
    requires domain { Belongs desk.old domain.now }
    requires holds { HoldsHandle desk.old Owner owner.now.block owner.now.place }
    ensures { Comes desk.old result desk.new }
{
    match way {
        Way::Share => match share(domain, desk, owner) {
            Ok(copy) => Ok(Held::Owner(copy)),
            Err(why) => Err(Answer::Not(why)),
        },
        Way::Alias(place) => match alias(domain, desk, owner, place) {
            Ok(other) => Ok(Held::Owner(other)),
            Err(why) => Err(Answer::Not(why)),
        },
        Way::FromThis => match shared_from_this(domain, desk, owner) {
            Ok(this) => Ok(Held::Owner(this)),
            Err(why) => Err(Answer::Not(why)),
        },
        _ => Err(Answer::NoSuch),
    }
}

/// What comes of a weak handle.
#[tactic(auto, using(crate::proofs::Hands::owner_gained, crate::proofs::Hands::weak_gained, crate::proofs::Hands::same_stays, crate::proofs::Hands::keeps_desk))]
fn of_weak<R: Wait>(
    rt: &R,
    domain: &Domain<u64>,
    desk: &mut Desk<u64>,
    weak: &handles::Weak,
    way: Way,
) -> Result<Held, Answer>
    requires domain { Belongs desk.old domain.now }
    requires holds { HoldsHandle desk.old Weak weak.now.block weak.now.place }
    ensures { Comes desk.old result desk.new }
{
    match way {
        Way::Lock => match lock(rt, domain, desk, weak) {
            Ok(owner) => Ok(Held::Owner(owner)),
            Err(why) => Err(Answer::Not(why)),
        },
        Way::Upgrade => match upgrade(rt, domain, desk, weak) {
            Ok(owner) => Ok(Held::Owner(owner)),
            Err(why) => Err(Answer::Not(why)),
        },
        _ => Err(Answer::NoSuch),
    }
}

/// What comes of a handle.
fn of_held<R: Wait>(
    rt: &R,
    domain: &Domain<u64>,
    desk: &mut Desk<u64>,
    handle: &Held,
    way: Way,
) -> Result<Held, Answer>
    requires domain { Belongs desk.old domain.now }
    requires holds { IsHeldByDesk desk.old handle.now }
    ensures { Comes desk.old result desk.new }
{
    match handle {
        Held::Owner(owner) => owner_of(domain, desk, owner, way),
        Held::Weak(weak) => of_weak(rt, domain, desk, weak, way),
    }
}

/// What comes of the handle in a slot.
#[tactic(auto, using(crate::proofs::Hands::came_beside, crate::proofs::Hands::came_desk, crate::proofs::Hands::same_stays))]
pub(crate) fn come<R: Wait>(
    rt: &R,
    domain: &Domain<u64>,
    desk: &mut Desk<u64>,
    slots: &[Option<Held>],
    from: (usize, Way),
) -> Result<Held, Answer>
    requires domain { Belongs desk.old domain.now }
    requires holds { HoldsSlots desk.old slots.now }
    ensures desk { IsSameDesk desk.old desk.new }
    ensures came { HoldsCame desk.new result slots.now }
{
    let (of, way) = from;
    desk.assert_invariant();
    match held_at(desk, slots, of) {
        Some(handle) => of_held(rt, domain, desk, handle, way),
        None => Err(Answer::NoSuch),
    }
}

/// Why no object was made, and whether its value came back.
fn refused(refused: Refused<u64>, value: u64) -> Answer {
    let Refused { why, back } = refused;
    if back == value {
        return Answer::Not(why);
    }
    Answer::Changed(why)
}

/// The handle that comes of none.
#[tactic(auto, using(crate::proofs::Hands::owner_gained, crate::proofs::Hands::weak_gained, crate::proofs::Hands::empty_gained, crate::proofs::Hands::empty_weak_gained, crate::proofs::Hands::same_stays, crate::proofs::Hands::keeps_desk))]
fn come_new(domain: &Domain<u64>, desk: &mut Desk<u64>, new: New) -> Result<Held, Answer>
    requires domain { Belongs desk.old domain.now }
    ensures { Comes desk.old result desk.new }
{
    match new {
        New::Object(fields, enabled, value) => {
            match make(domain, desk, fields, enabled, value) {
                Ok(owner) => Ok(Held::Owner(owner)),
                Err(back) => Err(refused(back, value)),
            }
        }
        New::Null(value) => match make_null(domain, desk, value) {
            Ok(owner) => Ok(Held::Owner(owner)),
            Err(back) => Err(refused(back, value)),
        },
        New::Owner => match empty(domain, desk) {
            Ok(owner) => Ok(Held::Owner(owner)),
            Err(why) => Err(Answer::Not(why)),
        },
        New::Weak => match empty_weak(domain, desk) {
            Ok(weak) => Ok(Held::Weak(weak)),
            Err(why) => Err(Answer::Not(why)),
        },
    }
}

/// The same, beside what lies in the slots.
#[tactic(auto, using(crate::proofs::Hands::came_beside, crate::proofs::Hands::came_desk))]
pub(crate) fn made(
    domain: &Domain<u64>,
    desk: &mut Desk<u64>,
    _slots: &[Option<Held>],
    what: New,
) -> Result<Held, Answer>
    requires domain { Belongs desk.old domain.now }
    requires holds { HoldsSlots desk.old _slots.now }
    ensures desk { IsSameDesk desk.old desk.new }
    ensures came { HoldsCame desk.new result _slots.now }
{
    desk.assert_invariant();
    come_new(domain, desk, what)
}
