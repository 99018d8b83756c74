//! Cells, and copies of what they hold.
ghost use Rattle.std.specs.Prelude.{IfOk};
ghost use Rattle.control_block.specs.Desks.{Belongs, IsSameDesk};
ghost use Rattle.atomic_cells.specs.Sites.{IsOpenSite, IsOpenWeakly};
ghost use Rattle.handle_tests.specs.Hands.{Comes, HoldsCame, HoldsSlots};

use crate::listed::slots::held_at;
use crate::listed::{Answer, Cell};
use atomic_cells::{SharedAt, SharedMember, WeakAt};
use control_block::desk::Desk;
use control_block::domain::Domain;
use control_block::handles::Held;
use std::sync::Wait;

/// A member of the object that the owner in a slot owns.
#[tactic(auto, using(atomic_cells::proofs::Members::member_open))]
fn member_of<'a>(
    desk: &Desk<u64>,
    slots: &'a [Option<Held>],
    of: usize,
    which: SharedMember,
) -> Result<SharedAt<'a>, Answer>
    requires holds { HoldsSlots desk.now slots.now }
    ensures { IfOk result (λ at. IsOpenSite desk.now at.site) }
{
    let Some(handle) = held_at(desk, slots, of) else {
        return Err(Answer::NoSuch);
    };
    match handle {
        Held::Owner(owner) => match SharedAt::member(owner, which) {
            Ok(at) => Ok(at),
            Err(why) => Err(Answer::Not(why)),
        },
        Held::Weak(_) => Err(Answer::NoSuch),
    }
}

/// The cell of shared pointers, if it is one.
pub(crate) fn shared_at<'a>(
    domain: &Domain<u64>,
    desk: &Desk<u64>,
    slots: &'a [Option<Held>],
    cell: Cell,
) -> Result<SharedAt<'a>, Answer>
    requires domain { Belongs desk.now domain.now }
    requires holds { HoldsSlots desk.now slots.now }
    ensures { IfOk result (λ at. IsOpenSite desk.now at.site) }
{
    match cell {
        Cell::Shared(index) if index < domain.shared_cells() => Ok(SharedAt::free(index)),
        Cell::First(of) => member_of(desk, slots, of, SharedMember::First),
        Cell::Next(of) => member_of(desk, slots, of, SharedMember::Next),
        _ => Err(Answer::NoSuch),
    }
}

/// The weak member of the object that the owner in a slot owns.
#[tactic(auto, using(atomic_cells::proofs::Members::up_open))]
pub(crate) fn up_of<'a>(
    desk: &Desk<u64>,
    slots: &'a [Option<Held>],
    of: usize,
) -> Result<WeakAt<'a>, Answer>
    requires holds { HoldsSlots desk.now slots.now }
    ensures { IfOk result (λ at. IsOpenWeakly desk.now at.site) }
{
    let Some(handle) = held_at(desk, slots, of) else {
        return Err(Answer::NoSuch);
    };
    match handle {
        Held::Owner(owner) => match WeakAt::member(owner) {
            Ok(at) => Ok(at),
            Err(why) => Err(Answer::Not(why)),
        },
        Held::Weak(_) => Err(Answer::NoSuch),
    }
}

/// A copy of what a weak member holds.
#[tactic(auto, using(crate::proofs::Hands::owner_gained, crate::proofs::Hands::weak_gained, crate::proofs::Hands::same_stays, crate::proofs::Hands::keeps_desk))]
fn load_weak<R: Wait>(
    rt: &R,
    domain: &Domain<u64>,
    desk: &mut Desk<u64>,
    slots: &[Option<Held>],
    of: usize,
) -> Result<Held, Answer>
    requires domain { Belongs desk.old domain.now }
    requires holds { HoldsSlots desk.old slots.now }
    ensures { Comes desk.old result desk.new }
{
    match up_of(desk, slots, of) {
        Ok(at) => match at.load(rt, domain, desk) {
            Ok(weak) => Ok(Held::Weak(weak)),
            Err(why) => Err(Answer::Not(why)),
        },
        Err(why) => Err(why),
    }
}

/// A copy of what a cell of shared pointers holds.
#[tactic(auto, using(crate::proofs::Hands::owner_gained, crate::proofs::Hands::weak_gained, crate::proofs::Hands::same_stays, crate::proofs::Hands::keeps_desk))]
fn load_shared<R: Wait>(
    rt: &R,
    domain: &Domain<u64>,
    desk: &mut Desk<u64>,
    slots: &[Option<Held>],
    cell: Cell,
) -> Result<Held, Answer>
    requires domain { Belongs desk.old domain.now }
    requires holds { HoldsSlots desk.old slots.now }
    ensures { Comes desk.old result desk.new }
{
    match shared_at(domain, desk, slots, cell) {
        Ok(at) => match at.load(rt, domain, desk) {
            Ok(owner) => Ok(Held::Owner(owner)),
            Err(why) => Err(Answer::Not(why)),
        },
        Err(why) => Err(why),
    }
}

/// A copy of what a cell holds.
#[tactic(auto, using(crate::proofs::Hands::came_beside, crate::proofs::Hands::came_desk))]
pub(crate) fn load<R: Wait>(
    rt: &R,
    domain: &Domain<u64>,
    desk: &mut Desk<u64>,
    slots: &[Option<Held>],
    cell: Cell,
) -> Result<Held, Answer>
    requires domain { Belongs desk.old domain.now }
    requires holds { HoldsSlots desk.old slots.now }
    ensures desk { IsSameDesk desk.old desk.new }
    ensures came { HoldsCame desk.new result slots.now }
{
    desk.assert_invariant();
    match cell {
        Cell::Up(of) => load_weak(rt, domain, desk, slots, of),
        _ => load_shared(rt, domain, desk, slots, cell),
    }
}
