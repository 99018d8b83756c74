//! Compare-and-swap of cells.
ghost use Rattle.std.specs.Prelude.{MatchOption, MatchResult};
ghost use Rattle.shared_handle.specs.Prelude.{Owner, HoldsHandle};
ghost use Rattle.control_block.specs.Desks.{Belongs, IsSameDesk};
ghost use Rattle.control_block.specs.declared.handles.Held.TheVariants as held;
ghost use Rattle.atomic_cells.specs.Sites.{IsOpenSite};
ghost use Rattle.handle_tests.specs.Hands.{HoldsBeside, HoldsSlots, HoldsShared};

use crate::listed::cells::shared_at;
use crate::listed::slots::{lay, leave, owner_at, take};
use crate::listed::{Answer, Cell};
use atomic_cells::{Compared, SharedAt};
use control_block::desk::Desk;
use control_block::domain::Domain;
use control_block::handles::Held;
use control_word::Refused;
use shared_handle::{Shared, use_count};
use std::sync::Wait;

/// What a compare-and-swap is of: a cell, and the slots of what is expected and what is desired.
#[derive(Clone, Copy, Drop)]
pub(crate) struct Offer {
    pub(crate) cell: Cell,
    pub(crate) expected: usize,
    pub(crate) desired: usize,
}

/// A compare of a cell of shared pointers with what is expected.
#[tactic(auto, using(crate::proofs::Hands::compared_desk))]
fn try_shared<R: Wait>(
    rt: &R,
    domain: &Domain<u64>,
    desk: &mut Desk<u64>,
    _slots: &[Option<Held>],
    how: (&SharedAt<'_>, &Shared),
    desired: Shared,
) -> Result<Compared<Shared>, Refused<Shared>>
    requires domain { Belongs desk.old domain.now }
    requires holds { HoldsBeside desk.old (held.Owner desired) _slots.now }
    requires cell { IsOpenSite desk.old how.0.now.site }
    requires expected { HoldsHandle desk.old Owner how.1.now.block how.1.now.place }
    ensures desk { IsSameDesk desk.old desk.new }
    ensures holds { MatchResult result (λ c. HoldsShared desk.new c _slots.now)
        (λ r. HoldsBeside desk.new (held.Owner r.back) _slots.now) }
{
    let (at, expected) = how;
    desk.assert_invariant();
    at.compare_exchange_strong(rt, domain, desk, expected, desired)
}

/// What came out of a cell of shared pointers leaves, and is told of; the desired handle comes back where it didn't go
/// in.
fn tell_shared(
    domain: &Domain<u64>,
    desk: &mut Desk<u64>,
    _slots: &[Option<Held>],
    compared: Compared<Shared>,
) -> (Answer, Option<Held>)
    requires domain { Belongs desk.old domain.now }
    requires holds { HoldsShared desk.old compared _slots.now }
    ensures desk { IsSameDesk desk.old desk.new }
    ensures holds { MatchOption result.1 (HoldsSlots desk.new _slots.now) (λ h. HoldsBeside desk.new h _slots.now) }
{
    match compared {
        Compared::Swapped(old) => {
            let was = leave(domain, desk, Held::Owner(old));
            (Answer::Swapped(was), None)
        }
        Compared::Differs { held, desired } => {
            let owners = use_count(domain, desk, &held);
            let told = Answer::Differs(held.place(), owners);
            leave(domain, desk, Held::Owner(held));
            (told, Some(Held::Owner(desired)))
        }
    }
}

/// A cell of shared pointers is compared, and this owner is desired, which comes back where it didn't go in.
fn compare_shared<R: Wait>(
    rt: &R,
    domain: &Domain<u64>,
    desk: &mut Desk<u64>,
    slots: &[Option<Held>],
    offer: Offer,
    desired: Shared,
) -> (Answer, Option<Held>)
    requires domain { Belongs desk.old domain.now }
    requires holds { HoldsBeside desk.old (held.Owner desired) slots.now }
    ensures desk { IsSameDesk desk.old desk.new }
    ensures holds { MatchOption result.1 (HoldsSlots desk.new slots.now) (λ h. HoldsBeside desk.new h slots.now) }
{
    let Some(expected) = owner_at(desk, slots, offer.expected) else {
        return (Answer::NoSuch, Some(Held::Owner(desired)));
    };
    let at = match shared_at(domain, desk, slots, offer.cell) {
        Ok(at) => at,
        Err(why) => return (why, Some(Held::Owner(desired))),
    };
    match try_shared(rt, domain, desk, slots, (&at, expected), desired) {
        Ok(compared) => tell_shared(domain, desk, slots, compared),
        Err(refused) => {
            let Refused { why, back } = refused;
            (Answer::Not(why), Some(Held::Owner(back)))
        }
    }
}

/// The same of a handle; a weak one is desired in none.
fn compare_held<R: Wait>(
    rt: &R,
    domain: &Domain<u64>,
    desk: &mut Desk<u64>,
    slots: &[Option<Held>],
    offer: Offer,
    desired: Held,
) -> (Answer, Option<Held>)
    requires domain { Belongs desk.old domain.now }
    requires holds { HoldsBeside desk.old desired slots.now }
    ensures desk { IsSameDesk desk.old desk.new }
    ensures holds { MatchOption result.1 (HoldsSlots desk.new slots.now) (λ h. HoldsBeside desk.new h slots.now) }
{
    match desired {
        Held::Owner(owner) => compare_shared(rt, domain, desk, slots, offer, owner),
        Held::Weak(weak) => (Answer::NoSuch, Some(Held::Weak(weak))),
    }
}

/// A cell is compared with the handle in one slot, and that in another is desired.
pub(crate) fn compare<R: Wait>(
    rt: &R,
    domain: &Domain<u64>,
    desk: &mut Desk<u64>,
    slots: &mut [Option<Held>],
    offer: Offer,
) -> Answer
    requires domain { Belongs desk.old domain.now }
    requires holds { HoldsSlots desk.old slots.old }
    ensures desk { IsSameDesk desk.old desk.new }
    ensures holds { HoldsSlots desk.new slots.new }
{
    let Some(handle) = take(desk, slots, offer.desired) else {
        return Answer::NoSuch;
    };
    let (answer, back) = compare_held(rt, domain, desk, slots, offer, handle);
    if let Some(desired) = back {
        lay(domain, desk, slots, offer.desired, desired);
    }
    answer
}
