//! What goes into cells, and what leaves or comes out by that.
ghost use Rattle.std.specs.Prelude.{MatchResult};
ghost use Rattle.control_block.specs.Desks.{Belongs, IsSameDesk};
ghost use Rattle.control_block.specs.declared.handles.Held.TheVariants as held;
ghost use Rattle.handle_tests.specs.Hands.{HoldsBeside, HoldsSlots};

use crate::listed::cells::shared_at;
use crate::listed::slots::{lay, take};
use crate::listed::{Answer, Cell, Outcome};
use crate::parts::end_of;
use control_block::desk::Desk;
use control_block::domain::Domain;
use control_block::handles::Held;
use shared_handle::{Left, Shared};

/// An owner goes into a cell: what was left of what lay there, or why none went in, and the owner back.
fn store_shared(
    domain: &Domain<u64>,
    desk: &mut Desk<u64>,
    slots: &[Option<Held>],
    cell: Cell,
    owner: Shared,
) -> Result<Outcome, (Answer, Held)>
    requires domain { Belongs desk.old domain.now }
    requires holds { HoldsBeside desk.old (held.Owner owner) slots.now }
    ensures desk { IsSameDesk desk.old desk.new }
    ensures holds { MatchResult result (λ _. HoldsSlots desk.new slots.now)
        (λ back. HoldsBeside desk.new back.1 slots.now) }
{
    match shared_at(domain, desk, slots, cell) {
        Ok(at) => match at.store(domain, desk, owner) {
            Left::Empty => Ok(Outcome::Empty),
            Left::Others => Ok(Outcome::Others),
            Left::Last(ending) => Ok(Outcome::Ended(end_of(domain, desk, ending).3)),
        },
        Err(why) => Err((why, Held::Owner(owner))),
    }
}

/// The same of a handle; a weak one goes into none.
fn store_held(
    domain: &Domain<u64>,
    desk: &mut Desk<u64>,
    slots: &[Option<Held>],
    cell: Cell,
    handle: Held,
) -> Result<Outcome, (Answer, Held)>
    requires domain { Belongs desk.old domain.now }
    requires holds { HoldsBeside desk.old handle slots.now }
    ensures desk { IsSameDesk desk.old desk.new }
    ensures holds { MatchResult result (λ _. HoldsSlots desk.new slots.now)
        (λ back. HoldsBeside desk.new back.1 slots.now) }
{
    match handle {
        Held::Owner(owner) => store_shared(domain, desk, slots, cell, owner),
        Held::Weak(weak) => Err((Answer::NoSuch, Held::Weak(weak))),
    }
}

/// The handle in a slot goes into a cell, and what was there leaves.
pub(crate) fn store(
    domain: &Domain<u64>,
    desk: &mut Desk<u64>,
    slots: &mut [Option<Held>],
    from: usize,
    cell: Cell,
) -> Answer
    requires domain { Belongs desk.old domain.now }
    requires holds { HoldsSlots desk.old slots.old }
    ensures desk { IsSameDesk desk.old desk.new }
    ensures holds { HoldsSlots desk.new slots.new }
{
    let Some(handle) = take(desk, slots, from) else {
        return Answer::NoSuch;
    };
    match store_held(domain, desk, slots, cell, handle) {
        Ok(was) => Answer::Left(was),
        Err(refused) => {
            let (why, back) = refused;
            lay(domain, desk, slots, from, back);
            why
        }
    }
}

/// A handle goes into a cell, and what was there comes out; or why none went in, and the handle itself.
#[tactic(auto, using(crate::proofs::Hands::hand_held, crate::proofs::Hands::rest_held))]
fn trade(
    domain: &Domain<u64>,
    desk: &mut Desk<u64>,
    slots: &[Option<Held>],
    cell: Cell,
    handle: Held,
) -> (Answer, Held)
    requires domain { Belongs desk.old domain.now }
    requires holds { HoldsBeside desk.old handle slots.now }
    ensures desk { IsSameDesk desk.old desk.new }
    ensures holds { HoldsBeside desk.new result.1 slots.now }
{
    desk.assert_invariant();
    match handle {
        Held::Owner(owner) => match shared_at(domain, desk, slots, cell) {
            Ok(at) => (Answer::Done, Held::Owner(at.exchange(domain, desk, owner))),
            Err(why) => (why, Held::Owner(owner)),
        },
        Held::Weak(weak) => (Answer::NoSuch, Held::Weak(weak)),
    }
}

/// The handle in a slot is exchanged for what a cell holds.
pub(crate) fn exchange(
    domain: &Domain<u64>,
    desk: &mut Desk<u64>,
    slots: &mut [Option<Held>],
    at: usize,
    cell: Cell,
) -> Answer
    requires domain { Belongs desk.old domain.now }
    requires holds { HoldsSlots desk.old slots.old }
    ensures desk { IsSameDesk desk.old desk.new }
    ensures holds { HoldsSlots desk.new slots.new }
{
    let Some(handle) = take(desk, slots, at) else {
        return Answer::NoSuch;
    };
    let (answer, came) = trade(domain, desk, slots, cell, handle);
    lay(domain, desk, slots, at, came);
    answer
}
