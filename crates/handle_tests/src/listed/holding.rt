//! Whether cells hold handles.
ghost use Rattle.shared_handle.specs.Prelude.{Owner, Weak, HoldsHandle};
ghost use Rattle.control_block.specs.Desks.{Belongs, IsSameDesk};
ghost use Rattle.control_block.specs.HandleLists.{IsHeldByDesk};
ghost use Rattle.handle_tests.specs.Hands.{HoldsSlots, Stays};

use crate::listed::cells::{shared_at, up_of};
use crate::listed::slots::held_at;
use crate::listed::{Answer, Cell};
use control_block::desk::Desk;
use control_block::domain::Domain;
use control_block::handles::{self, Held};
use shared_handle::Shared;

/// Whether the cell of shared pointers holds the owner.
#[tactic(auto, using(crate::proofs::Hands::same_stays))]
fn shared_holds(
    domain: &Domain<u64>,
    desk: &mut Desk<u64>,
    slots: &[Option<Held>],
    cell: Cell,
    owner: &Shared,
) -> Answer
    requires domain { Belongs desk.old domain.now }
    requires slots { HoldsSlots desk.old slots.now }
    requires holds { HoldsHandle desk.old Owner owner.now.block owner.now.place }
    ensures { Stays desk.old desk.new }
{
    match shared_at(domain, desk, slots, cell) {
        Ok(at) => Answer::Is(at.holds(domain, desk, owner)),
        Err(why) => why,
    }
}

/// Whether the weak member holds the weak pointer.
#[tactic(auto, using(crate::proofs::Hands::same_stays))]
fn weak_holds(
    domain: &Domain<u64>,
    desk: &mut Desk<u64>,
    slots: &[Option<Held>],
    cell: Cell,
    weak: &handles::Weak,
) -> Answer
    requires domain { Belongs desk.old domain.now }
    requires slots { HoldsSlots desk.old slots.now }
    requires holds { HoldsHandle desk.old Weak weak.now.block weak.now.place }
    ensures { Stays desk.old desk.new }
{
    let Cell::Up(of) = cell else {
        return Answer::NoSuch;
    };
    match up_of(desk, slots, of) {
        Ok(at) => Answer::Is(at.holds(domain, desk, weak)),
        Err(why) => why,
    }
}

/// The same of either.
fn held_by(
    domain: &Domain<u64>,
    desk: &mut Desk<u64>,
    slots: &[Option<Held>],
    cell: Cell,
    handle: &Held,
) -> Answer
    requires domain { Belongs desk.old domain.now }
    requires slots { HoldsSlots desk.old slots.now }
    requires held { IsHeldByDesk desk.old handle.now }
    ensures { Stays desk.old desk.new }
{
    match handle {
        Held::Owner(owner) => shared_holds(domain, desk, slots, cell, owner),
        Held::Weak(weak) => weak_holds(domain, desk, slots, cell, weak),
    }
}

/// Whether a cell holds the handle in a slot.
#[tactic(auto, using(crate::proofs::Hands::all_still))]
pub(crate) fn holds(
    domain: &Domain<u64>,
    desk: &mut Desk<u64>,
    slots: &[Option<Held>],
    asked: (Cell, usize),
) -> Answer
    requires domain { Belongs desk.old domain.now }
    requires holds { HoldsSlots desk.old slots.now }
    ensures desk { IsSameDesk desk.old desk.new }
    ensures holds { HoldsSlots desk.new slots.now }
{
    let (cell, of) = asked;
    match held_at(desk, slots, of) {
        Some(handle) => held_by(domain, desk, slots, cell, handle),
        None => Answer::NoSuch,
    }
}
