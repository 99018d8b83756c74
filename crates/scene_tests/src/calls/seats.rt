//! Handles that go into seats and come out.
ghost use Rattle.std.specs.Prelude.{◌≡◌, ◌<◌, IfOk};
ghost use Rattle.control_word.specs.declared.model.handle.Kind.TheVariants.{Owner};
ghost use Rattle.control_block.specs.Desks.{Belongs, IsSameDesk, bag_of};
ghost use Rattle.control_block.specs.CellCalls.{HoldsHandle, without_handle};
ghost use Rattle.scene_structures.specs.Stacks.{ServesDomain};

use crate::calls::listed::Seat;
use atomic_cells::SharedAt;
use control_block::desk::Desk;
use control_block::domain::Domain;
use control_word::Refusal;
use shared_handle::{Pile, Shared, drop_shared};
use std::sync::Wait;

/// The cell of a seat.
fn cell(seat: Seat) -> u32
    ensures { result < 5 }
{
    match seat {
        Seat::A => 2,
        Seat::B => 3,
        Seat::C => 4,
    }
}

/// An owner leaves, with all that ends by that.
pub(crate) fn spend<R: Wait>(
    rt: &R,
    domain: &Domain<u64>,
    desk: &mut Desk<u64>,
    owner: Shared,
    pile: &mut Pile<u64>,
)
    requires domain { Belongs desk.old domain.now }
    requires serves { ServesDomain domain.now pile.old }
    requires holds { HoldsHandle desk.old Owner owner.block owner.place }
    ensures serves { ServesDomain domain.now pile.new }
    ensures desk { IsSameDesk desk.old desk.new }
    ensures bag { bag_of desk.new ≡ without_handle Owner owner.block owner.place (bag_of desk.old) }
{
    let _gone = drop_shared(domain, desk, pile, owner);
    pile.settle(rt, domain, desk);
}

/// A copy of the handle in a seat.
pub(crate) fn load<R: Wait>(
    rt: &R,
    domain: &Domain<u64>,
    desk: &mut Desk<u64>,
    seat: Seat,
) -> Result<Shared, Refusal>
    requires domain { Belongs desk.old domain.now }
    requires cells { domain.now.shape.shared_cells ≡ 5 }
    ensures desk { IsSameDesk desk.old desk.new }
    ensures holds { IfOk result (λ h. HoldsHandle desk.new Owner h.block h.place) }
{
    SharedAt::free(cell(seat)).load(rt, domain, desk)
}

/// A handle goes into a seat, and the one that was there comes out.
pub(crate) fn exchange(
    domain: &Domain<u64>,
    desk: &mut Desk<u64>,
    handle: Shared,
    seat: Seat,
) -> Shared
    requires domain { Belongs desk.old domain.now }
    requires cells { domain.now.shape.shared_cells ≡ 5 }
    requires holds { HoldsHandle desk.old Owner handle.block handle.place }
    ensures desk { IsSameDesk desk.old desk.new }
    ensures holds { HoldsHandle desk.new Owner result.block result.place }
{
    SharedAt::free(cell(seat)).exchange(domain, desk, handle)
}

/// A handle goes into a seat, and the one that was there leaves.
pub(crate) fn keep<R: Wait>(
    rt: &R,
    domain: &Domain<u64>,
    desk: &mut Desk<u64>,
    handle: Shared,
    seat: Seat,
    pile: &mut Pile<u64>,
)
    requires domain { Belongs desk.old domain.now }
    requires cells { domain.now.shape.shared_cells ≡ 5 }
    requires serves { ServesDomain domain.now pile.old }
    requires holds { HoldsHandle desk.old Owner handle.block handle.place }
    ensures serves { ServesDomain domain.now pile.new }
    ensures desk { IsSameDesk desk.old desk.new }
{
    let before = exchange(domain, desk, handle, seat);
    spend(rt, domain, desk, before, pile);
}
