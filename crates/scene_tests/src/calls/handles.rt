//! Calls on the handles in seats.
ghost use Rattle.std.specs.Prelude.{◌≡◌, IfOk};
ghost use Rattle.control_word.specs.declared.model.handle.Kind.TheVariants.{Owner};
ghost use Rattle.control_block.specs.Desks.{Belongs, IsSameDesk};
ghost use Rattle.control_block.specs.CellCalls.{HoldsHandle};
ghost use Rattle.scene_structures.specs.Stacks.{ServesDomain};

use crate::calls::listed::{Answer, Call, Seat};
use crate::calls::seats::{exchange, keep, spend};
use control_block::desk::Desk;
use control_block::domain::Domain;
use control_word::Refusal;
use shared_handle::{Pile, Shared, empty, make};
use std::sync::Wait;

/// A new object.
fn new(domain: &Domain<u64>, desk: &mut Desk<u64>, field: u64) -> Result<Shared, Refusal>
    requires domain { Belongs desk.old domain.now }
    ensures desk { IsSameDesk desk.old desk.new }
    ensures holds { IfOk result (λ h. HoldsHandle desk.new Owner h.block h.place) }
{
    match make(domain, desk, [field, 0, 0, 0], false, field) {
        Ok(owner) => Ok(owner),
        Err(refused) => Err(refused.why),
    }
}

/// The handle in a seat, which is empty then.
pub(crate) fn take(
    domain: &Domain<u64>,
    desk: &mut Desk<u64>,
    seat: Seat,
) -> Result<Shared, Refusal>
    requires domain { Belongs desk.old domain.now }
    requires cells { domain.now.shape.shared_cells ≡ 5 }
    ensures desk { IsSameDesk desk.old desk.new }
    ensures holds { IfOk result (λ h. HoldsHandle desk.new Owner h.block h.place) }
{
    match empty(domain, desk) {
        Ok(nothing) => Ok(exchange(domain, desk, nothing, seat)),
        Err(why) => Err(why),
    }
}

/// What came goes into a seat.
fn seated<R: Wait>(
    rt: &R,
    domain: &Domain<u64>,
    desk: &mut Desk<u64>,
    came: Result<Shared, Refusal>,
    seat: Seat,
    pile: &mut Pile<u64>,
) -> Answer
    requires domain { Belongs desk.old domain.now }
    requires cells { domain.now.shape.shared_cells ≡ 5 }
    requires serves { ServesDomain domain.now pile.old }
    requires holds { IfOk came (λ h. HoldsHandle desk.old Owner h.block h.place) }
    ensures serves { ServesDomain domain.now pile.new }
    ensures desk { IsSameDesk desk.old desk.new }
{
    match came {
        Ok(handle) => {
            keep(rt, domain, desk, handle, seat, pile);
            Answer::Done
        }
        Err(why) => Answer::Not(why),
    }
}

/// The handle in a seat leaves.
fn reset<R: Wait>(
    rt: &R,
    domain: &Domain<u64>,
    desk: &mut Desk<u64>,
    seat: Seat,
    pile: &mut Pile<u64>,
) -> Answer
    requires domain { Belongs desk.old domain.now }
    requires cells { domain.now.shape.shared_cells ≡ 5 }
    requires serves { ServesDomain domain.now pile.old }
    ensures serves { ServesDomain domain.now pile.new }
    ensures desk { IsSameDesk desk.old desk.new }
{
    match take(domain, desk, seat) {
        Ok(handle) => {
            spend(rt, domain, desk, handle, pile);
            Answer::Done
        }
        Err(why) => Answer::Not(why),
    }
}

/// An empty handle stays in the desk's hands.
fn forget(domain: &Domain<u64>, desk: &mut Desk<u64>) -> Answer
    requires domain { Belongs desk.old domain.now }
    ensures desk { IsSameDesk desk.old desk.new }
{
    match empty(domain, desk) {
        Ok(handle) => {
            handle.into_word();
            Answer::Done
        }
        Err(why) => Answer::Not(why),
    }
}

/// What a call on handles answers.
pub(crate) fn on_handles<R: Wait>(
    rt: &R,
    domain: &Domain<u64>,
    desk: &mut Desk<u64>,
    pile: &mut Pile<u64>,
    call: Call,
) -> Option<Answer>
    requires domain { Belongs desk.old domain.now }
    requires cells { domain.now.shape.shared_cells ≡ 5 }
    requires serves { ServesDomain domain.now pile.old }
    ensures serves { ServesDomain domain.now pile.new }
    ensures desk { IsSameDesk desk.old desk.new }
{
    Some(match call {
        Call::Make(to, field) => {
            let came = new(domain, desk, field);
            seated(rt, domain, desk, came, to, pile)
        }
        Call::Reset(seat) => reset(rt, domain, desk, seat, pile),
        Call::Forget => forget(domain, desk),
        Call::Vacant => Answer::Count(desk.stock()),
        _ => return None,
    })
}
