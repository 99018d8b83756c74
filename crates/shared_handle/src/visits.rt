//! Work on the value of an object.
ghost use Rattle.std.specs.Prelude.{◌≡◌};
ghost use Rattle.std.specs.Fn.{FnOnceReturnsAtMut};
ghost use Rattle.control_word.specs.declared.model.handle.Kind.TheVariants.{Owner};
ghost use Rattle.control_block.specs.Desks.{Belongs, Keeps, bag_of};
ghost use Rattle.control_block.specs.CellCalls.{HoldsHandle};
ghost use Rattle.shared_handle.specs.Visits.{IsVisit};

use crate::pointers::owner_pointer;
use control_block::desk::Desk;
use control_block::domain::Domain;
use control_block::handles::Shared;
use control_block::visits;
use control_word::{Refusal, Refused};
use std::sync::Wait;

/// The value of the object that the handle owns is worked on (own): while this call has it, another visit of it waits.
/// An owner of null has a value too. It is refused `Null` just where the handle is empty; then `f` comes back and
/// nothing changes.
pub fn visit<V: Drop, R, F: FnOnce(&mut V) -> R, W: Wait>(
    rt: &W,
    domain: &Domain<V>,
    desk: &mut Desk<V>,
    handle: &Shared,
    f: F,
) -> Result<R, Refused<F>>
    requires domain { Belongs desk.old domain.now }
    requires holds { HoldsHandle desk.old Owner handle.now.block handle.now.place }
    requires callable { F.IsAlwaysCallable f }
    ensures visit { IsVisit (λ was r becomes. FnOnceReturnsAtMut F.FnOnce f was r becomes) f desk.old handle.now.block
        handle.now.place result desk.new }
    ensures bag { bag_of desk.new ≡ bag_of desk.old }
    ensures held { desk.new.held ≡ desk.old.held }
    ensures keeps { Keeps desk.old desk.new }
{
    let Some(of) = owner_pointer(handle) else {
        return Err(Refused {
            why: Refusal::Null,
            back: f,
        });
    };
    Ok(visits::visit(rt, domain, desk, of, f))
}
