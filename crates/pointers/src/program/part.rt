//! A part of a domain that nobody works with.
ghost use Rattle.std.specs.Prelude.{◌≡◌, [], IfNone, IfSome};
ghost use Rattle.control_block.specs.Desks.{Belongs};
ghost use Rattle.control_block.specs.Parting.{IsTooMuch, SplitsOff};
ghost use Rattle.shared_handle.specs.Piles.{Bears};

use control_block::desk::Desk;
use control_block::domain::Domain;
use control_block::handles::Held;
use shared_handle::Pile;
use std::alloc::Global;

/// A desk that nobody works with, and the pile of what ends with it.
pub(crate) struct Part<V: Drop> {
    pub desk: Desk<V>,
    pub pile: Pile<V>,
}

/// A part of the desk that has so many handles. None where memory is refused for it.
pub(crate) fn cut<V: Drop>(
    desk: &mut Desk<V>,
    alloc: Global,
    domain: &Domain<V>,
    each: u32,
) -> Option<Part<V>>
    requires domain { Belongs desk.old domain.now }
    requires fits { IsTooMuch desk.old each 0 → ⊥ }
    ensures parts { IfSome result (λ p. SplitsOff desk.old each 0 [] desk.new p.desk) }
    ensures bears { IfSome result (λ p. Bears domain.now p.desk p.pile) }
    ensures same { IfNone result (desk.new ≡ desk.old) }
{
    let Ok(pile) = Pile::new(alloc, domain) else {
        return None;
    };
    match desk.split_slots::<Held>(alloc, domain, each, 0, &[]) {
        Ok(desk) => Some(Part { desk, pile }),
        Err(_) => {
            pile.close();
            None
        }
    }
}
