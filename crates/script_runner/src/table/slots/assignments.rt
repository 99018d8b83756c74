//! Handles that leave their slots, and those that come in their places.
ghost use Rattle.std.specs.Prelude.{◌≡◌, ◌+◌, ◌<◌, ◌∷◌, length, Some};
ghost use Rattle.control_block.specs.Desks.{allowance_of, bag_of};
ghost use Rattle.control_block.specs.HandleLists.{IsHeldByDesk, without_held};
ghost use Rattle.shared_handle.specs.Piles.{Bears};
ghost use Rattle.script_runner.specs.SlotCalls.{Assigns, LetsGo};
ghost use Rattle.script_runner.specs.Tables.{FitsSlots, on_pile};

use crate::table::slots::put;
use control_block::desk::Desk;
use control_block::domain::Domain;
use shared_handle::{Gone, Held, Pile, drop_shared, release_weak};

/// A handle leaves the desk.
#[tactic(auto, using(shared_handle::proofs::Piles::bears_after))]
pub(crate) fn let_go<V: Drop>(
    domain: &Domain<V>,
    desk: &mut Desk<V>,
    pile: &mut Pile<V>,
    handle: Held,
) -> Gone
    requires bears { Bears domain.now desk.old pile.old }
    requires held { IsHeldByDesk desk.old handle }
    ensures bears { Bears domain.now desk.new pile.new }
    ensures left { LetsGo desk.old (on_pile pile.old) handle result desk.new (on_pile pile.new) }
    ensures bag { bag_of desk.new ≡ without_held handle (bag_of desk.old) }
    ensures held { desk.new.held + 1 ≡ desk.old.held }
    ensures allowance { allowance_of desk.new ≡ allowance_of desk.old }
{
    match handle {
        Held::Owner(owner) => drop_shared(domain, desk, pile, owner),
        Held::Weak(weak) => {
            let gone = match weak.block() {
                None => Gone::Empty,
                Some(_) => Gone::Others,
            };
            release_weak(domain, desk, weak);
            gone
        }
    }
}

/// The handle in hand goes into a slot, and then what lay there leaves.
pub(crate) fn assign<V: Drop>(
    domain: &Domain<V>,
    desk: &mut Desk<V>,
    slots: &mut Vec<Option<Held>>,
    pile: &mut Pile<V>,
    to: usize,
    handle: Held,
)
    requires bears { Bears domain.now desk.old pile.old }
    requires fits { FitsSlots desk.old (Some handle ∷ slots.old.items) }
    requires there { to < length slots.old.items }
    ensures bears { Bears domain.now desk.new pile.new }
    ensures fits { FitsSlots desk.new slots.new.items }
    ensures assigns { Assigns desk.old slots.old.items
        (on_pile pile.old) to handle desk.new slots.new.items (on_pile pile.new) }
{
    match put(slots, to, handle) {
        None => {}
        Some(old) => {
            let_go(domain, desk, pile, old);
        }
    }
}
