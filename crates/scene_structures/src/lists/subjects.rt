//! The subject of a node, or its parent.
ghost use Rattle.std.specs.Prelude.{◌≡◌, ◌<◌};
ghost use Rattle.control_word.specs.Handles.{object_of};
ghost use Rattle.control_word.specs.declared.model.handle.Kind.TheVariants.{Owner};
ghost use Rattle.control_block.specs.Desks.{Belongs, IsSameDesk, KeepsEndings, allowance_of, bag_of, endings_of};
ghost use Rattle.control_block.specs.Desks.{held_of};
ghost use Rattle.control_block.specs.CellCalls.{HoldsHandle};
ghost use Rattle.shared_handle.specs.Endings.{IsWithin};
ghost use Rattle.control_block.specs.Own.{Does, KeepsHeld};
ghost use Rattle.scene_structures.specs.Orders.{EndsNothing};
ghost use Rattle.scene_structures.specs.Hands.{node_in};
ghost use Rattle.scene_structures.specs.Watches.{Watches, weak_of_owner};

use atomic_cells::WeakAt;
use control_block::desk::Desk;
use control_block::domain::Domain;
use shared_handle::{Shared, downgrade, release_weak};

/// A weak handle of the subject goes into the node's member `up`, and what was there leaves.
pub(crate) fn watch<V: Drop>(
    domain: &Domain<V>,
    desk: &mut Desk<V>,
    node: &Shared,
    subject: &Shared,
)
    requires domain { Belongs desk.old domain.now }
    requires node { IsWithin node.now.block node.now.place }
    requires holds { HoldsHandle desk.old Owner node.now.block node.now.place
        × HoldsHandle desk.old Owner subject.now.block subject.now.place }
    requires room { held_of desk.old < allowance_of desk.old }
    ensures bag { bag_of desk.new ≡ bag_of desk.old }
    ensures held { desk.new.held ≡ desk.old.held }
    ensures desk { IsSameDesk desk.old desk.new }
    ensures endings { KeepsEndings desk.old desk.new }
    ensures count { endings_of desk.new ≡ endings_of desk.old }
    ensures own { Watches desk.old (object_of (node_in desk.old node.now))
        (weak_of_owner desk.old subject.now) desk.new }
    ensures still { Does EndsNothing desk.old desk.new }
    ensures latest { KeepsHeld desk.old desk.new }
{
    let Ok(weak) = downgrade(domain, desk, subject) else {
        unreachable!()
    };
    let Ok(up) = WeakAt::member(node) else {
        unreachable!()
    };
    let old = up.exchange(domain, desk, weak);
    release_weak(domain, desk, old);
}
