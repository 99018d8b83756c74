//! A node goes out of a scene tree.
ghost use Rattle.std.specs.Prelude.{◌≡◌, ◌+◌, ◌<◌, List, [], ◌∷◌, IfErr, OnOk};
ghost use Rattle.control_word.specs.Handles.{object_of};
ghost use Rattle.control_word.specs.declared.model.handle.NumberedHandle.{NumberedHandle};
ghost use Rattle.control_word.specs.declared.model.handle.Kind.TheVariants.{Owner};
ghost use Rattle.control_block.specs.Desks.{IsSameDesk, allowance_of, bag_of};
ghost use Rattle.control_block.specs.Own.{IsSole, KeepsHeld};
ghost use Rattle.control_block.specs.CellCalls.{HoldsHandle};
ghost use Rattle.shared_handle.specs.Endings.{IsWithin};
ghost use Rattle.shared_handle.specs.Piles.{Carries};
ghost use Rattle.scene_structures.specs.Detaches.{Detaches, LeavesParent, UnlinksIf};
ghost use Rattle.scene_structures.specs.Hands.{HasHands, KeepsThese, Lists, node_in};
ghost use Rattle.scene_structures.specs.Leaves.{IsDetached};
ghost use Rattle.scene_structures.specs.Parents.{IsNode, WhyNoNode};
ghost use Rattle.scene_structures.specs.Others.{KeepsOthers};
ghost use Rattle.scene_structures.specs.Orders.{EndsInOrder};

use crate::lists::pushes::store_next;
use crate::lists::removals::cut_child;
use crate::lists::subjects::watch;
use crate::scene::Scene;
use crate::tree::endings::let_go;
use control_block::desk::Desk;
use control_block::domain::Domain;
use control_word::{Place, Refusal};
use shared_handle::{Pile, Shared, alias, empty};
use std::sync::Wait;

/// The node's `up` and `next` are emptied, if it went out of a list.
fn unlink<V: Drop, R: Wait>(
    rt: &R,
    domain: &Domain<V>,
    desk: &mut Desk<V>,
    node: &Shared,
    went: bool,
    pile: &mut Pile<V>,
)
    requires carries { Carries domain.now desk.old pile.old }
    requires empty { pile.old.endings.items ≡ [] }
    requires node { IsWithin node.now.block node.now.place }
    requires holds { HoldsHandle desk.old Owner node.now.block node.now.place }
    requires room { desk.old.held + 2 < allowance_of desk.old }
    ensures carries { Carries domain.now desk.new pile.new }
    ensures others { KeepsOthers desk.old pile.old.endings.items desk.new pile.new.endings.items }
    ensures order { EndsInOrder desk.old pile.old.endings.items desk.new pile.new.endings.items }
    ensures none { pile.new.endings.items ≡ [] }
    ensures desk { IsSameDesk desk.old desk.new }
    ensures bag { bag_of desk.new ≡ bag_of desk.old }
    ensures held { desk.new.held ≡ desk.old.held }
    ensures own { UnlinksIf went desk.old (object_of (node_in desk.old node.now)) desk.new }
    ensures latest { KeepsHeld desk.old desk.new }
{
    if !went {
        return;
    }
    let Ok(nothing) = empty(domain, desk) else {
        unreachable!()
    };
    watch(domain, desk, node, &nothing);
    store_next(rt, domain, desk, node, nothing, pile);
}

/// The node goes out of the parent's children, if it is one of them, and the parent is let go.
fn leave<V: Drop, R: Wait>(
    rt: &R,
    domain: &Domain<V>,
    desk: &mut Desk<V>,
    parent: Shared,
    node: &Shared,
    pile: &mut Pile<V>,
)
    requires carries { Carries domain.now desk.old pile.old }
    requires empty { pile.old.endings.items ≡ [] }
    requires parent { IsWithin parent.block parent.place }
    requires node { IsWithin node.now.block node.now.place }
    requires bag { (base : List NumberedHandle) × HasHands base (parent ∷ []) desk.old
        × Lists node.now.block node.now.place base }
    requires room { desk.old.held + 4 < allowance_of desk.old }
    ensures carries { Carries domain.now desk.new pile.new }
    ensures others { KeepsOthers desk.old pile.old.endings.items desk.new pile.new.endings.items }
    ensures order { EndsInOrder desk.old pile.old.endings.items desk.new pile.new.endings.items }
    ensures none { pile.new.endings.items ≡ [] }
    ensures desk { IsSameDesk desk.old desk.new }
    ensures bag { (base : List NumberedHandle) → HasHands base (parent ∷ []) desk.old → HasHands base [] desk.new }
    ensures latest { (base : List NumberedHandle) → HasHands base (parent ∷ []) desk.old
        → KeepsThese base desk.old desk.new }
    ensures held { desk.new.held + 1 ≡ desk.old.held }
    ensures own { LeavesParent desk.old (object_of (node_in desk.old parent))
        (object_of (node_in desk.old node.now)) desk.new }
{
    let went = cut_child(rt, domain, desk, &parent, node, pile);
    unlink(rt, domain, desk, node, went, pile);
    desk.assert_invariant();
    let_go(rt, domain, desk, parent, pile);
}

impl<V: Drop> Scene<V> {
    /// The node goes out of the children of what its `up` is on, and its `next` and `up` are emptied; where that has no
    /// owner, or the node isn't among its children, nothing changes (own). It waits while others change what it looks
    /// at. It is refused `Limit` just where fewer than 6 handles are free, else `Null` just where the handle's place is
    /// null, and `Outside` just where that isn't in the object that it owns: then nothing changes. What ends in the
    /// desk's hands elsewhere than on the scene's pile stays as it is. Condition: what was left on that pile ends with
    /// this desk.
    pub fn detach<R: Wait>(
        &mut self,
        rt: &R,
        domain: &Domain<V>,
        desk: &mut Desk<V>,
        node: &Shared,
    ) -> Result<(), Refusal>
        requires carries { Carries domain.now desk.old self.old }
        requires holds { HoldsHandle desk.old Owner node.now.block node.now.place }
        ensures refusals { IfErr result (λ why. WhyNoNode desk.old node.now.block node.now.place why) }
        ensures may { OnOk result (IsNode desk.old node.now.block node.now.place) }
        ensures refused { IfErr result (λ _. (desk.new ≡ desk.old) × (self.new ≡ self.old)) }
        ensures carries { Carries domain.now desk.new self.new }
        ensures others { KeepsOthers desk.old self.old.endings.items desk.new self.new.endings.items }
        ensures order { OnOk result (EndsInOrder desk.old self.old.endings.items desk.new self.new.endings.items) }
        ensures none { OnOk result (self.new.endings.items ≡ []) }
        ensures desk { IsSameDesk desk.old desk.new }
        ensures bag { bag_of desk.new ≡ bag_of desk.old }
        ensures held { desk.new.held ≡ desk.old.held }
        ensures own { OnOk result (Detaches desk.old (object_of (node_in desk.old node.now)) desk.new) }
        ensures tree { OnOk result
            (IsSole desk.old → IsDetached desk.old (object_of (node_in desk.old node.now)) desk.new) }
    {
        desk.assert_invariant();
        let owner = self.parent(rt, domain, desk, node)?;
        let Some(block) = owner.block() else {
            let_go(rt, domain, desk, owner, &mut self.pile);
            return Ok(());
        };
        let Ok(parent) = alias(domain, desk, &owner, Some(Place { block, field: 0 })) else {
            unreachable!()
        };
        let_go(rt, domain, desk, owner, &mut self.pile);
        leave(rt, domain, desk, parent, node, &mut self.pile);
        Ok(())
    }
}
