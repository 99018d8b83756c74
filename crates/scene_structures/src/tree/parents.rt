//! The parent of a node in a scene tree.
ghost use Rattle.std.specs.Prelude.{◌≡◌, ◌+◌, IfErr, IfOk, OnOk};
ghost use Rattle.control_word.specs.Handles.{object_of};
ghost use Rattle.control_word.specs.declared.model.handle.Kind.TheVariants.{Owner};
ghost use Rattle.control_block.specs.Desks.{Belongs, IsSameDesk, KeepsEndings, bag_of, endings_of};
ghost use Rattle.control_block.specs.Own.{IsSole, KeepsLatest};
ghost use Rattle.control_block.specs.CellCalls.{HoldsHandle, with_handle};
ghost use Rattle.scene_structures.specs.Hands.{node_in};
ghost use Rattle.scene_structures.specs.Parents.{IsNode, IsParent, LocksUp, WhyNoNode};

use crate::scene::Scene;
use crate::stack::is_near_limit;
use atomic_cells::WeakAt;
use control_block::desk::Desk;
use control_block::domain::Domain;
use control_word::Refusal;
use shared_handle::{Shared, lock, release_weak};
use std::sync::Wait;

impl<V: Drop> Scene<V> {
    /// The node's parent (own): an owner of what its `up` is on, which points where that does, or an empty handle where
    /// that has no owner, or there is none. It tries again while others change `up` or the parent's count. It is
    /// refused `Limit` just where fewer than 6 handles are free, else `Null` just where the handle's place is null, and
    /// `Outside` just where that isn't in the object that it owns: then nothing changes.
    pub fn parent<R: Wait>(
        &self,
        rt: &R,
        domain: &Domain<V>,
        desk: &mut Desk<V>,
        node: &Shared,
    ) -> Result<Shared, Refusal>
        requires domain { Belongs desk.old domain.now }
        requires holds { HoldsHandle desk.old Owner node.now.block node.now.place }
        ensures refusals { IfErr result (λ why. WhyNoNode desk.old node.now.block node.now.place why) }
        ensures may { OnOk result (IsNode desk.old node.now.block node.now.place) }
        ensures refused { IfErr result (λ _. desk.new ≡ desk.old) }
        ensures desk { IsSameDesk desk.old desk.new }
        ensures endings { KeepsEndings desk.old desk.new }
        ensures count { endings_of desk.new ≡ endings_of desk.old }
        ensures bag { IfOk result (λ h. bag_of desk.new ≡ with_handle Owner h.block h.place (bag_of desk.old)) }
        ensures held { OnOk result (desk.new.held ≡ desk.old.held + 1) }
        ensures holds { IfOk result (λ h. HoldsHandle desk.new Owner h.block h.place) }
        ensures latest { OnOk result (KeepsLatest desk.old desk.new) }
        ensures own { IfOk result (λ h. LocksUp desk.old (object_of (node_in desk.old node.now)) h desk.new) }
        ensures parent { IfOk result
            (λ h. IsSole desk.old → IsParent desk.old (object_of (node_in desk.old node.now)) h desk.new) }
    {
        if is_near_limit(desk) {
            return Err(Refusal::Limit);
        }
        let up = WeakAt::member(node)?;
        desk.assert_invariant();
        let Ok(weak) = up.load(rt, domain, desk) else {
            unreachable!()
        };
        let Ok(owner) = lock(rt, domain, desk, &weak) else {
            unreachable!()
        };
        release_weak(domain, desk, weak);
        Ok(owner)
    }
}
