//! A scene tree: each node owns its first child and its next sibling, and points back at its parent (own).
ghost use Rattle.std.specs.Prelude.{◌≡◌, ◌+◌, [], ◌↔◌, length, IfErr, IfOk, IsTrue, OnOk};
ghost use Rattle.control_word.specs.declared.model.handle.Kind.TheVariants.{Owner};
ghost use Rattle.control_block.specs.Desks.{IsSameDesk, bag_of};
ghost use Rattle.control_block.specs.Own.{IsSole};
ghost use Rattle.control_block.specs.CellCalls.{HoldsHandle, with_handle};
ghost use Rattle.shared_handle.specs.Endings.{IsWithin};
ghost use Rattle.shared_handle.specs.Piles.{Carries};
ghost use Rattle.scene_structures.specs.Scenes.{Adopts, IsAdopted, MayHaveChild, WhyNoChild};
ghost use Rattle.scene_structures.specs.Stacks.{ServesDomain};
ghost use Rattle.scene_structures.specs.Others.{KeepsOthers};
ghost use Rattle.scene_structures.specs.Orders.{EndsInOrder};

use crate::lists::pushes::{Attempt, raise};
use crate::lists::subjects::watch;
use crate::stack::is_near_limit;
use atomic_cells::{SharedAt, SharedMember};
use control_block::desk::Desk;
use control_block::domain::Domain;
use control_word::{Refusal, Refused};
use shared_handle::{Pile, Shared, make, share};
use std::alloc::Global;
use std::marker::Model;
use std::sync::Wait;

/// A thread's own access to trees of nodes: a node owns its first child by its member `first` and its next sibling by
/// `next`, and its `up` points back at its parent. What ends in its calls lies on its pile.
pub struct Scene<V: Drop> {
    pub(crate) pile: Pile<V>,
}

impl<V: Drop> Model for Scene<V> {
    ghost use Rattle.shared_handle.specs.declared.pile.Pile.{Pile};

    ghost Value = { Pile V };

    ghost view = { λ s. s.pile };

    ghost invariant = { λ _. Unit {0} };
}

impl<V: Drop> Scene<V> {
    /// An access to the trees of the domain (own). It makes room for the ends of as many objects as there are blocks.
    /// It serves any desk of the domain. It is refused `Memory` where a growth was really refused.
    pub fn new(alloc: Global, domain: &Domain<V>) -> Result<Self, Refusal>
        ensures refused { IfErr result (λ why. why ≡ Refusal.Memory) }
        ensures serves { IfOk result (λ s. ServesDomain domain.now s) }
    {
        let pile = Pile::new(alloc, domain)?;
        Ok(Self { pile })
    }

    /// A new node with four fields and an owned value, without the from-this flag, becomes the first of the parent's
    /// children, and this is its owner (own): it has the one that was first as its next sibling, and its `up` points
    /// where the parent's handle does. It waits while others change the parent's `first`. It is refused `Limit` just
    /// where fewer than 6 handles are free, else `Full` just where the desk's store is empty, else `Null` just where
    /// the handle's place is null, and `Outside` just where that isn't in the object that it owns: then the value comes
    /// back, and nothing changes. What ends in the desk's hands elsewhere than on the scene's pile stays as it is.
    /// Condition: what was left on that pile ends with this desk.
    pub fn add_child<R: Wait>(
        &mut self,
        rt: &R,
        domain: &Domain<V>,
        desk: &mut Desk<V>,
        parent: &Shared,
        fields: [u64; 4],
        value: V,
    ) -> Result<Shared, Refused<V>>
        requires carries { Carries domain.now desk.old self.old }
        requires holds { HoldsHandle desk.old Owner parent.now.block parent.now.place }
        ensures refusals { IfErr result (λ r. WhyNoChild desk.old parent.now.block parent.now.place r.why) }
        ensures may { OnOk result (MayHaveChild desk.old parent.now.block parent.now.place) }
        ensures refused { IfErr result
            (λ r. (r.back ≡ value) × (desk.new ≡ desk.old) × (self.new ≡ self.old)) }
        ensures carries { Carries domain.now desk.new self.new }
        ensures others { KeepsOthers desk.old self.old.endings.items desk.new self.new.endings.items }
        ensures order { OnOk result (EndsInOrder desk.old self.old.endings.items desk.new self.new.endings.items) }
        ensures none { OnOk result (self.new.endings.items ≡ []) }
        ensures desk { IsSameDesk desk.old desk.new }
        ensures bag { IfOk result (λ h. bag_of desk.new ≡ with_handle Owner h.block h.place (bag_of desk.old)) }
        ensures held { OnOk result (desk.new.held ≡ desk.old.held + 1) }
        ensures holds { IfOk result (λ h. HoldsHandle desk.new Owner h.block h.place × IsWithin h.block h.place) }
        ensures own { IfOk result (λ h. Adopts desk.old parent.now fields value h desk.new) }
        ensures tree { OnOk result (IsSole desk.old → IsAdopted desk.old parent.now desk.new) }
    {
        if is_near_limit(desk) {
            return Err(Refused {
                why: Refusal::Limit,
                back: value,
            });
        }
        if desk.stock() == 0 {
            return Err(Refused {
                why: Refusal::Full,
                back: value,
            });
        }
        let first = match SharedAt::member(parent, SharedMember::First) {
            Ok(first) => first,
            Err(why) => return Err(Refused { why, back: value }),
        };
        desk.assert_invariant();
        let Ok(node) = make(domain, desk, fields, false, value) else {
            unreachable!()
        };
        watch(domain, desk, &node, parent);
        let Ok(copy) = share(domain, desk, &node) else {
            unreachable!()
        };
        let Ok(top) = first.load(rt, domain, desk) else {
            unreachable!()
        };
        raise(
            rt,
            domain,
            desk,
            &first,
            &mut self.pile,
            Attempt { node: copy, top },
        );
        Ok(node)
    }

    /// Whether nothing is left on the scene's pile to end (own).
    pub fn is_settled(&self) -> bool
        ensures { IsTrue result ↔ (self.now.endings.items ≡ []) }
    {
        self.pile.is_empty()
    }

    /// The access is given up (own); the trees stay as they are. How many objects were left on its pile to end, and are
    /// given up with it, each as by `Ending::forget`.
    pub fn close(self) -> usize
        ensures left { result ≡ length self.endings.items }
    {
        let Self { pile } = self;
        pile.close()
    }
}
