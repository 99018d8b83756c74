//! Tries to put a node in front of what a shared cell holds.
ghost use Rattle.std.specs.Prelude.{◌≡◌, ◌<◌, ◌+◌, List, [], ◌∷◌, MatchOption, IfSome};
ghost use Rattle.control_word.specs.Handles.{object_of};
ghost use Rattle.control_word.specs.declared.model.handle.NumberedHandle.{NumberedHandle};
ghost use Rattle.control_word.specs.declared.model.handle.Kind.TheVariants.{Owner};
ghost use Rattle.control_block.specs.CellCalls.{handle_in};
ghost use Rattle.control_block.specs.Desks.{IsSameDesk, allowance_of, bag_of};
ghost use Rattle.control_block.specs.Own.{Does, KeepsHeld};
ghost use Rattle.control_block.specs.CellCalls.{HoldsHandle, without_handle};
ghost use Rattle.shared_handle.specs.Endings.{IsWithin};
ghost use Rattle.atomic_cells.specs.Sites.{shared_cell};
ghost use Rattle.scene_structures.specs.Hands.{HasHands, IsOpenBy, KeepsThese, SameNode, node_in};
ghost use Rattle.shared_handle.specs.Piles.{Carries};
ghost use Rattle.scene_structures.specs.Puts.{PutsOnly};
ghost use Rattle.scene_structures.specs.Stacks.{Fills, NextOf, Rises};
ghost use Rattle.scene_structures.specs.Others.{KeepsOthers};
ghost use Rattle.scene_structures.specs.Orders.{EndsInOrder};

use crate::tree::endings::let_go;
use atomic_cells::{Compared, SharedAt, SharedMember};
use control_block::desk::Desk;
use control_block::domain::Domain;
use control_block::pause::Pause;
use shared_handle::{Pile, Shared, share};
use std::sync::Wait;

/// A new node, and what was seen in the cell.
pub(crate) struct Attempt {
    pub(crate) node: Shared,
    pub(crate) top: Shared,
}

/// The node owns this, and what it owned leaves.
pub(crate) fn store_next<V: Drop, R: Wait>(
    rt: &R,
    domain: &Domain<V>,
    desk: &mut Desk<V>,
    node: &Shared,
    below: Shared,
    pile: &mut Pile<V>,
)
    requires carries { Carries domain.now desk.old pile.old }
    requires node { IsWithin node.now.block node.now.place }
    requires holds { HoldsHandle desk.old Owner node.now.block node.now.place
        × HoldsHandle desk.old Owner below.block below.place }
    ensures carries { Carries domain.now desk.new pile.new }
    ensures others { KeepsOthers desk.old pile.old.endings.items desk.new pile.new.endings.items }
    ensures order { EndsInOrder desk.old pile.old.endings.items desk.new pile.new.endings.items }
    ensures none { pile.new.endings.items ≡ [] }
    ensures bag { bag_of desk.new ≡ without_handle Owner below.block below.place (bag_of desk.old) }
    ensures held { desk.new.held + 1 ≡ desk.old.held }
    ensures desk { IsSameDesk desk.old desk.new }
    ensures own { Fills desk.old (object_of (node_in desk.old node.now))
        (handle_in desk.old Owner below.block below.place) desk.new }
    ensures latest { KeepsHeld desk.old desk.new }
{
    let Ok(next) = SharedAt::member(node, SharedMember::Next) else {
        unreachable!()
    };
    let old = next.exchange(domain, desk, below);
    let_go(rt, domain, desk, old, pile)
}

/// One try to put the node in front of what the cell holds. What to try next, if it isn't done.
fn try_push<V: Drop, R: Wait>(
    rt: &R,
    domain: &Domain<V>,
    desk: &mut Desk<V>,
    at: &SharedAt,
    pile: &mut Pile<V>,
    attempt: Attempt,
) -> Option<Attempt>
    requires carries { Carries domain.now desk.old pile.old }
    requires node { IsWithin attempt.node.block attempt.node.place }
    requires bag { (base : List NumberedHandle) × HasHands base (attempt.top ∷ attempt.node ∷ []) desk.old
        × IsOpenBy base desk.old.shape at.now.site }
    requires room { desk.old.held + 2 < allowance_of desk.old }
    ensures carries { Carries domain.now desk.new pile.new }
    ensures others { KeepsOthers desk.old pile.old.endings.items desk.new pile.new.endings.items }
    ensures order { EndsInOrder desk.old pile.old.endings.items desk.new pile.new.endings.items }
    ensures none { pile.new.endings.items ≡ [] }
    ensures desk { IsSameDesk desk.old desk.new }
    ensures node { IfSome result (λ a. (a.node ≡ attempt.node) × SameNode desk.old attempt.node desk.new) }
    ensures bag { (base : List NumberedHandle) → HasHands base (attempt.top ∷ attempt.node ∷ []) desk.old
        → MatchOption result (HasHands base [] desk.new) (λ a. HasHands base (a.top ∷ a.node ∷ []) desk.new) }
    ensures latest { (base : List NumberedHandle) → HasHands base (attempt.top ∷ attempt.node ∷ []) desk.old
        → KeepsThese base desk.old desk.new }
    ensures held { MatchOption result (desk.new.held + 2 ≡ desk.old.held) (λ a. desk.new.held ≡ desk.old.held) }
    ensures own { MatchOption result
        (Rises desk.old (shared_cell desk.old at.now.site) (node_in desk.old attempt.node) desk.new)
        (λ a. Does (PutsOnly (NextOf (object_of (node_in desk.old attempt.node)))) desk.old desk.new) }
{
    let Attempt { node, top } = attempt;
    let Ok(copy) = share(domain, desk, &top) else {
        unreachable!()
    };
    store_next(rt, domain, desk, &node, copy, pile);
    match at.compare_exchange_weak(rt, domain, desk, &top, node) {
        Ok(Compared::Swapped(old)) => {
            let_go(rt, domain, desk, old, pile);
            let_go(rt, domain, desk, top, pile);
            None
        }
        Ok(Compared::Differs { held, desired }) => {
            let_go(rt, domain, desk, top, pile);
            Some(Attempt {
                node: desired,
                top: held,
            })
        }
        Err(_) => unreachable!(),
    }
}

/// The node goes in front of what the cell holds, whatever others put there meanwhile.
pub(crate) fn raise<V: Drop, R: Wait>(
    rt: &R,
    domain: &Domain<V>,
    desk: &mut Desk<V>,
    at: &SharedAt,
    pile: &mut Pile<V>,
    first: Attempt,
)
    requires carries { Carries domain.now desk.old pile.old }
    requires node { IsWithin first.node.block first.node.place }
    requires bag { (base : List NumberedHandle) × HasHands base (first.top ∷ first.node ∷ []) desk.old
        × IsOpenBy base desk.old.shape at.now.site }
    requires room { desk.old.held + 2 < allowance_of desk.old }
    ensures carries { Carries domain.now desk.new pile.new }
    ensures others { KeepsOthers desk.old pile.old.endings.items desk.new pile.new.endings.items }
    ensures order { EndsInOrder desk.old pile.old.endings.items desk.new pile.new.endings.items }
    ensures none { pile.new.endings.items ≡ [] }
    ensures desk { IsSameDesk desk.old desk.new }
    ensures bag { (base : List NumberedHandle) → HasHands base (first.top ∷ first.node ∷ []) desk.old
        → HasHands base [] desk.new }
    ensures latest { (base : List NumberedHandle) → HasHands base (first.top ∷ first.node ∷ []) desk.old
        → KeepsThese base desk.old desk.new }
    ensures held { desk.new.held + 2 ≡ desk.old.held }
    ensures own { Rises desk.old (shared_cell desk.old at.now.site) (node_in desk.old first.node) desk.new }
{
    let mut attempt = first;
    let mut pause = Pause::new();
    for _ in rt.forever() {
        match try_push(rt, domain, desk, at, pile, attempt) {
            None => return,
            Some(next) => attempt = next,
        }
        pause.wait();
    }
    unreachable!()
}
