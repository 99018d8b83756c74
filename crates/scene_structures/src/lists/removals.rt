//! A node is sought in the list that begins in a cell, and goes out of it.
ghost use Rattle.std.specs.Prelude.{◌≡◌, ◌↔◌, ◌+◌, ◌<◌, ℕ, List, [], ◌∷◌};
ghost use Rattle.std.specs.Prelude.{IsTrue, MatchOption};
ghost use Rattle.control_word.specs.Handles.{object_of};
ghost use Rattle.control_word.specs.declared.model.event.Cell.{Cell};
ghost use Rattle.control_word.specs.declared.model.event.Cell.TheVariants.{Member};
ghost use Rattle.control_word.specs.declared.model.handle.NumberedHandle.{NumberedHandle};
ghost use Rattle.control_block.specs.Desks.{DeskNow, IsSameDesk, allowance_of};
ghost use Rattle.control_block.specs.Own.{Does};
ghost use Rattle.shared_handle.specs.Endings.{IsWithin};
ghost use Rattle.shared_handle.specs.Piles.{Carries};
ghost use Rattle.atomic_cells.specs.Sites.{shared_cell};
ghost use Rattle.scene_structures.specs.Detaches.{HandsSought, HeldSought, IsFound, IsSought, MaySkip};
ghost use Rattle.scene_structures.specs.Detaches.{ReachesNode, Seeks};
ghost use Rattle.scene_structures.specs.Hands.{HasHands, IsOpenBy, KeepsThese, Lists, node_in};
ghost use Rattle.scene_structures.specs.Puts.{PutsOnly, in_no_cell};
ghost use Rattle.scene_structures.specs.Others.{KeepsOthers};
ghost use Rattle.scene_structures.specs.Orders.{EndsInOrder};

use crate::tree::endings::let_go;
use atomic_cells::{Compared, SharedAt, SharedMember};
use control_block::desk::Desk;
use control_block::domain::Domain;
use control_block::pause::Pause;
use shared_handle::{Pile, Shared};
use std::sync::Wait;

/// What came of a look for a node in a cell.
pub(crate) enum Sought {
    /// No node is there.
    End,
    /// The node went out of the cell, which has what came next.
    Cut,
    /// Another node is there.
    Other(Shared),
}

/// Whether two handles own one object, or none.
fn is_same(a: &Shared, b: &Shared) -> bool
    ensures { IsTrue result ↔ (a.now.block ≡ b.now.block) }
{
    a.block() == b.block()
}

/// The node in a cell.
fn find<V: Drop, R: Wait>(
    rt: &R,
    domain: &Domain<V>,
    desk: &mut Desk<V>,
    at: &SharedAt,
    pile: &mut Pile<V>,
) -> Option<Shared>
    requires carries { Carries domain.now desk.old pile.old }
    requires empty { pile.old.endings.items ≡ [] }
    requires bag { (base : List NumberedHandle) × HasHands base [] desk.old × IsOpenBy base desk.old.shape at.now.site }
    requires room { desk.old.held + 1 < allowance_of desk.old }
    ensures carries { Carries domain.now desk.new pile.new }
    ensures others { KeepsOthers desk.old pile.old.endings.items desk.new pile.new.endings.items }
    ensures order { EndsInOrder desk.old pile.old.endings.items desk.new pile.new.endings.items }
    ensures none { pile.new.endings.items ≡ [] }
    ensures desk { IsSameDesk desk.old desk.new }
    ensures bag { (base : List NumberedHandle) → HasHands base [] desk.old
        → MatchOption result (HasHands base [] desk.new) (λ h. HasHands base (h ∷ []) desk.new) }
    ensures latest { (base : List NumberedHandle) → HasHands base [] desk.old → KeepsThese base desk.old desk.new }
    ensures held { MatchOption result (desk.new.held ≡ desk.old.held) (λ h. desk.new.held ≡ desk.old.held + 1) }
    ensures own { IsFound desk.old (shared_cell desk.old at.now.site) result desk.new }
{
    let Ok(top) = at.load(rt, domain, desk) else {
        unreachable!()
    };
    desk.assert_invariant();
    let Ok(_next) = SharedAt::member(&top, SharedMember::Next) else {
        let_go(rt, domain, desk, top, pile);
        return None;
    };
    Some(top)
}

/// One try to put what comes next into the cell in the node's place. The node is let go.
fn skip<V: Drop, R: Wait>(
    rt: &R,
    domain: &Domain<V>,
    desk: &mut Desk<V>,
    at: &SharedAt,
    pile: &mut Pile<V>,
    node: Shared,
) -> bool
    requires carries { Carries domain.now desk.old pile.old }
    requires empty { pile.old.endings.items ≡ [] }
    requires node { IsWithin node.block node.place }
    requires bag { (base : List NumberedHandle) × HasHands base (node ∷ []) desk.old
        × IsOpenBy base desk.old.shape at.now.site }
    requires room { desk.old.held + 2 < allowance_of desk.old }
    ensures carries { Carries domain.now desk.new pile.new }
    ensures others { KeepsOthers desk.old pile.old.endings.items desk.new pile.new.endings.items }
    ensures order { EndsInOrder desk.old pile.old.endings.items desk.new pile.new.endings.items }
    ensures none { pile.new.endings.items ≡ [] }
    ensures desk { IsSameDesk desk.old desk.new }
    ensures bag { (base : List NumberedHandle) → HasHands base (node ∷ []) desk.old → HasHands base [] desk.new }
    ensures latest { (base : List NumberedHandle) → HasHands base (node ∷ []) desk.old
        → KeepsThese base desk.old desk.new }
    ensures held { desk.new.held + 1 ≡ desk.old.held }
    ensures own { MaySkip desk.old (shared_cell desk.old at.now.site) (node_in desk.old node) result desk.new }
{
    let Ok(member) = SharedAt::member(&node, SharedMember::Next) else {
        unreachable!()
    };
    let Ok(below) = member.load(rt, domain, desk) else {
        unreachable!()
    };
    match at.compare_exchange_weak(rt, domain, desk, &node, below) {
        Ok(Compared::Swapped(old)) => {
            let_go(rt, domain, desk, old, pile);
            let_go(rt, domain, desk, node, pile);
            true
        }
        Ok(Compared::Differs { held, desired }) => {
            let_go(rt, domain, desk, desired, pile);
            let_go(rt, domain, desk, held, pile);
            let_go(rt, domain, desk, node, pile);
            false
        }
        Err(_) => unreachable!(),
    }
}

/// One try to take the node out of a cell, or none where the cell holds something else by now.
fn try_cut<V: Drop, R: Wait>(
    rt: &R,
    domain: &Domain<V>,
    desk: &mut Desk<V>,
    at: &SharedAt,
    node: &Shared,
    pile: &mut Pile<V>,
) -> Option<Sought>
    requires carries { Carries domain.now desk.old pile.old }
    requires empty { pile.old.endings.items ≡ [] }
    requires node { IsWithin node.now.block node.now.place }
    requires bag { (base : List NumberedHandle) × HasHands base [] desk.old × IsOpenBy base desk.old.shape at.now.site
        × Lists node.now.block node.now.place base }
    requires room { desk.old.held + 3 < allowance_of desk.old }
    ensures carries { Carries domain.now desk.new pile.new }
    ensures others { KeepsOthers desk.old pile.old.endings.items desk.new pile.new.endings.items }
    ensures order { EndsInOrder desk.old pile.old.endings.items desk.new pile.new.endings.items }
    ensures none { pile.new.endings.items ≡ [] }
    ensures desk { IsSameDesk desk.old desk.new }
    ensures bag { (base : List NumberedHandle) → HasHands base [] desk.old
        → MatchOption result (HasHands base [] desk.new) (λ s. HandsSought base s desk.new) }
    ensures latest { (base : List NumberedHandle) → HasHands base [] desk.old → KeepsThese base desk.old desk.new }
    ensures held { MatchOption result (desk.new.held ≡ desk.old.held) (λ s. HeldSought desk.old s desk.new) }
    ensures own { MatchOption result (Does (PutsOnly in_no_cell) desk.old desk.new)
        (λ s. IsSought desk.old (shared_cell desk.old at.now.site)
        (object_of (node_in desk.old node.now)) s desk.new) }
{
    match find(rt, domain, desk, at, pile) {
        None => Some(Sought::End),
        Some(top) => {
            if !is_same(&top, node) {
                return Some(Sought::Other(top));
            }
            if skip(rt, domain, desk, at, pile, top) {
                return Some(Sought::Cut);
            }
            None
        }
    }
}

/// The node goes out of a cell, whatever others put there meanwhile, or another is there, or none.
fn cut<V: Drop, R: Wait>(
    rt: &R,
    domain: &Domain<V>,
    desk: &mut Desk<V>,
    at: &SharedAt,
    node: &Shared,
    pile: &mut Pile<V>,
) -> Sought
    requires carries { Carries domain.now desk.old pile.old }
    requires empty { pile.old.endings.items ≡ [] }
    requires node { IsWithin node.now.block node.now.place }
    requires bag { (base : List NumberedHandle) × HasHands base [] desk.old × IsOpenBy base desk.old.shape at.now.site
        × Lists node.now.block node.now.place base }
    requires room { desk.old.held + 3 < allowance_of desk.old }
    ensures carries { Carries domain.now desk.new pile.new }
    ensures others { KeepsOthers desk.old pile.old.endings.items desk.new pile.new.endings.items }
    ensures order { EndsInOrder desk.old pile.old.endings.items desk.new pile.new.endings.items }
    ensures none { pile.new.endings.items ≡ [] }
    ensures desk { IsSameDesk desk.old desk.new }
    ensures bag { (base : List NumberedHandle) → HasHands base [] desk.old → HandsSought base result desk.new }
    ensures latest { (base : List NumberedHandle) → HasHands base [] desk.old → KeepsThese base desk.old desk.new }
    ensures held { HeldSought desk.old result desk.new }
    ensures own { IsSought desk.old (shared_cell desk.old at.now.site)
        (object_of (node_in desk.old node.now)) result desk.new }
{
    let mut pause = Pause::new();
    for _ in rt.forever() {
        match try_cut(rt, domain, desk, at, node, pile) {
            Some(sought) => return sought,
            None => pause.wait(),
        }
    }
    unreachable!()
}

/// The node goes out of the list below the first one, which is let go, or isn't there: whether it went.
fn cut_below<V: Drop, R: Wait>(
    rt: &R,
    domain: &Domain<V>,
    desk: &mut Desk<V>,
    first: Shared,
    node: &Shared,
    pile: &mut Pile<V>,
) -> bool
    requires carries { Carries domain.now desk.old pile.old }
    requires empty { pile.old.endings.items ≡ [] }
    requires first { IsWithin first.block first.place }
    requires node { IsWithin node.now.block node.now.place }
    requires bag { (base : List NumberedHandle) × HasHands base (first ∷ []) desk.old
        × Lists node.now.block node.now.place base }
    requires room { desk.old.held + 3 < allowance_of desk.old }
    ensures carries { Carries domain.now desk.new pile.new }
    ensures others { KeepsOthers desk.old pile.old.endings.items desk.new pile.new.endings.items }
    ensures order { EndsInOrder desk.old pile.old.endings.items desk.new pile.new.endings.items }
    ensures none { pile.new.endings.items ≡ [] }
    ensures desk { IsSameDesk desk.old desk.new }
    ensures bag { (base : List NumberedHandle) → HasHands base (first ∷ []) desk.old → HasHands base [] desk.new }
    ensures latest { (base : List NumberedHandle) → HasHands base (first ∷ []) desk.old
        → KeepsThese base desk.old desk.new }
    ensures held { desk.new.held + 1 ≡ desk.old.held }
    ensures own { (d : DeskNow V) (c : Cell) (bs : List ℕ)
        → ReachesNode d c (object_of (node_in desk.old node.now)) bs first desk.old
        → (passed : List ℕ) × Seeks d c (object_of (node_in desk.old node.now)) passed result desk.new }
{
    let mut before = first;
    for _ in rt.forever() {
        let Ok(next) = SharedAt::member(&before, SharedMember::Next) else {
            unreachable!()
        };
        let sought = cut(rt, domain, desk, &next, node, pile);
        let_go(rt, domain, desk, before, pile);
        match sought {
            Sought::Other(after) => before = after,
            Sought::Cut => return true,
            Sought::End => return false,
        }
    }
    unreachable!()
}

/// The node goes out of the parent's children, or isn't one of them: whether it went.
pub(crate) fn cut_child<V: Drop, R: Wait>(
    rt: &R,
    domain: &Domain<V>,
    desk: &mut Desk<V>,
    parent: &Shared,
    node: &Shared,
    pile: &mut Pile<V>,
) -> bool
    requires carries { Carries domain.now desk.old pile.old }
    requires empty { pile.old.endings.items ≡ [] }
    requires parent { IsWithin parent.now.block parent.now.place }
    requires node { IsWithin node.now.block node.now.place }
    requires bag { (base : List NumberedHandle) × HasHands base [] desk.old
        × Lists parent.now.block parent.now.place base
        × Lists node.now.block node.now.place base }
    requires room { desk.old.held + 4 < allowance_of desk.old }
    ensures carries { Carries domain.now desk.new pile.new }
    ensures others { KeepsOthers desk.old pile.old.endings.items desk.new pile.new.endings.items }
    ensures order { EndsInOrder desk.old pile.old.endings.items desk.new pile.new.endings.items }
    ensures none { pile.new.endings.items ≡ [] }
    ensures desk { IsSameDesk desk.old desk.new }
    ensures bag { (base : List NumberedHandle) → HasHands base [] desk.old → HasHands base [] desk.new }
    ensures latest { (base : List NumberedHandle) → HasHands base [] desk.old → KeepsThese base desk.old desk.new }
    ensures held { desk.new.held ≡ desk.old.held }
    ensures own { (passed : List ℕ) × Seeks desk.old (Member (object_of (node_in desk.old parent.now)) 0)
        (object_of (node_in desk.old node.now)) passed result desk.new }
{
    let Ok(first) = SharedAt::member(parent, SharedMember::First) else {
        unreachable!()
    };
    match cut(rt, domain, desk, &first, node, pile) {
        Sought::Other(child) => cut_below(rt, domain, desk, child, node, pile),
        Sought::Cut => true,
        Sought::End => false,
    }
}
