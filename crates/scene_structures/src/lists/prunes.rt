//! Nodes whose subject has no owner go out of a cell's list.
ghost use Rattle.std.specs.Prelude.{◌≡◌, ◌<◌, ◌+◌, ◌^◌, ◌%◌, ℕ, List, [], ◌∷◌};
ghost use Rattle.std.specs.Prelude.{IfSome, MatchOption, None, Some};
ghost use Rattle.control_word.specs.Handles.{object_of};
ghost use Rattle.control_word.specs.declared.model.event.Cell.{Cell};
ghost use Rattle.control_word.specs.declared.model.event.Cell.TheVariants.{Free};
ghost use Rattle.control_word.specs.declared.model.handle.NumberedHandle.{NumberedHandle};
ghost use Rattle.control_block.specs.Desks.{Belongs, DeskNow, IsSameDesk, KeepsEndings, allowance_of, bag_of};
ghost use Rattle.control_block.specs.Desks.{endings_of};
ghost use Rattle.shared_handle.specs.Endings.{IsWithin};
ghost use Rattle.shared_handle.specs.Piles.{Carries};
ghost use Rattle.atomic_cells.specs.Sites.{IsOpenWeakly, shared_cell, weak_cell};
ghost use Rattle.control_block.specs.Own.{KeepsHeld};
ghost use Rattle.scene_structures.specs.Hands.{HasHands, IsOpenBy, KeepsThese, node_in};
ghost use Rattle.scene_structures.specs.Prunes.{AsksExpired, ClearsFront, HandsFront, HeldFront, IsFront, PassesNode};
ghost use Rattle.scene_structures.specs.Prunes.{Prunes};
ghost use Rattle.scene_structures.specs.Others.{KeepsOthers};
ghost use Rattle.scene_structures.specs.Orders.{EndsInOrder};

use crate::tree::endings::let_go;
use atomic_cells::{SharedAt, SharedMember, WeakAt};
use control_block::desk::Desk;
use control_block::domain::Domain;
use shared_handle::{Pile, Shared, expired, release_weak};
use std::sync::Wait;

/// What is in a cell.
pub(crate) enum Front {
    /// No node.
    End,
    /// A node whose subject has an owner.
    Stays(Shared),
    /// A node whose subject has none.
    Gone(Shared),
}

/// Whether what the cell holds has no object that has an owner.
fn is_expired<V: Drop, R: Wait>(rt: &R, domain: &Domain<V>, desk: &mut Desk<V>, up: &WeakAt) -> bool
    requires domain { Belongs desk.old domain.now }
    requires cell { IsOpenWeakly desk.old up.now.site }
    requires room { desk.old.held + 2 < allowance_of desk.old }
    ensures endings { KeepsEndings desk.old desk.new }
    ensures count { endings_of desk.new ≡ endings_of desk.old }
    ensures bag { bag_of desk.new ≡ bag_of desk.old }
    ensures held { desk.new.held ≡ desk.old.held }
    ensures desk { IsSameDesk desk.old desk.new }
    ensures latest { KeepsHeld desk.old desk.new }
    ensures own { AsksExpired desk.old (weak_cell desk.old up.now.site) result desk.new }
{
    let Ok(weak) = up.load(rt, domain, desk) else {
        unreachable!()
    };
    let gone = expired(domain, desk, &weak);
    release_weak(domain, desk, weak);
    gone
}

/// A look at the node in a cell, and at its subject.
fn look_in<V: Drop, R: Wait>(
    rt: &R,
    domain: &Domain<V>,
    desk: &mut Desk<V>,
    at: &SharedAt,
    pile: &mut Pile<V>,
) -> Front
    requires carries { Carries domain.now desk.old pile.old }
    requires empty { pile.old.endings.items ≡ [] }
    requires bag { (base : List NumberedHandle) × HasHands base [] desk.old × IsOpenBy base desk.old.shape at.now.site }
    requires room { desk.old.held + 3 < allowance_of desk.old }
    ensures carries { Carries domain.now desk.new pile.new }
    ensures others { KeepsOthers desk.old pile.old.endings.items desk.new pile.new.endings.items }
    ensures order { EndsInOrder desk.old pile.old.endings.items desk.new pile.new.endings.items }
    ensures none { pile.new.endings.items ≡ [] }
    ensures desk { IsSameDesk desk.old desk.new }
    ensures bag { (base : List NumberedHandle) → HasHands base [] desk.old → HandsFront base result desk.new }
    ensures latest { (base : List NumberedHandle) → HasHands base [] desk.old → KeepsThese base desk.old desk.new }
    ensures held { HeldFront desk.old result desk.new }
    ensures own { IsFront desk.old (shared_cell desk.old at.now.site) result desk.new }
{
    let Ok(top) = at.load(rt, domain, desk) else {
        unreachable!()
    };
    desk.assert_invariant();
    let Ok(up) = WeakAt::member(&top) else {
        let_go(rt, domain, desk, top, pile);
        return Front::End;
    };
    if is_expired(rt, domain, desk, &up) {
        return Front::Gone(top);
    }
    Front::Stays(top)
}

/// What comes next goes into the cell in the node's place, and the node is let go.
fn pass<V: Drop, R: Wait>(
    rt: &R,
    domain: &Domain<V>,
    desk: &mut Desk<V>,
    at: &SharedAt,
    pile: &mut Pile<V>,
    node: Shared,
)
    requires carries { Carries domain.now desk.old pile.old }
    requires empty { pile.old.endings.items ≡ [] }
    requires node { IsWithin node.block node.place }
    requires bag { (base : List NumberedHandle) × HasHands base (node ∷ []) desk.old
        × IsOpenBy base desk.old.shape at.now.site }
    requires room { desk.old.held + 2 < allowance_of desk.old }
    ensures carries { Carries domain.now desk.new pile.new }
    ensures others { KeepsOthers desk.old pile.old.endings.items desk.new pile.new.endings.items }
    ensures order { EndsInOrder desk.old pile.old.endings.items desk.new pile.new.endings.items }
    ensures none { pile.new.endings.items ≡ [] }
    ensures desk { IsSameDesk desk.old desk.new }
    ensures bag { (base : List NumberedHandle) → HasHands base (node ∷ []) desk.old → HasHands base [] desk.new }
    ensures latest { (base : List NumberedHandle) → HasHands base (node ∷ []) desk.old
        → KeepsThese base desk.old desk.new }
    ensures held { desk.new.held + 1 ≡ desk.old.held }
    ensures own { PassesNode desk.old (shared_cell desk.old at.now.site) (object_of (node_in desk.old node)) desk.new }
{
    let Ok(member) = SharedAt::member(&node, SharedMember::Next) else {
        unreachable!()
    };
    let Ok(next) = member.load(rt, domain, desk) else {
        unreachable!()
    };
    let old = at.exchange(domain, desk, next);
    let_go(rt, domain, desk, old, pile);
    let_go(rt, domain, desk, node, pile);
}

/// Nodes whose subject has no owner go out of the cell, till one comes that stays, or none. How many went, and what
/// stays.
fn clear_front<V: Drop, R: Wait>(
    rt: &R,
    domain: &Domain<V>,
    desk: &mut Desk<V>,
    at: &SharedAt,
    pile: &mut Pile<V>,
) -> (u32, Option<Shared>)
    requires carries { Carries domain.now desk.old pile.old }
    requires empty { pile.old.endings.items ≡ [] }
    requires bag { (base : List NumberedHandle) × HasHands base [] desk.old × IsOpenBy base desk.old.shape at.now.site }
    requires room { desk.old.held + 3 < allowance_of desk.old }
    ensures carries { Carries domain.now desk.new pile.new }
    ensures others { KeepsOthers desk.old pile.old.endings.items desk.new pile.new.endings.items }
    ensures order { EndsInOrder desk.old pile.old.endings.items desk.new pile.new.endings.items }
    ensures none { pile.new.endings.items ≡ [] }
    ensures desk { IsSameDesk desk.old desk.new }
    ensures bag { (base : List NumberedHandle) → HasHands base [] desk.old
        → MatchOption result.1 (HasHands base [] desk.new) (λ h. HasHands base (h ∷ []) desk.new) }
    ensures latest { (base : List NumberedHandle) → HasHands base [] desk.old → KeepsThese base desk.old desk.new }
    ensures held { MatchOption result.1 (desk.new.held ≡ desk.old.held) (λ h. desk.new.held ≡ desk.old.held + 1) }
    ensures node { IfSome result.1 (λ h. IsWithin h.block h.place) }
    ensures own { (n : ℕ) × (result.0 ≡ n % 2 ^ 32)
        × ClearsFront desk.old (shared_cell desk.old at.now.site) n result.1 desk.new }
{
    let mut count = 0u32;
    for _ in rt.forever() {
        match look_in(rt, domain, desk, at, pile) {
            Front::End => return (count, None),
            Front::Stays(node) => return (count, Some(node)),
            Front::Gone(node) => pass(rt, domain, desk, at, pile, node),
        }
        count = count.wrapping_add(1);
    }
    unreachable!()
}

/// Nodes whose subject has no owner go out of the list below this node, which is let go. How many, below 4,294,967,296.
fn clear_below<V: Drop, R: Wait>(
    rt: &R,
    domain: &Domain<V>,
    desk: &mut Desk<V>,
    first: Shared,
    pile: &mut Pile<V>,
) -> u32
    requires carries { Carries domain.now desk.old pile.old }
    requires empty { pile.old.endings.items ≡ [] }
    requires node { IsWithin first.block first.place }
    requires bag { (base : List NumberedHandle) × HasHands base (first ∷ []) desk.old }
    requires room { desk.old.held + 3 < allowance_of desk.old }
    ensures carries { Carries domain.now desk.new pile.new }
    ensures others { KeepsOthers desk.old pile.old.endings.items desk.new pile.new.endings.items }
    ensures order { EndsInOrder desk.old pile.old.endings.items desk.new pile.new.endings.items }
    ensures none { pile.new.endings.items ≡ [] }
    ensures desk { IsSameDesk desk.old desk.new }
    ensures bag { (base : List NumberedHandle) → HasHands base (first ∷ []) desk.old → HasHands base [] desk.new }
    ensures held { desk.new.held + 1 ≡ desk.old.held }
    ensures own { (d : DeskNow V) (c : Cell) (os : List ℕ) (a : ℕ) → Prunes d c os a (Some first) desk.old
        → (n : ℕ) × (result ≡ n % 2 ^ 32) × ((kept : List ℕ) × Prunes d c kept (a + n) None desk.new) }
{
    let mut node = first;
    let mut count = 0u32;
    for _ in rt.forever() {
        let Ok(next) = SharedAt::member(&node, SharedMember::Next) else {
            unreachable!()
        };
        let (more, last) = clear_front(rt, domain, desk, &next, pile);
        let_go(rt, domain, desk, node, pile);
        count = count.wrapping_add(more);
        match last {
            None => return count,
            Some(after) => node = after,
        }
    }
    unreachable!()
}

/// All nodes in the list of the free cell whose subject has no owner go out of it. How many, below 4,294,967,296.
pub(crate) fn clear_list<V: Drop, R: Wait>(
    rt: &R,
    domain: &Domain<V>,
    desk: &mut Desk<V>,
    cell: u32,
    pile: &mut Pile<V>,
) -> u32
    requires carries { Carries domain.now desk.old pile.old }
    requires empty { pile.old.endings.items ≡ [] }
    requires cell { cell < desk.old.shape.shared_cells }
    requires bag { (base : List NumberedHandle) × HasHands base [] desk.old }
    requires room { desk.old.held + 5 < allowance_of desk.old }
    ensures carries { Carries domain.now desk.new pile.new }
    ensures others { KeepsOthers desk.old pile.old.endings.items desk.new pile.new.endings.items }
    ensures order { EndsInOrder desk.old pile.old.endings.items desk.new pile.new.endings.items }
    ensures none { pile.new.endings.items ≡ [] }
    ensures desk { IsSameDesk desk.old desk.new }
    ensures bag { (base : List NumberedHandle) → HasHands base [] desk.old → HasHands base [] desk.new }
    ensures held { desk.new.held ≡ desk.old.held }
    ensures own { (n : ℕ) × (result ≡ n % 2 ^ 32)
        × ((kept : List ℕ) × Prunes desk.old (Free cell) kept n None desk.new) }
{
    let (count, kept) = clear_front(rt, domain, desk, &SharedAt::free(cell), pile);
    match kept {
        None => count,
        Some(first) => count.wrapping_add(clear_below(rt, domain, desk, first, pile)),
    }
}
