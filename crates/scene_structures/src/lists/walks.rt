//! A walk over the nodes of a cell, each of which may have a subject.
ghost use Rattle.std.specs.Prelude.{◌≡◌, ◌+◌, ◌<◌, ℕ, List, [], ◌∷◌, ◌++◌, true, Some};
ghost use Rattle.control_word.specs.declared.model.event.Event.{Event};
ghost use Rattle.control_word.specs.declared.model.event.Event.TheVariants.{Load};
ghost use Rattle.control_word.specs.declared.model.handle.NumberedHandle.{NumberedHandle};
ghost use Rattle.control_word.specs.declared.model.handle.Kind.TheVariants.{Owner};
ghost use Rattle.control_block.specs.Desks.{IsSameDesk, allowance_of, bag_of};
ghost use Rattle.control_block.specs.CellCalls.{HoldsHandle};
ghost use Rattle.shared_handle.specs.Piles.{Carries, FoldsBack};
ghost use Rattle.atomic_cells.specs.Sites.{IsOpenWeakly, weak_cell};
ghost use Rattle.control_block.specs.Own.{KeepsHeld};
ghost use Rattle.scene_structures.specs.Hands.{HasHands, node_in};
ghost use Rattle.scene_structures.specs.Walks.{HandsVisited, HasLooked, HeldVisited, IsAsked, IsNodeVisit, TellsField};
ghost use Rattle.scene_structures.specs.Walks.{WalksFrom};
ghost use Rattle.scene_structures.specs.Others.{KeepsOthers};
ghost use Rattle.scene_structures.specs.Orders.{EndsInOrder};

use crate::tree::endings::let_go;
use atomic_cells::{SharedAt, SharedMember, WeakAt};
use control_block::calls;
use control_block::desk::Desk;
use control_block::domain::Domain;
use control_word::Place;
use shared_handle::{Pile, Shared, alias, lock, read, release_weak};
use std::sync::Wait;

/// Whether the handle points there.
fn is_at(owner: &Shared, place: Place) -> bool
    ensures { result ≡ true → owner.now.place ≡ Some place }
{
    owner.place() == Some(place)
}

/// Field 0 of the object that the handle owns, or none where it is empty. An owner that points elsewhere lends another
/// for it.
fn first_field<V: Drop, R: Wait>(
    rt: &R,
    domain: &Domain<V>,
    desk: &mut Desk<V>,
    owner: &Shared,
    pile: &mut Pile<V>,
) -> Option<u64>
    requires carries { Carries domain.now desk.old pile.old }
    requires empty { pile.old.endings.items ≡ [] }
    requires holds { HoldsHandle desk.old Owner owner.now.block owner.now.place }
    requires room { desk.old.held + 1 < allowance_of desk.old }
    ensures carries { Carries domain.now desk.new pile.new }
    ensures others { KeepsOthers desk.old pile.old.endings.items desk.new pile.new.endings.items }
    ensures order { EndsInOrder desk.old pile.old.endings.items desk.new pile.new.endings.items }
    ensures none { pile.new.endings.items ≡ [] }
    ensures bag { bag_of desk.new ≡ bag_of desk.old }
    ensures held { desk.new.held ≡ desk.old.held }
    ensures desk { IsSameDesk desk.old desk.new }
    ensures latest { KeepsHeld desk.old desk.new }
    ensures own { TellsField desk.old owner.now.block result desk.new }
{
    let Some(block) = owner.block() else {
        return None;
    };
    let start = Place { block, field: 0 };
    if is_at(owner, start) {
        return Some(calls::read(domain, desk, start));
    }
    let Ok(first) = alias(domain, desk, owner, Some(start)) else {
        unreachable!()
    };
    let Ok(told) = read(domain, desk, &first) else {
        unreachable!()
    };
    let_go(rt, domain, desk, first, pile);
    Some(told)
}

/// Field 0 of the subject that the cell holds a weak handle of, or none where that has no owner.
fn ask<V: Drop, R: Wait>(
    rt: &R,
    domain: &Domain<V>,
    desk: &mut Desk<V>,
    up: &WeakAt,
    pile: &mut Pile<V>,
) -> Option<u64>
    requires carries { Carries domain.now desk.old pile.old }
    requires empty { pile.old.endings.items ≡ [] }
    requires cell { IsOpenWeakly desk.old up.now.site }
    requires room { desk.old.held + 3 < allowance_of desk.old }
    ensures carries { Carries domain.now desk.new pile.new }
    ensures others { KeepsOthers desk.old pile.old.endings.items desk.new pile.new.endings.items }
    ensures order { EndsInOrder desk.old pile.old.endings.items desk.new pile.new.endings.items }
    ensures none { pile.new.endings.items ≡ [] }
    ensures bag { bag_of desk.new ≡ bag_of desk.old }
    ensures held { desk.new.held ≡ desk.old.held }
    ensures desk { IsSameDesk desk.old desk.new }
    ensures latest { KeepsHeld desk.old desk.new }
    ensures own { (h : NumberedHandle) × (asked : List (Event V)) × IsAsked h result asked
        × HasLooked desk.old (asked ++ Load (weak_cell desk.old up.now.site) h ∷ []) desk.new }
{
    let Ok(weak) = up.load(rt, domain, desk) else {
        unreachable!()
    };
    let Ok(owner) = lock(rt, domain, desk, &weak) else {
        unreachable!()
    };
    let told = first_field(rt, domain, desk, &owner, pile);
    let_go(rt, domain, desk, owner, pile);
    release_weak(domain, desk, weak);
    told
}

/// What came of a visit.
pub(crate) enum Visited {
    /// It was no node.
    End,
    /// Its subject has no owner; what comes next.
    Passed(Shared),
    /// Field 0 of its subject, and what comes next.
    Told(u64, Shared),
}

/// One visit: the node is let go, and what its `next` holds comes in its place.
fn visit<V: Drop, R: Wait>(
    rt: &R,
    domain: &Domain<V>,
    desk: &mut Desk<V>,
    node: Shared,
    pile: &mut Pile<V>,
) -> Visited
    requires carries { Carries domain.now desk.old pile.old }
    requires empty { pile.old.endings.items ≡ [] }
    requires holds { HoldsHandle desk.old Owner node.block node.place }
    requires bag { (base : List NumberedHandle) × HasHands base (node ∷ []) desk.old }
    requires room { desk.old.held + 3 < allowance_of desk.old }
    ensures carries { Carries domain.now desk.new pile.new }
    ensures others { KeepsOthers desk.old pile.old.endings.items desk.new pile.new.endings.items }
    ensures order { EndsInOrder desk.old pile.old.endings.items desk.new pile.new.endings.items }
    ensures none { pile.new.endings.items ≡ [] }
    ensures desk { IsSameDesk desk.old desk.new }
    ensures bag { (base : List NumberedHandle) → HasHands base (node ∷ []) desk.old
        → HandsVisited base result desk.new }
    ensures held { HeldVisited desk.old result desk.new }
    ensures own { IsNodeVisit desk.old (node_in desk.old node) result desk.new }
{
    desk.assert_invariant();
    let Ok(up) = WeakAt::member(&node) else {
        let_go(rt, domain, desk, node, pile);
        return Visited::End;
    };
    let told = ask(rt, domain, desk, &up, pile);
    let Ok(at) = SharedAt::member(&node, SharedMember::Next) else {
        unreachable!()
    };
    let Ok(next) = at.load(rt, domain, desk) else {
        unreachable!()
    };
    let_go(rt, domain, desk, node, pile);
    match told {
        None => Visited::Passed(next),
        Some(field) => Visited::Told(field, next),
    }
}

/// Visits from a handle on, each through the `next` before it, until there is no node; `tell` gets what they told.
pub(crate) fn walk<V: Drop, R: Wait, F: FnMut(u64)>(
    rt: &R,
    domain: &Domain<V>,
    desk: &mut Desk<V>,
    first: Shared,
    pile: &mut Pile<V>,
    mut tell: F,
)
    requires carries { Carries domain.now desk.old pile.old }
    requires empty { pile.old.endings.items ≡ [] }
    requires bag { (base : List NumberedHandle) × HasHands base (first ∷ []) desk.old }
    requires room { desk.old.held + 3 < allowance_of desk.old }
    requires callable { F.IsAlwaysCallable tell }
    ensures carries { Carries domain.now desk.new pile.new }
    ensures others { KeepsOthers desk.old pile.old.endings.items desk.new pile.new.endings.items }
    ensures order { EndsInOrder desk.old pile.old.endings.items desk.new pile.new.endings.items }
    ensures none { pile.new.endings.items ≡ [] }
    ensures desk { IsSameDesk desk.old desk.new }
    ensures bag { (base : List NumberedHandle) → HasHands base (first ∷ []) desk.old → HasHands base [] desk.new }
    ensures held { desk.new.held + 1 ≡ desk.old.held }
    ensures own { (told : List ℕ) × WalksFrom desk.old (node_in desk.old first) told desk.new
        × ((last : F) × FoldsBack (λ p x q. F.step p x tt q) tell told last) }
{
    let mut node = first;
    for _ in rt.forever() {
        match visit(rt, domain, desk, node, pile) {
            Visited::End => return,
            Visited::Passed(next) => node = next,
            Visited::Told(field, next) => {
                tell(field);
                node = next;
            }
        }
    }
    unreachable!()
}
