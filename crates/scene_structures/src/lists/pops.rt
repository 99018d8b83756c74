//! Tries to take the top node.
ghost use Rattle.std.specs.Prelude.{◌≡◌, ◌<◌, ◌+◌, List, [], ◌∷◌, MatchOption};
ghost use Rattle.control_word.specs.declared.model.event.Cell.TheVariants.{Free};
ghost use Rattle.control_word.specs.declared.model.handle.NumberedHandle.{NumberedHandle};
ghost use Rattle.control_block.specs.Desks.{DeskNow, IsSameDesk, allowance_of};
ghost use Rattle.scene_structures.specs.Hands.{HasHands};
ghost use Rattle.shared_handle.specs.Piles.{Carries};
ghost use Rattle.scene_structures.specs.Pops.{HandsAfter, HeldAfter, TakesNode, Tries};
ghost use Rattle.scene_structures.specs.Stacks.{FindsNone, Looks};
ghost use Rattle.scene_structures.specs.Others.{KeepsOthers};
ghost use Rattle.scene_structures.specs.Orders.{EndsInOrder};

use crate::tree::endings::let_go;
use atomic_cells::{Compared, SharedAt, SharedMember};
use control_block::desk::Desk;
use control_block::domain::Domain;
use control_block::pause::Pause;
use shared_handle::{Pile, Shared};
use std::sync::Wait;

/// What came of a try.
pub(crate) enum Tried {
    /// The node went out of the cell.
    Took(Shared),
    /// What was seen there is no node.
    Found,
    /// The cell holds something else by now.
    Again(Shared),
}

/// One try to take what was seen at the top.
fn try_pop<V: Drop, R: Wait>(
    rt: &R,
    domain: &Domain<V>,
    desk: &mut Desk<V>,
    cell: u32,
    pile: &mut Pile<V>,
    top: Shared,
) -> Tried
    requires carries { Carries domain.now desk.old pile.old }
    requires cell { cell < desk.old.shape.shared_cells }
    requires bag { (base : List NumberedHandle) × HasHands base (top ∷ []) desk.old }
    requires room { desk.old.held + 2 < allowance_of desk.old }
    requires empty { pile.old.endings.items ≡ [] }
    ensures carries { Carries domain.now desk.new pile.new }
    ensures others { KeepsOthers desk.old pile.old.endings.items desk.new pile.new.endings.items }
    ensures order { EndsInOrder desk.old pile.old.endings.items desk.new pile.new.endings.items }
    ensures none { pile.new.endings.items ≡ [] }
    ensures desk { IsSameDesk desk.old desk.new }
    ensures bag { (base : List NumberedHandle) → HasHands base (top ∷ []) desk.old → HandsAfter base result desk.new }
    ensures held { HeldAfter desk.old result desk.new }
    ensures own { (d : DeskNow V) → Looks d (Free cell) top desk.old → Tries d (Free cell) result desk.new }
{
    let Ok(next) = SharedAt::member(&top, SharedMember::Next) else {
        let_go(rt, domain, desk, top, pile);
        return Tried::Found;
    };
    let Ok(below) = next.load(rt, domain, desk) else {
        unreachable!()
    };
    let at = SharedAt::free(cell);
    match at.compare_exchange_weak(rt, domain, desk, &top, below) {
        Ok(Compared::Swapped(old)) => {
            let_go(rt, domain, desk, old, pile);
            Tried::Took(top)
        }
        Ok(Compared::Differs { held, desired }) => {
            let_go(rt, domain, desk, desired, pile);
            let_go(rt, domain, desk, top, pile);
            Tried::Again(held)
        }
        Err(_) => unreachable!(),
    }
}

/// The top node, whatever others put there meanwhile, or none where none was found.
pub(crate) fn take<V: Drop, R: Wait>(
    rt: &R,
    domain: &Domain<V>,
    desk: &mut Desk<V>,
    cell: u32,
    pile: &mut Pile<V>,
    first: Shared,
) -> Option<Shared>
    requires carries { Carries domain.now desk.old pile.old }
    requires cell { cell < desk.old.shape.shared_cells }
    requires bag { (base : List NumberedHandle) × HasHands base (first ∷ []) desk.old }
    requires room { desk.old.held + 2 < allowance_of desk.old }
    requires empty { pile.old.endings.items ≡ [] }
    ensures carries { Carries domain.now desk.new pile.new }
    ensures others { KeepsOthers desk.old pile.old.endings.items desk.new pile.new.endings.items }
    ensures order { EndsInOrder desk.old pile.old.endings.items desk.new pile.new.endings.items }
    ensures none { pile.new.endings.items ≡ [] }
    ensures desk { IsSameDesk desk.old desk.new }
    ensures bag { (base : List NumberedHandle) → HasHands base (first ∷ []) desk.old
        → MatchOption result (HasHands base [] desk.new) (λ h. HasHands base (h ∷ []) desk.new) }
    ensures held { MatchOption result (desk.new.held + 1 ≡ desk.old.held) (λ h. desk.new.held ≡ desk.old.held) }
    ensures own { (d : DeskNow V) → Looks d (Free cell) first desk.old
        → MatchOption result (FindsNone d (Free cell) desk.new) (λ h. TakesNode d (Free cell) h desk.new) }
{
    let mut top = first;
    let mut pause = Pause::new();
    for _ in rt.forever() {
        match try_pop(rt, domain, desk, cell, pile, top) {
            Tried::Took(node) => return Some(node),
            Tried::Found => return None,
            Tried::Again(next) => top = next,
        }
        pause.wait();
    }
    unreachable!()
}
