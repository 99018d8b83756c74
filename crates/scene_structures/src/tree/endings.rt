//! Owners that leave, with all that ends by that.
ghost use Rattle.std.specs.Prelude.{◌≡◌, ◌+◌, List, []};
ghost use Rattle.control_word.specs.declared.model.handle.Kind.TheVariants.{Owner};
ghost use Rattle.control_block.specs.Desks.{IsSameDesk, bag_of};
ghost use Rattle.control_block.specs.Own.{Does, KeepsHeld};
ghost use Rattle.control_block.specs.CellCalls.{HoldsHandle, without_handle};
ghost use Rattle.shared_handle.specs.Piles.{AreRounds, Carries, IsParting, Past};
ghost use Rattle.scene_structures.specs.Others.{KeepsOthers};
ghost use Rattle.scene_structures.specs.Orders.{EndsInOrder};

use control_block::desk::Desk;
use control_block::domain::Domain;
use shared_handle::{Pile, Round, Shared, drop_shared};
use std::sync::Wait;

/// All of the pile ends, and what the desk holds meanwhile stays on its object. Mostly nothing lies there.
#[inline(always)]
fn settle<V: Drop, R: Wait>(rt: &R, domain: &Domain<V>, desk: &mut Desk<V>, pile: &mut Pile<V>)
    requires carries { Carries domain.now desk.old pile.old }
    ensures carries { Carries domain.now desk.new pile.new }
    ensures others { KeepsOthers desk.old pile.old.endings.items desk.new pile.new.endings.items }
    ensures rounds { (rs : List (Past V)) × AreRounds desk.old pile.old.endings.items rs desk.new
        pile.new.endings.items }
    ensures none { pile.new.endings.items ≡ [] }
    ensures bag { bag_of desk.new ≡ bag_of desk.old }
    ensures held { desk.new.held ≡ desk.old.held }
    ensures desk { IsSameDesk desk.old desk.new }
    ensures own { Does IsParting desk.old desk.new }
    ensures latest { KeepsHeld desk.old desk.new }
{
    if !pile.is_empty() {
        pile.settle(rt, domain, desk);
    }
}

/// An owner leaves. Where it was the last, its object ends, and all that ends by that.
#[inline]
pub(crate) fn let_go<V: Drop, R: Wait>(
    rt: &R,
    domain: &Domain<V>,
    desk: &mut Desk<V>,
    owner: Shared,
    pile: &mut Pile<V>,
)
    requires carries { Carries domain.now desk.old pile.old }
    requires holds { HoldsHandle desk.old Owner owner.block owner.place }
    ensures carries { Carries domain.now desk.new pile.new }
    ensures others { KeepsOthers desk.old pile.old.endings.items desk.new pile.new.endings.items }
    ensures order { EndsInOrder desk.old pile.old.endings.items desk.new pile.new.endings.items }
    ensures none { pile.new.endings.items ≡ [] }
    ensures bag { bag_of desk.new ≡ without_handle Owner owner.block owner.place (bag_of desk.old) }
    ensures held { desk.new.held + 1 ≡ desk.old.held }
    ensures desk { IsSameDesk desk.old desk.new }
    ensures own { Does IsParting desk.old desk.new }
    ensures latest { KeepsHeld desk.old desk.new }
{
    let _gone = drop_shared(domain, desk, pile, owner);
    settle(rt, domain, desk, pile);
}
