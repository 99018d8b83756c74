//! Owners that leave for good, in one call.
ghost use Rattle.std.specs.Prelude.{◌≡◌, ◌+◌, IfSome, MatchOption, None};
ghost use Rattle.control_word.specs.declared.model.handle.Kind.TheVariants.{Owner};
ghost use Rattle.control_block.specs.Desks.{IsSameDesk, KeepsStock, bag_of};
ghost use Rattle.control_block.specs.Own.{Does, KeepsHeld};
ghost use Rattle.control_block.specs.CellCalls.{HoldsHandle, without_handle};
ghost use Rattle.shared_handle.specs.Endings.{IsLeft};
ghost use Rattle.shared_handle.specs.Piles.{Carries, Drops, DropsToEnd, IsParting, KeepsElsewhere};
ghost use Rattle.shared_handle.specs.declared.endings.Left.{Left};

use crate::endings::Left;
use crate::pile::{Gone, Pile};
use crate::shares::release;
use control_block::desk::Desk;
use control_block::domain::Domain;
use control_block::handles::Shared;

/// The destructor of a shared pointer ([util.smartptr.shared.dest]): the owner leaves, and where it was the last, its
/// object goes onto the pile, to be ended by it. It refuses nothing, and waits for nobody.
pub fn drop_shared<V: Drop>(
    domain: &Domain<V>,
    desk: &mut Desk<V>,
    pile: &mut Pile<V>,
    handle: Shared,
) -> Gone
    requires carries { Carries domain.now desk.old pile.old }
    requires holds { HoldsHandle desk.old Owner handle.block handle.place }
    ensures carries { Carries domain.now desk.new pile.new }
    ensures elsewhere { KeepsElsewhere desk.old pile.old.endings.items desk.new pile.new.endings.items }
    ensures left { Drops desk.old pile.old.endings.items handle.block handle.place result desk.new
        pile.new.endings.items }
    ensures parting { Does IsParting desk.old desk.new }
    ensures bag { bag_of desk.new ≡ without_handle Owner handle.block handle.place (bag_of desk.old) }
    ensures held { desk.new.held + 1 ≡ desk.old.held }
    ensures keeps { KeepsStock desk.old desk.new }
{
    let left = release(domain, desk, handle);
    desk.assert_invariant();
    pile.put(left)
}

/// The same, and where it was the last and its object's members hold nothing, the object ends at once: its value comes
/// out. Else it goes onto the pile.
#[inline(always)]
pub fn drop_to_end<V: Drop>(
    domain: &Domain<V>,
    desk: &mut Desk<V>,
    pile: &mut Pile<V>,
    handle: Shared,
) -> (Gone, Option<V>)
    requires carries { Carries domain.now desk.old pile.old }
    requires holds { HoldsHandle desk.old Owner handle.block handle.place }
    ensures carries { Carries domain.now desk.new pile.new }
    ensures elsewhere { KeepsElsewhere desk.old pile.old.endings.items desk.new pile.new.endings.items }
    ensures ends { DropsToEnd desk.old pile.old.endings.items handle.block handle.place result.0 result.1 desk.new
        pile.new.endings.items }
    ensures parting { Does IsParting desk.old desk.new }
    ensures bag { bag_of desk.new ≡ without_handle Owner handle.block handle.place (bag_of desk.old) }
    ensures held { desk.new.held + 1 ≡ desk.old.held }
    ensures latest { KeepsHeld desk.old desk.new }
    ensures desk { IsSameDesk desk.old desk.new }
{
    match release(domain, desk, handle) {
        Left::Empty => (Gone::Empty, None),
        Left::Others => (Gone::Others, None),
        Left::Last(ending) => (Gone::Last, pile.end_at_once(domain, desk, ending)),
    }
}

/// `reset` of a shared pointer that may have left already ([util.smartptr.shared.mod]): what it answers and does is
/// that of `drop_shared`, and `Empty` and nothing where there is none.
pub fn reset<V: Drop>(
    domain: &Domain<V>,
    desk: &mut Desk<V>,
    pile: &mut Pile<V>,
    handle: &mut Option<Shared>,
) -> Gone
    requires carries { Carries domain.now desk.old pile.old }
    requires holds { IfSome handle.old (λ h. HoldsHandle desk.old Owner h.block h.place) }
    ensures carries { Carries domain.now desk.new pile.new }
    ensures elsewhere { KeepsElsewhere desk.old pile.old.endings.items desk.new pile.new.endings.items }
    ensures spent { handle.new ≡ None }
    ensures left { MatchOption handle.old
        ((result ≡ Gone.Empty) × (desk.new ≡ desk.old) × (pile.new ≡ pile.old))
        (λ h. Drops desk.old pile.old.endings.items h.block h.place result desk.new pile.new.endings.items) }
    ensures parting { Does IsParting desk.old desk.new }
    ensures bag { MatchOption handle.old (bag_of desk.new ≡ bag_of desk.old)
        (λ h. bag_of desk.new ≡ without_handle Owner h.block h.place (bag_of desk.old)) }
    ensures held { MatchOption handle.old (desk.new.held ≡ desk.old.held)
        (λ _. desk.new.held + 1 ≡ desk.old.held) }
    ensures keeps { IfSome handle.old (λ _. KeepsStock desk.old desk.new) }
{
    match handle.take() {
        None => Gone::Empty,
        Some(owner) => drop_shared(domain, desk, pile, owner),
    }
}
