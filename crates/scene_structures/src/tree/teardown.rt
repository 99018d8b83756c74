//! A tree ends.
ghost use Rattle.std.specs.Prelude.{◌≡◌, ◌+◌, IfErr, IfOk, OnOk};
ghost use Rattle.control_word.specs.declared.model.handle.Kind.TheVariants.{Owner};
ghost use Rattle.control_block.specs.Desks.{IsSameDesk, bag_of};
ghost use Rattle.control_block.specs.Own.{IsSole};
ghost use Rattle.control_block.specs.CellCalls.{HoldsHandle, without_handle};
ghost use Rattle.shared_handle.specs.Piles.{Carries};
ghost use Rattle.scene_structures.specs.Teardowns.{TearsDown};
ghost use Rattle.scene_structures.specs.Trees.{IsTornDown};
ghost use Rattle.scene_structures.specs.Others.{KeepsOthers};

use crate::scene::Scene;
use crate::tree::ended::Ended;
use crate::tree::rounds::run_down;
use control_block::desk::Desk;
use control_block::domain::Domain;
use control_word::{Refusal, Refused};
use shared_handle::{Gone, Pile, Shared, drop_shared};
use std::alloc::Global;

/// The root leaves, and what ends by that does so (own): for an object first what its `first` alone owned, then its
/// `next`, then its further members in their order. The answer has the value of each object that ended, in the order in
/// which they did. It waits for nobody: where other desks lengthen meanwhile what ends, it makes one round a block for
/// each member of an object and one for its end, or stops when more objects have ended than there are blocks; then the
/// rest stays on the pile, above what lay there. For a desk that has the whole allowance nothing of it stays there, and
/// where nobody else owns an object of the root's tree, and further members own nothing, these are the values of all of
/// them. All memory is reserved before the root leaves. It is refused `Memory` where a growth was really refused: then
/// the root comes back, and nothing changes. What ends in the desk's hands elsewhere than on the pile stays as it is.
/// Condition: what was left on the pile ends with this desk.
pub fn tear_down<V: Drop>(
    alloc: Global,
    domain: &Domain<V>,
    desk: &mut Desk<V>,
    pile: &mut Pile<V>,
    root: Shared,
) -> Result<Vec<V>, Refused<Shared>>
    requires carries { Carries domain.now desk.old pile.old }
    requires holds { HoldsHandle desk.old Owner root.block root.place }
    ensures refused { IfErr result (λ r. (r.why ≡ Refusal.Memory) × (r.back ≡ root) × (desk.new ≡ desk.old)
        × (pile.new ≡ pile.old)) }
    ensures carries { Carries domain.now desk.new pile.new }
    ensures others { KeepsOthers desk.old pile.old.endings.items desk.new pile.new.endings.items }
    ensures desk { IsSameDesk desk.old desk.new }
    ensures bag { OnOk result (bag_of desk.new ≡ without_handle Owner root.block root.place (bag_of desk.old)) }
    ensures held { OnOk result (desk.new.held + 1 ≡ desk.old.held) }
    ensures ends { IfOk result (λ values. TearsDown domain.now.shape desk.old pile.old.endings.items root
        values.items desk.new pile.new.endings.items) }
    ensures whole { IfOk result (λ values. IsSole desk.old → IsTornDown desk.old root values.items) }
    ensures settled { OnOk result (IsSole desk.old → pile.new.endings.items ≡ pile.old.endings.items) }
{
    let Ok(mut ended) = Ended::new(alloc, domain.blocks() as usize + 1) else {
        return Err(Refused {
            why: Refusal::Memory,
            back: root,
        });
    };
    desk.assert_invariant();
    match drop_shared(domain, desk, pile, root) {
        Gone::Last => ended.begin(),
        Gone::Empty => {}
        Gone::Others => {}
    }
    run_down(domain, desk, pile, &mut ended);
    Ok(ended.into_values())
}

impl<V: Drop> Scene<V> {
    /// `tear_down` with the scene's own pile (own): the values of the objects that ended, and what others lengthened
    /// meanwhile stays on that pile. It is refused `Memory` where a growth was really refused: then the root comes
    /// back, and nothing changes. Condition: what was left on the pile ends with this desk.
    pub fn teardown(
        &mut self,
        alloc: Global,
        domain: &Domain<V>,
        desk: &mut Desk<V>,
        root: Shared,
    ) -> Result<Vec<V>, Refused<Shared>>
        requires carries { Carries domain.now desk.old self.old }
        requires holds { HoldsHandle desk.old Owner root.block root.place }
        ensures refused { IfErr result (λ r. (r.why ≡ Refusal.Memory) × (r.back ≡ root) × (desk.new ≡ desk.old)
            × (self.new ≡ self.old)) }
        ensures carries { Carries domain.now desk.new self.new }
        ensures others { KeepsOthers desk.old self.old.endings.items desk.new self.new.endings.items }
        ensures desk { IsSameDesk desk.old desk.new }
        ensures bag { OnOk result (bag_of desk.new ≡ without_handle Owner root.block root.place (bag_of desk.old)) }
        ensures held { OnOk result (desk.new.held + 1 ≡ desk.old.held) }
        ensures ends { IfOk result (λ values. TearsDown domain.now.shape desk.old self.old.endings.items root
            values.items desk.new self.new.endings.items) }
        ensures whole { IfOk result (λ values. IsSole desk.old → IsTornDown desk.old root values.items) }
        ensures settled { OnOk result (IsSole desk.old → self.new.endings.items ≡ self.old.endings.items) }
    {
        tear_down(alloc, domain, desk, &mut self.pile, root)
    }
}
