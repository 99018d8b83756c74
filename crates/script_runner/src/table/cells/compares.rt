//! Compare-and-swap of cells.
ghost use Rattle.std.specs.Prelude.{◌≡◌, ◌<◌, ◌∷◌, true, false, length, slice_set, IfErr, IfOk, None};
ghost use Rattle.std.specs.Prelude.{Some};
ghost use Rattle.shared_handle.specs.Piles.{Bears};
ghost use Rattle.step_threads.specs.Programs.{kind_at};
ghost use Rattle.script_runner.specs.Cells.{IsInReach, IsKindAt, WhyNoCell};
ghost use Rattle.script_runner.specs.Compares.{ComparesSlots, FollowsCompare};
ghost use Rattle.script_runner.specs.SlotCalls.{IsBelow, IsHandleAt};
ghost use Rattle.script_runner.specs.Tables.{FitsSlots, on_pile};

use crate::table::cells::find;
use crate::table::cells::held::{Form, Spurious, Strong, compare_held};
use crate::table::slots::assignments::{assign, let_go};
use crate::table::slots::contents::{content_of, into_content};
use crate::table::slots::{handle_at, take_handle};
use crate::table::{Home, WorkerTable};
use control_block::desk::Desk;
use control_block::domain::Domain;
use control_word::Refusal;
use shared_handle::{Held, Pile};
use std::sync::Wait;
use step_core::CellName;

/// What a compare does to the slots.
fn follow<V: Drop>(
    domain: &Domain<V>,
    desk: &mut Desk<V>,
    slots: &mut Vec<Option<Held>>,
    pile: &mut Pile<V>,
    expected: usize,
    desired: usize,
    swapped: bool,
    found: Held,
)
    requires bears { Bears domain.now desk.old pile.old }
    requires there { (expected < length slots.old.items) × IsHandleAt slots.old.items desired }
    requires swapped { swapped ≡ true → FitsSlots desk.old (Some found ∷ slice_set slots.old.items desired None) }
    requires differs { swapped ≡ false → FitsSlots desk.old (Some found ∷ slots.old.items) }
    ensures bears { Bears domain.now desk.new pile.new }
    ensures fits { FitsSlots desk.new slots.new.items }
    ensures follows { FollowsCompare swapped desk.old slots.old.items
        (on_pile pile.old) found expected desired desk.new slots.new.items (on_pile pile.new) }
{
    if swapped {
        into_content(take_handle(slots, desired));
        let_go(domain, desk, pile, found);
        return;
    }
    assign(domain, desk, slots, pile, expected, found);
}

impl<'d, V: Drop, H: Home> WorkerTable<'d, V, H> {
    /// A compare of either form.
    fn compare_as<F: Form, R: Wait>(
        &mut self,
        rt: &R,
        cell: CellName,
        expected: usize,
        desired: usize,
    ) -> Result<bool, Refusal>
        requires reach { IsInReach self.old.desk.shape self.old.slots cell }
        requires slots { IsKindAt (kind_at cell) self.old.slots expected
            × IsKindAt (kind_at cell) self.old.slots desired }
        requires below { IsBelow self.old.desk }
        ensures compared { IfOk result
            (λ swapped. ComparesSlots F.weak self.old cell expected desired swapped self.new) }
        ensures refused { IfErr result (λ why. WhyNoCell self.old.slots cell why × (self.new ≡ self.old)) }
    {
        match find(self.domain, &self.desk, &self.slots, cell) {
            Ok(at) => {
                let there = content_of(handle_at(&self.slots, expected));
                let new = content_of(handle_at(&self.slots, desired));
                let (swapped, found) = compare_held::<V, F, R>(
                    rt,
                    self.domain,
                    &mut self.desk,
                    at,
                    there,
                    new,
                );
                follow(
                    self.domain,
                    &mut self.desk,
                    &mut self.slots,
                    &mut self.pile,
                    expected,
                    desired,
                    swapped,
                    found,
                );
                Ok(swapped)
            }
            Err(why) => Err(why),
        }
    }

    /// Where the cell holds a pointer equivalent to that in the slot `expected` (the same place, and the same object or
    /// none), the one in the slot `desired` goes in, and what the cell held leaves: true, and the slot is vacant then.
    /// Else a copy of what the cell holds is assigned to the slot `expected`, as in C++ ([util.smartptr.atomic.shared],
    /// [util.smartptr.atomic.weak]): false, and what was desired stays where it is. A weak compare may differ on an
    /// equivalent pointer.
    pub(crate) fn compare<R: Wait>(
        &mut self,
        rt: &R,
        cell: CellName,
        expected: usize,
        desired: usize,
        weak: bool,
    ) -> Result<bool, Refusal>
        requires reach { IsInReach self.old.desk.shape self.old.slots cell }
        requires slots { IsKindAt (kind_at cell) self.old.slots expected
            × IsKindAt (kind_at cell) self.old.slots desired }
        requires below { IsBelow self.old.desk }
        ensures compared { IfOk result
            (λ swapped. ComparesSlots weak self.old cell expected desired swapped self.new) }
        ensures refused { IfErr result (λ why. WhyNoCell self.old.slots cell why × (self.new ≡ self.old)) }
    {
        if weak {
            return self.compare_as::<Spurious, R>(rt, cell, expected, desired);
        }
        self.compare_as::<Strong, R>(rt, cell, expected, desired)
    }
}
