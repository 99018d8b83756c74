//! Calls on cells. Each is refused where the cell is a member of an object that its owner doesn't point into.
ghost use Rattle.std.specs.Prelude.{◌≡◌, ◌<◌, IfErr, IfOk, OnOk, length};
ghost use Rattle.step_threads.specs.Programs.{kind_at};
ghost use Rattle.script_runner.specs.Cells.{ExchangesSlot, IsInReach, IsKindAt, LoadsIntoSlot, NamesCell};
ghost use Rattle.script_runner.specs.Cells.{TellsSlotHeld, WhyNoCell};
ghost use Rattle.script_runner.specs.SlotCalls.{IsBelow};

use crate::table::cells::find;
use crate::table::cells::held::{exchange_held, holds_held, load_held};
use crate::table::slots::assignments::assign;
use crate::table::slots::contents::content_of;
use crate::table::slots::{handle_at, take_handle};
use crate::table::{Home, WorkerTable};
use control_word::Refusal;
use std::sync::Wait;
use step_core::CellName;

impl<'d, V: Drop, H: Home> WorkerTable<'d, V, H> {
    /// Whether a cell is there (own), or why no call reaches it. Nothing is touched.
    pub(crate) fn reaches(&self, cell: CellName) -> Result<(), Refusal>
        requires reach { IsInReach self.now.desk.shape self.now.slots cell }
        ensures there { OnOk result (NamesCell self.now cell) }
        ensures refused { IfErr result (WhyNoCell self.now.slots cell) }
    {
        match find(self.domain, &self.desk, &self.slots, cell) {
            Ok(_) => Ok(()),
            Err(why) => Err(why),
        }
    }

    /// A copy of what the cell holds is assigned to a slot ([util.smartptr.atomic.shared],
    /// [util.smartptr.atomic.weak]).
    pub(crate) fn load<R: Wait>(&mut self, rt: &R, cell: CellName, to: usize) -> Result<(), Refusal>
        requires reach { IsInReach self.old.desk.shape self.old.slots cell }
        requires to { to < length self.old.slots }
        requires below { IsBelow self.old.desk }
        ensures loaded { OnOk result (LoadsIntoSlot self.old cell to self.new) }
        ensures refused { IfErr result (λ why. WhyNoCell self.old.slots cell why × (self.new ≡ self.old)) }
    {
        match find(self.domain, &self.desk, &self.slots, cell) {
            Ok(at) => {
                let found = load_held(rt, self.domain, &mut self.desk, at);
                assign(
                    self.domain,
                    &mut self.desk,
                    &mut self.slots,
                    &mut self.pile,
                    to,
                    found,
                );
                Ok(())
            }
            Err(why) => Err(why),
        }
    }

    /// Whether the cell holds a pointer equivalent to that in the slot (the same place, and the same object or none):
    /// `load() == p`, told by one look ([util.smartptr.atomic.shared], [util.smartptr.atomic.weak]). It waits for
    /// nobody, and takes no room in the allowance.
    pub(crate) fn holds(&mut self, cell: CellName, at: usize) -> Result<bool, Refusal>
        requires reach { IsInReach self.old.desk.shape self.old.slots cell }
        requires at { IsKindAt (kind_at cell) self.old.slots at }
        ensures told { IfOk result (λ same. TellsSlotHeld self.old cell at same self.new) }
        ensures refused { IfErr result (λ why. WhyNoCell self.old.slots cell why × (self.new ≡ self.old)) }
    {
        match find(self.domain, &self.desk, &self.slots, cell) {
            Ok(site) => {
                let expected = content_of(handle_at(&self.slots, at));
                Ok(holds_held(self.domain, &mut self.desk, site, expected))
            }
            Err(why) => Err(why),
        }
    }

    /// A handle goes out of its slot into the cell, and what the cell held comes into the slot, in one step on the cell
    /// ([util.smartptr.atomic.shared], [util.smartptr.atomic.weak]). It waits for nobody.
    pub(crate) fn exchange(&mut self, at: usize, cell: CellName) -> Result<(), Refusal>
        requires reach { IsInReach self.old.desk.shape self.old.slots cell }
        requires at { IsKindAt (kind_at cell) self.old.slots at }
        ensures exchanged { OnOk result (ExchangesSlot self.old at cell self.new) }
        ensures refused { IfErr result (λ why. WhyNoCell self.old.slots cell why × (self.new ≡ self.old)) }
    {
        match find(self.domain, &self.desk, &self.slots, cell) {
            Ok(site) => {
                let new = take_handle(&mut self.slots, at);
                let old = exchange_held(self.domain, &mut self.desk, site, new);
                assign(
                    self.domain,
                    &mut self.desk,
                    &mut self.slots,
                    &mut self.pile,
                    at,
                    old,
                );
                Ok(())
            }
            Err(why) => Err(why),
        }
    }
}
