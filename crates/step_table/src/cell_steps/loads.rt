//! How what cells hold comes into the slots of an actor. Each function is one atomic step.
ghost use Rattle.std.specs.Prelude.{◌≡◌, ◌≢◌, ◌<◌, ◌≤◌, ◌==◌, cond, is_some, true, false, length};
ghost use Rattle.std.specs.Prelude.{slice_set, Some, None};
ghost use Rattle.control_word.specs.declared.model.view.Pending.TheVariants.{Idle};
ghost use Rattle.control_word.specs.Limits.{cell_funds};
ghost use Rattle.control_word.specs.Packing.{IsCellWord, cell_bits};
ghost use Rattle.control_word.specs.State.{ending};
ghost use Rattle.step_table.specs.Cells.{IsOpenTo, word_of_cell};
ghost use Rattle.step_table.specs.Contents.{held_in, seen, slot_of};
ghost use Rattle.step_table.specs.Registers.{HoldsBag, slot_pointer};
ghost use Rattle.step_table.specs.GhostStates.{ghost_after_step, object_of_block, pending, model_state};

use crate::cell_steps::cell_step::CellStep;
use crate::memory::contents::slot_in;
use crate::memory::ghost_history::AtomicStep;
use crate::memory::table::Table;
use crate::slots::registers::Registers;
use control_word::place::Block;
use control_word::{CellWord, Site};

impl Registers {
    /// Takes a fund of a cell, as `Table::take_fund` says: the value comes into a slot that has no object.
    pub fn take_fund(
        &mut self,
        desk: usize,
        table: &mut Table,
        cell: Site,
        seen: CellWord,
        to: usize,
    ) -> bool
        requires seat { desk < table.old.extent.actors }
        requires idle { pending table.old desk ≡ Idle }
        requires holds { HoldsBag desk self.old.slots.items table.old }
        requires open { IsOpenTo table.old desk cell }
        requires seen { IsCellWord seen × (seen.owned ≢ None) × (seen.taken < 256) }
        requires inside { to < length self.old.slots.items }
        requires empty { slot_pointer self.old.slots.items to ≡ None }
        ensures same { result ≡ (word_of_cell table.old cell == cell_bits seen) }
        ensures slots { self.new.slots.items
            ≡ cond result (slice_set self.old.slots.items to
            (slot_of (model_state table.old) (held_in (model_state table.old) cell))) self.old.slots.items }
        ensures table { table.new ≡ cond result
            (ghost_after_step table.old desk (AtomicStep.OnCell (CellStep.Take cell seen None))) table.old }
        ensures stays { result ≡ false → self.new ≡ self.old }
        ensures holds { HoldsBag desk self.new.slots.items table.new }
    {
        table.assert_invariant();
        let kind = table.kind_in(cell);
        if !table.take_fund(desk, cell, seen) {
            return false;
        }
        self.slots[to] = slot_in(kind, seen);
        true
    }

    /// The look of a load, as `Table::look_cell` says: where the cell has no object, its value comes into a slot that
    /// has none.
    pub fn look_to_load(
        &mut self,
        desk: usize,
        table: &mut Table,
        cell: Site,
        to: usize,
    ) -> CellWord
        requires seat { desk < table.old.extent.actors }
        requires idle { pending table.old desk ≡ Idle }
        requires holds { HoldsBag desk self.old.slots.items table.old }
        requires open { IsOpenTo table.old desk cell }
        requires inside { to < length self.old.slots.items }
        requires empty { slot_pointer self.old.slots.items to ≡ None }
        ensures valid { IsCellWord result }
        ensures few { result.taken ≤ cell_funds }
        ensures found { result ≡ seen table.old cell }
        ensures slots { self.new.slots.items
            ≡ cond (is_some result.owned) self.old.slots.items
            (slice_set self.old.slots.items to
            (slot_of (model_state table.old) (held_in (model_state table.old) cell))) }
        ensures table { table.new ≡ cond (is_some result.owned) table.old
            (ghost_after_step table.old desk (AtomicStep.OnCell (CellStep.Look cell result None))) }
        ensures stays { is_some result.owned ≡ true → self.new ≡ self.old }
        ensures holds { HoldsBag desk self.new.slots.items table.new }
    {
        table.assert_invariant();
        let kind = table.kind_in(cell);
        let found = table.look_cell(desk, cell);
        if found.owned.is_some() {
            return found;
        }
        self.slots[to] = slot_in(kind, found);
        found
    }

    /// Takes out what a member of an ending object holds, as `Table::take_out` says: where that has an object, it comes
    /// into a slot that has none.
    pub fn take_out(
        &mut self,
        desk: usize,
        table: &mut Table,
        block: Block,
        member: u8,
        to: usize,
    ) -> CellWord
        requires seat { desk < table.old.extent.actors }
        requires idle { pending table.old desk ≡ Idle }
        requires holds { HoldsBag desk self.old.slots.items table.old }
        requires ending { ((model_state table.old).object (object_of_block table.old block)).phase ≡ ending desk }
        requires member { member < 3 }
        requires inside { to < length self.old.slots.items }
        requires empty { slot_pointer self.old.slots.items to ≡ None }
        ensures valid { IsCellWord result }
        ensures found { result ≡ seen table.old (Site.Member block member) }
        ensures slots { self.new.slots.items
            ≡ cond (is_some result.owned)
            (slice_set self.old.slots.items to
            (slot_of (model_state table.old) (held_in (model_state table.old) (Site.Member block member))))
            self.old.slots.items }
        ensures table { table.new ≡ ghost_after_step table.old desk
            (AtomicStep.OnCell (CellStep.TakeOut block member result)) }
        ensures holds { HoldsBag desk self.new.slots.items table.new }
    {
        table.assert_invariant();
        let kind = table.kind_in(Site::Member { block, member });
        let found = table.take_out(desk, block, member);
        if found.owned.is_none() {
            return found;
        }
        self.slots[to] = slot_in(kind, found);
        found
    }
}
