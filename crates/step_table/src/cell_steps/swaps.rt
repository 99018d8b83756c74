//! How the values of an actor's slots go into cells. Each function is one atomic step.
ghost use Rattle.std.specs.Prelude.{◌≡◌, ◌≢◌, ◌<◌, ◌≤◌, true, length, slice_set, Some, None};
ghost use Rattle.control_word.specs.declared.model.view.Pending.TheVariants.{Idle};
ghost use Rattle.step_table.specs.CellAtomicSteps.{kind_in_state};
ghost use Rattle.step_table.specs.Cells.{IsOpenTo};
ghost use Rattle.step_table.specs.Contents.{as_word, held_in, is_of, owing_for, seen, slot_of, slots_swapped};
ghost use Rattle.step_table.specs.Registers.{HoldsBag, slot_pointer, slot_value};
ghost use Rattle.step_table.specs.GhostStates.{ghost_after_step, pending, model_state};

use crate::cell_steps::cell_step::CellStep;
use crate::memory::contents::slot_in;
use crate::memory::ghost_history::AtomicStep;
use crate::memory::table::Table;
use crate::slots::registers::Registers;
use crate::slots::slot::Slot;
use control_word::shape::CELL_FUNDS;
use control_word::{CellWord, Handle, Site};

impl Registers {
    /// Brings the funds of a slot's pointer, which is to go into a cell.
    pub fn bring(&self, desk: usize, table: &mut Table, from: usize, pointer: Handle)
        requires seat { desk < table.old.extent.actors }
        requires idle { pending table.old desk ≡ Idle }
        requires holds { HoldsBag desk self.now.slots.items table.old }
        requires from { slot_pointer self.now.slots.items from ≡ Some pointer }
        ensures owes { pending table.new desk ≡ owing_for (model_state table.new)
            (slot_value self.now.slots.items from) 256 }
        ensures table { table.new ≡ ghost_after_step table.old desk
            (AtomicStep.OnCell (CellStep.Bring pointer.kind pointer.block pointer.place 256)) }
        ensures holds { HoldsBag desk self.now.slots.items table.new }
    {
        table.assert_invariant();
        table.bring(desk, pointer, CELL_FUNDS);
    }

    /// Exchanges a slot's value for what a cell holds.
    pub fn exchange(&mut self, desk: usize, table: &mut Table, cell: Site, at: usize) -> CellWord
        requires seat { desk < table.old.extent.actors }
        requires holds { HoldsBag desk self.old.slots.items table.old }
        requires open { IsOpenTo table.old desk cell }
        requires inside { at < length self.old.slots.items }
        requires kind { is_of (kind_in_state (model_state table.old) cell)
            (slot_value self.old.slots.items at) ≡ true }
        requires owes { pending table.old desk ≡ owing_for (model_state table.old)
            (slot_value self.old.slots.items at) 256 }
        ensures found { result ≡ seen table.old cell }
        ensures few { result.taken ≤ 256 }
        ensures slots { self.new.slots.items ≡ slice_set self.old.slots.items at
            (slot_of (model_state table.old) (held_in (model_state table.old) cell)) }
        ensures table { table.new ≡ ghost_after_step table.old desk
            (AtomicStep.OnCell (CellStep.Swap cell (as_word (slot_value self.old.slots.items at)) result)) }
        ensures holds { HoldsBag desk self.new.slots.items table.new }
    {
        table.assert_invariant();
        let kind = table.kind_in(cell);
        let new = self.slots[at].word();
        let found = table.swap_cell(desk, cell, new);
        self.slots[at] = slot_in(kind, found);
        found
    }

    /// Swaps a cell: a slot's value goes in, and what the cell held comes into another slot, which has no object.
    pub fn swap(
        &mut self,
        desk: usize,
        table: &mut Table,
        cell: Site,
        from: usize,
        to: usize,
    ) -> CellWord
        requires seat { desk < table.old.extent.actors }
        requires holds { HoldsBag desk self.old.slots.items table.old }
        requires open { IsOpenTo table.old desk cell }
        requires from { from < length self.old.slots.items }
        requires inside { to < length self.old.slots.items }
        requires apart { from ≢ to }
        requires empty { slot_pointer self.old.slots.items to ≡ None }
        requires kind { is_of (kind_in_state (model_state table.old) cell)
            (slot_value self.old.slots.items from) ≡ true }
        requires owes { pending table.old desk ≡ owing_for (model_state table.old)
            (slot_value self.old.slots.items from) 256 }
        ensures found { result ≡ seen table.old cell }
        ensures few { result.taken ≤ 256 }
        ensures slots { self.new.slots.items ≡ slots_swapped from to self.old.slots.items
            (slot_of (model_state table.old) (held_in (model_state table.old) cell)) }
        ensures table { table.new ≡ ghost_after_step table.old desk
            (AtomicStep.OnCell (CellStep.Swap cell (as_word (slot_value self.old.slots.items from)) result)) }
        ensures holds { HoldsBag desk self.new.slots.items table.new }
    {
        table.assert_invariant();
        let kind = table.kind_in(cell);
        let new = self.slots[from].word();
        let found = table.swap_cell(desk, cell, new);
        self.slots[to] = slot_in(kind, found);
        self.slots[from] = Slot::Empty { place: None };
        found
    }
}
