//! Looks at cells that ask whether they hold what an actor has. Each function is one atomic step, which changes
//! nothing.
ghost use Rattle.std.specs.Prelude.{◌≡◌, ◌<◌, length, true};
ghost use Rattle.control_word.specs.declared.model.view.Pending.TheVariants.{Idle};
ghost use Rattle.control_word.specs.Handles.{equivalent};
ghost use Rattle.step_table.specs.CellAtomicSteps.{handle_told, kind_in_state};
ghost use Rattle.step_table.specs.Cells.{HasInHand, IsOpenTo};
ghost use Rattle.step_table.specs.Contents.{as_word, held_in, is_held, is_of};
ghost use Rattle.step_table.specs.Registers.{HoldsBag, slot_value};
ghost use Rattle.step_table.specs.GhostStates.{ghost_after_step, model_state, pending};

use crate::cell_steps::cell_step::CellStep;
use crate::cell_steps::compares::is_same_value;
use crate::memory::ghost_history::AtomicStep;
use crate::memory::table::Table;
use crate::slots::registers::Registers;
use control_word::{CellWord, Site};

impl Table {
    /// Whether a cell holds a value: just where its word tells the value's block, or none, and the value's place. How
    /// many funds were taken tells nothing. The actor has a handle of the value's object, so the block has no other.
    pub(crate) fn holds(&mut self, desk: usize, cell: Site, value: CellWord) -> bool
        requires seat { desk < self.old.extent.actors }
        requires idle { pending self.old desk ≡ Idle }
        requires open { IsOpenTo self.old desk cell }
        requires hand { HasInHand self.old desk cell value }
        ensures exact { result ≡ equivalent (held_in (model_state self.old) cell)
            (handle_told (model_state self.old) cell value) }
        ensures after { self.new ≡ ghost_after_step self.old desk
            (AtomicStep.OnCell (CellStep.Holds cell value result)) }
    {
        let found = self.shown(desk, cell);
        let holds = is_same_value(found, value);
        let atomic_step = CellStep::Holds { cell, value, holds };
        self.ghost_history = self.then(desk, AtomicStep::OnCell { atomic_step });
        holds
    }
}

impl Registers {
    /// Whether a cell holds what a slot does, as `Table::holds` says.
    pub fn holds(&self, desk: usize, table: &mut Table, cell: Site, at: usize) -> bool
        requires seat { desk < table.old.extent.actors }
        requires idle { pending table.old desk ≡ Idle }
        requires holds { HoldsBag desk self.now.slots.items table.old }
        requires open { IsOpenTo table.old desk cell }
        requires inside { at < length self.now.slots.items }
        requires kind { is_of (kind_in_state (model_state table.old) cell) (slot_value self.now.slots.items at) ≡ true }
        ensures exact { result ≡ is_held (model_state table.old) cell (slot_value self.now.slots.items at) }
        ensures table { table.new ≡ ghost_after_step table.old desk
            (AtomicStep.OnCell (CellStep.Holds cell (as_word (slot_value self.now.slots.items at)) result)) }
        ensures holds { HoldsBag desk self.now.slots.items table.new }
    {
        table.assert_invariant();
        let value = self.word(at);
        table.holds(desk, cell, value)
    }
}
