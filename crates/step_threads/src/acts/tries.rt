//! How a thread loads and compares what cells hold, act by act.
ghost use Rattle.std.specs.Prelude.{◌≡◌, ◌≢◌, ◌<◌, ◌≤◌, ◌==◌, ◌||◌, cond, is_some, true, false};
ghost use Rattle.std.specs.Prelude.{length, slice_set, Some, None};
ghost use Rattle.control_word.specs.Limits.{cell_funds};
ghost use Rattle.control_word.specs.Packing.{IsCellWord, cell_bits};
ghost use Rattle.step_table.specs.Cells.{word_of_cell};
ghost use Rattle.step_table.specs.Contents.{as_word, compared_in, owing_for, same_value, seen};
ghost use Rattle.step_threads.specs.Frames.{CanAct, FrameReady, FrameStill, HasCell, IsNamed};
ghost use Rattle.step_threads.specs.Passing.{HasGoneOn};
ghost use Rattle.step_threads.specs.Frames.{cell_of_name};
ghost use Rattle.step_threads.specs.Frames.{comparing, frame_settled, frame_view, hand, is_compared, is_there, rest};
ghost use Rattle.step_threads.specs.Frames.{task_at};
ghost use Rattle.step_table.specs.Registers.{HoldsBag, slot_value};
ghost use Rattle.step_threads.specs.AbstractStates.{came};
ghost use Rattle.step_threads.specs.Rows.{compared};
ghost use Rattle.step_table.specs.GhostStates.{ghost_after_step, pending, model_state};

use crate::frame::Frame;
use crate::programs::act::Act;
use crate::programs::call::CellName;
use control_word::CellWord;
use step_table::cell_steps::cell_step::CellStep;
use step_table::cell_steps::compares::{Comparing, is_same_value};
use step_table::memory::ghost_history::AtomicStep;
use step_table::memory::table::Table;

impl Frame {
    /// A compare of a cell with a name: what is in hand is to go in, and what comes out, or what was in hand, is to be
    /// dropped.
    fn comparing(&self, name: u8, weak: bool) -> Comparing
        requires { 1 < length self.now.registers.slots.items }
        ensures { result ≡ comparing self.now.registers.slots.items name weak }
    {
        Comparing {
            expected: usize::from(name),
            new: self.registers.hand(),
            other: self.registers.other(),
            weak,
        }
    }

    /// Whether what was taken may go into a cell that is there, and what a name holds may be compared with it.
    pub(crate) fn is_compared(&self, name: u8, cell: CellName) -> bool
        requires some { 1 < length self.now.registers.slots.items }
        requires name { name < length self.now.registers.slots.items }
        requires named { IsNamed (length self.now.registers.slots.items) cell }
        ensures { result ≡ is_compared self.now.registers.slots.items self.now.taken name cell }
    {
        self.is_offered(cell) && self.may_go_in(usize::from(name), cell)
    }

    /// What a name holds, as a cell's word tells it.
    pub fn word(&self, name: u8) -> CellWord
        requires { name < length self.now.registers.slots.items }
        ensures { result ≡ as_word (slot_value self.now.registers.slots.items name) }
    {
        self.registers.word(usize::from(name))
    }

    /// Whether a word tells the value of a name, however many funds were taken.
    pub(crate) fn is_alike(&self, name: u8, found: CellWord) -> bool
        requires { name < length self.now.registers.slots.items }
        ensures { result ≡ same_value found (as_word (slot_value self.now.registers.slots.items name)) }
    {
        is_same_value(found, self.word(name))
    }

    /// The look of a load: a value without an object comes into the hand, and the thread goes on. Else nothing is done.
    pub(crate) fn look_to_load(
        &mut self,
        desk: usize,
        table: &mut Table,
        cell: CellName,
    ) -> CellWord
        requires can { CanAct desk self.old table.old }
        requires act { (task_at self.old).act ≡ Act.Load cell }
        requires there { is_there self.old.registers.slots.items cell ≡ true }
        ensures valid { IsCellWord result }
        ensures few { result.taken ≤ cell_funds }
        ensures found { result ≡ seen table.old
            (cell_of_name (model_state table.old) self.old.registers.slots.items cell) }
        ensures table { table.new ≡ cond (is_some result.owned) table.old (ghost_after_step table.old desk
            (AtomicStep.OnCell (CellStep.Look (cell_of_name (model_state table.old) self.old.registers.slots.items cell)
            result None))) }
        ensures stays { is_some result.owned ≡ true → self.new ≡ self.old }
        ensures frame_view { is_some result.owned ≡ false → frame_view self.new
            ≡ frame_settled (slice_set self.old.registers.slots.items (hand self.old.registers.slots.items) (came
            (model_state table.old) self.old.registers.slots.items cell)) true self.old.endings.list (rest self.old) }
        ensures on { is_some result.owned ≡ false → HasGoneOn desk self.old self.new table.new }
    {
        let hand = self.registers.hand();
        let cell = self.cell(table, cell);
        let found = self.registers.look_to_load(desk, table, cell, hand);
        if found.owned.is_none() {
            self.take(true);
        }
        found
    }

    /// Takes a fund of a cell, where it shows what was seen: its value comes into the hand, and the thread goes on.
    /// Else nothing is done.
    pub(crate) fn take_fund(
        &mut self,
        desk: usize,
        table: &mut Table,
        cell: CellName,
        seen: CellWord,
    ) -> bool
        requires can { CanAct desk self.old table.old }
        requires act { (task_at self.old).act ≡ Act.Load cell }
        requires there { is_there self.old.registers.slots.items cell ≡ true }
        requires seen { IsCellWord seen × (seen.owned ≢ None) × (seen.taken < 256) }
        ensures same { result
            ≡ (word_of_cell table.old (cell_of_name (model_state table.old) self.old.registers.slots.items cell) ==
            cell_bits seen) }
        ensures table { table.new ≡ cond result (ghost_after_step table.old desk (AtomicStep.OnCell
            (CellStep.Take (cell_of_name (model_state table.old) self.old.registers.slots.items cell) seen None)))
            table.old }
        ensures stays { result ≡ false → self.new ≡ self.old }
        ensures frame_view { result ≡ true → frame_view self.new
            ≡ frame_settled (slice_set self.old.registers.slots.items (hand self.old.registers.slots.items) (came
            (model_state table.old) self.old.registers.slots.items cell)) true self.old.endings.list (rest self.old) }
        ensures on { result ≡ true → HasGoneOn desk self.old self.new table.new }
    {
        let hand = self.registers.hand();
        let cell = self.cell(table, cell);
        let took = self.registers.take_fund(desk, table, cell, seen, hand);
        if took {
            self.take(true);
        }
        took
    }

    /// The look of a compare: where the cell has no object and isn't what is expected, its value comes into the hand,
    /// what was there is to be dropped, and the thread goes on. Else nothing is done.
    pub(crate) fn look_to_compare(
        &mut self,
        desk: usize,
        table: &mut Table,
        name: u8,
        cell: CellName,
        weak: bool,
    ) -> CellWord
        requires can { CanAct desk self.old table.old }
        requires act { (task_at self.old).act ≡ Act.Compare name cell weak }
        ensures valid { IsCellWord result }
        ensures few { result.taken ≤ cell_funds }
        ensures found { result ≡ seen table.old
            (cell_of_name (model_state table.old) self.old.registers.slots.items cell) }
        ensures table { table.new
            ≡ cond (is_some result.owned || same_value result
            (as_word (slot_value self.old.registers.slots.items name)))
            table.old
            (ghost_after_step table.old desk
            (AtomicStep.OnCell (CellStep.Look (cell_of_name (model_state table.old) self.old.registers.slots.items
            cell) result (Some
            (compared_in self.old.registers.slots.items (comparing self.old.registers.slots.items name weak)))))) }
        ensures stays { (is_some result.owned || same_value result
            (as_word (slot_value self.old.registers.slots.items name)))
            ≡ true → self.new ≡ self.old }
        ensures frame_view { (is_some result.owned || same_value result
            (as_word (slot_value self.old.registers.slots.items name)))
            ≡ false → frame_view self.new
            ≡ frame_settled (compared self.old.registers.slots.items
            (came (model_state table.old) self.old.registers.slots.items
            cell) false).0 true self.old.endings.list (rest self.old) }
        ensures on { (is_some result.owned || same_value result
            (as_word (slot_value self.old.registers.slots.items name)))
            ≡ false → HasGoneOn desk self.old self.new table.new }
    {
        let comparing = self.comparing(name, weak);
        let cell = self.cell(table, cell);
        let expected = self.word(name);
        let found = self.registers.look_to_compare(desk, table, cell, comparing);
        if found.owned.is_none() && !is_same_value(found, expected) {
            self.take(true);
        }
        found
    }

    /// Takes a fund of a cell that isn't what is expected, where it shows what was seen: its value comes into the hand,
    /// what was there is to be dropped, and the thread goes on. Else nothing is done.
    pub(crate) fn take_differing(
        &mut self,
        desk: usize,
        table: &mut Table,
        name: u8,
        cell: CellName,
        weak: bool,
        seen: CellWord,
    ) -> bool
        requires can { CanAct desk self.old table.old }
        requires act { (task_at self.old).act ≡ Act.Compare name cell weak }
        requires seen { IsCellWord seen × (seen.owned ≢ None) × (seen.taken < 256) }
        requires differs { same_value seen (as_word (slot_value self.old.registers.slots.items name)) ≡ false }
        ensures same { result
            ≡ (word_of_cell table.old (cell_of_name (model_state table.old) self.old.registers.slots.items cell) ==
            cell_bits seen) }
        ensures table { table.new
            ≡ cond result (ghost_after_step table.old desk
            (AtomicStep.OnCell (CellStep.Take
            (cell_of_name (model_state table.old) self.old.registers.slots.items cell) seen
            (Some (compared_in self.old.registers.slots.items (comparing self.old.registers.slots.items name weak))))))
            table.old }
        ensures stays { result ≡ false → self.new ≡ self.old }
        ensures frame_view { result ≡ true → frame_view self.new ≡ frame_settled
            (compared self.old.registers.slots.items
            (came (model_state table.old) self.old.registers.slots.items cell) false).0
            true self.old.endings.list (rest self.old) }
        ensures on { result ≡ true → HasGoneOn desk self.old self.new table.new }
    {
        let comparing = self.comparing(name, weak);
        let cell = self.cell(table, cell);
        let took = self
            .registers
            .take_differing(desk, table, cell, seen, comparing);
        if took {
            self.take(true);
        }
        took
    }

    /// Compares and swaps a cell, where it shows what was seen, which is what is expected: what is in hand goes in,
    /// what comes out is to be dropped, and the thread goes on. Else nothing is done.
    pub(crate) fn compare_and_swap(
        &mut self,
        desk: usize,
        table: &mut Table,
        name: u8,
        cell: CellName,
        weak: bool,
        seen: CellWord,
    ) -> bool
        requires seat { desk < table.old.extent.actors }
        requires holds { HoldsBag desk self.old.registers.slots.items table.old }
        requires within { self.old.at < length self.old.tasks.items }
        requires ready { FrameReady self.old }
        requires still { FrameStill self.old }
        requires act { (task_at self.old).act ≡ Act.Compare name cell weak }
        requires cell { HasCell table.old.extent.shape (task_at self.old).act }
        requires seen { IsCellWord seen }
        requires alike { same_value seen (as_word (slot_value self.old.registers.slots.items name)) ≡ true }
        requires owes { pending table.old desk ≡ owing_for (model_state table.old)
            (slot_value self.old.registers.slots.items (hand self.old.registers.slots.items)) 256 }
        ensures same { result
            ≡ (word_of_cell table.old (cell_of_name (model_state table.old) self.old.registers.slots.items cell) ==
            cell_bits seen) }
        ensures table { table.new
            ≡ cond result (ghost_after_step table.old desk
            (AtomicStep.OnCell (CellStep.CompareSwap
            (cell_of_name (model_state table.old) self.old.registers.slots.items cell) seen
            (compared_in self.old.registers.slots.items (comparing self.old.registers.slots.items name weak)))))
            table.old }
        ensures stays { result ≡ false → self.new ≡ self.old }
        ensures frame_view { result ≡ true → frame_view self.new ≡ frame_settled
            (compared self.old.registers.slots.items
            (came (model_state table.old) self.old.registers.slots.items cell) true).0
            false self.old.endings.list (rest self.old) }
        ensures on { result ≡ true → HasGoneOn desk self.old self.new table.new }
    {
        let comparing = self.comparing(name, weak);
        let cell = self.cell(table, cell);
        let swapped = self
            .registers
            .compare_and_swap(desk, table, cell, seen, comparing);
        if swapped {
            self.take(false);
        }
        swapped
    }
}
