//! What a thread asks of the words of an object, and of a cell's.
ghost use Rattle.std.specs.Prelude.{◌≡◌, true};
ghost use Rattle.step_table.specs.Contents.{as_word, is_of};
ghost use Rattle.step_threads.specs.Entries.{is_expected};
ghost use Rattle.step_threads.specs.Programs.{kind_at};
ghost use Rattle.step_table.specs.AtomicSteps.{by_word, is_expired, on, tell, tell_expired};
ghost use Rattle.step_table.specs.Registers.{slot_pointer, slot_value};
ghost use Rattle.step_table.specs.GhostStates.{ghost_after_step, model_state};
ghost use Rattle.step_threads.specs.declared.programs.act.Act.{Act};

use crate::frame::Frame;
use crate::programs::call::CellName;
use step_table::cell_steps::cell_step::CellStep;
use step_table::memory::ghost_history::AtomicStep;
use step_table::memory::table::Table;

impl Frame {
    ghost use Rattle.step_threads.specs.Frames.{CanAct, cell_of_name, done_on, is_there, rest, frame_settled, task_at};
    ghost use Rattle.step_threads.specs.Frames.{frame_view};
    ghost use Rattle.step_threads.specs.Passing.{HasGoneOn};

    /// How many owners the object has that a name holds, as its word tells; 0 where it is empty.
    pub(crate) fn count(&mut self, desk: usize, table: &mut Table, name: u8) -> u32
        requires can { CanAct desk self.old table.old }
        requires act { (task_at self.old).act ≡ Act.Count name }
        ensures told { result ≡ on (by_word table.old (model_state table.old)) 0
            (slot_pointer self.old.registers.slots.items name) }
        ensures table { table.new ≡ done_on (tell table.old) table.old desk
            (slot_pointer self.old.registers.slots.items name) }
        ensures frame_view { frame_view self.new ≡ frame_settled self.old.registers.slots.items self.old.taken
            self.old.endings.list (rest self.old) }
        ensures on { HasGoneOn desk self.old self.new table.new }
    {
        let from = usize::from(name);
        match self.registers.get(from) {
            None => {
                self.go_on();
                0
            }
            Some(pointer) => {
                let owners = self.registers.count(desk, table, from, pointer);
                self.go_on();
                owners
            }
        }
    }

    /// Whether no owner is left of the object of what a name holds; also where it is empty.
    pub(crate) fn is_expired(&mut self, desk: usize, table: &mut Table, name: u8) -> bool
        requires can { CanAct desk self.old table.old }
        requires act { (task_at self.old).act ≡ Act.Expired name }
        ensures exact { result ≡ on (is_expired (model_state table.old)) true
            (slot_pointer self.old.registers.slots.items name) }
        ensures table { table.new ≡ done_on (tell_expired (model_state table.old)) table.old desk
            (slot_pointer self.old.registers.slots.items name) }
        ensures frame_view { frame_view self.new ≡ frame_settled self.old.registers.slots.items self.old.taken
            self.old.endings.list (rest self.old) }
        ensures on { HasGoneOn desk self.old self.new table.new }
    {
        let from = usize::from(name);
        match self.registers.get(from) {
            None => {
                self.go_on();
                true
            }
            Some(pointer) => {
                let expired = self.registers.is_expired(desk, table, from, pointer);
                self.go_on();
                expired
            }
        }
    }

    /// Whether a cell that is there holds what a name does, which may go into it.
    pub(crate) fn holds(&mut self, desk: usize, table: &mut Table, name: u8, cell: CellName) -> bool
        requires can { CanAct desk self.old table.old }
        requires act { (task_at self.old).act ≡ Act.Holds name cell }
        requires there { is_there self.old.registers.slots.items cell ≡ true }
        requires kind { is_of (kind_at cell) (slot_value self.old.registers.slots.items name) ≡ true }
        ensures exact { result ≡ is_expected (model_state table.old) self.old.registers.slots.items name cell }
        ensures table { table.new ≡ ghost_after_step table.old desk (AtomicStep.OnCell
            (CellStep.Holds (cell_of_name (model_state table.old) self.old.registers.slots.items cell)
            (as_word (slot_value self.old.registers.slots.items name)) result)) }
        ensures frame_view { frame_view self.new ≡ frame_settled self.old.registers.slots.items self.old.taken
            self.old.endings.list (rest self.old) }
        ensures on { HasGoneOn desk self.old self.new table.new }
    {
        let cell = self.cell(table, cell);
        let holds = self.registers.holds(desk, table, cell, usize::from(name));
        self.go_on();
        holds
    }
}
