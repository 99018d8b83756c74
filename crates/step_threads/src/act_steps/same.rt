//! How a thread asks whether a cell holds what a name does.
ghost use Rattle.std.specs.Prelude.{◌≡◌};
ghost use Rattle.step_threads.specs.declared.programs.act.Act.{Act};

use crate::act_steps::reads::tells;
use crate::programs::call::CellName;
use crate::said::{Answer, Stepped};
use crate::thread::Thread;
use step_table::memory::table::Table;

impl Thread {
    ghost use Rattle.step_threads.specs.Frames.{task_at};
    ghost use Rattle.step_threads.specs.Threads.{BeginsAct, FitsThread, HasStepped};

    /// Tells whether a cell holds what a name does, by one look at the cell. A name that may not go into the cell isn't
    /// in it, which touches no word. Where the cell isn't there it is refused.
    pub(crate) fn holds(
        &mut self,
        desk: usize,
        table: &mut Table,
        name: u8,
        cell: CellName,
    ) -> Stepped
        requires begins { BeginsAct desk self.old table.old }
        requires act { (task_at self.old.frame).act ≡ Act.Holds name cell }
        ensures stepped { HasStepped desk self.old table.old result self.new table.new }
        ensures fits { FitsThread desk self.new table.new }
    {
        table.assert_invariant();
        if !self.frame.is_there(cell) {
            return self.refuse(desk, table, cell);
        }
        let statement = self.frame.statement();
        let from = usize::from(name);
        if !self.frame.may_go_in(from, cell) {
            self.frame.go_on();
            return Stepped::Quiet(tells(statement, Answer::Holds(false)));
        }
        let holds = self.frame.holds(desk, table, name, cell);
        Stepped::Event(tells(statement, Answer::Holds(holds)))
    }
}
