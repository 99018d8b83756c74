//! How a thread refuses an act on a member of no object.
ghost use Rattle.std.specs.Prelude.{◌≡◌, ◌⊎◌, ℕ, false};
ghost use Rattle.step_threads.specs.Frames.{is_there};
ghost use Rattle.step_threads.specs.declared.programs.act.Act.{Act};

use crate::act_steps::reads::{outside, tells};
use crate::programs::call::CellName;
use crate::said::Stepped;
use crate::thread::Thread;
use step_table::memory::table::Table;

impl Thread {
    ghost use Rattle.step_threads.specs.Frames.{task_at};
    ghost use Rattle.step_threads.specs.Threads.{BeginsAct, FitsThread, HasStepped};

    /// The first act of a statement on a member is refused, by where the name points whose object isn't there.
    pub(crate) fn refuse(&mut self, desk: usize, table: &Table, cell: CellName) -> Stepped
        requires begins { BeginsAct desk self.old table.now }
        requires act { ((task_at self.old.frame).act ≡ Act.Load cell)
            ⊎ ((k : ℕ) × (((task_at self.old.frame).act ≡ Act.Offer k cell)
            ⊎ (((task_at self.old.frame).act ≡ Act.Exchange k cell)
            ⊎ ((task_at self.old.frame).act ≡ Act.Holds k cell)))) }
        requires there { is_there self.old.frame.registers.slots.items cell ≡ false }
        ensures stepped { HasStepped desk self.old table.now result self.new table.now }
        ensures fits { FitsThread desk self.new table.now }
    {
        let statement = self.frame.statement();
        let CellName::Member { name, .. } = cell else {
            unreachable!()
        };
        let answer = outside(self.frame.registers.place(usize::from(name.0)));
        self.frame.go_on();
        Stepped::Quiet(tells(statement, answer))
    }
}
