//! How a thread moves vacant blocks to the shelf and from it.
ghost use Rattle.std.specs.Prelude.{◌≡◌};
ghost use Rattle.step_threads.specs.declared.programs.act.Act.{Act};

use crate::programs::act::ShelfAct;
use crate::said::Stepped;
use crate::thread::{Thread, silent};
use control_word::place::Block;
use step_table::memory::table::Table;

impl Thread {
    ghost use Rattle.step_threads.specs.Frames.{task_at};
    ghost use Rattle.step_threads.specs.Threads.{BeginsAct, FitsThread, HasStepped};
    ghost use Rattle.step_threads.specs.declared.programs.act.ShelfAct.{ShelfAct};

    /// Moves a block to the shelf, or from it.
    pub(crate) fn on_shelf(&mut self, desk: usize, table: &mut Table, act: ShelfAct) -> Stepped
        requires begins { BeginsAct desk self.old table.old }
        requires act { (task_at self.old.frame).act ≡ Act.OnShelf act }
        ensures stepped { HasStepped desk self.old table.old result self.new table.new }
        ensures fits { FitsThread desk self.new table.new }
    {
        match act {
            ShelfAct::Shelve => self.shelve(desk, table),
            ShelfAct::Unshelve { block } => self.unshelve(desk, table, block),
        }
    }

    /// Puts the least block of the store on the shelf, if there is one.
    fn shelve(&mut self, desk: usize, table: &mut Table) -> Stepped
        requires begins { BeginsAct desk self.old table.old }
        requires act { (task_at self.old.frame).act ≡ Act.OnShelf ShelfAct.Shelve }
        ensures stepped { HasStepped desk self.old table.old result self.new table.new }
        ensures fits { FitsThread desk self.new table.new }
    {
        let statement = self.frame.statement();
        match self.stock.take_least() {
            None => {
                self.frame.go_on();
                Stepped::Quiet(silent(statement))
            }
            Some(block) => {
                table.assert_invariant();
                table.shelve(desk, block);
                self.frame.go_on();
                Stepped::Event(silent(statement))
            }
        }
    }

    /// Takes this block from the shelf, if it is there.
    fn unshelve(&mut self, desk: usize, table: &mut Table, block: Block) -> Stepped
        requires begins { BeginsAct desk self.old table.old }
        requires act { (task_at self.old.frame).act ≡ Act.OnShelf (ShelfAct.Unshelve block) }
        ensures stepped { HasStepped desk self.old table.old result self.new table.new }
        ensures fits { FitsThread desk self.new table.new }
    {
        let statement = self.frame.statement();
        table.assert_invariant();
        let got = table.unshelve(desk, block);
        table.assert_invariant();
        if !got {
            self.frame.go_on();
            return Stepped::Quiet(silent(statement));
        }
        self.stock.put(block);
        self.frame.go_on();
        Stepped::Event(silent(statement))
    }
}
