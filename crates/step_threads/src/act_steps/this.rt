//! How a thread takes a pointer that an object gives to itself, step by step.
ghost use Rattle.std.specs.Prelude.{◌≡◌, Some};
ghost use Rattle.step_table.specs.AtomicSteps.{give, is_enabled};
ghost use Rattle.step_threads.specs.declared.programs.act.Act.{Act};

use crate::act_steps::reads::{outside, tells};
use crate::pending_call::PendingCall;
use crate::said::{Answer, Stepped};
use crate::thread::{Thread, silent};
use control_word::model::handle::Kind;
use control_word::{Handle, Refusal};
use step_table::memory::table::Table;

impl Thread {
    ghost use Rattle.step_threads.specs.Frames.{task_at};
    ghost use Rattle.step_threads.specs.Threads.{BeginsAct, FitsThread, HasStepped};

    /// The first step of a pointer from this: it looks whether the object gives any. It touches no word where the name
    /// doesn't point into the object that it owns.
    pub(crate) fn from_this(&mut self, desk: usize, table: &Table, name: u8, kind: Kind) -> Stepped
        requires begins { BeginsAct desk self.old table.now }
        requires act { (task_at self.old.frame).act ≡ Act.FromThis name kind }
        ensures stepped { HasStepped desk self.old table.now result self.new table.now }
        ensures fits { FitsThread desk self.new table.now }
    {
        let statement = self.frame.statement();
        let from = usize::from(name);
        let Some(pointer) = self.frame.registers.inside(from) else {
            let answer = outside(self.frame.registers.place(from));
            self.frame.take(false);
            return Stepped::Quiet(tells(statement, answer));
        };
        if !self.frame.registers.is_enabled(desk, table, from, pointer) {
            self.frame.take(false);
            return Stepped::Quiet(tells(statement, Answer::Refused(Refusal::NotEnabled)));
        }
        self.pending_call = PendingCall::Giving {
            name,
            kind,
            pointer,
        };
        Stepped::Quiet(silent(statement))
    }

    /// The last step: the object gives a pointer, which comes into the hand. It has the same object since the look, as
    /// the name's owner kept that there.
    pub fn give(
        &mut self,
        desk: usize,
        table: &mut Table,
        name: u8,
        kind: Kind,
        pointer: Handle,
    ) -> Stepped
        requires fits { FitsThread desk self.old table.old }
        requires pending_call { self.old.pending_call ≡ PendingCall.Giving name kind pointer }
        ensures stepped { HasStepped desk self.old table.old result self.new table.new }
        ensures fits { FitsThread desk self.new table.new }
    {
        table.assert_invariant();
        let statement = self.frame.statement();
        let from = usize::from(name);
        let hand = self.frame.registers.hand();
        self.frame
            .registers
            .give(desk, table, from, hand, kind, pointer);
        self.frame.take(true);
        self.pending_call = PendingCall::Rest;
        Stepped::Event(silent(statement))
    }
}
