//! How a thread makes an object, step by step.
ghost use Rattle.std.specs.Prelude.{◌≡◌, ◌<◌, get_or, false, true};
ghost use Rattle.control_word.specs.Words.{flags_of};
ghost use Rattle.step_threads.specs.Actors.{wanted};

use crate::pending_call::PendingCall;
use crate::programs::act::Act;
use crate::said::{Answer, Said, Stepped};
use crate::thread::{Thread, silent};
use control_word::Refusal;
use control_word::packed::layout::{ENABLED, NULL};
use control_word::place::Block;
use step_table::memory::form::Form;
use step_table::memory::table::Table;

impl Thread {
    ghost use Rattle.step_threads.specs.Frames.{task_at};
    ghost use Rattle.step_threads.specs.Threads.{BeginsAct, FitsThread, HasStepped};

    /// Begins a make in the least block. Where there is none the statement is refused.
    pub(crate) fn begin(&mut self, desk: usize, table: &mut Table, form: Form) -> Stepped
        requires begins { BeginsAct desk self.old table.old }
        requires act { (task_at self.old.frame).act ≡ Act.Make form }
        ensures stepped { HasStepped desk self.old table.old result self.new table.new }
        ensures fits { FitsThread desk self.new table.new }
    {
        let statement = self.frame.statement();
        match self.stock.take_least() {
            None => {
                self.frame.go_on();
                let answer = Some(Answer::Refused(Refusal::Full));
                Stepped::Quiet(Said {
                    statement,
                    answer,
                    ended: None,
                })
            }
            Some(block) => {
                table.assert_invariant();
                table.prepare(desk, block);
                self.pending_call = PendingCall::Making {
                    block,
                    index: 0,
                    differs: false,
                };
                Stepped::Quiet(silent(statement))
            }
        }
    }

    /// The next step of a make that is under way.
    pub(crate) fn make_on(
        &mut self,
        desk: usize,
        table: &mut Table,
        block: Block,
        index: u8,
        differs: bool,
    ) -> Stepped
        requires fits { FitsThread desk self.old table.old }
        requires pending_call { self.old.pending_call ≡ PendingCall.Making block index differs }
        ensures stepped { HasStepped desk self.old table.old result self.new table.new }
        ensures fits { FitsThread desk self.new table.new }
    {
        let Act::Make { form } = self.frame.tasks[self.frame.at].act else {
            unreachable!()
        };
        if index == 5 {
            self.claim(desk, table, block, differs, form)
        } else if differs {
            self.write(desk, table, block, index, form)
        } else {
            self.look(desk, table, block, index, form)
        }
    }

    /// Looks at the next of the block's loose words.
    fn look(
        &mut self,
        desk: usize,
        table: &mut Table,
        block: Block,
        index: u8,
        form: Form,
    ) -> Stepped
        requires fits { FitsThread desk self.old table.old }
        requires pending_call { self.old.pending_call ≡ PendingCall.Making block index false }
        requires inside { index < 5 }
        requires act { (task_at self.old.frame).act ≡ Act.Make form }
        ensures stepped { HasStepped desk self.old table.old result self.new table.new }
        ensures fits { FitsThread desk self.new table.new }
    {
        let so = table.look(desk, block, index) == wanted_word(index, &form);
        let index = if so { index + 1 } else { index };
        self.pending_call = PendingCall::Making {
            block,
            index,
            differs: !so,
        };
        Stepped::Quiet(silent(self.frame.statement()))
    }

    /// Writes the next of the block's loose words.
    fn write(
        &mut self,
        desk: usize,
        table: &mut Table,
        block: Block,
        index: u8,
        form: Form,
    ) -> Stepped
        requires fits { FitsThread desk self.old table.old }
        requires pending_call { self.old.pending_call ≡ PendingCall.Making block index true }
        requires inside { index < 5 }
        requires act { (task_at self.old.frame).act ≡ Act.Make form }
        ensures stepped { HasStepped desk self.old table.old result self.new table.new }
        ensures fits { FitsThread desk self.new table.new }
    {
        table.assert_invariant();
        table.write(desk, block, index, wanted_word(index, &form));
        self.pending_call = PendingCall::Making {
            block,
            index: index + 1,
            differs: false,
        };
        Stepped::Quiet(silent(self.frame.statement()))
    }

    /// Claims the block: the object is made.
    fn claim(
        &mut self,
        desk: usize,
        table: &mut Table,
        block: Block,
        differs: bool,
        form: Form,
    ) -> Stepped
        requires fits { FitsThread desk self.old table.old }
        requires pending_call { self.old.pending_call ≡ PendingCall.Making block 5 differs }
        requires act { (task_at self.old.frame).act ≡ Act.Make form }
        ensures stepped { HasStepped desk self.old table.old result self.new table.new }
        ensures fits { FitsThread desk self.new table.new }
    {
        table.assert_invariant();
        let statement = self.frame.statement();
        self.frame.claim(desk, table, block, form);
        self.pending_call = PendingCall::Rest;
        Stepped::Event(silent(statement))
    }
}

/// What a make wants the flags (0) or a field (1 to 4) of its block to be.
fn wanted_word(index: u8, form: &Form) -> u64
    requires { index < 5 }
    ensures { result ≡ get_or (wanted form.now) index 0 }
{
    if index == 0 {
        flags(form)
    } else {
        form.fields[usize::from(index) - 1]
    }
}

/// The flags of an object of a form.
fn flags(form: &Form) -> u64
    ensures { result ≡ flags_of form.now.enabled form.now.null }
{
    let enabled = if form.enabled { ENABLED } else { 0 };
    let null = if form.null { NULL } else { 0 };
    enabled + null
}
