//! How a thread locks a weak pointer, step by step.
ghost use Rattle.std.specs.Prelude.{◌≡◌, ◌==◌, cond, Some, None};
ghost use Rattle.step_threads.specs.Rows.{lock_answer};

use crate::pending_call::PendingCall;
use crate::programs::act::Act;
use crate::said::{Answer, Said, Stepped};
use crate::thread::{Thread, silent};
use control_word::Refusal;
use step_table::memory::table::Table;

impl Thread {
    ghost use Rattle.step_threads.specs.Frames.{task_at};
    ghost use Rattle.step_threads.specs.Threads.{BeginsAct, FitsThread, HasStepped};

    /// The first step of a lock: it looks at the word of the owners. Without a weak pointer it touches no word.
    pub fn lock(&mut self, desk: usize, table: &mut Table, name: u8, must: bool) -> Stepped
        requires begins { BeginsAct desk self.old table.old }
        requires act { (task_at self.old.frame).act ≡ Act.Lock name must }
        ensures stepped { HasStepped desk self.old table.old result self.new table.new }
        ensures fits { FitsThread desk self.new table.new }
    {
        table.assert_invariant();
        let statement = self.frame.statement();
        let from = usize::from(name);
        let Some(pointer) = self.frame.registers.weak(from) else {
            self.frame.take(!must);
            return Stepped::Quiet(locked(statement, must, false));
        };
        let word = self.frame.registers.look_lock(desk, table, from, pointer);
        if word == 0 {
            self.frame.take(!must);
            return Stepped::Event(locked(statement, must, false));
        }
        self.pending_call = PendingCall::Locking { word };
        Stepped::Quiet(silent(statement))
    }

    /// The next step of a lock that is under way.
    pub(crate) fn lock_on(&mut self, desk: usize, table: &mut Table, word: u64) -> Stepped
        requires fits { FitsThread desk self.old table.old }
        requires pending_call { self.old.pending_call ≡ PendingCall.Locking word }
        ensures stepped { HasStepped desk self.old table.old result self.new table.new }
        ensures fits { FitsThread desk self.new table.new }
    {
        let Act::Lock { name, must } = self.frame.tasks[self.frame.at].act else {
            unreachable!()
        };
        self.try_lock(desk, table, name, must, word)
    }

    /// Tries a lock with the word that it found: where that is still there the owner comes into the hand. Else it goes
    /// on with the word that is there, and where that is 0 it looks anew.
    fn try_lock(
        &mut self,
        desk: usize,
        table: &mut Table,
        name: u8,
        must: bool,
        word: u64,
    ) -> Stepped
        requires fits { FitsThread desk self.old table.old }
        requires pending_call { self.old.pending_call ≡ PendingCall.Locking word }
        requires act { (task_at self.old.frame).act ≡ Act.Lock name must }
        ensures stepped { HasStepped desk self.old table.old result self.new table.new }
        ensures fits { FitsThread desk self.new table.new }
    {
        table.assert_invariant();
        let statement = self.frame.statement();
        let from = usize::from(name);
        let hand = self.frame.registers.hand();
        let Some(pointer) = self.frame.registers.weak(from) else {
            unreachable!()
        };
        let now = self
            .frame
            .registers
            .try_lock(desk, table, from, hand, pointer, word);
        if now == word {
            self.frame.take(true);
            self.pending_call = PendingCall::Rest;
            return Stepped::Event(locked(statement, must, true));
        }
        self.pending_call = goes_on(now);
        Stepped::Quiet(silent(statement))
    }
}

/// A lock goes on with a word that it found, and looks anew where that is 0.
fn goes_on(word: u64) -> PendingCall
    ensures { result ≡ cond (word == 0) PendingCall.Rest (PendingCall.Locking word) }
{
    if word == 0 {
        PendingCall::Rest
    } else {
        PendingCall::Locking { word }
    }
}

/// What a lock says that is done.
fn locked(statement: u32, must: bool, got: bool) -> Said
    ensures { result ≡ record { statement = statement; answer = Some (lock_answer must got); ended = None } }
{
    let answer = if !must {
        Answer::Locked(got)
    } else if got {
        Answer::Upgraded
    } else {
        Answer::Refused(Refusal::BadWeak)
    };
    Said {
        statement,
        answer: Some(answer),
        ended: None,
    }
}
