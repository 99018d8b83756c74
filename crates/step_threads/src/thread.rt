//! A thread of the machine: its frame, its store, and the act that it has begun.
ghost use Rattle.std.specs.Prelude.{◌≡◌, [], cond};
ghost use Rattle.step_threads.specs.Steps.{silent};

use crate::frame::Frame;
use crate::pending_call::PendingCall;
use crate::programs::act::Act;
use crate::said::{Answer, Said, Stepped};
use crate::stock::Stock;
use step_table::memory::table::Table;

/// A thread. What it holds is its desk's bag, and its store has its desk's vacant blocks.
#[derive(Drop)]
pub struct Thread {
    pub frame: Frame,
    pub stock: Stock,
    pub pending_call: PendingCall,
}

impl Thread {
    ghost use Rattle.step_threads.specs.Frames.{task_at};
    ghost use Rattle.step_threads.specs.Threads.{BeginsAct, FitsThread, HasStepped};

    /// The next atomic step, or the next act that touches no word.
    pub fn step(&mut self, desk: usize, table: &mut Table) -> Stepped
        requires fits { FitsThread desk self.old table.old }
        ensures stepped { HasStepped desk self.old table.old result self.new table.new }
        ensures fits { FitsThread desk self.new table.new }
    {
        match self.pending_call {
            PendingCall::Rest => self.go(desk, table),
            PendingCall::Making {
                block,
                index,
                differs,
            } => self.make_on(desk, table, block, index, differs),
            PendingCall::Locking { word } => self.lock_on(desk, table, word),
            PendingCall::Giving {
                name,
                kind,
                pointer,
            } => self.give(desk, table, name, kind, pointer),
            PendingCall::Brought => self.put_in(desk, table),
            PendingCall::Saw { found } => self.look_on(desk, table, found),
            PendingCall::Matched { found } => self.match_on(desk, table, found),
            PendingCall::Refill {
                stage,
                cell,
                found,
                statement,
            } => self.refill_on(desk, table, stage, cell, found, statement),
            PendingCall::Returning {
                kind,
                block,
                funds,
                statement,
            } => self.give_back(desk, table, kind, block, funds, statement),
            PendingCall::Clearing => self.empty_on(desk, table),
        }
    }

    /// Within no act: what came out of a member leaves, or the ending begun last goes on, or else the next act comes.
    fn go(&mut self, desk: usize, table: &mut Table) -> Stepped
        requires fits { FitsThread desk self.old table.old }
        requires rest { self.old.pending_call ≡ PendingCall.Rest }
        ensures stepped { HasStepped desk self.old table.old result self.new table.new }
        ensures fits { FitsThread desk self.new table.new }
    {
        match self.frame.endings.first() {
            Some(ending) if self.frame.registers.is_full(self.frame.registers.hand()) => {
                self.leave_carried(desk, table, ending)
            }
            Some(ending) => self.end_on(desk, table, ending),
            None => self.act(desk, table),
        }
    }

    /// The next act, or the first step of it.
    fn act(&mut self, desk: usize, table: &mut Table) -> Stepped
        requires fits { FitsThread desk self.old table.old }
        requires rest { self.old.pending_call ≡ PendingCall.Rest }
        requires none { self.old.frame.endings.list ≡ [] }
        ensures stepped { HasStepped desk self.old table.old result self.new table.new }
        ensures fits { FitsThread desk self.new table.new }
    {
        if self.frame.at == self.frame.tasks.len() {
            return Stepped::Done;
        }
        self.begin_act(desk, table)
    }

    /// The next act, or the first step of it, where there is one.
    #[inline(always)]
    fn begin_act(&mut self, desk: usize, table: &mut Table) -> Stepped
        requires { BeginsAct desk self.old table.old }
        ensures stepped { HasStepped desk self.old table.old result self.new table.new }
        ensures fits { FitsThread desk self.new table.new }
    {
        match self.frame.tasks[self.frame.at].act {
            Act::Make { form } => self.begin(desk, table, form),
            Act::Share { name } => self.share(desk, table, name),
            Act::Put { name } => self.put(desk, table, name),
            Act::Leave { name } | Act::Clear { name } => self.leave(desk, table, name),
            Act::Count { name } => self.count(desk, table, name),
            Act::Downgrade { name } => self.downgrade(desk, table, name),
            Act::Lock { name, must } => self.lock(desk, table, name, must),
            Act::Expired { name } => self.expired(desk, table, name),
            Act::Read { name } => self.read(desk, table, name),
            Act::FromThis { name, kind } => self.from_this(desk, table, name, kind),
            Act::Alias { name, of, field } => self.alias(desk, table, name, of, field),
            Act::Move { name } => self.pull(desk, table, name),
            Act::Ask { question } => self.reply(desk, table, question),
            Act::Offer { name, cell } => self.offer(desk, table, name, cell),
            Act::Swap { cell } => self.store(desk, table, cell),
            Act::Exchange { name, cell } => self.send(desk, table, name, cell),
            Act::Load { cell } => self.load(desk, table, cell),
            Act::Compare { name, cell, weak } => self.compare(desk, table, name, cell, weak),
            Act::Holds { name, cell } => self.holds(desk, table, name, cell),
            Act::Drop => self.drop_other(desk, table),
            Act::OnShelf { act } => self.on_shelf(desk, table, act),
        }
    }

    /// Takes a copy of what a name holds.
    fn share(&mut self, desk: usize, table: &mut Table, name: u8) -> Stepped
        requires begins { BeginsAct desk self.old table.old }
        requires act { (task_at self.old.frame).act ≡ Act.Share name }
        ensures stepped { HasStepped desk self.old table.old result self.new table.new }
        ensures fits { FitsThread desk self.new table.new }
    {
        table.assert_invariant();
        let statement = self.frame.statement();
        let event = self.frame.share(desk, table, name);
        says(event, silent(statement))
    }

    /// Takes a weak pointer to the object of what a name holds.
    fn downgrade(&mut self, desk: usize, table: &mut Table, name: u8) -> Stepped
        requires begins { BeginsAct desk self.old table.old }
        requires act { (task_at self.old.frame).act ≡ Act.Downgrade name }
        ensures stepped { HasStepped desk self.old table.old result self.new table.new }
        ensures fits { FitsThread desk self.new table.new }
    {
        table.assert_invariant();
        let statement = self.frame.statement();
        let event = self.frame.downgrade(desk, table, name);
        says(event, silent(statement))
    }

    /// Tells whether no owner is left of the object of what a name holds; also where it is empty.
    fn expired(&mut self, desk: usize, table: &mut Table, name: u8) -> Stepped
        requires begins { BeginsAct desk self.old table.old }
        requires act { (task_at self.old.frame).act ≡ Act.Expired name }
        ensures stepped { HasStepped desk self.old table.old result self.new table.new }
        ensures fits { FitsThread desk self.new table.new }
    {
        table.assert_invariant();
        let statement = self.frame.statement();
        let event = self.frame.registers.is_full(usize::from(name));
        let expired = self.frame.is_expired(desk, table, name);
        let answer = Some(Answer::Expired(expired));
        says(
            event,
            Said {
                statement,
                answer,
                ended: None,
            },
        )
    }

    /// Tells how many owners the object has that a name holds, as its word tells; 0 where it is empty.
    fn count(&mut self, desk: usize, table: &mut Table, name: u8) -> Stepped
        requires begins { BeginsAct desk self.old table.old }
        requires act { (task_at self.old.frame).act ≡ Act.Count name }
        ensures stepped { HasStepped desk self.old table.old result self.new table.new }
        ensures fits { FitsThread desk self.new table.new }
    {
        table.assert_invariant();
        let statement = self.frame.statement();
        let event = self.frame.registers.is_full(usize::from(name));
        let owners = self.frame.count(desk, table, name);
        let answer = Some(Answer::Count(owners));
        says(
            event,
            Said {
                statement,
                answer,
                ended: None,
            },
        )
    }
}

/// What a step says that says nothing but its statement.
pub(crate) fn silent(statement: u32) -> Said
    ensures { result ≡ silent statement }
{
    Said {
        statement,
        answer: None,
        ended: None,
    }
}

/// A step that is an event, or none.
pub fn says(event: bool, said: Said) -> Stepped
    ensures { result ≡ cond event (Stepped.Event said) (Stepped.Quiet said) }
{
    if event {
        Stepped::Event(said)
    } else {
        Stepped::Quiet(said)
    }
}
