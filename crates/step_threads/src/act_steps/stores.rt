//! How a thread puts values into cells, step by step.
ghost use Rattle.std.specs.Prelude.{◌≡◌, ◌⊎◌, ◌<◌, ◌≤◌, length, true, []};
ghost use Rattle.step_table.specs.Contents.{is_of, owing_for};
ghost use Rattle.step_threads.specs.Programs.{kind_at};
ghost use Rattle.step_threads.specs.Frames.{hand, is_there};
ghost use Rattle.step_table.specs.Registers.{slot_value};
ghost use Rattle.step_threads.specs.Steps.{gives_back};
ghost use Rattle.step_table.specs.GhostStates.{pending, model_state};
ghost use Rattle.step_threads.specs.declared.pending_call.PendingCall.{PendingCall};

use crate::pending_call::PendingCall;
use crate::programs::act::Act;
use crate::programs::call::CellName;
use crate::said::{Said, Stepped};
use crate::thread::{Thread, says, silent};
use control_word::CellWord;
use control_word::model::handle::Kind;
use control_word::place::Block;
use control_word::shape::CELL_FUNDS;
use step_table::memory::table::Table;

impl Thread {
    ghost use Rattle.step_threads.specs.Frames.{task_at};
    ghost use Rattle.step_threads.specs.Threads.{BeginsAct, FitsThread, HasStepped};

    /// Takes a copy of what a name holds, for a cell that is there; else it is refused.
    pub(crate) fn offer(
        &mut self,
        desk: usize,
        table: &mut Table,
        name: u8,
        cell: CellName,
    ) -> Stepped
        requires begins { BeginsAct desk self.old table.old }
        requires act { (task_at self.old.frame).act ≡ Act.Offer name cell }
        ensures stepped { HasStepped desk self.old table.old result self.new table.new }
        ensures fits { FitsThread desk self.new table.new }
    {
        table.assert_invariant();
        if !self.frame.is_there(cell) {
            return self.refuse(desk, table, cell);
        }
        let statement = self.frame.statement();
        let event = self.frame.offer(desk, table, name, cell);
        says(event, silent(statement))
    }

    /// The first step of a store: the funds of what is in hand are brought. A value without an object goes into the
    /// cell at once.
    pub fn store(&mut self, desk: usize, table: &mut Table, cell: CellName) -> Stepped
        requires begins { BeginsAct desk self.old table.old }
        requires act { (task_at self.old.frame).act ≡ Act.Swap cell }
        ensures stepped { HasStepped desk self.old table.old result self.new table.new }
        ensures fits { FitsThread desk self.new table.new }
    {
        let statement = self.frame.statement();
        let hand = self.frame.registers.hand();
        let Some(pointer) = self.frame.registers.get(hand) else {
            return self.swap(desk, table, cell);
        };
        self.frame.registers.bring(desk, table, hand, pointer);
        self.pending_call = PendingCall::Brought;
        Stepped::Quiet(silent(statement))
    }

    /// The first step of an exchange: the funds of what a name holds are brought. A name without an object is exchanged
    /// at once, and one that may not go into the cell not at all. Where the cell isn't there it is refused.
    #[tactic(auto, using(crate::proofs::Named::refusal_none))]
    pub(crate) fn send(
        &mut self,
        desk: usize,
        table: &mut Table,
        name: u8,
        cell: CellName,
    ) -> Stepped
        requires begins { BeginsAct desk self.old table.old }
        requires act { (task_at self.old.frame).act ≡ Act.Exchange name cell }
        ensures stepped { HasStepped desk self.old table.old result self.new table.new }
        ensures fits { FitsThread desk self.new table.new }
    {
        if !self.frame.is_there(cell) {
            return self.refuse(desk, table, cell);
        }
        let statement = self.frame.statement();
        let from = usize::from(name);
        if !self.frame.may_go_in(from, cell) {
            self.frame.go_on();
            return Stepped::Quiet(silent(statement));
        }
        let Some(pointer) = self.frame.registers.get(from) else {
            return self.exchange(desk, table, name, cell);
        };
        self.frame.registers.bring(desk, table, from, pointer);
        self.pending_call = PendingCall::Brought;
        Stepped::Quiet(silent(statement))
    }

    /// The funds are brought: the value goes into the cell.
    pub(crate) fn put_in(&mut self, desk: usize, table: &mut Table) -> Stepped
        requires fits { FitsThread desk self.old table.old }
        requires pending_call { self.old.pending_call ≡ PendingCall.Brought }
        ensures stepped { HasStepped desk self.old table.old result self.new table.new }
        ensures fits { FitsThread desk self.new table.new }
    {
        match self.frame.tasks[self.frame.at].act {
            Act::Swap { cell } => self.swap(desk, table, cell),
            Act::Exchange { name, cell } => self.exchange(desk, table, name, cell),
            _ => unreachable!(),
        }
    }

    /// What is in hand goes into the cell. What comes out is to be dropped, once its funds are given back.
    fn swap(&mut self, desk: usize, table: &mut Table, cell: CellName) -> Stepped
        requires fits { FitsThread desk self.old table.old }
        requires pending_call { (self.old.pending_call ≡ PendingCall.Rest)
            ⊎ (self.old.pending_call ≡ PendingCall.Brought) }
        requires none { self.old.frame.endings.list ≡ [] }
        requires within { self.old.frame.at < length self.old.frame.tasks.items }
        requires act { (task_at self.old.frame).act ≡ Act.Swap cell }
        requires there { is_there self.old.frame.registers.slots.items cell ≡ true }
        requires kind { is_of (kind_at cell)
            (slot_value self.old.frame.registers.slots.items (hand self.old.frame.registers.slots.items)) ≡ true }
        requires owes { pending table.old desk ≡ owing_for (model_state table.old)
            (slot_value self.old.frame.registers.slots.items (hand self.old.frame.registers.slots.items)) 256 }
        ensures stepped { HasStepped desk self.old table.old result self.new table.new }
        ensures fits { FitsThread desk self.new table.new }
    {
        table.assert_invariant();
        let statement = self.frame.statement();
        let found = self.frame.swap(desk, table, cell);
        self.pending_call = returning(cell.kind(), statement, found);
        Stepped::Event(silent(statement))
    }

    /// What a name holds goes into the cell, and what comes out into the name.
    #[tactic(auto, using(crate::proofs::Named::refusal_none))]
    fn exchange(&mut self, desk: usize, table: &mut Table, name: u8, cell: CellName) -> Stepped
        requires fits { FitsThread desk self.old table.old }
        requires pending_call { (self.old.pending_call ≡ PendingCall.Rest)
            ⊎ (self.old.pending_call ≡ PendingCall.Brought) }
        requires none { self.old.frame.endings.list ≡ [] }
        requires within { self.old.frame.at < length self.old.frame.tasks.items }
        requires act { (task_at self.old.frame).act ≡ Act.Exchange name cell }
        requires there { is_there self.old.frame.registers.slots.items cell ≡ true }
        requires kind { is_of (kind_at cell) (slot_value self.old.frame.registers.slots.items name) ≡ true }
        requires owes { pending table.old desk ≡ owing_for (model_state table.old)
            (slot_value self.old.frame.registers.slots.items name) 256 }
        ensures stepped { HasStepped desk self.old table.old result self.new table.new }
        ensures fits { FitsThread desk self.new table.new }
    {
        table.assert_invariant();
        let statement = self.frame.statement();
        let found = self.frame.exchange(desk, table, name, cell);
        self.pending_call = returning(cell.kind(), statement, found);
        Stepped::Event(silent(statement))
    }

    /// Funds that came out of a cell, or that a compare had brought in vain, are given back.
    pub(crate) fn give_back(
        &mut self,
        desk: usize,
        table: &mut Table,
        kind: Kind,
        block: Block,
        funds: u32,
        statement: u32,
    ) -> Stepped
        requires fits { FitsThread desk self.old table.old }
        requires pending_call { self.old.pending_call ≡ PendingCall.Returning kind block funds statement }
        ensures stepped { HasStepped desk self.old table.old result self.new table.new }
        ensures fits { FitsThread desk self.new table.new }
    {
        table.assert_invariant();
        table.give_back(desk, kind, block, funds);
        self.pending_call = PendingCall::Rest;
        Stepped::Quiet(silent(statement))
    }

    /// Leaves what is to be dropped. Where that was the last owner, the end of its object begins.
    pub(crate) fn drop_other(&mut self, desk: usize, table: &mut Table) -> Stepped
        requires begins { BeginsAct desk self.old table.old }
        requires act { (task_at self.old.frame).act ≡ Act.Drop }
        ensures stepped { HasStepped desk self.old table.old result self.new table.new }
        ensures fits { FitsThread desk self.new table.new }
    {
        table.assert_invariant();
        let statement = self.frame.statement();
        let held = self.frame.registers.get(self.frame.registers.other());
        let last = self.frame.drop_other(desk, table);
        table.assert_invariant();
        let ended = self.left(desk, table, held, last, statement);
        says(
            held.is_some(),
            Said {
                statement,
                answer: None,
                ended,
            },
        )
    }
}

/// The funds of what came out of a cell that were not taken are given back, where it has an object.
pub(crate) fn returning(kind: Kind, statement: u32, found: CellWord) -> PendingCall
    requires { found.taken ≤ 256 }
    ensures { result ≡ gives_back kind statement found found.owned }
{
    match found.owned {
        None => PendingCall::Rest,
        Some(block) => PendingCall::Returning {
            kind,
            block,
            funds: CELL_FUNDS - found.taken,
            statement,
        },
    }
}
