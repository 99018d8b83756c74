//! How a thread loads and compares what cells hold, step by step.
ghost use Rattle.std.specs.Prelude.{◌≡◌, ◌⊎◌, ◌<◌, true, false, Some, None};
ghost use Rattle.step_table.specs.Contents.{as_word, owing_for, same_value};
ghost use Rattle.step_threads.specs.Frames.{hand};
ghost use Rattle.step_table.specs.Registers.{slot_value};
ghost use Rattle.step_table.specs.Refills.{more_taken};
ghost use Rattle.step_threads.specs.Steps.{missed};
ghost use Rattle.step_table.specs.GhostStates.{pending, model_state};
ghost use Rattle.step_threads.specs.declared.pending_call.PendingCall.{PendingCall};
ghost use Rattle.step_table.specs.declared.cell_steps.refill.Stage.{Stage};

use crate::act_steps::stores::returning;
use crate::pending_call::PendingCall;
use crate::programs::act::Act;
use crate::programs::call::CellName;
use crate::said::{Answer, Said, Stepped};
use crate::thread::{Thread, silent};
use control_word::shape::CELL_FUNDS;
use control_word::{CellWord, Handle, Site};
use step_table::cell_steps::compares::is_same_value;
use step_table::cell_steps::refill::Stage;
use step_table::memory::table::Table;

impl Thread {
    ghost use Rattle.step_threads.specs.Frames.{task_at};
    ghost use Rattle.step_threads.specs.Threads.{BeginsAct, FitsThread, HasStepped};

    /// The first step of a load: a look at the cell, where it is there; else it is refused. A value without an object
    /// is loaded at once, and one of which all funds were taken has to wait.
    pub(crate) fn load(&mut self, desk: usize, table: &mut Table, cell: CellName) -> Stepped
        requires begins { BeginsAct desk self.old table.old }
        requires act { (task_at self.old.frame).act ≡ Act.Load cell }
        ensures stepped { HasStepped desk self.old table.old result self.new table.new }
        ensures fits { FitsThread desk self.new table.new }
    {
        table.assert_invariant();
        if !self.frame.is_there(cell) {
            return self.refuse(desk, table, cell);
        }
        let statement = self.frame.statement();
        let found = self.frame.look_to_load(desk, table, cell);
        if found.owned.is_none() {
            return Stepped::Event(silent(statement));
        }
        if found.taken == CELL_FUNDS {
            return Stepped::Waited;
        }
        self.pending_call = PendingCall::Saw { found };
        Stepped::Quiet(silent(statement))
    }

    /// The first step of a compare: a look at the cell. A value without an object that isn't what is expected is found
    /// to differ at once, and one that differs and of which all funds were taken has to wait.
    pub fn compare(
        &mut self,
        desk: usize,
        table: &mut Table,
        name: u8,
        cell: CellName,
        weak: bool,
    ) -> Stepped
        requires begins { BeginsAct desk self.old table.old }
        requires act { (task_at self.old.frame).act ≡ Act.Compare name cell weak }
        ensures stepped { HasStepped desk self.old table.old result self.new table.new }
        ensures fits { FitsThread desk self.new table.new }
    {
        table.assert_invariant();
        let statement = self.frame.statement();
        let expected = self.frame.word(name);
        let found = self.frame.look_to_compare(desk, table, name, cell, weak);
        if !is_same_value(found, expected) {
            if found.owned.is_none() {
                return Stepped::Event(compared(statement, false));
            }
            if found.taken == CELL_FUNDS {
                return Stepped::Waited;
            }
        }
        self.pending_call = PendingCall::Saw { found };
        Stepped::Quiet(silent(statement))
    }

    /// The next step of a load or a compare that has seen this.
    pub(crate) fn look_on(&mut self, desk: usize, table: &mut Table, found: CellWord) -> Stepped
        requires fits { FitsThread desk self.old table.old }
        requires pending_call { self.old.pending_call ≡ PendingCall.Saw found }
        ensures stepped { HasStepped desk self.old table.old result self.new table.new }
        ensures fits { FitsThread desk self.new table.new }
    {
        match self.frame.tasks[self.frame.at].act {
            Act::Load { cell } => self.take(desk, table, cell, found),
            Act::Compare { name, cell, weak } => {
                if self.frame.is_alike(name, found) {
                    self.fetch(desk, table, name, cell, weak, found)
                } else {
                    self.differ(desk, table, name, cell, weak, found)
                }
            }
            _ => unreachable!(),
        }
    }

    /// Takes a fund of a cell that is loaded, where it shows the same still; else the load begins again.
    fn take(&mut self, desk: usize, table: &mut Table, cell: CellName, found: CellWord) -> Stepped
        requires fits { FitsThread desk self.old table.old }
        requires pending_call { self.old.pending_call ≡ PendingCall.Saw found }
        requires act { (task_at self.old.frame).act ≡ Act.Load cell }
        ensures stepped { HasStepped desk self.old table.old result self.new table.new }
        ensures fits { FitsThread desk self.new table.new }
    {
        table.assert_invariant();
        let statement = self.frame.statement();
        let at = self.frame.cell(table, cell);
        if !self.frame.take_fund(desk, table, cell, found) {
            self.pending_call = PendingCall::Rest;
            return Stepped::Quiet(silent(statement));
        }
        self.pending_call = turning(at, found, statement);
        Stepped::Event(silent(statement))
    }

    /// Takes a fund of a cell that isn't what is expected, where it shows the same still; else the compare begins
    /// again.
    fn differ(
        &mut self,
        desk: usize,
        table: &mut Table,
        name: u8,
        cell: CellName,
        weak: bool,
        found: CellWord,
    ) -> Stepped
        requires fits { FitsThread desk self.old table.old }
        requires pending_call { self.old.pending_call ≡ PendingCall.Saw found }
        requires act { (task_at self.old.frame).act ≡ Act.Compare name cell weak }
        requires differs { same_value found (as_word (slot_value self.old.frame.registers.slots.items name)) ≡ false }
        ensures stepped { HasStepped desk self.old table.old result self.new table.new }
        ensures fits { FitsThread desk self.new table.new }
    {
        table.assert_invariant();
        let statement = self.frame.statement();
        let at = self.frame.cell(table, cell);
        if !self
            .frame
            .take_differing(desk, table, name, cell, weak, found)
        {
            self.pending_call = PendingCall::Rest;
            return Stepped::Quiet(silent(statement));
        }
        self.pending_call = turning(at, found, statement);
        Stepped::Event(compared(statement, false))
    }

    /// The cell was seen to hold what is expected: the funds of what is in hand are brought. A value without an object
    /// goes in at once.
    fn fetch(
        &mut self,
        desk: usize,
        table: &mut Table,
        name: u8,
        cell: CellName,
        weak: bool,
        found: CellWord,
    ) -> Stepped
        requires fits { FitsThread desk self.old table.old }
        requires pending_call { self.old.pending_call ≡ PendingCall.Saw found }
        requires act { (task_at self.old.frame).act ≡ Act.Compare name cell weak }
        requires alike { same_value found (as_word (slot_value self.old.frame.registers.slots.items name)) ≡ true }
        ensures stepped { HasStepped desk self.old table.old result self.new table.new }
        ensures fits { FitsThread desk self.new table.new }
    {
        let statement = self.frame.statement();
        let hand = self.frame.registers.hand();
        let Some(pointer) = self.frame.registers.get(hand) else {
            return self.match_cell(desk, table, name, cell, weak, found);
        };
        self.frame.registers.bring(desk, table, hand, pointer);
        self.pending_call = PendingCall::Matched { found };
        Stepped::Quiet(silent(statement))
    }

    /// The funds are brought: the cell is swapped, where it shows the same still.
    pub(crate) fn match_on(&mut self, desk: usize, table: &mut Table, found: CellWord) -> Stepped
        requires fits { FitsThread desk self.old table.old }
        requires pending_call { self.old.pending_call ≡ PendingCall.Matched found }
        ensures stepped { HasStepped desk self.old table.old result self.new table.new }
        ensures fits { FitsThread desk self.new table.new }
    {
        let Act::Compare { name, cell, weak } = self.frame.tasks[self.frame.at].act else {
            unreachable!()
        };
        self.match_cell(desk, table, name, cell, weak, found)
    }

    /// Swaps a cell that was seen to hold what is expected, where it shows the same still: what comes out is to be
    /// dropped, once its funds are given back. Else those that were brought are given back, and the compare begins
    /// again.
    fn match_cell(
        &mut self,
        desk: usize,
        table: &mut Table,
        name: u8,
        cell: CellName,
        weak: bool,
        found: CellWord,
    ) -> Stepped
        requires fits { FitsThread desk self.old table.old }
        requires pending_call { (self.old.pending_call ≡ PendingCall.Saw found)
            ⊎ (self.old.pending_call ≡ PendingCall.Matched found) }
        requires act { (task_at self.old.frame).act ≡ Act.Compare name cell weak }
        requires alike { same_value found (as_word (slot_value self.old.frame.registers.slots.items name)) ≡ true }
        requires owes { pending table.old desk ≡ owing_for (model_state table.old)
            (slot_value self.old.frame.registers.slots.items (hand self.old.frame.registers.slots.items)) 256 }
        ensures stepped { HasStepped desk self.old table.old result self.new table.new }
        ensures fits { FitsThread desk self.new table.new }
    {
        table.assert_invariant();
        let statement = self.frame.statement();
        let brought = self.frame.registers.get(self.frame.registers.hand());
        let at = self.frame.cell(table, cell);
        let kind = table.kind_in(at);
        if !self
            .frame
            .compare_and_swap(desk, table, name, cell, weak, found)
        {
            self.pending_call = missed(statement, brought);
            return Stepped::Quiet(silent(statement));
        }
        self.pending_call = returning(kind, statement, found);
        Stepped::Event(compared(statement, true))
    }
}

/// A fund of a cell was taken that showed this: it is turned next.
fn turning(cell: Site, found: CellWord, statement: u32) -> PendingCall
    requires { found.taken < 256 }
    ensures { result ≡ PendingCall.Refill Stage.Turning cell (more_taken found) statement }
{
    PendingCall::Refill {
        stage: Stage::Turning,
        cell,
        found: CellWord {
            taken: found.taken + 1,
            ..found
        },
        statement,
    }
}

/// What was brought for a value is given back, where it has an object.
fn missed(statement: u32, brought: Option<Handle>) -> PendingCall
    ensures { result ≡ missed statement brought }
{
    match brought {
        None => PendingCall::Rest,
        Some(pointer) => PendingCall::Returning {
            kind: pointer.kind,
            block: pointer.block,
            funds: CELL_FUNDS,
            statement,
        },
    }
}

/// What a compare says that is done.
fn compared(statement: u32, swapped: bool) -> Said
    ensures { result ≡ record { statement = statement; answer = Some (Answer.Compared swapped); ended = None } }
{
    let answer = Some(Answer::Compared(swapped));
    Said {
        statement,
        answer,
        ended: None,
    }
}
