//! How a thread that took a fund of a cell turns it into a handle and puts back those that were taken, step by step.
ghost use Rattle.std.specs.Prelude.{◌≡◌, cond, Some};
ghost use Rattle.step_table.specs.Refills.{is_drained, is_low};
ghost use Rattle.step_threads.specs.declared.pending_call.PendingCall.{PendingCall};
ghost use Rattle.step_table.specs.declared.cell_steps.refill.Stage.{Stage};

use crate::pending_call::PendingCall;
use crate::said::Stepped;
use crate::thread::{Thread, silent};
use control_word::place::Block;
use control_word::{CellWord, Handle, Site};
use step_table::cell_steps::compares::is_same_value;
use step_table::cell_steps::refill::Stage;
use step_table::memory::table::Table;

/// Most funds of a cell's that are taken before they are put back.
const MOST_TAKEN: u32 = 127;

impl Thread {
    ghost use Rattle.step_threads.specs.Threads.{FitsThread, HasStepped};

    /// The next step of a thread that took a fund of a cell.
    pub(crate) fn refill_on(
        &mut self,
        desk: usize,
        table: &mut Table,
        stage: Stage,
        cell: Site,
        found: CellWord,
        statement: u32,
    ) -> Stepped
        requires fits { FitsThread desk self.old table.old }
        requires pending_call { self.old.pending_call ≡ PendingCall.Refill stage cell found statement }
        ensures stepped { HasStepped desk self.old table.old result self.new table.new }
        ensures fits { FitsThread desk self.new table.new }
    {
        let Some(block) = found.owned else {
            unreachable!()
        };
        match stage {
            Stage::Turning => self.turn(desk, table, cell, found, block, statement),
            Stage::Checking => self.check(desk, table, cell, found, statement),
            Stage::Lacking => self.refund(desk, table, cell, found, block, statement),
            Stage::Refilling => self.refill(desk, table, cell, found, statement),
            Stage::Failing => self.fail(desk, table, cell, found, block, statement),
        }
    }

    /// The fund becomes a handle. Where many were taken, the cell is looked at next.
    fn turn(
        &mut self,
        desk: usize,
        table: &mut Table,
        cell: Site,
        found: CellWord,
        block: Block,
        statement: u32,
    ) -> Stepped
        requires fits { FitsThread desk self.old table.old }
        requires pending_call { self.old.pending_call ≡ PendingCall.Refill Stage.Turning cell found statement }
        requires owned { found.owned ≡ Some block }
        ensures stepped { HasStepped desk self.old table.old result self.new table.new }
        ensures fits { FitsThread desk self.new table.new }
    {
        table.assert_invariant();
        table.turn_fund(desk, table.kind_in(cell), block);
        self.pending_call = if is_low(found) {
            at_stage(Stage::Checking, cell, found, statement)
        } else {
            PendingCall::Rest
        };
        Stepped::Quiet(silent(statement))
    }

    /// Looks whether the cell holds the same value still, and has lost many funds: as many are brought next.
    fn check(
        &mut self,
        desk: usize,
        table: &mut Table,
        cell: Site,
        found: CellWord,
        statement: u32,
    ) -> Stepped
        requires fits { FitsThread desk self.old table.old }
        requires pending_call { self.old.pending_call ≡ PendingCall.Refill Stage.Checking cell found statement }
        ensures stepped { HasStepped desk self.old table.old result self.new table.new }
        ensures fits { FitsThread desk self.new table.new }
    {
        table.assert_invariant();
        let now = table.shown(desk, cell);
        self.pending_call = if is_drained(found, now) {
            at_stage(Stage::Lacking, cell, now, statement)
        } else {
            PendingCall::Rest
        };
        Stepped::Quiet(silent(statement))
    }

    /// As many funds are brought as were taken.
    fn refund(
        &mut self,
        desk: usize,
        table: &mut Table,
        cell: Site,
        found: CellWord,
        block: Block,
        statement: u32,
    ) -> Stepped
        requires fits { FitsThread desk self.old table.old }
        requires pending_call { self.old.pending_call ≡ PendingCall.Refill Stage.Lacking cell found statement }
        requires owned { found.owned ≡ Some block }
        ensures stepped { HasStepped desk self.old table.old result self.new table.new }
        ensures fits { FitsThread desk self.new table.new }
    {
        table.assert_invariant();
        let pointer = Handle {
            kind: table.kind_in(cell),
            block,
            place: found.place,
        };
        table.bring(desk, pointer, found.taken);
        self.pending_call = at_stage(Stage::Refilling, cell, found, statement);
        Stepped::Quiet(silent(statement))
    }

    /// They go into the cell, where it shows the same still; else they are given back next.
    fn refill(
        &mut self,
        desk: usize,
        table: &mut Table,
        cell: Site,
        found: CellWord,
        statement: u32,
    ) -> Stepped
        requires fits { FitsThread desk self.old table.old }
        requires pending_call { self.old.pending_call ≡ PendingCall.Refill Stage.Refilling cell found statement }
        ensures stepped { HasStepped desk self.old table.old result self.new table.new }
        ensures fits { FitsThread desk self.new table.new }
    {
        table.assert_invariant();
        self.pending_call = if table.refill_cell(desk, cell, found) {
            PendingCall::Rest
        } else {
            at_stage(Stage::Failing, cell, found, statement)
        };
        Stepped::Quiet(silent(statement))
    }

    /// They are given back, and the cell is looked at again.
    fn fail(
        &mut self,
        desk: usize,
        table: &mut Table,
        cell: Site,
        found: CellWord,
        block: Block,
        statement: u32,
    ) -> Stepped
        requires fits { FitsThread desk self.old table.old }
        requires pending_call { self.old.pending_call ≡ PendingCall.Refill Stage.Failing cell found statement }
        requires owned { found.owned ≡ Some block }
        ensures stepped { HasStepped desk self.old table.old result self.new table.new }
        ensures fits { FitsThread desk self.new table.new }
    {
        table.assert_invariant();
        let kind = table.kind_in(cell);
        table.give_back(desk, kind, block, found.taken);
        self.pending_call = at_stage(Stage::Checking, cell, found, statement);
        Stepped::Quiet(silent(statement))
    }
}

/// How far the refill of a cell is.
fn at_stage(stage: Stage, cell: Site, found: CellWord, statement: u32) -> PendingCall
    ensures { result ≡ PendingCall.Refill stage cell found statement }
{
    PendingCall::Refill {
        stage,
        cell,
        found,
        statement,
    }
}

/// Whether so many funds were taken that they are to be put back.
fn is_low(found: CellWord) -> bool
    ensures { result ≡ is_low found }
{
    found.taken > MOST_TAKEN
}

/// Whether a cell that showed a value holds it still, and has lost many funds.
fn is_drained(found: CellWord, now: CellWord) -> bool
    ensures { result ≡ is_drained found now }
{
    is_same_value(found, now) && is_low(now)
}
