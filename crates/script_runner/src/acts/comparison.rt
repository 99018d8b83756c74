//! A comparison of a cell with what a name holds.
ghost use Rattle.std.specs.Prelude.{◌≡◌, ◌≢◌, ◌<◌, ◌+◌, ◌-◌, true, IfNone, IfSome, None, Some};
ghost use Rattle.script_runner.specs.SlotCalls.{IsBelow};
ghost use Rattle.step_threads.specs.declared.programs.act.Act.TheVariants as act;
ghost use Rattle.step_threads.specs.Programs.{kind_at};
ghost use Rattle.script_runner.specs.CellCalls.{IsOfName};
ghost use Rattle.script_runner.specs.Deals.{IsCompared, IsPassedOver};
ghost use Rattle.script_runner.specs.Kinds.{HasKind, IsVacant, SetsKind};
ghost use Rattle.script_runner.specs.Reached.{IsReachable, SetsAside, nothing};
ghost use Rattle.script_runner.specs.Seats.{IsSeated};

use crate::acts::cells::set_aside;
use crate::table::{Home, WorkerTable};
use std::sync::Wait;
use step_core::CellName;

/// What is in hand goes into a cell that is equivalent to a name, and what that held leaves: true. Or else the name
/// gets what the cell holds, and what was in hand is to be dropped: false. Where the cell isn't there it is to be
/// dropped as well, and there is no answer.
pub(crate) fn compare<H: Home, R: Wait>(
    rt: &R,
    table: &mut WorkerTable<'_, u64, H>,
    hand: usize,
    name: u8,
    cell: CellName,
    weak: bool,
) -> Option<bool>
    requires seated { IsSeated (hand + 1) hand table.old }
    requires name { name + 1 < hand }
    requires named { IsOfName hand cell }
    requires reached { IsReachable table.old cell }
    requires kinds { HasKind table.old.slots name (kind_at cell) × HasKind table.old.slots hand (kind_at cell) }
    requires other { IsVacant table.old.slots (hand - 1) }
    requires below { IsBelow table.old.desk }
    ensures compared { IfSome result (λ swapped. IsCompared hand table.old name cell weak swapped table.new) }
    ensures missing { IfNone result
        (IsPassedOver hand table.old true (act.Compare name cell weak) nothing table.new) }
    ensures swapped { result ≡ Some true → SetsKind hand None table.old table.new }
    ensures aside { result ≢ Some true → SetsAside hand table.old table.new }
{
    match table.compare(rt, cell, usize::from(name), hand, weak) {
        Ok(true) => Some(true),
        Ok(false) => {
            set_aside(table, hand);
            Some(false)
        }
        Err(_) => {
            set_aside(table, hand);
            None
        }
    }
}
