//! Acts on cells.
ghost use Rattle.std.specs.Prelude.{◌≡◌, ◌<◌, ◌+◌, ◌-◌, false, true};
ghost use Rattle.control_word.specs.declared.model.handle.Kind.{Kind as KindOf};
ghost use Rattle.script_runner.specs.SlotCalls.{IsBelow, MovesSlot};
ghost use Rattle.step_threads.specs.declared.programs.act.Act.TheVariants as act;
ghost use Rattle.step_threads.specs.Programs.{kind_at};
ghost use Rattle.script_runner.specs.CellCalls.{IsOfName};
ghost use Rattle.script_runner.specs.Deals.{IsActed, IsDealt};
ghost use Rattle.script_runner.specs.Kinds.{HasKind, IsVacant, KeepsKinds, TakesKind};
ghost use Rattle.script_runner.specs.Reached.{IsReachable, SetsAside, nothing};
ghost use Rattle.script_runner.specs.Seats.{IsHand, IsSeated};

use crate::acts::act_result::{ActResult, refused};
use crate::table::{Home, WorkerTable};
use std::sync::Wait;
use step_core::{Answer, CellName};

/// What is in hand is to be dropped.
pub(crate) fn set_aside<H: Home>(table: &mut WorkerTable<'_, u64, H>, hand: usize)
    requires hand { 0 < hand }
    requires full { (k : KindOf) × HasKind table.old.slots hand k }
    ensures moved { MovesSlot table.old hand (hand - 1) table.new }
    ensures kinds { SetsAside hand table.old table.new }
{
    table.move_to(hand, hand - 1);
}

/// A copy of what a name holds, which is to go into a cell.
pub(crate) fn offer<H: Home>(
    table: &mut WorkerTable<'_, u64, H>,
    hand: usize,
    name: u8,
    cell: CellName,
) -> ActResult
    requires hand { IsHand (hand + 1) hand table.old }
    requires name { name < hand }
    requires named { IsOfName hand cell }
    requires reached { IsReachable table.old cell }
    requires kind { HasKind table.old.slots name (kind_at cell) }
    requires below { IsBelow table.old.desk }
    ensures acts { IsActed hand table.old false (act.Offer name cell) result table.new }
    ensures kinds { TakesKind hand (kind_at cell) result.taken table.old table.new }
{
    match table.reaches(cell) {
        Ok(()) => {}
        Err(why) => return refused(why),
    }
    table.copy(usize::from(name), hand);
    ActResult {
        taken: true,
        answer: None,
        ended: None,
    }
}

/// A copy of what a cell holds.
pub(crate) fn load<H: Home, R: Wait>(
    rt: &R,
    table: &mut WorkerTable<'_, u64, H>,
    hand: usize,
    cell: CellName,
) -> ActResult
    requires hand { IsHand (hand + 1) hand table.old }
    requires named { IsOfName hand cell }
    requires reached { IsReachable table.old cell }
    requires below { IsBelow table.old.desk }
    ensures acts { IsActed hand table.old false (act.Load cell) result table.new }
    ensures kinds { TakesKind hand (kind_at cell) result.taken table.old table.new }
{
    match table.load(rt, cell, hand) {
        Ok(()) => {
            table.assert_invariant();
            ActResult {
                taken: true,
                answer: None,
                ended: None,
            }
        }
        Err(why) => refused(why),
    }
}

/// What a name holds goes into a cell, and what that held comes to the name.
pub(crate) fn exchange<H: Home>(
    table: &mut WorkerTable<'_, u64, H>,
    hand: usize,
    taken: bool,
    name: u8,
    cell: CellName,
) -> ActResult
    requires seated { IsSeated (hand + 1) hand table.old }
    requires name { name < hand }
    requires named { IsOfName hand cell }
    requires reached { IsReachable table.old cell }
    requires kind { HasKind table.old.slots name (kind_at cell) }
    ensures acts { IsActed hand table.old taken (act.Exchange name cell) result table.new }
    ensures taken { result.taken ≡ taken }
    ensures kinds { KeepsKinds table.old table.new }
{
    match table.exchange(usize::from(name), cell) {
        Ok(()) => {
            table.assert_invariant();
            ActResult {
                taken,
                answer: None,
                ended: None,
            }
        }
        Err(why) => ActResult {
            taken,
            answer: Some(Answer::Refused(why)),
            ended: None,
        },
    }
}

/// Whether a cell holds what a name does.
pub(crate) fn holds<H: Home>(
    table: &mut WorkerTable<'_, u64, H>,
    hand: usize,
    taken: bool,
    name: u8,
    cell: CellName,
) -> ActResult
    requires seated { IsSeated (hand + 1) hand table.old }
    requires name { name < hand }
    requires named { IsOfName hand cell }
    requires reached { IsReachable table.old cell }
    requires kind { HasKind table.old.slots name (kind_at cell) }
    ensures acts { IsActed hand table.old taken (act.Holds name cell) result table.new }
    ensures taken { result.taken ≡ taken }
    ensures same { table.new.slots ≡ table.old.slots }
{
    match table.holds(cell, usize::from(name)) {
        Ok(holds) => ActResult {
            taken,
            answer: Some(Answer::Holds(holds)),
            ended: None,
        },
        Err(why) => ActResult {
            taken,
            answer: Some(Answer::Refused(why)),
            ended: None,
        },
    }
}

/// What is in hand goes into a cell, and what that held is to be dropped; or what was in hand is, where the cell isn't
/// there.
fn swap_taken<H: Home>(table: &mut WorkerTable<'_, u64, H>, hand: usize, cell: CellName)
    requires seated { IsSeated (hand + 1) hand table.old }
    requires hand { 0 < hand }
    requires named { IsOfName hand cell }
    requires reached { IsReachable table.old cell }
    requires full { HasKind table.old.slots hand (kind_at cell) }
    requires other { IsVacant table.old.slots (hand - 1) }
    ensures acts { IsDealt hand table.old true (act.Swap cell) nothing table.new }
    ensures kinds { SetsAside hand table.old table.new }
{
    match table.exchange(hand, cell) {
        Ok(()) => {
            table.assert_invariant();
            set_aside(table, hand);
        }
        Err(_) => set_aside(table, hand),
    }
}

/// The same, where something is in hand.
pub(crate) fn swap<H: Home>(
    table: &mut WorkerTable<'_, u64, H>,
    hand: usize,
    taken: bool,
    cell: CellName,
) -> ActResult
    requires seated { IsSeated (hand + 1) hand table.old }
    requires hand { 0 < hand }
    requires named { IsOfName hand cell }
    requires reached { IsReachable table.old cell }
    requires full { taken ≡ true → HasKind table.old.slots hand (kind_at cell) }
    requires other { IsVacant table.old.slots (hand - 1) }
    ensures acts { IsDealt hand table.old taken (act.Swap cell) result table.new }
    ensures taken { result.taken ≡ false }
    ensures kept { taken ≡ false → KeepsKinds table.old table.new }
    ensures aside { taken ≡ true → SetsAside hand table.old table.new }
{
    if !taken {
        return ActResult {
            taken,
            answer: None,
            ended: None,
        };
    }
    swap_taken(table, hand, cell);
    ActResult {
        taken: false,
        answer: None,
        ended: None,
    }
}
