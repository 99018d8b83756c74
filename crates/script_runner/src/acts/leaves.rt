//! Acts by which a slot becomes empty, and what lay there leaves.
ghost use Rattle.std.specs.Prelude.{◌≡◌, ◌⊎◌, ◌<◌, ◌+◌, ◌-◌, [], true, false};
ghost use Rattle.std.specs.Prelude.{None, Some, slice_get, slice_set};
ghost use Rattle.control_block.specs.declared.handles.Held.{Held};
ghost use Rattle.control_word.specs.declared.model.handle.Kind.{Kind};
ghost use Rattle.script_runner.specs.SlotCalls.{IsBelow};
ghost use Rattle.script_runner.specs.Parts.{block_of_held};
ghost use Rattle.script_runner.specs.Tables.{Slot};
ghost use Rattle.step_threads.specs.declared.programs.act.Act.TheVariants as act;
ghost use Rattle.script_runner.specs.Deals.{IsActed, IsDealt};
ghost use Rattle.script_runner.specs.Kinds.{HasKind, KeepsKinds, SetsKind};
ghost use Rattle.script_runner.specs.Seats.{IsSeated};
ghost use Rattle.script_runner.specs.Teams.{HasNoObject};

use crate::acts::act_result::ActResult;
use crate::table::{Home, WorkerTable};
use crate::workers::seats::{empty, is_full, top_of};
use step_core::Kind;

/// What is in hand goes to a name, and what that held leaves.
pub(crate) fn put<H: Home>(
    table: &mut WorkerTable<'_, u64, H>,
    hand: usize,
    taken: bool,
    name: u8,
) -> ActResult
    requires seated { IsSeated (hand + 1) hand table.old }
    requires settled { table.old.endings ≡ [] }
    requires name { name < hand }
    requires kind { (k : Kind) × HasKind table.old.slots name k }
    requires full { taken ≡ true
        → (k : Kind) → HasKind table.old.slots name k → HasKind table.old.slots hand k }
    ensures acts { IsDealt hand table.old taken (act.Put name) result table.new }
    ensures taken { result.taken ≡ false }
    ensures kinds { taken ≡ true → SetsKind hand None table.old table.new }
    ensures idle { taken ≡ false → KeepsKinds table.old table.new }
{
    if !taken {
        return ActResult {
            taken,
            answer: None,
            ended: None,
        };
    }
    let busy = is_full(table, usize::from(name));
    table.move_to(hand, usize::from(name));
    let top = top_of(table);
    ActResult {
        taken: false,
        answer: None,
        ended: if busy { top } else { None },
    }
}

/// What a name holds leaves.
pub(crate) fn leave<H: Home>(
    table: &mut WorkerTable<'_, u64, H>,
    hand: usize,
    taken: bool,
    kinds: &Vec<Kind>,
    name: u8,
) -> ActResult
    requires seated { IsSeated (hand + 1) hand table.old }
    requires settled { table.old.endings ≡ [] }
    requires name { name < hand }
    requires below { IsBelow table.old.desk }
    requires kind { (k : Kind) × (slice_get kinds.now.items name ≡ Some k) × HasKind table.old.slots name k }
    ensures acts { IsActed hand table.old taken (act.Leave name) result table.new }
    ensures taken { result.taken ≡ taken }
    ensures slots { (table.new.slots ≡ table.old.slots) ⊎ ((h : Held)
        × (table.new.slots ≡ slice_set table.old.slots name (Some h)) × (block_of_held h ≡ None)) }
    ensures kinds { KeepsKinds table.old table.new }
{
    empty(table, kinds, usize::from(name));
    let ended = top_of(table);
    ActResult {
        taken,
        answer: None,
        ended,
    }
}

/// The same at the end of a thread, where a name without an object is passed over.
pub(crate) fn clear<H: Home>(
    table: &mut WorkerTable<'_, u64, H>,
    hand: usize,
    taken: bool,
    kinds: &Vec<Kind>,
    name: u8,
) -> ActResult
    requires seated { IsSeated (hand + 1) hand table.old }
    requires settled { table.old.endings ≡ [] }
    requires name { name < hand }
    requires below { IsBelow table.old.desk }
    requires kind { (k : Kind) × (slice_get kinds.now.items name ≡ Some k) × HasKind table.old.slots name k }
    ensures acts { IsDealt hand table.old taken (act.Clear name) result table.new }
    ensures taken { result.taken ≡ taken }
    ensures slots { (table.new.slots ≡ table.old.slots) ⊎ ((h : Held)
        × (table.new.slots ≡ slice_set table.old.slots name (Some h)) × (block_of_held h ≡ None)) }
    ensures kinds { KeepsKinds table.old table.new }
    ensures bare { (s : Slot) → slice_get table.new.slots name ≡ Some s → HasNoObject s }
{
    if !is_full(table, usize::from(name)) {
        return ActResult {
            taken,
            answer: None,
            ended: None,
        };
    }
    empty(table, kinds, usize::from(name));
    let ended = top_of(table);
    ActResult {
        taken,
        answer: None,
        ended,
    }
}

/// What is to be dropped leaves.
pub(crate) fn let_drop<H: Home>(
    table: &mut WorkerTable<'_, u64, H>,
    hand: usize,
    taken: bool,
) -> ActResult
    requires seated { IsSeated (hand + 1) hand table.old }
    requires settled { table.old.endings ≡ [] }
    requires other { 0 < hand }
    ensures acts { IsDealt hand table.old taken act.Drop result table.new }
    ensures taken { result.taken ≡ taken }
    ensures kinds { SetsKind (hand - 1) None table.old table.new }
{
    let busy = is_full(table, hand - 1);
    match table.reset(hand - 1) {
        Some(_) => {}
        None => {
            return ActResult {
                taken,
                answer: None,
                ended: None,
            };
        }
    }
    let top = top_of(table);
    ActResult {
        taken,
        answer: None,
        ended: if busy { top } else { None },
    }
}
