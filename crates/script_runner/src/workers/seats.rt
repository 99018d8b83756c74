//! What a worker sees of its table.
ghost use Rattle.std.specs.Prelude.{◌≡◌, ◌<◌, ◌+◌, ℕ, [], true, false, length, IfNone, IfSome};
ghost use Rattle.std.specs.Prelude.{slice_get, slice_set, None, Some};
ghost use Rattle.control_block.specs.declared.handles.Held.{Held};
ghost use Rattle.control_word.specs.declared.model.handle.Kind.{Kind};
ghost use Rattle.script_runner.specs.SlotCalls.{IsBelow};
ghost use Rattle.script_runner.specs.Parts.{block_of_held};
ghost use Rattle.step_table.specs.declared.memory.ended.Ended.TheVariants as ended;
ghost use Rattle.step_table.specs.Registers.{is_full as has, slot_pointer};
ghost use Rattle.script_runner.specs.Deals.{IsEmptied, IsRoundTold, IsHandOfTable, IsTop};
ghost use Rattle.script_runner.specs.Kinds.{SetsKind};
ghost use Rattle.script_runner.specs.Seats.{IsSeated, shown_slots};

use crate::table::ends::Remains;
use crate::table::{Home, WorkerTable};
use shared_handle::{Gone, Round};
use step_core::{Ended, Kind};

/// Whether the slot has an object's handle.
pub(crate) fn is_full<H: Home>(table: &WorkerTable<'_, u64, H>, at: usize) -> bool
    ensures { (m : ℕ) → at < m → has (slot_pointer (shown_slots m table.now.slots) at) ≡ result }
{
    table.has_object(at)
}

/// What is told of the object that was last left to end.
pub(crate) fn top_of<H: Home>(table: &mut WorkerTable<'_, u64, H>) -> Option<Ended>
    ensures none { IfNone result (table.old.endings ≡ []) }
    ensures told { IfSome result (IsTop table.old) }
    ensures same { table.new ≡ table.old }
{
    table.assert_invariant();
    match table.remains() {
        None => None,
        Some(Remains::Null) => Some(Ended::Null),
        Some(Remains::Fields(fields)) => Some(as_fields(fields)),
    }
}

/// What is told of an object that is left to end by a round.
pub(crate) fn told_of<H: Home>(
    table: &mut WorkerTable<'_, u64, H>,
    round: &Round<u64>,
) -> Option<Ended>
    ensures told { IsRoundTold table.old round.now result }
    ensures same { table.new ≡ table.old }
{
    match round {
        Round::Cleared(_, Gone::Last) => top_of(table),
        _ => None,
    }
}

/// What an object with these fields was.
fn as_fields(fields: [u64; 4]) -> Ended
    ensures { (length fields ≡ 4) × (result ≡ ended.Fields fields) }
{
    Ended::Fields(fields)
}

/// A name becomes empty, of its kind, and what it held leaves.
pub(crate) fn empty<H: Home>(table: &mut WorkerTable<'_, u64, H>, kinds: &Vec<Kind>, name: usize)
    requires below { IsBelow table.old.desk }
    requires slot { name < length table.old.slots }
    requires kind { (k : Kind) × (slice_get kinds.now.items name ≡ Some k) }
    ensures emptied { IsEmptied table.old name table.new }
    ensures kinds { (k : Kind) → slice_get kinds.now.items name ≡ Some k
        → SetsKind name (Some k) table.old table.new }
    ensures bare { (h : Held) × (table.new.slots ≡ slice_set table.old.slots name (Some h))
        × (block_of_held h ≡ None) }
{
    match kinds.get(name) {
        Some(Kind::Owner) => table.empty(name),
        Some(Kind::Weak) => table.empty_weak(name),
        None => unreachable!(),
    }
}
