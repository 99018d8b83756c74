//! How a worker begins its thread.
ghost use Rattle.std.specs.Prelude.{◌≤◌, ◌+◌, length};
ghost use Rattle.script_runner.specs.Beginnings.{HasBegun, IsFitting};

use crate::table::{Home, WorkerTable};
use crate::workers::seats::empty;
use step_core::Kind;

/// Each name becomes empty.
pub(crate) fn begin<H: Home>(table: &mut WorkerTable<'_, u64, H>, kinds: &Vec<Kind>)
    requires few { length kinds.now.items ≤ 32 }
    requires fitting { IsFitting table.old }
    ensures { HasBegun kinds.now.items (length kinds.now.items + 1) table.old table.new }
{
    for name in 0..kinds.len() {
        table.assert_invariant();
        empty(table, kinds, name);
    }
}
