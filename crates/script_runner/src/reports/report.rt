//! What comes of a script on real workers.
ghost use Rattle.std.specs.Prelude.{◌≤◌, length};

use ownership_ledger::Totals;
use step_core::Said;

/// What came of a script on real workers: each thread's lines, in thread order, and how many objects were made and how
/// many ended.
#[derive(Drop)]
pub struct Report {
    pub lines: Vec<Vec<Said>>,
    pub totals: Totals,
    ghost few: { length lines.items ≤ 64 },
}
