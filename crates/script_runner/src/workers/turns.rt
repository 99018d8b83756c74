//! How a worker plays its thread.
ghost use Rattle.std.specs.Prelude.{◌≡◌, ◌+◌, [], length};
ghost use Rattle.script_runner.specs.Handling.{MayGoOn};
ghost use Rattle.script_runner.specs.Kinds.{KeepsLimits};
ghost use Rattle.script_runner.specs.Notes.{PlaysOn};

use crate::gate::Gate;
use crate::table::{Home, WorkerTable};
use crate::workers::log::Log;
use std::sync::Wait;
use step_core::Kind;
use step_threads::programs::act::Task;

/// Tells the gate that the one statement has run and the other begins; 0 is none.
fn tell<G: Gate>(gate: &G, number: usize, last: u32, next: u32) {
    if last == next {
        return;
    }
    if last != 0 {
        gate.after(number, last);
    }
    if next != 0 {
        gate.before(number, next);
    }
}

/// Runs a thread from its first task to its end.
pub(crate) fn play<H: Home, R: Wait, G: Gate>(
    rt: &R,
    table: &mut WorkerTable<'_, u64, H>,
    kinds: &Vec<Kind>,
    tasks: &Vec<Task>,
    log: &mut Log<'_>,
    number: usize,
    gate: &G,
)
    requires going { MayGoOn kinds.now.items (length kinds.now.items + 1) log.old.taken table.old tasks.now.items }
    ensures goes { PlaysOn (length kinds.now.items + 1) table.old tasks.now.items log.old table.new [] log.new }
    ensures going { MayGoOn kinds.now.items (length kinds.now.items + 1) log.new.taken table.new [] }
    ensures limits { KeepsLimits table.old table.new }
    ensures book { log.new.share.book ≡ log.old.share.book }
{
    let hand = kinds.len() + 1;
    let mut at = 0;
    let mut statement = 0;
    for _ in 0..tasks.len() {
        let next = match tasks.get(at) {
            Some(task) => task.statement,
            None => 0,
        };
        tell(gate, number, statement, next);
        statement = next;
        at = log.step(rt, table, hand, kinds, tasks, at);
    }
    tell(gate, number, statement, 0);
}
