//! What a worker needs before it starts.
ghost use Rattle.std.specs.Prelude.{◌≡◌, ◌≤◌, length};
ghost use Rattle.script_runner.specs.Kinds.{AllSuit, first_stance};
ghost use Rattle.script_runner.specs.Facts.{suit_fact};

use step_core::{Kind, Said};
use step_threads::programs::act::Task;

/// What a worker needs of its thread: its number from 1, the kinds of its names, its tasks, which suit these, and room
/// for its lines.
#[derive(Drop)]
pub(crate) struct Assignment {
    pub number: usize,
    pub kinds: Vec<Kind>,
    pub tasks: Vec<Task>,
    pub said: Vec<Said>,
    ghost silent: { length said.items ≡ 0 },
    ghost few: { length kinds.items ≤ 32 },
    ghost suits: { AllSuit kinds.items (first_stance kinds.items) tasks.items } by { suit_fact _ _ _ },
}
