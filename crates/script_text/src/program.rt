//! Threads as actors.

ghost use Rattle.std.specs.Prelude.{◌≡◌, IfOk, map};
ghost use Rattle.step_threads.specs.Programs.{part_of, parts_of};
ghost use Rattle.script_text.specs.Drafts.{section_of};
ghost use Rattle.script_text.specs.Scripts.{part_in, program_in};

use crate::parts::thread::Thread;
use std::alloc::{AllocError, Global};
use step_core::{Actor, Program};

fn actor_of(alloc: Global, thread: &Thread) -> Result<Actor, AllocError>
    ensures { IfOk result (λ actor. part_of actor ≡ part_in (section_of thread.now)) }
{
    let kinds = thread.names.kinds(alloc)?;
    let calls = Vec::from_slice(alloc, thread.calls.as_slice())?;
    Ok(Actor { kinds, calls })
}

/// The program of threads.
pub(crate) fn program_of(alloc: Global, threads: &[Thread]) -> Result<Program, AllocError>
    ensures { IfOk result (λ p. parts_of p ≡ program_in (map section_of threads.now)) }
{
    let mut actors = Vec::new(alloc);
    for thread in threads {
        let actor = actor_of(alloc, thread)?;
        actors.push(actor)?;
    }
    Ok(Program { actors })
}
