//! One thread of a script.

ghost use Rattle.std.specs.Prelude.{◌≡◌, [], IfOk};
ghost use Rattle.script_text.specs.Drafts.{section_of};

use crate::parts::names::Names;
use std::alloc::{AllocError, Global};
use step_core::Call;

/// A thread: its names, and its statements in order.
#[derive(Drop)]
pub(crate) struct Thread {
    pub names: Names,
    pub calls: Vec<Call>,
}

/// A thread without names and statements.
pub(crate) fn empty_thread(alloc: Global) -> Thread
    ensures names { result.names ≡ [] }
    ensures calls { result.calls.items ≡ [] }
{
    Thread {
        names: Names::new(alloc),
        calls: Vec::new(alloc),
    }
}

pub(crate) fn copy_of(alloc: Global, thread: &Thread) -> Result<Thread, AllocError>
    ensures { IfOk result (λ copy. section_of copy ≡ section_of thread.now) }
{
    let names = thread.names.copy()?;
    let calls = Vec::from_slice(alloc, thread.calls.as_slice())?;
    Ok(Thread { names, calls })
}
