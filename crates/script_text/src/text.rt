//! A script from its text.

ghost use Rattle.std.specs.Prelude.{◌≡◌, ℕ, IfOk, map};
ghost use Rattle.script_text.specs.declared.fault.Cause.{Cause};
ghost use Rattle.script_text.specs.declared.fault.Fault.TheVariants.{Syntax};
ghost use Rattle.script_text.specs.Drafts.{ScriptView, draft_of, section_of, sections};
ghost use Rattle.script_text.specs.Grammar.{Answers, Faulty, IsUnlessMemory, ReadsAs};
ghost use Rattle.script_text.specs.Reach.{ReachesDraft};

use crate::fault::{Cause, Fault};
use crate::parts::draft::{Draft, empty_draft};
use crate::parts::thread::Thread;
use crate::parts::version::Version;
use crate::script::Script;
use std::alloc::{AllocError, Global};
use text_lines::read_lines;

/// The draft that the lines of a text lead to.
fn read(alloc: Global, bytes: &[u8]) -> Result<Draft, Fault>
    ensures { ReachesDraft result bytes.now }
{
    let mut draft = empty_draft(alloc, Version::One);
    match read_lines(alloc, &mut draft, bytes, Cause::UnfinishedLine) {
        Ok(()) => Ok(draft),
        Err(fault) => Err(Fault::from(fault)),
    }
}

/// The threads of a draft.
fn threads_of(draft: Draft) -> Result<Vec<Thread>, AllocError>
    ensures { IfOk result (λ threads. map section_of threads.items ≡ sections (draft_of draft)) }
{
    let Draft {
        mut done,
        current,
        ..
    } = draft;
    done.push(current)?;
    Ok(done)
}

/// The script that a text spells (own): lines of statements, of version 1 or, after its header, of
/// version 2, as the crate's page says.
///
/// Refused by 10, with the number of the first faulty line, from 1, and its cause, just where a
/// line is faulty; by 1 where a growth is refused. Linear in the text.
pub fn parse(alloc: Global, bytes: &[u8]) -> Result<Script, Fault>
    // What is answered is true of the text.
    ensures holds { Answers result bytes.now }

    // A text that spells a script is read as that script, and a faulty one is refused with its
    // fault, want of memory aside.
    ensures reads { (script : ScriptView) → ReadsAs bytes.now script
        → IsUnlessMemory result (Ok script) }
    ensures faulty { (line : ℕ) (cause : Cause) → Faulty bytes.now line cause
        → IsUnlessMemory result (Err (Syntax line cause)) }
{
    let draft = read(alloc, bytes)?;
    let version = draft.version;
    let statements = draft.count;
    match threads_of(draft) {
        Ok(threads) => Ok(Script {
            version,
            threads,
            statements,
        }),
        Err(_) => Err(Fault::Memory),
    }
}
