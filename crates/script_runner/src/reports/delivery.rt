//! Scripts on real workers, from bytes to bytes.
ghost use Rattle.std.specs.Prelude.{◌≡◌, ℕ, false};
ghost use Rattle.script_text.specs.Grammar.{Faulty, IsUnlessMemory};
ghost use Rattle.script_text.specs.declared.fault.Cause.{Cause};
ghost use Rattle.script_text.specs.declared.fault.Fault.TheVariants.{Syntax};
ghost use Rattle.script_stepper.specs.Runs.{Delivers, is_output, text_in};
ghost use Rattle.script_runner.specs.Telling.{TellsReport};

use crate::gate::Open;
use crate::runs::run_script;
use crate::table::closing::close_sole;
use script_stepper::{Sink, write_text};
use script_text::{Fault, parse};
use std::alloc::Global;
use std::sync::Wait;
use std::thread::Threads;

/// The text of a report of a script's run, with the census that its domain is closed with, or why there is none.
fn told<R: Threads + Wait + Sync>(rt: &R, alloc: Global, script: &[u8]) -> Result<String, Fault>
    ensures { TellsReport script.now (text_in result) }
{
    let script = parse(alloc, script)?;
    let Ok(ran) = run_script(rt, alloc, &script, &Open) else {
        return Err(Fault::Memory);
    };
    let (report, domain, desk) = ran;
    let census = close_sole(domain, desk);
    match report.text(alloc, &census) {
        Ok(text) => Ok(text),
        Err(_) => Err(Fault::Memory),
    }
}

/// Writes the text of a report of a script's run.
fn deliver<R: Threads + Wait + Sync, S: Sink>(
    rt: &R,
    alloc: Global,
    script: &[u8],
    writer: &mut S,
) -> Result<(), Fault>
    requires { S.has_failed writer.old ≡ false }
    ensures holds { Delivers (TellsReport script.now) result (S.taken writer.old) (S.taken writer.new) }
    ensures failed { S.has_failed writer.new ≡ is_output result }
{
    let text = told(rt, alloc, script)?;
    write_text(text.as_bytes(), writer)
}

/// Runs a script on real workers, one a thread, closes its domain, and writes what comes of it (own): all lines of
/// thread 1, then of thread 2 and so on, the census and the totals, as [`crate::Report::text`] has them. The whole text
/// is made before the first byte goes out.
///
/// Refused by 1 where a growth was refused, by 10 just where a line of the script is faulty,
/// with nothing written; by 12 just where the writer has failed, which then took a beginning of the text. The writer
/// hasn't failed before.
pub fn run_text<R: Threads + Wait + Sync, S: Sink>(
    rt: &R,
    alloc: Global,
    script: &[u8],
    writer: &mut S,
) -> Result<(), Fault>
    requires { S.has_failed writer.old ≡ false }
    ensures holds { Delivers (TellsReport script.now) result (S.taken writer.old) (S.taken writer.new) }
    ensures failed { S.has_failed writer.new ≡ is_output result }
    ensures syntax { (line : ℕ) (cause : Cause) → Faulty script.now line cause
        → IsUnlessMemory result (Err (Syntax line cause)) }
{
    deliver(rt, alloc, script, writer)
}
