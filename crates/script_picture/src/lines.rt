//! From a script's bytes to the lines of its run, as they stand on a page.
ghost use Rattle.std.specs.Prelude.{◌≡◌, ◌≤◌, false, All, IfErr, IfOk, length, string_bytes};
ghost use Rattle.run_picture.specs.declared.picture.Picture.{Picture};
ghost use Rattle.run_picture.specs.Pages.{run_lines};
ghost use Rattle.script_text.specs.declared.fault.Fault.TheVariants.{Memory};
ghost use Rattle.script_stepper.specs.Ends.{IsRefused};
ghost use Rattle.script_stepper.specs.Runs.{IsScriptRun};
ghost use Rattle.script_picture.specs.Pictures.{IsLinesText, first_acts};

use crate::drawing::{Order, picture_of};
use crate::part::Part;
use crate::recorded::{Recorded, record_run};
use run_picture::run_text;
use script_stepper::turns::turns_of;
use script_text::{Fault, Script, parse};
use std::alloc::{AllocError, Global};

/// The lines of a run that was recorded.
fn recorded_lines(alloc: Global, recorded: Recorded) -> Result<String, AllocError>
    ensures { IfOk result (λ text. (picture : Picture)
        × (picture.rows.items ≡ recorded.rows.list.items)
        × (string_bytes text ≡ run_lines picture)) }
{
    let picture = picture_of(alloc, recorded)?;
    run_text(alloc, &picture)
}

/// Runs a script, and answers the lines of its first acts.
fn lines_of(alloc: Global, script: &Script, turns: &[u8], text: &[u8]) -> Result<String, Fault>
    requires { All (λ thread. (1 ≤ thread) × (thread ≤ length script.now.threads)) turns.now }
    ensures ok { IfOk result (λ lines. IsLinesText first_acts script.now turns.now (string_bytes lines)) }
    ensures memory { IfErr result (λ fault. fault ≡ Memory) }
{
    let order = Order {
        script: text,
        turns,
        is_fine: false,
        is_page: true,
        part: Part::whole(),
    };
    let recorded = record_run(alloc, script, turns, order)?;
    match recorded_lines(alloc, recorded) {
        Ok(lines) => Ok(lines),
        Err(_) => Err(Fault::Memory),
    }
}

/// Runs a script with a list of turns, as [`script_stepper::step_text`] does, and answers the lines of the run as a
/// page has them (own): as many of its acts, from the first on, as one picture shows, each once and in their order,
/// with the counts of blocks as they are after it, and all pointers that its thread and the cells have then. What is
/// left at the end is told where the run has no more acts.
///
/// Refused, in this order: by 1 where a growth was refused, by 10 just where a line of the script is faulty, by 11
/// just where a number of the list is.
pub fn lines_text(alloc: Global, script: &[u8], turns: &[u8]) -> Result<String, Fault>
    ensures told { IfOk result
        (λ lines. IsScriptRun (IsLinesText first_acts) script.now turns.now (string_bytes lines)) }
    ensures refused { IfErr result (λ fault. IsRefused script.now turns.now fault) }
{
    let parsed = parse(alloc, script)?;
    let list = turns_of(alloc, turns, parsed.threads() as u8)?;
    lines_of(alloc, &parsed, list.as_slice(), script)
}
