//! From a script's bytes to the text of what is left at its end.
ghost use Rattle.std.specs.Prelude.{◌≡◌, ℕ, false, IfOk, IfErr, string_bytes};
ghost use Rattle.leak_report.specs.Prelude.{abstraction};
ghost use Rattle.script_stepper.specs.Ends.{IsRefused, IsRunEnd};
ghost use Rattle.script_stepper.specs.Runs.{Delivers, is_output, TellsRun};
ghost use Rattle.leak_report.specs.Left.{IsLeftText, TellsOf};

use crate::found::find;
use crate::graph::drawn_at;
use crate::listing::{Report, listed_at};
use script_stepper::{End, Sink, end_of, write_text};
use script_text::Fault;
use std::alloc::{AllocError, Global};

/// Reports what is left at a run's end, or draws it.
fn report_at(alloc: Global, end: &End, draws: bool) -> Result<Report, AllocError>
    ensures { IfOk result (λ report. TellsOf (abstraction end.now.world) draws report.leaks
        (string_bytes report.text)) }
{
    let found = find(alloc, end)?;
    if draws {
        drawn_at(alloc, end, &found)
    } else {
        listed_at(alloc, end, &found)
    }
}

/// Runs a script, and reports what is left at its end, or draws it.
fn left_of(alloc: Global, script: &[u8], turns: &[u8], draws: bool) -> Result<Report, Fault>
    ensures report { IfOk result (λ left. TellsRun (IsLeftText draws (Ok left.leaks)) script.now turns.now
        (Ok (string_bytes left.text))) }
    ensures refused { IfErr result (λ fault. IsRefused script.now turns.now fault) }
{
    let end = end_of(alloc, script, turns)?;
    match report_at(alloc, &end, draws) {
        Ok(report) => Ok(report),
        Err(_) => Err(Fault::Memory),
    }
}

/// Runs a script with a list of turns, as [`script_stepper::step_text`] does, and writes what is
/// left at its end, in place of the lines of the run (own). Answers whether something is leaked.
///
/// Of each block B that isn't vacant, in order, there is `block B owners N weaks K kept`, where a
/// path of owners leads to it from a free cell, and else the same with `leaked`; and under it a
/// line for each handle on it, in the order of the cells: `  owner in C` or `  weak in C`, C being
/// `s3` or `w3` for a free cell, and `2.first`, `2.next` or `2.up` for a member of the object in
/// block 2. These handles are just those that N and K count. Then come the knots of leaked blocks
/// that owners tie, in the order of their least blocks: `cycle C C ..` with these owners, and under
/// it `cut C` for each of them without which every block of the knot would end. The last line is
/// `made M ended E left L`.
///
/// Where `draws` is so, it writes the same as a graph for Graphviz instead: a node `bB` for each
/// such block, with the fields of its object, and a line for each handle from the block or the free
/// cell where it is to the block that it is on.
///
/// Refused, in this order: by 1 where a growth was refused, by 10 just where a line of the script
/// is faulty, by 11 just where a number of the list is, with nothing written; by 12 just where the
/// writer has failed, which then took a beginning of the text. The writer hasn't failed before.
pub fn left_text<S: Sink>(
    alloc: Global,
    script: &[u8],
    turns: &[u8],
    draws: bool,
    writer: &mut S,
) -> Result<bool, Fault>
    requires { S.has_failed writer.old ≡ false }
    ensures holds { Delivers (TellsRun (IsLeftText draws result) script.now turns.now) result
        (S.taken writer.old) (S.taken writer.new) }
    ensures failed { S.has_failed writer.new ≡ is_output result }
{
    let left = left_of(alloc, script, turns, draws)?;
    write_text(left.text.as_bytes(), writer)?;
    Ok(left.leaks)
}
