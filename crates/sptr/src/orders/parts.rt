//! The parts of a page of outcomes.

ghost use Rattle.std.specs.Prelude.{◌≡◌, ◌++◌, ℕ, List, IfErr, IfOk, OnOk, string_bytes};
ghost use Rattle.run_picture.specs.Pages.{lines_element};
ghost use Rattle.script_orders.specs.Found.{outcomes_in};
ghost use Rattle.script_orders.specs.Orders.{AreOutcomes, Closes, IsOutcome, told_one};
ghost use Rattle.script_picture.specs.Pictures.{IsLinesText, first_acts};
ghost use Rattle.script_stepper.specs.Runs.{IsScriptRun};
ghost use Rattle.script_text.specs.Grammar.{Refuses};
ghost use Rattle.sptr.specs.OutcomePages.{AddsOne, ShowsAll, outcome_part};

use run_picture::put_lines;
use script_orders::{AllOutcomes, Outcomes, closing_text, outcome_lines};
use script_picture::lines_text;
use script_text::Fault;
use std::alloc::{AllocError, Global};

/// An outcome: its number, from 1, its text, and the list of turns that gives it.
#[derive(Clone, Copy)]
struct Told<'a> {
    number: usize,
    text: &'a [u8],
    list: &'a [u8],
}

/// The lines of the run of an outcome. Its list is not faulty, as it has given the outcome.
fn run_of(alloc: Global, script: &[u8], told: Told<'_>) -> Result<String, Fault>
    requires { IsOutcome script.now told.list.now told.text.now }
    ensures run { IfOk result
        (λ run. IsScriptRun (IsLinesText first_acts) script.now told.entry.list.now (string_bytes run)) }
    ensures refused { IfErr result (λ fault. Refuses fault script.now) }
{
    match lines_text(alloc, script, told.list) {
        Ok(run) => Ok(run),
        Err(Fault::BadTurn { .. }) => unreachable!(),
        Err(Fault::Syntax { line, cause }) => Err(Fault::Syntax { line, cause }),
        Err(Fault::Memory | Fault::Output | Fault::Input) => Err(Fault::Memory),
    }
}

/// Adds an outcome's lines as `orders` tells them, and those of its run.
fn put_both(alloc: Global, page: &mut String, told: Told<'_>, run: &[u8]) -> Result<(), AllocError>
    ensures { OnOk result (string_bytes page.new ≡ string_bytes page.old
        ++ outcome_part (told_one told.entry.number (told.entry.text.now, told.entry.list.now)) run.now) }
{
    let lines = outcome_lines(alloc, told.number, told.text, told.list)?;
    put_lines(page, lines.as_slice())?;
    put_lines(page, run)?;
    Ok(())
}

/// Adds an outcome, and its run.
fn put_outcome(alloc: Global, page: &mut String, script: &[u8], told: Told<'_>) -> Result<(), Fault>
    requires { IsOutcome script.now told.list.now told.text.now }
    ensures adds { OnOk result (AddsOne script.now told.entry.number (told.entry.text.now, told.entry.list.now)
        (string_bytes page.old) (string_bytes page.new)) }
    ensures refused { IfErr result (λ fault. Refuses fault script.now) }
{
    let run = run_of(alloc, script, told)?;
    match put_both(alloc, page, told, run.as_bytes()) {
        Ok(()) => Ok(()),
        Err(_) => Err(Fault::Memory),
    }
}

/// Adds all outcomes, and their runs.
pub(crate) fn put_outcomes(
    alloc: Global,
    page: &mut String,
    script: &[u8],
    outcomes: &Outcomes,
) -> Result<(), Fault>
    requires { AreOutcomes script.now (outcomes_in outcomes.now.found.entries) }
    ensures shows { OnOk result (ShowsAll script.now (outcomes_in outcomes.now.found.entries)
        (string_bytes page.old) (string_bytes page.new)) }
    ensures refused { IfErr result (λ fault. Refuses fault script.now) }
{
    for index in 0..outcomes.found.len() {
        if let Some((text, list)) = outcomes.found.get_index(index) {
            let told = Told {
                number: index + 1,
                text: text.as_slice(),
                list: list.as_slice(),
            };
            put_outcome(alloc, page, script, told)?;
        }
    }
    Ok(())
}

/// Adds how many outcomes there are, and where they differ.
pub(crate) fn put_closing(
    alloc: Global,
    page: &mut String,
    all: &AllOutcomes,
) -> Result<(), AllocError>
    ensures { OnOk result ((closing : List ℕ)
        × Closes (outcomes_in all.now.outcomes.found.entries) all.now.states closing
        × (string_bytes page.new ≡ string_bytes page.old ++ lines_element closing)) }
{
    let closing = closing_text(alloc, &all.outcomes, all.states)?;
    put_lines(page, closing.as_slice())?;
    Ok(())
}
