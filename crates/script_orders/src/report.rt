//! What is told of a script's orders.

ghost use Rattle.std.specs.Prelude.{◌≡◌, ◌++◌, IfOk, OnOk, codes, decimal, string_bytes};
ghost use Rattle.script_orders.specs.Found.{outcomes_in};
ghost use Rattle.script_orders.specs.Orders.{Closes, TellsAll, counts_line, head_line, list_after, told_from};
ghost use Rattle.script_orders.specs.Orders.{told_one};

use crate::differences::differ_line;
use crate::outcomes::Outcomes;
use std::alloc::{AllocError, Global};
use std::fmt::Write as _;

/// Adds a list behind a word.
fn put_list(text: &mut Vec<u8>, list: &[u8]) -> Result<(), AllocError>
    ensures { OnOk result (text.new.items ≡ text.old.items ++ list_after list.now) }
{
    if list.is_empty() {
        return Ok(());
    }
    text.push(b' ')?;
    text.extend_from_slice(list)
}

/// What the line above an outcome begins with.
fn head(alloc: Global, number: usize) -> Result<String, AllocError>
    ensures { IfOk result (λ text. string_bytes text ≡ codes "outcome " ++ decimal number ++ codes " turns") }
{
    let mut text = String::new(alloc);
    write!(text, "outcome {number} turns")?;
    Ok(text)
}

/// Adds the line above an outcome: its number, and the turns that give it.
fn put_head(alloc: Global, text: &mut Vec<u8>, number: usize, list: &[u8]) -> Result<(), AllocError>
    ensures { OnOk result (text.new.items ≡ text.old.items ++ head_line number list.now) }
{
    let head = head(alloc, number)?;
    text.extend_from_slice(head.as_bytes())?;
    put_list(text, list)?;
    text.push(b'\n')?;
    Ok(())
}

/// Adds all outcomes.
fn put_outcomes(alloc: Global, text: &mut Vec<u8>, outcomes: &Outcomes) -> Result<(), AllocError>
    ensures { OnOk result (text.new.items
        ≡ text.old.items ++ told_from 1 (outcomes_in outcomes.now.found.entries)) }
{
    for index in 0..outcomes.found.len() {
        if let Some((outcome, list)) = outcomes.found.get_index(index) {
            put_head(alloc, text, index + 1, list.as_slice())?;
            text.extend_from_slice(outcome.as_slice())?;
        }
    }
    Ok(())
}

/// How many outcomes there are, and how many states were seen.
fn counts(alloc: Global, outcomes: usize, states: usize) -> Result<String, AllocError>
    ensures { IfOk result (λ text. string_bytes text ≡ counts_line outcomes states) }
{
    let mut text = String::new(alloc);
    write!(text, "outcomes {outcomes}")?;
    write!(text, " states {states}")?;
    text.push('\n')?;
    Ok(text)
}

/// The lines of an outcome as [`crate::orders_text`] writes them: its number from 1, the turns that give it, and what
/// it tells (own). Refused where a growth was.
pub fn outcome_lines(
    alloc: Global,
    number: usize,
    outcome: &[u8],
    list: &[u8],
) -> Result<Vec<u8>, AllocError>
    ensures { IfOk result (λ text. text.items ≡ told_one number (outcome.now, list.now)) }
{
    let mut text = Vec::new(alloc);
    put_head(alloc, &mut text, number, list)?;
    text.extend_from_slice(outcome)?;
    Ok(text)
}

/// The last lines of [`crate::orders_text`]: how many outcomes there are, how many states were seen, and where the
/// outcomes differ, if they do (own). Refused where a growth was.
pub fn closing_text(
    alloc: Global,
    outcomes: &Outcomes,
    states: usize,
) -> Result<Vec<u8>, AllocError>
    ensures { IfOk result (λ text. Closes (outcomes_in outcomes.now.found.entries) states text.items) }
{
    let mut text = Vec::new(alloc);
    let counts = counts(alloc, outcomes.found.len(), states)?;
    text.extend_from_slice(counts.as_bytes())?;
    let differ = differ_line(alloc, &outcomes.found)?;
    text.extend_from_slice(differ.as_bytes())?;
    Ok(text)
}

/// The text of all outcomes, and of how many states were seen.
pub(crate) fn all_text(
    alloc: Global,
    outcomes: &Outcomes,
    states: usize,
) -> Result<Vec<u8>, AllocError>
    ensures { IfOk result (λ text. TellsAll (outcomes_in outcomes.now.found.entries) states text.items) }
{
    let mut text = Vec::new(alloc);
    put_outcomes(alloc, &mut text, outcomes)?;
    let closing = closing_text(alloc, outcomes, states)?;
    text.extend_from_slice(closing.as_slice())?;
    Ok(text)
}
