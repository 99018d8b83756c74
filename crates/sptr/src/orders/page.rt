//! From a script's bytes to the page of its outcomes.

ghost use Rattle.std.specs.Prelude.{◌≡◌, [], false, true, IfErr, IfOk, OnOk, string_bytes};
ghost use Rattle.script_orders.specs.Found.{outcomes_in};
ghost use Rattle.script_orders.specs.Orders.{AreOutcomes};
ghost use Rattle.script_stepper.specs.Runs.{Delivers, is_output};
ghost use Rattle.script_text.specs.declared.fault.Fault.TheVariants.{Memory};
ghost use Rattle.script_text.specs.Grammar.{Refuses};
ghost use Rattle.sptr.specs.OutcomePages.{Ends, IsPageOf, IsPageText, TellsPage};

use crate::orders::parts::{put_closing, put_outcomes};
use run_picture::{begin_page, put_scripts};
use script_orders::{AllOutcomes, all_outcomes};
use script_stepper::{Sink, write_text};
use script_text::Fault;
use std::alloc::{AllocError, Global};

/// The text of a page; or that there is none, where a script has more states than are to be seen.
#[derive(Drop)]
struct Page {
    text: String,
    is_none: bool,
}

/// No page.
fn no_page(alloc: Global) -> Page
    ensures none { result.is_none ≡ true }
    ensures text { string_bytes result.text ≡ [] }
{
    Page {
        text: String::new(alloc),
        is_none: true,
    }
}

/// Adds what stands below the outcomes.
fn put_end(alloc: Global, page: &mut String, all: &AllOutcomes) -> Result<(), AllocError>
    ensures { OnOk result (Ends (outcomes_in all.now.outcomes.found.entries) all.now.states
        (string_bytes page.old) (string_bytes page.new)) }
{
    put_closing(alloc, page, all)?;
    put_scripts(page)?;
    Ok(())
}

/// The page of these outcomes.
fn outcomes_text(alloc: Global, script: &[u8], all: &AllOutcomes) -> Result<String, Fault>
    requires { AreOutcomes script.now (outcomes_in all.now.outcomes.found.entries) }
    ensures shows { IfOk result (λ text. IsPageOf script.now (outcomes_in all.now.outcomes.found.entries)
        all.now.states (string_bytes text)) }
    ensures refused { IfErr result (λ fault. Refuses fault script.now) }
{
    let Ok(mut page) = begin_page(alloc) else {
        return Err(Fault::Memory);
    };
    put_outcomes(alloc, &mut page, script, &all.outcomes)?;
    match put_end(alloc, &mut page, all) {
        Ok(()) => Ok(page),
        Err(_) => Err(Fault::Memory),
    }
}

/// The page of a script's outcomes, or that there is none.
fn page_of(alloc: Global, script: &[u8], most: u32) -> Result<Page, Fault>
    ensures is { IfOk result (λ page. IsPageText page.is_none script.now (string_bytes page.text)) }
    ensures refused { IfErr result (λ fault. Refuses fault script.now) }
{
    let found = all_outcomes(alloc, script, most)?;
    let Some(all) = found else {
        return Ok(no_page(alloc));
    };
    let text = outcomes_text(alloc, script, &all)?;
    Ok(Page {
        text,
        is_none: false,
    })
}

/// Runs a script in every order of its threads' acts, as [`script_orders::orders_text`] does, and writes each outcome
/// once as one HTML page, each with the run that its turns give (own). An outcome's lines stand in one element as
/// `orders_text` writes them. The lines of its run follow in the next one: as many of its acts, from the first on, as
/// one picture shows, each once and in their order, with the counts of blocks as they are after it. At last comes how
/// many outcomes there are. Head and scripts are the same on each page.
///
/// Answers whether there are more than `most` states; then nothing is written. Refused, in this order: by 1 where a
/// growth was refused, by 10 just where a line of the script is faulty, with nothing written; by 12 just where the
/// writer has failed, which then took a beginning of the text. The writer hasn't failed before.
pub(crate) fn page_text<S: Sink>(
    alloc: Global,
    script: &[u8],
    most: u32,
    writer: &mut S,
) -> Result<bool, Fault>
    requires { S.has_failed writer.old ≡ false }
    ensures holds { Delivers (TellsPage result script.now) result (S.taken writer.old) (S.taken writer.new) }
    ensures failed { S.has_failed writer.new ≡ is_output result }
{
    let page = page_of(alloc, script, most)?;
    write_text(page.text.as_bytes(), writer)?;
    Ok(page.is_none)
}
