//! The outcomes of all orders of a script.

ghost use Rattle.std.specs.Prelude.{◌≡◌, ◌+◌, ◌≤◌, None, IfErr, IfOk, IfSome, OnOk, length};
ghost use Rattle.script_text.specs.declared.fault.Fault.TheVariants.{Memory};
ghost use Rattle.script_text.specs.Grammar.{Refuses};
ghost use Rattle.script_orders.specs.Found.{outcomes_in};
ghost use Rattle.script_orders.specs.Orders.{AllDiffer, AreOutcomes, BeginsAlone, texts_of};
ghost use Rattle.script_orders.specs.Seen.{IsCount, seen};

use crate::lists::next_list;
use crate::outcomes::{Outcomes, outcome_text};
use crate::search::Search;
use control_word::Refusal;
use script_text::{Fault, Script, parse};
use std::alloc::Global;

/// The outcomes of all orders of a script, and how many states its threads come to.
#[derive(Drop)]
pub struct AllOutcomes {
    pub outcomes: Outcomes,
    pub states: usize,
}

/// The outcome of the run that goes by itself. It has the least list, which is empty.
fn first_outcome(alloc: Global, script: &[u8]) -> Result<Outcomes, Fault>
    ensures each { IfOk result
        (λ outcomes. AreOutcomes script.now (outcomes_in outcomes.found.entries)) }
    ensures first { IfOk result (λ outcomes. BeginsAlone (outcomes_in outcomes.found.entries)) }
    ensures one { IfOk result (λ outcomes. length (outcomes_in outcomes.found.entries) ≡ 1) }
    ensures refused { IfErr result (λ fault. Refuses fault script.now) }
{
    let list = Vec::new(alloc);
    let told = outcome_text(alloc, script, list.as_slice())?;
    let Some(text) = told else { unreachable!() };
    match Outcomes::of(alloc, text, list) {
        Ok(outcomes) => Ok(outcomes),
        Err(_) => Err(Fault::Memory),
    }
}

/// Adds the outcome of these turns.
fn add_outcome(
    alloc: Global,
    outcomes: &mut Outcomes,
    script: &[u8],
    list: Vec<u8>,
) -> Result<(), Fault>
    ensures each { OnOk result (AreOutcomes script.now (outcomes_in outcomes.old.found.entries)
        → AreOutcomes script.now (outcomes_in outcomes.new.found.entries)) }
    ensures first { OnOk result (BeginsAlone (outcomes_in outcomes.old.found.entries)
        → BeginsAlone (outcomes_in outcomes.new.found.entries)) }
    ensures one { OnOk result (length (outcomes_in outcomes.new.found.entries)
        ≤ length (outcomes_in outcomes.old.found.entries) + 1) }
    ensures refused { IfErr result (λ fault. Refuses fault script.now) }
{
    let told = outcome_text(alloc, script, list.as_slice())?;
    let Some(text) = told else {
        return Ok(());
    };
    match outcomes.add(text, list) {
        Ok(()) => Ok(()),
        Err(_) => Err(Fault::Memory),
    }
}

/// All outcomes, where these were found.
fn found(outcomes: Outcomes, states: usize) -> AllOutcomes
    ensures same { result.outcomes ≡ outcomes }
    ensures states { result.states ≡ states }
    ensures once { AllDiffer (texts_of (outcomes_in result.outcomes.found.entries)) }
{
    outcomes.assert_invariant();
    AllOutcomes { outcomes, states }
}

/// No outcomes, where a search was given up as there are too many states.
fn none_found(why: Refusal) -> Result<Option<AllOutcomes>, Fault>
    ensures none { IfOk result (λ all. all ≡ None) }
    ensures refused { IfErr result (λ fault. fault ≡ Memory) }
{
    match why {
        Refusal::Limit => Ok(None),
        _ => Err(Fault::Memory),
    }
}

/// The outcomes that a search finds, that of the run that goes by itself first.
fn searched(
    alloc: Global,
    script: &[u8],
    most: u32,
    search: &mut Search,
) -> Result<Option<AllOutcomes>, Fault>
    requires one { 1 ≤ seen search.old.states }
    requires within { seen search.old.states ≤ search.old.most }
    requires most { search.old.most ≡ most }
    ensures each { IfOk result (λ found. IfSome found
        (λ all. AreOutcomes script.now (outcomes_in all.outcomes.found.entries))) }
    ensures first { IfOk result (λ found. IfSome found
        (λ all. BeginsAlone (outcomes_in all.outcomes.found.entries))) }
    ensures once { IfOk result (λ found. IfSome found
        (λ all. AllDiffer (texts_of (outcomes_in all.outcomes.found.entries)))) }
    ensures states { IfOk result (λ found. IfSome found
        (λ all. IsCount (length (outcomes_in all.outcomes.found.entries)) most all.states)) }
    ensures refused { IfErr result (λ fault. Refuses fault script.now) }
{
    let mut outcomes = first_outcome(alloc, script)?;
    for _ in 0..most {
        match next_list(alloc, search) {
            Ok(Some(list)) => add_outcome(alloc, &mut outcomes, script, list)?,
            Ok(None) => return Ok(Some(found(outcomes, search.states()))),
            Err(why) => return none_found(why),
        }
    }
    Ok(Some(found(outcomes, search.states())))
}

/// The outcomes of all orders of a script, which was read so.
pub(crate) fn outcomes_of(
    alloc: Global,
    script: &[u8],
    parsed: &Script,
    most: u32,
) -> Result<Option<AllOutcomes>, Fault>
    ensures each { IfOk result (λ found. IfSome found
        (λ all. AreOutcomes script.now (outcomes_in all.outcomes.found.entries))) }
    ensures first { IfOk result (λ found. IfSome found
        (λ all. BeginsAlone (outcomes_in all.outcomes.found.entries))) }
    ensures once { IfOk result (λ found. IfSome found
        (λ all. AllDiffer (texts_of (outcomes_in all.outcomes.found.entries)))) }
    ensures states { IfOk result (λ found. IfSome found
        (λ all. IsCount (length (outcomes_in all.outcomes.found.entries)) most all.states)) }
    ensures none { IfOk result (λ found. most ≡ 0 → found ≡ None) }
    ensures refused { IfErr result (λ fault. Refuses fault script.now) }
{
    match Search::new(alloc, parsed, most) {
        Ok(mut search) => searched(alloc, script, most, &mut search),
        Err(why) => none_found(why),
    }
}

/// Runs a script in every order of its threads' acts. Answers each outcome once, in the order of their least lists of
/// turns, each with that list; or none, where there are more than `most` states, as there are of 0 (own). The first is
/// that of the run that goes by itself, whose list is empty. The states that were seen are no fewer than the outcomes.
///
/// An outcome is what [`script_stepper::step_text`] writes with its list, but all lines of thread 1 first, then those
/// of thread 2 and so on. Refused, in this order: by 1 where a growth was refused, by 10 just where a line of the
/// script is faulty.
pub fn all_outcomes(alloc: Global, script: &[u8], most: u32) -> Result<Option<AllOutcomes>, Fault>
    ensures each { IfOk result (λ found. IfSome found
        (λ all. AreOutcomes script.now (outcomes_in all.outcomes.found.entries))) }
    ensures first { IfOk result (λ found. IfSome found
        (λ all. BeginsAlone (outcomes_in all.outcomes.found.entries))) }
    ensures once { IfOk result (λ found. IfSome found
        (λ all. AllDiffer (texts_of (outcomes_in all.outcomes.found.entries)))) }
    ensures states { IfOk result (λ found. IfSome found
        (λ all. IsCount (length (outcomes_in all.outcomes.found.entries)) most all.states)) }
    ensures none { IfOk result (λ found. most ≡ 0 → found ≡ None) }
    ensures refused { IfErr result (λ fault. Refuses fault script.now) }
{
    let parsed = parse(alloc, script)?;
    outcomes_of(alloc, script, &parsed, most)
}
