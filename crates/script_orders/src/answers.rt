//! Answers on a script's orders, each with the text that tells it.

ghost use Rattle.std.specs.Prelude.{◌≡◌, ◌++◌, ℕ, List, [], None, IfErr, IfOk};
ghost use Rattle.script_text.specs.declared.fault.Fault.TheVariants.{Memory};
ghost use Rattle.script_text.specs.Grammar.{ReadsAs, Refuses};
ghost use Rattle.script_orders.specs.declared.orders.Answer.TheVariants.{Told, TooMany};
ghost use Rattle.script_orders.specs.Found.{outcomes_in};
ghost use Rattle.script_orders.specs.Orders.{IsAnswerText, TellsAll, TellsOutcomes, coverage_line};

use crate::all_orders::{AllOutcomes, outcomes_of};
use crate::coverage::{FoundOutcomes, is_complete};
use crate::orders::Answer;
use crate::report::all_text;
use control_word::Refusal;
use script_text::{Fault, Script, parse};
use std::alloc::{AllocError, Global};

/// An answer, and the text that tells it.
#[derive(Drop)]
pub(crate) struct Reply {
    pub answer: Answer,
    pub text: Vec<u8>,
}

/// What comes of a search that was given up.
pub(crate) fn given_up(alloc: Global, why: Refusal) -> Result<Reply, Fault>
    ensures answer { IfOk result (λ reply. reply.answer ≡ TooMany) }
    ensures text { IfOk result (λ reply. reply.text.items ≡ []) }
    ensures refused { IfErr result (λ fault. fault ≡ Memory) }
{
    match why {
        Refusal::Limit => Ok(Reply {
            answer: Answer::TooMany,
            text: Vec::new(alloc),
        }),
        _ => Err(Fault::Memory),
    }
}

/// What the last line says.
pub(crate) fn coverage_line(is_complete: bool) -> &'static [u8]
    ensures { result.now ≡ coverage_line is_complete }
{
    if is_complete {
        b"complete\n"
    } else {
        b"searched\n"
    }
}

/// The text of all outcomes, which says whether none is missing.
fn text_of(alloc: Global, all: &AllOutcomes, is_complete: bool) -> Result<Vec<u8>, AllocError>
    ensures { IfOk result (λ text. (told : List ℕ)
        × TellsAll (outcomes_in all.now.outcomes.found.entries) all.now.states told
        × (text.items ≡ told ++ coverage_line is_complete)) }
{
    let mut text = all_text(alloc, &all.outcomes, all.states)?;
    text.extend_from_slice(coverage_line(is_complete))?;
    Ok(text)
}

/// What is told of all outcomes.
fn told(alloc: Global, script: &[u8], parsed: &Script, all: &AllOutcomes) -> Result<Reply, Fault>
    requires { ReadsAs script.now parsed.now }
    ensures answer { IfOk result (λ reply. reply.answer ≡ Told) }
    ensures text { IfOk result (λ reply. TellsOutcomes script.now
        (outcomes_in all.now.outcomes.found.entries) all.now.states reply.text.items) }
    ensures refused { IfErr result (λ fault. Refuses fault script.now) }
{
    let found = FoundOutcomes {
        bytes: script,
        script: parsed,
        outcomes: &all.outcomes,
    };
    let is_all = is_complete(alloc, &found)?;
    match text_of(alloc, all, is_all) {
        Ok(text) => Ok(Reply {
            answer: Answer::Told,
            text,
        }),
        Err(_) => Err(Fault::Memory),
    }
}

/// What is told of the outcomes of all orders.
pub(crate) fn every_outcome(alloc: Global, script: &[u8], most: u32) -> Result<Reply, Fault>
    ensures is { IfOk result (λ reply. IsAnswerText None reply.answer script.now reply.text.items) }
    ensures none { IfOk result (λ reply. most ≡ 0 → reply.answer ≡ TooMany) }
    ensures refused { IfErr result (λ fault. Refuses fault script.now) }
{
    let parsed = parse(alloc, script)?;
    let found = outcomes_of(alloc, script, &parsed, most)?;
    match found {
        Some(all) => told(alloc, script, &parsed, &all),
        None => given_up(alloc, Refusal::Limit),
    }
}
