//! The outcomes of a script.

ghost use Rattle.std.specs.Prelude.{◌≡◌, ◌≢◌, ◌∷◌, [], None, IfErr, IfOk, IfSome, OnOk};
ghost use Rattle.script_stepper.specs.Runs.{IsRunText, IsScriptRun};
ghost use Rattle.script_text.specs.Grammar.{Refuses};
ghost use Rattle.script_orders.specs.Found.{outcomes_in};
ghost use Rattle.script_orders.specs.Orders.{AllDiffer, IsAdded, IsOutcome, texts_of};

use crate::threads::by_threads;
use indexmap::IndexMap;
use script_stepper::{Output, step_text};
use script_text::Fault;
use std::alloc::{AllocError, Global};

/// The text of a script's run with a list of turns; none where the list is faulty, which an empty one isn't.
fn run_text(alloc: Global, script: &[u8], list: &[u8]) -> Result<Option<Vec<u8>>, Fault>
    ensures runs { IfOk result (λ told. IfSome told
        (λ text. IsScriptRun IsRunText script.now list.now text.items)) }
    ensures alone { IfOk result (λ told. list.now ≡ [] → told ≢ None) }
    ensures refused { IfErr result (λ fault. Refuses fault script.now) }
{
    let mut output = Output::new(Vec::new(alloc));
    match step_text(alloc, script, list, &mut output) {
        Ok(()) => Ok(Some(output.into_inner())),
        Err(fault) => match fault {
            Fault::BadTurn { .. } => Ok(None),
            Fault::Syntax { line, cause } => Err(Fault::Syntax { line, cause }),
            Fault::Memory | Fault::Output | Fault::Input => Err(Fault::Memory),
        },
    }
}

/// What a run of a script with a list of turns tells, sorted by threads; none where the list is faulty, which an empty
/// one isn't.
pub(crate) fn outcome_text(
    alloc: Global,
    script: &[u8],
    list: &[u8],
) -> Result<Option<Vec<u8>>, Fault>
    ensures is { IfOk result (λ told. IfSome told
        (λ text. IsOutcome script.now list.now text.items)) }
    ensures alone { IfOk result (λ told. list.now ≡ [] → told ≢ None) }
    ensures refused { IfErr result (λ fault. Refuses fault script.now) }
{
    let Some(text) = run_text(alloc, script, list)? else {
        return Ok(None);
    };
    match by_threads(alloc, text.as_slice()) {
        Ok(sorted) => Ok(Some(sorted)),
        Err(_) => Err(Fault::Memory),
    }
}

/// Outcomes, by their texts, each with a list of turns that gives it, in the order in which they were found.
#[derive(Drop)]
pub struct Outcomes {
    pub found: IndexMap<Vec<u8>, Vec<u8>>,
}

impl Outcomes {
    /// This outcome alone.
    pub fn of(alloc: Global, text: Vec<u8>, list: Vec<u8>) -> Result<Outcomes, AllocError>
        ensures { IfOk result (λ outcomes.
            outcomes_in outcomes.found.entries ≡ (text.items, list.items) ∷ []) }
    {
        let mut found = IndexMap::new(alloc);
        let _ = found.insert(text, list)?;
        Ok(Outcomes { found })
    }

    /// No text stands twice.
    pub fn assert_invariant(&self)
        ensures { AllDiffer (texts_of (outcomes_in self.now.found.entries)) }
    {
        let _ = self.found.len();
    }

    /// An outcome more, if it isn't there.
    pub fn add(&mut self, text: Vec<u8>, list: Vec<u8>) -> Result<(), AllocError>
        ensures added { OnOk result (IsAdded (text.items, list.items) (outcomes_in self.old.found.entries)
            (outcomes_in self.new.found.entries)) }
    {
        if !self.found.contains_key(&text) {
            let _ = self.found.insert(text, list)?;
        }
        Ok(())
    }
}
