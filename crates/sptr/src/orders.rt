//! What the command `orders` answers.

ghost use Rattle.std.specs.Prelude.{◌≡◌, ℕ, Bool, Option, false, option_copied};
ghost use Rattle.script_orders.specs.Orders.{TellsOrders};
ghost use Rattle.script_stepper.specs.Runs.{Delivers, is_output};
ghost use Rattle.sptr.specs.OutcomePages.{TellsPage};
ghost use Rattle.sptr.specs.Outcomes.{FindsAsAsked, orders_answer, orders_outcome};
ghost use Rattle.sptr.specs.declared.command.Asked.TheVariants.{Orders};

mod page;
mod parts;

use crate::answers::{Outcome, flushed};
use crate::orders::page::page_text;
use script_orders::{Answer, Query, orders_text};
use script_stepper::Output;
use script_text::Fault;
use std::alloc::Global;
use std::io::Write;

/// What comes of a script's orders.
fn outcome_of(answer: Answer) -> Outcome
    ensures { result ≡ orders_outcome answer }
{
    match answer {
        Answer::Told => Outcome::Done,
        Answer::Found => Outcome::Found,
        Answer::TooMany => Outcome::NoOrders,
        Answer::CannotTell => Outcome::NoLine,
    }
}

/// Answers `orders`: the outcomes of all orders of the script, or the turns by which a line is told.
pub(crate) fn orders<O: Write>(
    alloc: Global,
    query: Query<'_>,
    output: &mut Output<O>,
) -> Result<Outcome, Fault>
    requires { output.old.has_failed ≡ false }
    ensures told { Delivers (TellsOrders (option_copied query.entry.line) (orders_answer result) query.entry.script.now)
        result
        (O.contents output.old.writer) (O.contents output.new.writer) }
    ensures comes { (finds : Bool) (most : Option ℕ) → FindsAsAsked (Orders finds most) result }
    ensures failed { output.new.has_failed ≡ is_output result }
{
    let answer = orders_text(alloc, query, output)?;
    match flushed(output) {
        Ok(()) => Ok(outcome_of(answer)),
        Err(fault) => Err(fault),
    }
}

/// Answers `orders --page`: a page of the outcomes of all orders of the script, and whether there is none, as there are
/// more states.
pub(crate) fn outcome_page<O: Write>(
    alloc: Global,
    script: &[u8],
    most: u32,
    output: &mut Output<O>,
) -> Result<bool, Fault>
    requires { output.old.has_failed ≡ false }
    ensures told { Delivers (TellsPage result script.now) result
        (O.contents output.old.writer) (O.contents output.new.writer) }
    ensures failed { output.new.has_failed ≡ is_output result }
{
    let is_none = page_text(alloc, script, most, output)?;
    match flushed(output) {
        Ok(()) => Ok(is_none),
        Err(fault) => Err(fault),
    }
}
