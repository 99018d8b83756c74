//! From a script's bytes to what is told of its orders.

ghost use Rattle.std.specs.Prelude.{IfErr, IfOk, option_copied, false, ◌≡◌};
ghost use Rattle.script_text.specs.Grammar.{Refuses};
ghost use Rattle.script_stepper.specs.Runs.{Delivers, is_output};
ghost use Rattle.script_orders.specs.declared.orders.Answer.TheVariants.{TooMany};
ghost use Rattle.script_orders.specs.Orders.{IsAnswerText, TellsOrders};

use crate::answers::{Reply, every_outcome};
use crate::finding::turns_to;
use script_stepper::{Sink, write_text};
use script_text::Fault;
use std::alloc::Global;

/// Most states that a search sees unless it is told otherwise.
pub const MOST_STATES: u32 = 1_000_000;

/// What is asked of a script's orders.
#[derive(Clone, Copy)]
pub struct Query<'a> {
    pub script: &'a [u8],
    /// A line, without its line feed, that is to be found. Where there is none all outcomes are told.
    pub line: Option<&'a [u8]>,
    /// How many states are seen at most.
    pub most: u32,
}

/// What came of it.
#[derive(Clone, Copy, Debug, PartialEq, Eq)]
pub enum Answer {
    /// The outcomes were told, or that the line is told in none.
    Told,
    /// The turns were told by which the line is told.
    Found,
    /// Nothing was told, as there are more states.
    TooMany,
    /// Nothing was told, as no statement of the script can tell the line.
    CannotTell,
}

/// What is told of a script's orders.
fn reply_to(alloc: Global, query: Query<'_>) -> Result<Reply, Fault>
    ensures is { IfOk result (λ reply.
        IsAnswerText (option_copied query.entry.line) reply.answer query.entry.script.now reply.text.items) }
    ensures none { IfOk result (λ reply. query.entry.most ≡ 0 → reply.answer ≡ TooMany) }
    ensures refused { IfErr result (λ fault. Refuses fault query.entry.script.now) }
{
    match query.line {
        Some(line) => turns_to(alloc, query.script, line, query.most),
        None => every_outcome(alloc, query.script, query.most),
    }
}

/// Runs a script in every order of its threads' acts, and writes each outcome once, with the least list of turns that
/// gives it, in the order of these lists (own).
///
/// An outcome is what [`script_stepper::step_text`] writes with its turns, but all lines of thread 1 first, then those
/// of thread 2 and so on. Above it stands `outcome K turns LIST`, where LIST leaves out the turns that come anyway, as
/// each thread runs to its end in number order. At the end stand `outcomes N states M`, where M counts the states that
/// were seen, and, where outcomes differ, `differ` with the statements whose lines aren't the same in all.
///
/// Where a line is asked for, only the list of the first order is written in which it is told, and the answer is
/// `Found`; or `never`, where there is none. Nothing is written, and the answer is `CannotTell`, just where no answer,
/// refusal or end that a statement of the script may tell is this line, nor one of a thread's end, of a block that is
/// left or of the totals.
///
/// Where there are more states than are to be seen, as there are where that is 0, nothing is written, and the answer is
/// `TooMany`. Refused, in this order: by 1 where a growth was refused, by 10 just where a line of the script is faulty,
/// with nothing written; by 12 just where the writer has failed, which then took a beginning of the text. The writer
/// hasn't failed before.
pub fn orders_text<S: Sink>(
    alloc: Global,
    query: Query<'_>,
    writer: &mut S,
) -> Result<Answer, Fault>
    requires { S.has_failed writer.old ≡ false }
    ensures holds { Delivers (TellsOrders (option_copied query.entry.line) result query.entry.script.now) result
        (S.taken writer.old) (S.taken writer.new) }
    ensures none { IfOk result (λ answer. query.entry.most ≡ 0 → answer ≡ TooMany) }
    ensures failed { S.has_failed writer.new ≡ is_output result }
{
    let reply = reply_to(alloc, query)?;
    write_text(reply.text.as_slice(), writer)?;
    Ok(reply.answer)
}
