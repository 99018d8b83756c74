//! Lists of calls are made one by one.

use crate::answers::Answer;
use crate::coming::{chain, come, make, shares};
use crate::compares::compare;
use crate::hands::Hands;
use crate::looks::{both, ends, ends_count, look};
use crate::runs::row;
use crate::steps::{Row, Step};
use crate::values::Value;
use crate::{cells, weak_cells};
use pointers::{Domain, Fault};
use std::sync::Wait;

/// What the call answers.
pub fn answer<R: Wait, D: Domain<Value = Value>>(
    rt: &R,
    hands: &mut Hands<'_, D>,
    step: Step,
) -> Answer {
    match answered(rt, hands, step) {
        Ok(answer) => answer,
        Err(why) => Answer::Not(why),
    }
}

fn answered<R: Wait, D: Domain<Value = Value>>(
    rt: &R,
    hands: &mut Hands<'_, D>,
    step: Step,
) -> Result<Answer, Fault> {
    match step {
        Step::Look(of, what) => look(rt, hands, of, what),
        Step::Both(a, pair, b) => Ok(Answer::Is(both(hands, a, pair, b)?)),
        Step::Compare(form, cell, expected, desired) => Ok(Answer::Is(compare(
            rt,
            hands,
            (form, cell),
            (expected, desired),
        )?)),
        Step::First(of, call) => cells::by_link(rt, hands, (of, false), call),
        Step::Next(of, call) => cells::by_link(rt, hands, (of, true), call),
        Step::Ends => Ok(ends(hands)),
        Step::EndsCount => Ok(ends_count(hands)),
        _ => came(rt, hands, step),
    }
}

/// The same of a call by which a pointer comes into a slot.
fn came<R: Wait, D: Domain<Value = Value>>(
    rt: &R,
    hands: &mut Hands<'_, D>,
    step: Step,
) -> Result<Answer, Fault> {
    let (to, came) = match step {
        Step::Make(new, number, to) => (to, make(hands, new, number)?),
        Step::Chain(length, to) => (to, chain(hands, length)?),
        Step::Come(of, way, to) => (to, come(rt, hands, of, way)?),
        Step::Load(cell, to) => (to, cells::load(rt, hands, cell)?),
        Step::Lock(cell, to) => (to, weak_cells::lock(rt, hands, cell)?),
        Step::Take(cell, to) => (to, cells::take(hands, cell)?),
        _ => return went(hands, step),
    };
    Ok(hands.put(to, came))
}

/// The same of a call by which one goes.
fn went<D: Domain<Value = Value>>(hands: &mut Hands<'_, D>, step: Step) -> Result<Answer, Fault> {
    match step {
        Step::Shares(of, from, count) => shares(hands, of, from, count),
        Step::Drop(at) => Ok(Answer::came(hands.take(at).is_some())),
        Step::Store(from, cell) => {
            let new = hands.take(from);
            cells::store(hands, new, cell)?;
            Ok(Answer::Done)
        }
        Step::Exchange(at, cell) => {
            let new = hands.take(at);
            let old = cells::exchange(hands, new, cell)?;
            Ok(hands.put(at, old))
        }
        Step::Clear(cell) => {
            cells::clear(hands, cell)?;
            Ok(Answer::Done)
        }
        _ => Ok(Answer::Nothing),
    }
}

/// Calls, each of which answers what stands beside it; else the fault has the number of the row, counted from this one
/// on.
pub fn all<R: Wait, D: Domain<Value = Value>>(
    rt: &R,
    hands: &mut Hands<'_, D>,
    (from, rows): (u32, &[Row]),
) -> Result<(), Fault> {
    for (at, (step, wanted)) in rows.iter().enumerate() {
        let answer = answer(rt, hands, *step);
        let number = from.saturating_add(u32::try_from(at).unwrap_or(u32::MAX));
        row(number, answer == *wanted)?;
    }
    Ok(())
}
