//! What a worker does for an act of its thread.
ghost use Rattle.std.specs.Prelude.{◌≡◌, [], None};
ghost use Rattle.script_runner.specs.SlotCalls.{IsBelow};
ghost use Rattle.script_runner.specs.Deals.{IsDealt, IsHandOfTable};
ghost use Rattle.script_runner.specs.Handling.{Asks, Changes, IsAlone, MayDo, MaySettle};
ghost use Rattle.script_runner.specs.Handling.{StaysArranged};

use crate::acts::act_result::ActResult;
use crate::acts::cells::{exchange, holds, load, offer, swap};
use crate::acts::leaves::{clear, leave, let_drop, put};
use crate::acts::makes::make_any;
use crate::acts::questions::{ask, count, expire, read};
use crate::acts::takes::{alias, downgrade, from_this, lock, move_out, share, upgrade};
use crate::table::{Home, WorkerTable};
use std::sync::Wait;
use step_core::Kind;
use step_threads::programs::act::Act;

/// What is not to be done.
fn nothing(taken: bool) -> ActResult
    ensures { result ≡ record { taken = taken; answer = None; ended = None } }
{
    ActResult {
        taken,
        answer: None,
        ended: None,
    }
}

/// The act, which finds what it asks for; a comparison is passed over here.
fn carry_out<H: Home, R: Wait>(
    rt: &R,
    table: &mut WorkerTable<'_, u64, H>,
    hand: usize,
    taken: bool,
    kinds: &Vec<Kind>,
    act: Act,
) -> ActResult
    requires seen { IsHandOfTable hand table.old taken }
    requires settled { table.old.endings ≡ [] }
    requires below { IsBelow table.old.desk }
    requires asks { Asks kinds.now.items hand taken table.old act }
    ensures dealt { IsDealt hand table.old taken act result table.new }
    ensures changes { Changes hand taken act table.old result.taken table.new }
{
    match act {
        Act::Make { form } => make_any(table, hand, form),
        Act::Share { name } => share(table, hand, name),
        Act::Alias { name, of, field } => alias(table, hand, name, of, field),
        Act::Move { name } => move_out(table, hand, kinds, name),
        Act::Downgrade { name } => downgrade(table, hand, name),
        Act::Lock { name, must: true } => upgrade(rt, table, hand, name),
        Act::Lock { name, must: false } => lock(rt, table, hand, name),
        Act::FromThis { name, kind } => from_this(table, hand, name, kind),
        Act::Offer { name, cell } => offer(table, hand, name, cell),
        Act::Load { cell } => load(rt, table, hand, cell),
        Act::Put { name } => put(table, hand, taken, name),
        Act::Leave { name } => leave(table, hand, taken, kinds, name),
        Act::Clear { name } => clear(table, hand, taken, kinds, name),
        Act::Drop => let_drop(table, hand, taken),
        Act::Count { name } => count(table, hand, taken, name),
        Act::Expired { name } => expire(table, hand, taken, name),
        Act::Read { name } => read(table, hand, taken, name),
        Act::Ask { question } => ask(table, hand, taken, question),
        Act::Exchange { name, cell } => exchange(table, hand, taken, name, cell),
        Act::Swap { cell } => swap(table, hand, taken, cell),
        Act::Holds { name, cell } => holds(table, hand, taken, name, cell),
        Act::Compare { .. } => nothing(taken),
        Act::OnShelf { .. } => unreachable!(),
    }
}

/// Any act that suits the thread's names but a comparison of what is in hand, which goes on at once.
pub(crate) fn deal<H: Home, R: Wait>(
    rt: &R,
    table: &mut WorkerTable<'_, u64, H>,
    hand: usize,
    taken: bool,
    kinds: &Vec<Kind>,
    act: Act,
) -> ActResult
    requires settled { table.old.endings ≡ [] }
    requires alone { IsAlone taken act }
    requires suits { MayDo kinds.now.items hand taken table.old act }
    ensures dealt { IsDealt hand table.old taken act result table.new }
    ensures arranged { StaysArranged kinds.now.items hand taken act table.old result.taken table.new }
    ensures hand { MaySettle hand table.new }
{
    table.assert_invariant();
    let went = carry_out(rt, table, hand, taken, kinds, act);
    table.assert_invariant();
    went
}
