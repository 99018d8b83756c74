//! Runs: one step for each number of a list; then each actor finishes a call that owes funds, and then runs alone to
//! its end.
ghost use Rattle.std.specs.Prelude.{◌≡◌, ◌≢◌, ◌+◌, ◌-◌, ◌*◌, ◌<◌, ◌≤◌, ◌∷◌, ◌++◌, ℕ, []};
ghost use Rattle.std.specs.Prelude.{All, IfErr, IfOk, MatchOption, length, map, slice_get, sum_by};
ghost use Rattle.std.specs.Prelude.{vec_capacity, vec_len};
ghost use Rattle.step_core.specs.Bounds.{most_steps, steps_of, task_steps, weight};
ghost use Rattle.step_core.specs.Chains.{Through};
ghost use Rattle.step_core.specs.Following.{Follows};
ghost use Rattle.step_core.specs.Headline.{AfterEach, AllAtRest, OfEach};
ghost use Rattle.step_core.specs.Runs.{AddsRun, FinishesCall, IsFirstBad, IsRefusedFor, IsRun, IsScheduled, MovesOn};
ghost use Rattle.step_core.specs.Runs.{NamesActor, RunInOrder, RunsToEnd, SettleInOrder, Settles};
ghost use Rattle.step_core.specs.Runs.{call_under_way, is_calling, is_owing, next_statement};
ghost use Rattle.step_table.specs.GhostStates.{TableInvariant};
ghost use Rattle.step_core.specs.Totals.{IsAtEnd};
ghost use Rattle.step_core.specs.WorldStates.{IsAsLarge};
ghost use Rattle.step_core.specs.Worlds.{Advances};
ghost use Rattle.step_threads.specs.Frames.{todo};

use crate::debts::has_funds_out;
use crate::trace::{RunRefusal, Trace, TraceStep};
use crate::world::World;
use std::alloc::Global;
use step_threads::pending_call::PendingCall;
use step_threads::programs::act::{Act, Task};
use step_threads::said::Stepped;
use step_threads::thread::Thread;

impl World {
    /// Runs the world to its end: one step for each number; then each actor that has a load under way, or funds that it
    /// brought or is to give back, finishes that call, in number order, so that no call owes anything; and then each
    /// runs alone to its end, in number order. The trace has all these steps in order; a number for an actor at its end
    /// is a step, `Done`, and no other step of the trace is. None waits. All memory is asked for before the first step.
    ///
    /// Refused `BadTurn` just where some number names no actor, with the position of the first one, from 1. Refused
    /// `Memory` where a growth was really refused. The world is then as it was (own).
    pub fn run(&mut self, alloc: Global, turns: &[u8]) -> Result<Trace, RunRefusal>
        ensures named { IfOk result (λ t. All (NamesActor (length self.old.frame_views)) turns.now) }
        ensures refused { IfErr result (λ why. IsRefusedFor (length self.old.frame_views) turns.now why) }
        ensures unchanged { IfErr result (λ why. self.new ≡ self.old) }
        ensures run { IfOk result (λ t. IsRun self.old t.steps.items self.new) }
        ensures scheduled { IfOk result (λ t. IsScheduled turns.now self.old t.steps.items self.new) }
        ensures moves { IfOk result (λ t. All MovesOn t.steps.items) }
        ensures headline { IfOk result (λ t. Through AfterEach
            (λ u x u'. OfEach u x u' × Advances (x.actor - 1) u x.stepped u') self.old t.steps.items self.new) }
        ensures follows { IfOk result (λ t. Follows self.old t.steps.items self.new) }
        ensures end { IfOk result (λ t. IsAtEnd self.new) }
        ensures rest { IfOk result (λ t. AllAtRest self.new) }
        ensures kept { TableInvariant self.new.ghost_state }
        ensures actors { length self.new.frame_views ≡ length self.old.frame_views }
        ensures extent { IsAsLarge self.old self.new }
    {
        self.table.assert_invariant();
        if let Some(position) = bad_turn(turns, self.threads.len()) {
            return Err(RunRefusal::BadTurn { position });
        }
        let room = turns.len() + self.most_steps();
        let mut steps = Vec::with_capacity(alloc, room)?;
        self.follow(turns, &mut steps);
        self.settle(&mut steps);
        self.table.assert_invariant();
        self.finish(&mut steps);
        self.table.assert_invariant();
        Ok(Trace { steps })
    }

    /// More steps than the world has left.
    fn most_steps(&self) -> usize
        ensures enough { most_steps self.now + 6 * length self.now.frame_views ≤ result }
        ensures few { result ≤ 8590000000 }
    {
        self.table.assert_invariant();
        let living = (self.made - self.ended) as usize;
        steps_left(self.threads.as_slice()) + 29 * self.threads.len() + 13 * living
    }

    /// One step for each number.
    fn follow(&mut self, turns: &[u8], steps: &mut Vec<TraceStep>)
        requires named { All (NamesActor (length self.old.frame_views)) turns.now }
        requires empty { steps.old.items ≡ [] }
        requires none { vec_len steps.old ≡ 0 }
        requires room { length turns.now + most_steps self.old + 6 * length self.old.frame_views
            ≤ vec_capacity steps.old }
        ensures run { IsRun self.old steps.new.items self.new }
        ensures numbers { map (λ x. x.actor) steps.new.items ≡ turns.now }
        ensures moves { All MovesOn steps.new.items }
        ensures room { vec_len steps.new + most_steps self.new + 6 * length self.new.frame_views
            ≤ vec_capacity steps.new }
        ensures actors { length self.new.frame_views ≡ length self.old.frame_views }
    {
        for turn in turns {
            let stepped = self.advance(usize::from(*turn) - 1);
            add(steps, *turn, stepped);
        }
    }

    /// Each actor that has a load under way, or funds that it brought or is to give back, finishes that call, in number
    /// order.
    fn settle(&mut self, steps: &mut Vec<TraceStep>)
        requires room { vec_len steps.old + most_steps self.old + 6 * length self.old.frame_views
            ≤ vec_capacity steps.old }
        ensures adds { AddsRun (SettleInOrder (length self.old.frame_views)) self.old steps.old.items self.new
            steps.new.items }
        ensures room { vec_len steps.new + most_steps self.new + 3 * length self.new.frame_views
            ≤ vec_capacity steps.new }
        ensures actors { length self.new.frame_views ≡ length self.old.frame_views }
    {
        let actors = self.threads.len();
        for number in 0..actors {
            self.settle_one(number, steps);
        }
    }

    /// An actor that has a load under way, or funds that it brought or is to give back, finishes that call.
    fn settle_one(&mut self, number: usize, steps: &mut Vec<TraceStep>)
        requires within { number < length self.old.frame_views }
        requires room { vec_len steps.old + most_steps self.old + 3 ≤ vec_capacity steps.old }
        ensures adds { AddsRun (Settles number) self.old steps.old.items self.new steps.new.items }
        ensures room { vec_len steps.new + most_steps self.new ≤ vec_len steps.old + most_steps self.old + 3 }
        ensures capacity { vec_capacity steps.old ≤ vec_capacity steps.new }
        ensures actors { length self.new.frame_views ≡ length self.old.frame_views }
    {
        if self.is_owing(number) {
            self.finish_call(number, steps);
        }
    }

    /// An actor finishes its call.
    fn finish_call(&mut self, number: usize, steps: &mut Vec<TraceStep>)
        requires within { number < length self.old.frame_views }
        requires room { vec_len steps.old + most_steps self.old + 3 ≤ vec_capacity steps.old }
        ensures adds { AddsRun (FinishesCall number) self.old steps.old.items self.new steps.new.items }
        ensures room { vec_len steps.new + most_steps self.new ≤ vec_len steps.old + most_steps self.old + 3 }
        ensures capacity { vec_capacity steps.old ≤ vec_capacity steps.new }
        ensures actors { length self.new.frame_views ≡ length self.old.frame_views }
    {
        self.table.assert_invariant();
        let call = self.call_under_way(number);
        while self.is_calling(number, call) {
            let stepped = self.advance(number);
            add(steps, number as u8 + 1, stepped);
        }
    }

    /// The statement whose call an actor has under way.
    fn call_under_way(&self, number: usize) -> u32
        requires { number < length self.now.frame_views }
        ensures { result ≡ call_under_way number self.now }
    {
        let thread = &self.threads[number];
        match thread.pending_call {
            PendingCall::Refill { statement, .. } | PendingCall::Returning { statement, .. } =>
                statement,
            _ => next_statement(thread),
        }
    }

    /// Whether an actor has a load under way, or funds that it brought or is to give back.
    fn is_owing(&self, number: usize) -> bool
        requires { number < length self.now.frame_views }
        ensures { result ≡ is_owing self.now number }
    {
        let thread = &self.threads[number];
        has_funds_out(thread.pending_call)
    }

    /// Whether an actor's call isn't done, which owed funds: it has begun something, an object ends in its hands, or
    /// its next task is of that statement. At its end each leave is a call.
    fn is_calling(&self, number: usize, call: u32) -> bool
        requires { number < length self.now.frame_views }
        ensures { result ≡ is_calling call self.now number }
    {
        let thread = &self.threads[number];
        match thread.pending_call {
            PendingCall::Rest => {
                thread.frame.endings.first().is_some()
                    || (call != 0 && next_statement(thread) == call)
            }
            _ => true,
        }
    }

    /// Each actor runs alone to its end, in number order.
    fn finish(&mut self, steps: &mut Vec<TraceStep>)
        requires room { vec_len steps.old + most_steps self.old + 3 * length self.old.frame_views
            ≤ vec_capacity steps.old }
        ensures adds { AddsRun (RunInOrder (length self.old.frame_views)) self.old steps.old.items self.new
            steps.new.items }
        ensures actors { length self.new.frame_views ≡ length self.old.frame_views }
    {
        for number in 0..self.threads.len() {
            self.finish_one(number, steps);
        }
    }

    /// An actor runs alone to its end.
    fn finish_one(&mut self, number: usize, steps: &mut Vec<TraceStep>)
        requires within { number < length self.old.frame_views }
        requires room { vec_len steps.old + most_steps self.old + 3 ≤ vec_capacity steps.old }
        ensures adds { AddsRun (RunsToEnd number) self.old steps.old.items self.new steps.new.items }
        ensures room { vec_len steps.new + most_steps self.new ≤ vec_len steps.old + most_steps self.old + 3 }
        ensures capacity { vec_capacity steps.old ≤ vec_capacity steps.new }
        ensures actors { length self.new.frame_views ≡ length self.old.frame_views }
    {
        self.table.assert_invariant();
        loop {
            match self.advance(number) {
                Stepped::Done => return,
                stepped => add(steps, number as u8 + 1, stepped),
            }
        }
    }
}

/// The statement of a thread's next task; 0 at its end.
fn next_statement(thread: &Thread) -> u32
    requires { thread.now.frame.at ≤ length thread.now.frame.tasks.items }
    ensures { result ≡ next_statement (todo thread.now.frame) }
{
    let tasks = &thread.frame.tasks[thread.frame.at..];
    match tasks.first() {
        Some(task) => task.statement,
        None => 0,
    }
}

/// The steps that threads' tasks and endings have left.
fn steps_left(threads: &[Thread]) -> usize
    requires within { (d : ℕ) (t : Thread) → slice_get threads.now d ≡ Some t
        → t.frame.at ≤ length t.frame.tasks.items }
    requires few { sum_by steps_of threads.now ≤ 8590000000 }
    ensures { result ≡ sum_by steps_of threads.now }
{
    let mut left = 0;
    for thread in threads {
        let tasks = &thread.frame.tasks[thread.frame.at..];
        left += task_steps(tasks) + thread.frame.endings.steps_left();
    }
    left
}

/// The steps that tasks have.
fn task_steps(tasks: &[Task]) -> usize
    requires { task_steps tasks.now ≤ 8590000000 }
    ensures { result ≡ task_steps tasks.now }
{
    let mut left = 0;
    for task in tasks {
        left += weight(task.act);
    }
    left
}

/// The steps that an act has.
fn weight(act: Act) -> usize
    ensures { result ≡ weight act }
{
    match act {
        Act::Make { .. } => 28,
        Act::Swap { .. } | Act::Exchange { .. } => 3,
        Act::Load { .. } | Act::Compare { .. } => 7,
        _ => 2,
    }
}

/// The position, from 1, of the first number that names none of so many actors.
fn bad_turn(turns: &[u8], actors: usize) -> Option<usize>
    ensures { MatchOption result (All (NamesActor actors) turns.now)
        (λ position. IsFirstBad actors turns.now position) }
{
    for (index, turn) in turns.iter().enumerate() {
        if *turn == 0 || usize::from(*turn) > actors {
            return Some(index + 1);
        }
    }
    None
}

/// Adds a step, for which there is room.
fn add(steps: &mut Vec<TraceStep>, actor: u8, stepped: Stepped)
    requires { vec_len steps.old < vec_capacity steps.old }
    ensures items { steps.new.items ≡ steps.old.items ++ record { actor = actor; stepped = stepped } ∷ [] }
    ensures len { vec_len steps.new ≡ vec_len steps.old + 1 }
    ensures room { vec_capacity steps.old ≤ vec_capacity steps.new }
{
    if steps.push(TraceStep { actor, stepped }).is_err() {
        unreachable!()
    }
}
