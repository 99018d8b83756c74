//! Runs by turns and by steps, whose acts are recorded.
ghost use Rattle.std.specs.Prelude.{◌≡◌, ◌-◌, ◌<◌, ◌≤◌, ◌∷◌, [], true, None, List, All, IfOk, OnOk};
ghost use Rattle.std.specs.Prelude.{is_some, length};
ghost use Rattle.step_threads.specs.AbstractStates.{next, frame_of};
ghost use Rattle.step_core.specs.Runs.{IsRun, NamesActor};
ghost use Rattle.step_core.specs.Following.{said_by};
ghost use Rattle.step_core.specs.Worlds.{Advances, IsAsLarge, WorldState, abstraction};
ghost use Rattle.script_stepper.specs.Running.{AllOver, AllRest, IsThread, turns_left};
ghost use Rattle.script_picture.specs.Acts.{Seen};
ghost use Rattle.script_picture.specs.Recording.{Adds, Fits, HasTaken, SeesSteps, TakesAlone, TakesOut, step_seen};

use crate::recording::{Made, Rows, add_row};
use crate::trace_label::{Aimed, TraceLabel, aimed_at, step_word, trace_label_of};
use std::alloc::AllocError;
use step_core::{Said, Stepped, TraceStep, Turned, World};

/// One turn of a thread. Answers whether it had an act, which leaves it fewer.
fn take_turn(world: &mut World, thread: u8, rows: &mut Rows) -> Result<bool, AllocError>
    requires rests { AllRest world.old }
    requires thread { IsThread world.old thread }
    requires fits { Fits rows.old.source world.old }
    ensures taken { OnOk result (HasTaken (thread ∷ []) world.old world.new rows.old rows.new) }
    ensures acted { IfOk result (λ acted. acted ≡ is_some (next (frame_of (abstraction world.old) (thread - 1)))) }
    ensures less { IfOk result (λ acted. acted ≡ true
        → turns_left (thread - 1) (abstraction world.new) < turns_left (thread - 1) (abstraction world.old)) }
{
    let trace_label = trace_label_of(world, thread);
    match world.turn(thread) {
        Turned::Acted(said) => {
            let made = Made {
                thread,
                said,
                word: trace_label.word,
                name: trace_label.name,
                aimed: aimed_at(&trace_label, &said),
            };
            add_row(world, made, rows)?;
            Ok(true)
        }
        Turned::Done => Ok(false),
        Turned::Waited => unreachable!(),
    }
}

/// One turn for each number.
fn take_turns(world: &mut World, turns: &[u8], rows: &mut Rows) -> Result<(), AllocError>
    requires rests { AllRest world.old }
    requires threads { All (IsThread world.old) turns.now }
    requires fits { Fits rows.old.source world.old }
    ensures { OnOk result (HasTaken turns.now world.old world.new rows.old rows.new) }
{
    for thread in turns {
        take_turn(world, *thread, rows)?;
    }
    Ok(())
}

/// A thread runs alone to its end.
fn finish(world: &mut World, thread: u8, rows: &mut Rows) -> Result<(), AllocError>
    requires rests { AllRest world.old }
    requires thread { IsThread world.old thread }
    requires fits { Fits rows.old.source world.old }
    ensures taken { OnOk result (TakesAlone thread world.old world.new rows.old rows.new) }
    ensures over { OnOk result (next (frame_of (abstraction world.new) (thread - 1)) ≡ None) }
{
    while take_turn(world, thread, rows)? {}
    Ok(())
}

/// One turn for each number; then each of the threads runs alone to its end, in number order.
pub(crate) fn record_turns(
    world: &mut World,
    threads: u8,
    turns: &[u8],
    rows: &mut Rows,
) -> Result<(), AllocError>
    requires rests { AllRest world.old }
    requires all { threads ≡ length world.old.frame_views }
    requires threads { All (IsThread world.old) turns.now }
    requires fits { Fits rows.old.source world.old }
    ensures taken { OnOk result (TakesOut turns.now world.old world.new rows.old rows.new) }
    ensures over { OnOk result (AllOver world.new) }
{
    take_turns(world, turns, rows)?;
    for index in 0..threads {
        finish(world, index + 1, rows)?;
    }
    Ok(())
}

/// What a step said, if it was one of an act.
fn said_of(stepped: Stepped) -> Option<Said>
    ensures { result ≡ said_by stepped }
{
    match stepped {
        Stepped::Event(said) | Stepped::Quiet(said) => Some(said),
        Stepped::Waited | Stepped::Done => None,
    }
}

/// The cell that a step wrote or read.
fn aimed_by(trace_label: &TraceLabel, stepped: Stepped) -> Option<Aimed> {
    match stepped {
        Stepped::Event(said) => aimed_at(trace_label, &said),
        _ => None,
    }
}

/// Makes a step that a run of the same world made.
fn take_step(world: &mut World, step: &TraceStep, rows: &mut Rows) -> Result<(), AllocError>
    requires actor { NamesActor (length world.old.frame_views) step.now.actor }
    requires fits { Fits rows.old.source world.old }
    ensures adds { OnOk result ((m : WorldState) → Advances (step.now.actor - 1) world.old step.now.stepped m
        → (world.new ≡ m) × Adds (step_seen step.now m) rows.old rows.new) }
    ensures same { OnOk result (rows.new.source.blocks ≡ rows.old.source.blocks) }
    ensures part { OnOk result (rows.new.part ≡ rows.old.part) }
    ensures actors { length world.new.frame_views ≡ length world.old.frame_views }
    ensures extent { IsAsLarge world.old world.new }
{
    let thread = step.actor;
    let trace_label = trace_label_of(world, thread);
    world.step(thread);
    let Some(said) = said_of(step.stepped) else {
        return Ok(());
    };
    let made = Made {
        thread,
        said,
        word: step_word(&trace_label, world.pending_call(thread)),
        name: trace_label.name,
        aimed: aimed_by(&trace_label, step.stepped),
    };
    add_row(world, made, rows)
}

/// Makes the steps that a run of the same world made.
pub(crate) fn record_steps(
    world: &mut World,
    steps: &[TraceStep],
    rows: &mut Rows,
) -> Result<(), AllocError>
    requires actors { All (λ step. NamesActor (length world.old.frame_views) step.actor) steps.now }
    requires fits { Fits rows.old.source world.old }
    ensures sees { OnOk result ((last : WorldState) → IsRun world.old steps.now last
        → (seen : List Seen) × SeesSteps world.old steps.now seen last × Adds seen rows.old rows.new) }
    ensures part { OnOk result (rows.new.part ≡ rows.old.part) }
{
    for step in steps {
        take_step(world, step, rows)?;
    }
    Ok(())
}
