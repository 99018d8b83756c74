//! Turns of a world, and the text that tells of them (own).
ghost use Rattle.std.specs.Prelude.{◌≡◌, ℕ, ◌-◌, ◌<◌, ◌≤◌, ◌∷◌, [], true, None, All, IfOk};
ghost use Rattle.std.specs.Prelude.{OnOk};
ghost use Rattle.std.specs.Prelude.{is_some, length, replicate, string_bytes};
ghost use Rattle.step_threads.specs.AbstractStates.{next, frame_of};
ghost use Rattle.step_core.specs.Worlds.{abstraction};
ghost use Rattle.script_stepper.specs.Running.{AllOver, AllRest, HasRun, IsThread, RunsAlone, RunsOut, turns_left};

use crate::lines::put_said;
use std::alloc::AllocError;
use step_core::{Turned, World};

/// One turn of a thread. Answers whether it had an act, which leaves it fewer; the lines of what that says are added.
fn take_turn(world: &mut World, thread: u8, text: &mut String) -> Result<bool, AllocError>
    requires rests { AllRest world.old }
    requires thread { IsThread world.old thread }
    ensures run { OnOk result
        (HasRun (thread ∷ []) world.old world.new (string_bytes text.old) (string_bytes text.new)) }
    ensures acted { IfOk result (λ acted. acted ≡ is_some (next (frame_of (abstraction world.old) (thread - 1)))) }
    ensures less { IfOk result (λ acted. acted ≡ true
        → turns_left (thread - 1) (abstraction world.new) < turns_left (thread - 1) (abstraction world.old)) }
{
    match world.turn(thread) {
        Turned::Acted(said) => {
            put_said(text, thread, &said)?;
            Ok(true)
        }
        Turned::Done => Ok(false),
        Turned::Waited => unreachable!(),
    }
}

/// One turn for each number.
fn take_turns(world: &mut World, turns: &[u8], text: &mut String) -> Result<(), AllocError>
    requires rests { AllRest world.old }
    requires threads { All (IsThread world.old) turns.now }
    ensures { OnOk result
        (HasRun turns.now world.old world.new (string_bytes text.old) (string_bytes text.new)) }
{
    for thread in turns {
        take_turn(world, *thread, text)?;
    }
    Ok(())
}

/// Runs a thread alone to its end.
fn finish(world: &mut World, thread: u8, text: &mut String) -> Result<(), AllocError>
    requires rests { AllRest world.old }
    requires thread { IsThread world.old thread }
    ensures run { OnOk result
        (RunsAlone thread world.old world.new (string_bytes text.old) (string_bytes text.new)) }
    ensures over { OnOk result (next (frame_of (abstraction world.new) (thread - 1)) ≡ None) }
{
    while take_turn(world, thread, text)? {}
    Ok(())
}

/// One turn for each number; then each of the threads runs alone to its end, in number order.
pub(crate) fn run_turns(
    world: &mut World,
    threads: u8,
    turns: &[u8],
    text: &mut String,
) -> Result<(), AllocError>
    requires rests { AllRest world.old }
    requires all { threads ≡ length world.old.frame_views }
    requires threads { All (IsThread world.old) turns.now }
    ensures run { OnOk result
        (RunsOut turns.now world.old world.new (string_bytes text.old) (string_bytes text.new)) }
    ensures over { OnOk result (AllOver world.new) }
{
    take_turns(world, turns, text)?;
    for index in 0..threads {
        finish(world, index + 1, text)?;
    }
    Ok(())
}
