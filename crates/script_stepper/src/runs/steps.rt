//! A run by single steps, and the text that tells of it (own).
ghost use Rattle.std.specs.Prelude.{◌≡◌, All, IfOk, OnOk, string_bytes};
ghost use Rattle.std.specs.List.{flat_map};
ghost use Rattle.script_text.specs.Canonical.{AddsLines};
ghost use Rattle.step_core.specs.Worlds.{IsAsLarge};
ghost use Rattle.script_stepper.specs.Running.{IsThread};
ghost use Rattle.script_stepper.specs.StepRuns.{IsStepRun, IsStepText, step_lines};

use crate::lines::put_said;
use crate::runs::totals::put_closing;
use std::alloc::{AllocError, Global};
use step_core::{RunRefusal, Stepped, Trace, TraceStep, World};

/// Adds the lines of a step.
fn put_step(text: &mut String, step: &TraceStep) -> Result<(), AllocError>
    ensures { OnOk result (AddsLines text.old text.new (step_lines step.now)) }
{
    match step.stepped {
        Stepped::Event(said) | Stepped::Quiet(said) => put_said(text, step.actor, &said),
        Stepped::Waited | Stepped::Done => Ok(()),
    }
}

/// Adds the lines of steps, in order.
fn put_steps(text: &mut String, steps: &[TraceStep]) -> Result<(), AllocError>
    ensures { OnOk result (AddsLines text.old text.new (flat_map step_lines steps.now)) }
{
    for step in steps {
        put_step(text, step)?;
    }
    Ok(())
}

/// The steps of a run.
fn trace_of(alloc: Global, world: &mut World, turns: &[u8]) -> Result<Trace, AllocError>
    requires threads { All (IsThread world.old) turns.now }
    ensures run { IfOk result (λ trace. IsStepRun turns.now world.old trace.steps.items world.new) }
    ensures extent { IsAsLarge world.old world.new }
{
    match world.run(alloc, turns) {
        Ok(trace) => Ok(trace),
        Err(RunRefusal::Memory) => Err(AllocError),
        Err(RunRefusal::BadTurn { .. }) => unreachable!(),
    }
}

/// Runs a world step by step, and tells of it.
pub(crate) fn steps_text(
    alloc: Global,
    world: &mut World,
    blocks: u16,
    turns: &[u8],
) -> Result<String, AllocError>
    requires blocks { blocks ≡ world.old.ghost_state.extent.shape.blocks }
    requires threads { All (IsThread world.old) turns.now }
    ensures { IfOk result (λ text. IsStepText turns.now world.old (string_bytes text)) }
{
    let trace = trace_of(alloc, world, turns)?;
    let mut text = String::new(alloc);
    put_steps(&mut text, trace.steps.as_slice())?;
    put_closing(world, blocks, &mut text)?;
    Ok(text)
}
