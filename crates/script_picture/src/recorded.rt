//! Runs of scripts, recorded act by act or step by step.
ghost use Rattle.std.specs.Prelude.{◌≡◌, ◌≤◌, true, false, [], List, All, IfErr, IfOk, length};
ghost use Rattle.script_text.specs.declared.fault.Fault.TheVariants.{Memory};
ghost use Rattle.script_text.specs.Beginnings.{script_world_state};
ghost use Rattle.step_core.specs.Runs.{IsRun, NamesActor};
ghost use Rattle.step_core.specs.Worlds.{IsAsLarge, WorldState};
ghost use Rattle.script_stepper.specs.Running.{IsThread};
ghost use Rattle.script_stepper.specs.StepRuns.{IsStepRun};
ghost use Rattle.script_picture.specs.Acts.{Seen};
ghost use Rattle.script_picture.specs.Parts.{shown_part};
ghost use Rattle.script_picture.specs.Pictures.{IsRunRecorded};
ghost use Rattle.script_picture.specs.Recording.{RowsAre, SeesSteps};

use crate::drawing::Order;
use crate::recording::{Rows, Source, no_rows};
use crate::running::{record_steps, record_turns};
use crate::source::{names, statements};
use script_stepper::{End, Start, start_of};
use script_text::{Fault, Script};
use std::alloc::{AllocError, Global};
use step_core::{RunRefusal, Trace, World};

/// A run whose acts were recorded, and its end.
#[derive(Drop)]
pub(crate) struct Recorded {
    pub rows: Rows,
    pub threads: u8,
    pub end: End,
}

/// No rows yet of a script's run.
fn rows_of(
    alloc: Global,
    order: Order<'_>,
    script: &Script,
    blocks: u16,
    threads: u8,
) -> Result<Rows, AllocError>
    ensures none { IfOk result (λ rows. RowsAre rows []) }
    ensures part { IfOk result (λ rows. rows.part ≡ shown_part order.entry.part) }
    ensures blocks { IfOk result (λ rows. rows.source.blocks ≡ blocks) }
{
    let statements = statements(alloc, order.script)?;
    let names = names(alloc, script)?;
    let source = Source {
        alloc,
        statements,
        names,
        threads,
        blocks,
    };
    no_rows(source, order.part.shown())
}

/// Records a run by turns, each of which names a thread.
fn by_turns(
    alloc: Global,
    script: &Script,
    turns: &[u8],
    order: Order<'_>,
) -> Result<Recorded, Fault>
    requires { All (λ thread. (1 ≤ thread) × (thread ≤ length script.now.threads)) turns.now }
    ensures ok { IfOk result (λ r. IsRunRecorded false script.now turns.now
        (shown_part order.entry.part)
        r.rows.acts r.rows.list.items) }
    ensures part { IfOk result (λ r. r.rows.part ≡ shown_part order.entry.part) }
    ensures memory { IfErr result (λ fault. fault ≡ Memory) }
{
    let Start {
        mut world,
        threads,
        blocks,
    } = start_of(alloc, script)?;
    let Ok(mut rows) = rows_of(alloc, order, script, blocks, threads) else {
        return Err(Fault::Memory);
    };
    match record_turns(&mut world, threads, turns, &mut rows) {
        Ok(()) => Ok(Recorded {
            rows,
            threads,
            end: End { world, blocks },
        }),
        Err(_) => Err(Fault::Memory),
    }
}

/// The steps of a run.
fn trace_of(alloc: Global, world: &mut World, turns: &[u8]) -> Result<Trace, AllocError>
    requires threads { All (IsThread world.old) turns.now }
    ensures run { IfOk result (λ trace. IsStepRun turns.now world.old trace.steps.items world.new) }
    ensures extent { IsAsLarge world.old world.new }
{
    match world.run(alloc, turns) {
        Ok(trace) => Ok(trace),
        Err(RunRefusal::Memory) => Err(AllocError),
        Err(RunRefusal::BadTurn { .. }) => unreachable!(),
    }
}

/// Records a run by single steps, which is made twice: once for its steps, and once for what is
/// seen after each.
fn by_steps(
    alloc: Global,
    script: &Script,
    turns: &[u8],
    order: Order<'_>,
) -> Result<Recorded, Fault>
    requires { All (λ thread. (1 ≤ thread) × (thread ≤ length script.now.threads)) turns.now }
    ensures ok { IfOk result (λ r. IsRunRecorded true script.now turns.now
        (shown_part order.entry.part)
        r.rows.acts r.rows.list.items) }
    ensures part { IfOk result (λ r. r.rows.part ≡ shown_part order.entry.part) }
    ensures memory { IfErr result (λ fault. fault ≡ Memory) }
{
    let Start {
        mut world,
        threads,
        blocks,
    } = start_of(alloc, script)?;
    let Ok(trace) = trace_of(alloc, &mut world, turns) else {
        return Err(Fault::Memory);
    };
    match stepped_rows(alloc, script, &trace, order) {
        Ok(rows) => Ok(Recorded {
            rows,
            threads,
            end: End { world, blocks },
        }),
        Err(_) => Err(Fault::Memory),
    }
}

/// The rows of the steps of a script's run.
fn stepped_rows(
    alloc: Global,
    script: &Script,
    trace: &Trace,
    order: Order<'_>,
) -> Result<Rows, AllocError>
    requires { All (λ step. NamesActor (length script.now.threads) step.actor)
        trace.now.steps.items }
    ensures rows { IfOk result (λ rows. (last : WorldState)
        → IsRun (script_world_state script.now) trace.now.steps.items last
        → (seen : List Seen) × SeesSteps (script_world_state script.now) trace.now.steps.items seen last
        × RowsAre rows seen) }
    ensures part { IfOk result (λ rows. rows.part ≡ shown_part order.entry.part) }
{
    let Ok(
        Start {
            mut world,
            threads,
            blocks,
        },
    ) = start_of(alloc, script)
    else {
        return Err(AllocError);
    };
    let mut rows = rows_of(alloc, order, script, blocks, threads)?;
    record_steps(&mut world, trace.steps.as_slice(), &mut rows)?;
    Ok(rows)
}

/// A script's run, by acts or by single steps, recorded.
pub(crate) fn record_run(
    alloc: Global,
    script: &Script,
    turns: &[u8],
    order: Order<'_>,
) -> Result<Recorded, Fault>
    requires { All (λ thread. (1 ≤ thread) × (thread ≤ length script.now.threads)) turns.now }
    ensures ok { IfOk result (λ r. IsRunRecorded order.entry.is_fine script.now turns.now
        (shown_part order.entry.part)
        r.rows.acts r.rows.list.items) }
    ensures part { IfOk result (λ r. r.rows.part ≡ shown_part order.entry.part) }
    ensures memory { IfErr result (λ fault. fault ≡ Memory) }
{
    if order.is_fine {
        by_steps(alloc, script, turns, order)
    } else {
        by_turns(alloc, script, turns, order)
    }
}
