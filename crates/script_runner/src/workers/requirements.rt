//! What a script's workers need before they start, and what they leave.
ghost use Rattle.std.specs.Prelude.{◌≡◌, ◌<◌, ◌≤◌, ◌^◌, [], All, length, map, vec_capacity};
ghost use Rattle.std.specs.Prelude.{IfErr, IfOk};
ghost use Rattle.std.specs.List.{AllZip};
ghost use Rattle.step_threads.specs.Acts.{acts};
ghost use Rattle.step_threads.specs.Programs.{IsProgram, part_of};
ghost use Rattle.script_text.specs.Scripts.{program_in};
ghost use Rattle.script_runner.specs.Assignments.{HasAssignment, IsNewShare, IsAssignmentFor};
ghost use Rattle.script_runner.specs.Assignments.{asked_by, asked_by_all, asked_by_calls};
ghost use Rattle.script_runner.specs.Unshelved.{IsSuited};

use crate::workers::assignment::Assignment;
use crate::workers::log::Log;
use crate::workers::worker::Worker;
use control_word::Refusal;
use ownership_ledger::{Book, Share};
use script_text::Script;
use std::alloc::{AllocError, Global};
use step_core::{Actor, Call, Said};
use step_threads::programs::statement::tasks;

/// How many objects the call asks for.
fn asks_for(call: Call) -> usize
    ensures is { result ≡ asked_by (acts call) }
    ensures few { result ≤ 1 }
{
    match call {
        Call::Make { .. } | Call::MakeThis { .. } | Call::Null { .. } => 1,
        _ => 0,
    }
}

/// How many objects the calls ask for.
fn objects_for(calls: &[Call]) -> usize
    ensures { result ≡ asked_by_calls calls.now }
{
    let mut objects: usize = 0;
    for at in 0..calls.len() {
        objects += asks_for(calls[at]);
    }
    objects
}

/// How many objects the actors ask for together.
fn all_objects(actors: &[Actor]) -> usize
    requires program { IsProgram (map part_of actors.now) }
    ensures is { result ≡ asked_by_all (map part_of actors.now) }
    ensures few { result ≤ 65536 }
{
    let mut objects: usize = 0;
    for at in 0..actors.len() {
        objects += objects_for(actors[at].calls.as_slice());
    }
    objects
}

/// A thread's assignment, with room for all that it may say: each act answers once at most, and no more objects end
/// than all threads make.
fn assignment_for(
    alloc: Global,
    actor: &Actor,
    objects: usize,
    number: usize,
) -> Result<Assignment, AllocError>
    requires calls { length actor.now.calls.items < 2 ^ 31 }
    requires names { length actor.now.kinds.items ≤ 32 }
    requires suits { IsSuited (part_of actor.now) }
    requires objects { objects ≤ 65536 }
    ensures { IfOk result (IsAssignmentFor objects (part_of actor.now)) }
{
    let tasks = tasks(alloc, actor.calls.as_slice(), actor.kinds.len() as u8)?;
    let kinds = Vec::from_slice(alloc, actor.kinds.as_slice())?;
    let said = Vec::with_capacity(alloc, tasks.len() + objects)?;
    Ok(Assignment {
        number,
        kinds,
        tasks,
        said,
    })
}

/// An assignment for each thread.
fn assignments_for(
    alloc: Global,
    actors: &[Actor],
    objects: usize,
) -> Result<Vec<Assignment>, AllocError>
    requires program { IsProgram (map part_of actors.now) }
    requires suits { All IsSuited (map part_of actors.now) }
    requires objects { objects ≤ 65536 }
    ensures { IfOk result (λ v. AllZip (IsAssignmentFor objects) (map part_of actors.now) v.items) }
{
    let mut assignments = Vec::with_capacity(alloc, actors.len())?;
    for (at, actor) in actors.iter().enumerate() {
        let assignment = assignment_for(alloc, actor, objects, at + 1)?;
        assignments.push(assignment)?;
    }
    Ok(assignments)
}

/// The assignments of a script's threads.
pub(crate) fn assignments_of(alloc: Global, script: &Script) -> Result<Vec<Assignment>, Refusal>
    ensures each { IfOk result (λ v. AllZip (IsAssignmentFor (asked_by_all (program_in script.now.threads)))
        (program_in script.now.threads) v.items) }
    ensures objects { IfOk result (λ v. asked_by_all (program_in script.now.threads) ≤ 65536) }
    ensures refused { IfErr result (λ why. why ≡ Refusal.Memory) }
{
    let program = script.program(alloc)?;
    let objects = all_objects(program.actors.as_slice());
    match assignments_for(alloc, program.actors.as_slice(), objects) {
        Ok(assignments) => Ok(assignments),
        Err(_) => Err(Refusal::Memory),
    }
}

/// A worker with this assignment, and a share of the book.
fn worker_of<'a, G>(
    assignment: Assignment,
    share: Share,
    book: &'a Book,
    gate: &'a G,
) -> Worker<'a, G>
    requires { IsNewShare book.now.id share }
    ensures { HasAssignment book.now.id assignment result }
{
    let Assignment {
        number,
        kinds,
        tasks,
        said,
    } = assignment;
    Worker {
        number,
        gate,
        kinds,
        tasks,
        log: Log {
            taken: false,
            said,
            full: false,
            book,
            share,
            room: u32::MAX,
        },
    }
}

/// Each assignment goes to a worker, with a share of the book.
pub(crate) fn assign<'a, G>(
    assignments: &mut Vec<Assignment>,
    shares: &mut Vec<Share>,
    workers: &mut Vec<Worker<'a, G>>,
    book: &'a Book,
    gate: &'a G,
)
    requires many { length assignments.old.items ≡ length shares.old.items }
    requires shares { All (IsNewShare book.now.id) shares.old.items }
    requires room { (workers.old.items ≡ []) × (length assignments.old.items ≤ vec_capacity workers.old) }
    ensures each { AllZip (HasAssignment book.now.id) assignments.old.items workers.new.items }
    ensures none { shares.new.items ≡ [] }
    ensures room { vec_capacity shares.new ≡ vec_capacity shares.old }
{
    while let Some(assignment) = assignments.pop() {
        match shares.pop() {
            Some(share) => workers.push_reserved(worker_of(assignment, share, book, gate)),
            None => unreachable!(),
        }
    }
    workers.reverse();
}

/// What the workers said goes into one list, and their shares into another.
pub(crate) fn collect<G>(
    workers: &mut Vec<Worker<'_, G>>,
    shares: &mut Vec<Share>,
    lines: &mut Vec<Vec<Said>>,
)
    requires shares { (shares.old.items ≡ []) × (length workers.old.items ≤ vec_capacity shares.old) }
    requires lines { (lines.old.items ≡ []) × (length workers.old.items ≤ vec_capacity lines.old) }
    ensures shares { shares.new.items ≡ map (λ w. w.log.share) workers.old.items }
    ensures lines { lines.new.items ≡ map (λ w. w.log.said) workers.old.items }
    ensures none { workers.new.items ≡ [] }
{
    while let Some(worker) = workers.pop() {
        let Worker {
            number: _,
            gate: _,
            kinds: _,
            tasks: _,
            log,
        } = worker;
        let Log {
            taken: _,
            said,
            full: _,
            book: _,
            share,
            room: _,
        } = log;
        shares.push_reserved(share);
        lines.push_reserved(said);
    }
    shares.reverse();
    lines.reverse();
}
