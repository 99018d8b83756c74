//! How a world begins.
ghost use Rattle.std.specs.Prelude.{◌≡◌, ◌↔◌, ◌⊎◌, ◌<◌, ◌^◌, All, length, map, IfErr, IfOk};
ghost use Rattle.step_threads.specs.Actors.{Stocks};
ghost use Rattle.step_threads.specs.Frames.{frame_view};
ghost use Rattle.step_table.specs.Openings.{IsExtent};
ghost use Rattle.step_threads.specs.Programs.{AllHaveCells, IsPart, IsProgram, part_of, parts_of};
ghost use Rattle.step_core.specs.Starts.{AllHaveFields, CanBegin, HasFields, first_frame, first_ghost};
ghost use Rattle.step_core.specs.Starts.{first_world_state};
ghost use Rattle.step_table.specs.GhostStates.{TableInvariant};
ghost use Rattle.step_threads.specs.Threads.{FitsThread};
ghost use Rattle.step_core.specs.Worlds.{AllFit};

use crate::limits::can_begin;
use crate::world::World;
use control_word::{Refusal, Refused, Shape};
use std::alloc::{AllocError, Global};
use step_table::memory::extent::Extent;
use step_table::memory::table::Table;
use step_table::slots::registers::Registers;
use step_threads::ending::Endings;
use step_threads::frame::Frame;
use step_threads::pending_call::PendingCall;
use step_threads::programs::call::{Actor, Program};
use step_threads::programs::statement::tasks;
use step_threads::stock::Stock;
use step_threads::thread::Thread;

/// The store of a desk. All have the same number of blocks, in order; the rest goes to the last.
fn stock_of(alloc: Global, extent: &Extent, desk: u32) -> Result<Stock, AllocError>
    requires proper { IsExtent extent.now }
    requires desk { desk < extent.now.actors }
    ensures { IfOk result (λ s. Stocks desk s.blocks s.room PendingCall.Rest (first_ghost extent.now)) }
{
    let blocks = extent.shape.blocks;
    let each = blocks / extent.actors;
    let before = each * desk;
    let count = if desk + 1 == extent.actors {
        blocks - before
    } else {
        each
    };
    Stock::new(alloc, (before + 1) as u16, count as u16, blocks as usize)
}

/// The thread of an actor, at the first act of its calls.
fn thread_of(alloc: Global, extent: &Extent, desk: u32, actor: &Actor) -> Result<Thread, AllocError>
    requires proper { IsExtent extent.now }
    requires desk { desk < extent.now.actors }
    requires part { IsPart (part_of actor.now) }
    requires calls { length actor.now.calls.items < 2 ^ 31 }
    requires fields { All HasFields actor.now.calls.items }
    requires cells { AllHaveCells extent.now.shape (part_of actor.now) }
    ensures frame_view { IfOk result (λ t. frame_view t.frame ≡ first_frame (part_of actor.now)) }
    ensures pending_call { IfOk result (λ t. t.pending_call ≡ PendingCall.Rest) }
    ensures fits { IfOk result (λ t. FitsThread desk t (first_ghost extent.now)) }
{
    let names = actor.kinds.len() as u8;
    let tasks = tasks(alloc, actor.calls.as_slice(), names)?;
    let registers = Registers::new(alloc, names)?;
    let stock = stock_of(alloc, extent, desk)?;
    let endings = Endings::new(alloc, extent.shape.blocks as usize)?;
    let mut frame = Frame {
        tasks,
        at: 0,
        registers,
        taken: false,
        endings,
    };
    frame.settle();
    Ok(Thread {
        frame,
        stock,
        pending_call: PendingCall::Rest,
    })
}

/// The threads of a program's actors, at their first acts.
fn threads_of(alloc: Global, extent: &Extent, actors: &[Actor]) -> Result<Vec<Thread>, AllocError>
    requires proper { IsExtent extent.now }
    requires actors { extent.now.actors ≡ length actors.now }
    requires program { IsProgram (map part_of actors.now) }
    requires fields { AllHaveFields (map part_of actors.now) }
    requires cells { All (AllHaveCells extent.now.shape) (map part_of actors.now) }
    ensures frame_views { IfOk result (λ v. map (λ t. frame_view t.frame) v.items
        ≡ map first_frame (map part_of actors.now)) }
    ensures pending_calls { IfOk result
        (λ v. map (λ t. t.pending_call) v.items ≡ map (λ part. PendingCall.Rest) (map part_of actors.now)) }
    ensures fit { IfOk result (λ v. AllFit (first_ghost extent.now) v.items) }
{
    let mut threads = Vec::with_capacity(alloc, actors.len())?;
    for (desk, actor) in actors.iter().enumerate() {
        let thread = thread_of(alloc, extent, desk as u32, actor)?;
        threads.push(thread)?;
    }
    Ok(threads)
}

/// A world of a shape and a program that are within the limits.
fn world_of(alloc: Global, shape: Shape, actors: &[Actor]) -> Result<World, AllocError>
    requires begin { CanBegin shape (map part_of actors.now) }
    requires fields { AllHaveFields (map part_of actors.now) }
    ensures start { IfOk result (λ w. w ≡ first_world_state shape (map part_of actors.now)) }
{
    let extent = Extent {
        shape,
        actors: actors.len() as u32,
    };
    let threads = threads_of(alloc, &extent, actors)?;
    let table = Table::new(alloc, &extent)?;
    Ok(World {
        table,
        threads,
        made: 0,
        ended: 0,
    })
}

impl World {
    /// A world at its start: the words of the shape, all 0, and a thread for each actor of the program, which holds
    /// nothing and has its share of the blocks. It takes all memory that later steps need.
    ///
    /// Refused `Shape` just where the shape is outside its limits, or asks for other members than two owners and a
    /// weak one; or there are not 1 to 64 actors; or an actor has more than 32 names; or there are more than 65,536
    /// calls; or a call names a name that its actor hasn't, or one of the other kind; or it exchanges a name with a
    /// member of that name's own object; or it names a cell that the shape hasn't, or a fourth member; or the allowance
    /// is below 40 for each actor. Refused `Memory` where a growth was really refused. The program comes back as it was
    /// (own).
    pub fn new(alloc: Global, shape: Shape, program: Program) -> Result<World, Refused<Program>>
        ensures start { IfOk result (λ w. w ≡ first_world_state shape (parts_of program)) }
        ensures kept { IfOk result (λ w. TableInvariant w.ghost_state) }
        ensures begin { IfOk result (λ w. CanBegin shape (parts_of program)) }
        ensures refused { IfErr result (λ r. (r.why ≡ Refusal.Memory) ⊎ (r.why ≡ Refusal.Shape)) }
        ensures shape { IfErr result (λ r. r.why ≡ Refusal.Shape ↔ (CanBegin shape (parts_of program) → ⊥)) }
        ensures back { IfErr result (λ r. r.back ≡ program) }
    {
        if !can_begin(&shape, program.actors.as_slice()) {
            return Err(Refused {
                why: Refusal::Shape,
                back: program,
            });
        }
        match world_of(alloc, shape, program.actors.as_slice()) {
            Ok(world) => {
                world.table.assert_invariant();
                Ok(world)
            }
            Err(_) => Err(Refused {
                why: Refusal::Memory,
                back: program,
            }),
        }
    }
}
