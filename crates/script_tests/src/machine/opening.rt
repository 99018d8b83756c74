//! How worlds begin, and what they refuse.
use crate::same::same;
use control_word::{Refusal, Refused, Shape};
use std::alloc::{AllocError, Global};
use std::process::Abort;
use std::test::Fail;
use step_core::{Actor, Call, Kind, Name, Program, World};
use step_table::limits::{SCRIPT_OWNERS, SCRIPT_WEAKS};

const COUNT: Call = Call::Count { name: Name(0) };

fn shape(blocks: u32, allowance: u32) -> Shape {
    Shape {
        blocks,
        owners: SCRIPT_OWNERS,
        weaks: SCRIPT_WEAKS,
        shared_cells: 0,
        weak_cells: 0,
        allowance,
    }
}

/// Actors that each have so many owners, and make so many of these calls.
fn program(
    alloc: Global,
    actors: usize,
    names: usize,
    calls: usize,
    call: Call,
) -> Result<Program, AllocError> {
    let mut all = Vec::new(alloc);
    for _ in 0..actors {
        all.push(Actor {
            kinds: vec![in alloc; Kind::Owner; names]?,
            calls: vec![in alloc; call; calls]?,
        })?;
    }
    Ok(Program { actors: all })
}

/// Why a world is refused, if it is, and how many actors came back.
fn refusal(alloc: Global, shape: Shape, program: Program) -> Option<(Refusal, usize)> {
    match World::new(alloc, shape, program) {
        Ok(_) => None,
        Err(refused) => Some((refused.why, refused.back.actors.len())),
    }
}

/// The same of a program that is taken, or is refused for its own or the world's shape.
fn is_taken(alloc: Global, shape: Shape, program: Result<Program, AllocError>) -> Option<bool> {
    let Ok(program) = program else {
        return None;
    };
    let actors = program.actors.len();
    match refusal(alloc, shape, program) {
        None => Some(true),
        Some((Refusal::Shape, back)) if back == actors => Some(false),
        Some(_) => None,
    }
}

const COPY: Call = Call::Copy {
    target: Name(31),
    source: Name(0),
};

const BEYOND: Call = Call::Reset { name: Name(1) };

/// Actors, names and calls of a program, and whether a world of it is taken.
const PROGRAMS: [(usize, usize, usize, Call, bool); 13] = [
    (64, 1, 1, COUNT, true),
    (65, 1, 1, COUNT, false),
    (0, 1, 1, COUNT, false),
    (1, 32, 1, COPY, true),
    (1, 31, 1, COPY, false),
    (1, 33, 1, COPY, false),
    (1, 1, 65_536, COUNT, true),
    (1, 1, 65_537, COUNT, false),
    (2, 1, 32_768, COUNT, true),
    (2, 1, 32_769, COUNT, false),
    (1, 2, 1, BEYOND, true),
    (1, 1, 1, BEYOND, false),
    (1, 0, 0, COUNT, true),
];

#[test]
fn programs_have_limits(rt: HostRuntime) {
    let alloc = rt.alloc();
    for (actors, names, calls, call, taken) in PROGRAMS {
        let program = program(alloc, actors, names, calls, call);
        let told = is_taken(alloc, shape(65, 4_194_304), program);
        same(
            &rt,
            (actors, names, calls, told),
            (actors, names, calls, Some(taken)),
        );
    }
}

/// Blocks, weak cells and allowance of a world, and whether it is taken.
const SHAPES: [(u32, u32, u32, bool); 8] = [
    (1, 0, 120, true),
    (1, 0, 119, false),
    (0, 0, 120, false),
    (65_535, 0, 120, true),
    (65_536, 0, 120, false),
    (5, 128, 4_194_304, true),
    (5, 129, 4_194_304, false),
    (5, 128, 4_194_305, false),
];

#[test]
fn shapes_have_limits(rt: HostRuntime) {
    let alloc = rt.alloc();
    for (blocks, weak_cells, allowance, taken) in SHAPES {
        let shape = Shape {
            blocks,
            owners: SCRIPT_OWNERS,
            weaks: SCRIPT_WEAKS,
            shared_cells: 128,
            weak_cells,
            allowance,
        };
        let told = is_taken(alloc, shape, program(alloc, 3, 1, 1, COUNT));
        same(&rt, (shape, told), (shape, Some(taken)));
    }
}

/// Owner and weak members of a world's objects, and whether it is taken: scripts have two owners and a weak one.
const MEMBERS: [(u32, u32, bool); 5] = [
    (2, 1, true),
    (3, 1, false),
    (2, 2, false),
    (1, 1, false),
    (2, 0, false),
];

#[test]
fn objects_have_three_members(rt: HostRuntime) {
    let alloc = rt.alloc();
    for (owners, weaks, taken) in MEMBERS {
        let shape = Shape {
            owners,
            weaks,
            ..shape(5, 120)
        };
        let told = is_taken(alloc, shape, program(alloc, 3, 1, 1, COUNT));
        same(&rt, (shape, told), (shape, Some(taken)));
    }
}

/// A world that is refused for want of memory is made of the program that came back.
fn try_again(rt: &impl Abort, alloc: Global, refused: Refused<Program>) -> Result<(), Refusal> {
    let Refused { why, back } = refused;
    same(rt, (why, back.actors.len()), (Refusal::Memory, 2));
    match refusal(alloc, shape(5, 80), back) {
        None => Ok(()),
        Some((why, _)) => Err(why),
    }
}

// `rt try --test --fail-alloc N` refuses the Nth allocation. Where that is one of a world's, the program comes back as
// it was, and the next try begins.
#[test]
fn a_refused_world_gives_its_program_back(rt: HostRuntime) -> Result<(), Fail> {
    let alloc = rt.alloc();
    let program = program(alloc, 2, 3, 4, COUNT)?;
    match World::new(alloc, shape(5, 80), program) {
        Ok(_) => Ok(()),
        Err(refused) => Ok(try_again(&rt, alloc, refused)?),
    }
}
