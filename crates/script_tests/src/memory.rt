//! Growths that are refused. `tests/refuse_allocations` runs these with each allocation refused in turn, and compares
//! how many a chain's end takes with a test that only makes its world.
ghost use Rattle.std.specs.Prelude.{◌≡◌, false};
ghost use Rattle.script_stepper.specs.Runs.{is_output};

use crate::machine::worlds::TestWorld;
use crate::same::same;
use control_word::{Block, Place, Refusal};
use script_stepper::{Output, Sink, fine_text, step_text, write_lines};
use script_text::{Fault, Script, convert, parse, print};
use std::alloc::{AllocError, Global};
use std::process::Abort;
use std::test::Fail;
use step_core::{Answer, Call, CellName, Ended, Name, Program, RunRefusal, Said, Turned};

const A: Name = Name(0);

const B: Name = Name(1);

/// As many objects as a script has blocks.
const OBJECTS: u32 = 4_095;

fn make(target: Name, field: u32) -> Call {
    Call::Make {
        target,
        fields: [u64::from(field), 0, 0, 0],
    }
}

/// What makes a chain of all objects, in which each but the first owns the one before. Its last one's owners leave at
/// the end.
fn chain(alloc: Global) -> Result<Vec<Call>, AllocError> {
    let first = CellName::Member { name: B, member: 0 };
    let mut calls = vec![in alloc; make(A, 0)]?;
    for object in 1..OBJECTS {
        calls.push(make(B, object))?;
        calls.push(Call::Store {
            cell: first,
            source: A,
        })?;
        calls.push(Call::Copy {
            target: A,
            source: B,
        })?;
    }
    Ok(calls)
}

#[test]
fn a_world_of_a_chain_is_made(rt: HostRuntime) -> Result<(), Fail> {
    let calls = chain(rt.alloc())?;
    let world = TestWorld::new(rt.alloc(), OBJECTS, calls.as_slice())?;
    same(&rt, world.totals(), (0, 0));
    Ok(())
}

#[test]
fn a_chain_of_all_blocks_ends(rt: HostRuntime) -> Result<(), Fail> {
    let calls = chain(rt.alloc())?;
    let mut world = TestWorld::new(rt.alloc(), OBJECTS, calls.as_slice())?;
    for _ in 0..1_000_000 {
        if world.turn() == Turned::Done {
            break;
        }
    }
    same(&rt, world.totals(), (OBJECTS, OBJECTS));
    Ok(())
}

/// A refused run changes nothing: the next one makes all its steps.
#[test]
fn a_refused_run_leaves_its_world(rt: HostRuntime) -> Result<(), Fail> {
    let calls = [make(A, 1), Call::Count { name: A }];
    let mut world = TestWorld::new(rt.alloc(), 1, &calls)?;
    if let Err(why) = world.run(rt.alloc(), &[1, 1]) {
        same(&rt, why, RunRefusal::Memory);
        same(&rt, world.totals(), (0, 0));
        world.run(rt.alloc(), &[1, 1])?;
    }
    same(&rt, world.totals(), (1, 1));
    Ok(())
}

/// Acts with the largest numbers.
fn acts() -> [Said; 4] {
    [
        Said {
            statement: 3,
            answer: Some(Answer::Place(Some(Place {
                block: Block::numbered(65_535),
                field: 3,
            }))),
            ended: None,
        },
        Said {
            statement: 4,
            answer: Some(Answer::Refused(Refusal::Full)),
            ended: None,
        },
        Said {
            statement: 5,
            answer: None,
            ended: Some(Ended::Fields([1, 2, 0, 18_446_744_073_709_551_615])),
        },
        Said {
            statement: 0,
            answer: None,
            ended: Some(Ended::Null),
        },
    ]
}

const TOLD: &[u8] =
    b"16.3 place 65535.3\n16.4 refused 3\n16.5 end 1 2 0 18446744073709551615\n16.end end null\n";

/// Refused lines are not begun: the next ones are all there is.
#[test]
fn refused_lines_are_not_begun(rt: HostRuntime) -> Result<(), Fail> {
    let mut taken = Vec::with_capacity(rt.alloc(), 100)?;
    let acts = acts();
    let mut sink = Output::new(&mut taken);
    if let Err(fault) = write_lines(rt.alloc(), 16, &acts, &mut sink) {
        same(&rt, fault, Fault::Memory);
        assert!(rt; !sink.failed());
        write_lines(rt.alloc(), 16, &acts, &mut sink)?;
    }
    same(&rt, taken.as_slice(), TOLD);
    Ok(())
}

/// An object goes from one thread to another.
const SCRIPT: &[u8] = b"make a 3 0 0 0\nstore s0 a\nreset a\nthread\nload b s0\ncount b\n";

/// The script, which is read again where it is refused.
fn read(alloc: Global) -> Result<Script, Fault> {
    match parse(alloc, SCRIPT) {
        Err(Fault::Memory) => parse(alloc, SCRIPT),
        told => told,
    }
}

/// Its text, in the same way.
fn text_of(alloc: Global, script: &Script) -> Result<String, Refusal> {
    match print(alloc, script) {
        Err(Refusal::Memory) => print(alloc, script),
        told => told,
    }
}

/// What it is converted to.
fn converted(alloc: Global, script: &Script) -> Result<Script, Refusal> {
    match convert(alloc, script) {
        Err(Refusal::Memory) => convert(alloc, script),
        told => told,
    }
}

/// How many actors its program has.
fn actors_of(alloc: Global, script: &Script) -> Result<usize, Refusal> {
    match script.program(alloc) {
        Err(Refusal::Memory) => Ok(script.program(alloc)?.actors.len()),
        told => Ok(told?.actors.len()),
    }
}

/// How many blocks and statements it has when it is converted, and how many actors.
fn numbers(alloc: Global, script: &Script) -> Result<(u32, u32, usize), Refusal> {
    let converted = converted(alloc, script)?;
    let actors = actors_of(alloc, script)?;
    Ok((converted.blocks(), converted.statements(), actors))
}

/// A script that is refused leaves nothing, and its text, its conversion and its program leave it as it is: the next
/// one has all.
#[test]
fn a_refused_script_is_read_again(rt: HostRuntime) -> Result<(), Fail> {
    let script = read(rt.alloc())?;
    let text = text_of(rt.alloc(), &script)?;
    same(&rt, text.as_bytes(), SCRIPT);
    same(&rt, numbers(rt.alloc(), &script)?, (4_095, 5, 2));
    Ok(())
}

/// Turns, or single steps: the second thread loads from an empty cell.
const TURNS: &[u8] = b"2,1,2";

const LINES: &[u8] = b"2.2 count 0\nblock 1 owners 1 weaks 0\nmade 1 ended 0 left 1\n";

/// Writes the run of the script by turns, or by single steps.
fn run<S: Sink>(alloc: Global, by_steps: bool, sink: &mut S) -> Result<(), Fault>
    requires { S.has_failed sink.old ≡ false }
    ensures { S.has_failed sink.new ≡ is_output result }
{
    if by_steps {
        fine_text(alloc, SCRIPT, TURNS, sink)
    } else {
        step_text(alloc, SCRIPT, TURNS, sink)
    }
}

/// What a run of the script writes. One that is refused writes nothing, and is made again.
fn written<R: Abort>(rt: &R, alloc: Global, by_steps: bool) -> Result<Vec<u8>, Fail> {
    let mut taken = Vec::with_capacity(alloc, 100)?;
    let mut sink = Output::new(&mut taken);
    if let Err(fault) = run(alloc, by_steps, &mut sink) {
        same(rt, fault, Fault::Memory);
        assert!(rt; !sink.failed());
        run(alloc, by_steps, &mut sink)?;
    }
    Ok(taken)
}

/// What the run writes that is not refused is all there is.
#[test]
fn a_refused_run_of_a_text_is_not_begun(rt: HostRuntime) -> Result<(), Fail> {
    let by_turns = written(&rt, rt.alloc(), false)?;
    let by_steps = written(&rt, rt.alloc(), true)?;
    same(&rt, by_turns.as_slice(), LINES);
    same(&rt, by_steps.as_slice(), LINES);
    Ok(())
}
