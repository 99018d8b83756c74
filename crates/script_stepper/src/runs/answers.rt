//! Scripts from bytes to the text of their run (own).
ghost use Rattle.std.specs.Prelude.{◌≡◌, ℕ, ◌≤◌, false, List, All, IfOk, IfErr, length, string_bytes};
ghost use Rattle.script_text.specs.declared.fault.Fault.TheVariants.{BadTurn, Memory, Syntax};
ghost use Rattle.script_text.specs.declared.fault.Cause.{Cause};
ghost use Rattle.control_word.specs.Layout.{IsWithinLimits};
ghost use Rattle.script_text.specs.Drafts.{ScriptView};
ghost use Rattle.script_text.specs.Grammar.{Faulty, IsUnlessMemory, ReadsAs, ended};
ghost use Rattle.script_text.specs.Scripts.{program_in};
ghost use Rattle.step_core.specs.Worlds.{abstraction};
ghost use Rattle.step_table.specs.GhostStates.{TableInvariant};
ghost use Rattle.step_core.specs.Starts.{first_world_state};
ghost use Rattle.script_text.specs.Beginnings.{script_abstraction, script_shape, script_world_state, shape_for};
ghost use Rattle.script_stepper.specs.Followed.{TurnsFollow};
ghost use Rattle.script_stepper.specs.Running.{AllRest, IsThread};
ghost use Rattle.script_stepper.specs.Runs.{Delivers, IsFineText, IsRunText, IsShown, IsTextBy, IsTurnText, TellsRun};
ghost use Rattle.script_stepper.specs.Runs.{WritesOne, is_output, text_in};
ghost use Rattle.script_stepper.specs.StepRuns.{IsInterleaving};
ghost use Rattle.script_stepper.specs.TurnLists.{list_at};

use crate::listing::write_text;
use crate::runs::steps::steps_text;
use crate::runs::totals::put_closing;
use crate::runs::turns::run_turns;
use crate::sink::Sink;
use crate::turns::turns_of;
use control_word::{Refusal, Shape};
use script_text::{Fault, Script, parse};
use std::alloc::{AllocError, Global};
use step_core::World;
use step_table::limits::{
    SCRIPT_ALLOWANCE, SCRIPT_OWNERS, SCRIPT_SHARED_CELLS, SCRIPT_WEAK_CELLS, SCRIPT_WEAKS,
};

/// How a run takes the numbers of its list.
#[derive(Clone, Copy)]
pub(crate) enum Pace {
    /// A turn for each.
    Turns,
    /// An atomic step for each.
    Steps,
}

/// The shape of a script's world: each thread has the same number of blocks.
fn shape_of(blocks: u32, threads: u32) -> Shape
    requires least { 64 ≤ blocks }
    requires most { blocks ≤ 65535 }
    requires some { 1 ≤ threads }
    requires few { threads ≤ 64 }
    ensures shape { result ≡ shape_for blocks threads }
    ensures within { IsWithinLimits result }
    ensures few { result.blocks ≤ 65535 }
{
    Shape {
        blocks: blocks / threads * threads,
        owners: SCRIPT_OWNERS,
        weaks: SCRIPT_WEAKS,
        shared_cells: SCRIPT_SHARED_CELLS,
        weak_cells: SCRIPT_WEAK_CELLS,
        allowance: SCRIPT_ALLOWANCE,
    }
}

/// The world in which a script's run begins. It is within the limits, so that only memory may be wanting.
fn world_of(alloc: Global, script: &Script, shape: Shape) -> Result<World, Fault>
    requires shape { shape ≡ script_shape script.now }
    requires within { IsWithinLimits shape }
    requires few { shape.blocks ≤ 65535 }
    ensures ok { IfOk result (λ w. w ≡ first_world_state shape (program_in script.now.threads)) }
    ensures kept { IfOk result (λ w. TableInvariant w.ghost_state) }
    ensures memory { IfErr result (λ fault. fault ≡ Memory) }
{
    let Ok(program) = script.program(alloc) else {
        return Err(Fault::Memory);
    };
    match World::new(alloc, shape, program) {
        Ok(world) => Ok(world),
        Err(refused) => match refused.why {
            Refusal::Memory => Err(Fault::Memory),
            _ => unreachable!(),
        },
    }
}

/// A world before its first turn, and how many threads and blocks it has.
#[derive(Drop)]
pub struct Start {
    pub world: World,
    pub threads: u8,
    pub blocks: u16,
}

/// How a script's run begins (own). Refused by 1 alone, where a growth was refused.
pub fn start_of(alloc: Global, script: &Script) -> Result<Start, Fault>
    ensures world_state { IfOk result (λ s. s.world ≡ script_world_state script.now) }
    ensures kept { IfOk result (λ s. TableInvariant s.world.ghost_state) }
    ensures rests { IfOk result (λ s. AllRest s.world) }
    ensures all { IfOk result (λ s. s.threads ≡ length s.world.frame_views) }
    ensures threads { IfOk result (λ s. length s.world.frame_views ≡ length script.now.threads) }
    ensures blocks { IfOk result (λ s. s.blocks ≡ s.world.ghost_state.extent.shape.blocks) }
    ensures memory { IfErr result (λ fault. fault ≡ Memory) }
{
    let threads = script.threads();
    let shared = script.blocks();
    let shape = shape_of(shared, threads);
    let blocks = shape.blocks as u16;
    let world = world_of(alloc, script, shape)?;
    Ok(Start {
        world,
        threads: threads as u8,
        blocks,
    })
}

/// Runs a world turn by turn, and tells of it.
fn turns_text(
    alloc: Global,
    world: &mut World,
    threads: u8,
    blocks: u16,
    turns: &[u8],
) -> Result<String, AllocError>
    requires rests { AllRest world.old }
    requires all { threads ≡ length world.old.frame_views }
    requires blocks { blocks ≡ world.old.ghost_state.extent.shape.blocks }
    requires threads { All (IsThread world.old) turns.now }
    ensures { IfOk result (λ text. IsTurnText turns.now (abstraction world.old) (string_bytes text)) }
{
    let mut text = String::new(alloc);
    run_turns(world, threads, turns, &mut text)?;
    put_closing(world, blocks, &mut text)?;
    Ok(text)
}

/// Runs a world at this pace, and tells of it.
fn text_of(
    alloc: Global,
    world: &mut World,
    threads: u8,
    blocks: u16,
    turns: &[u8],
    pace: Pace,
) -> Result<String, AllocError>
    requires rests { AllRest world.old }
    requires all { threads ≡ length world.old.frame_views }
    requires blocks { blocks ≡ world.old.ghost_state.extent.shape.blocks }
    requires threads { All (IsThread world.old) turns.now }
    ensures { IfOk result (λ text. IsShown pace turns.now world.old (string_bytes text)) }
{
    match pace {
        Pace::Turns => turns_text(alloc, world, threads, blocks, turns),
        Pace::Steps => steps_text(alloc, world, blocks, turns),
    }
}

/// The text of a script's run with these turns, each of which names a thread.
fn run(alloc: Global, script: &Script, turns: &[u8], pace: Pace) -> Result<String, Fault>
    requires { All (λ thread. (1 ≤ thread) × (thread ≤ length script.now.threads)) turns.now }
    ensures ok { IfOk result (λ text. IsTextBy pace script.now turns.now (string_bytes text)) }
    ensures memory { IfErr result (λ fault. fault ≡ Memory) }
{
    let Start {
        mut world,
        threads,
        blocks,
    } = start_of(alloc, script)?;
    match text_of(alloc, &mut world, threads, blocks, turns, pace) {
        Ok(text) => Ok(text),
        Err(_) => Err(Fault::Memory),
    }
}

/// The text of the run of a script with a list of turns, or why there is none.
fn answer(alloc: Global, script: &[u8], turns: &[u8], pace: Pace) -> Result<String, Fault>
    ensures { TellsRun (IsTextBy pace) script.now turns.now (text_in result) }
{
    let script = parse(alloc, script)?;
    let turns = turns_of(alloc, turns, script.threads() as u8)?;
    run(alloc, &script, turns.as_slice(), pace)
}

/// Writes the text of the run of a script with a list of turns.
fn deliver<S: Sink>(
    alloc: Global,
    script: &[u8],
    turns: &[u8],
    pace: Pace,
    writer: &mut S,
) -> Result<(), Fault>
    requires { S.has_failed writer.old ≡ false }
    ensures holds { Delivers (TellsRun (IsTextBy pace) script.now turns.now) result
        (S.taken writer.old) (S.taken writer.new) }
    ensures failed { S.has_failed writer.new ≡ is_output result }
{
    let text = answer(alloc, script, turns, pace)?;
    write_text(text.as_bytes(), writer)
}

/// Runs a script, and writes the lines of the run (own): one turn for each number of the list `turns`, then each thread
/// to its end in number order; then the census and the totals.
///
/// Of each act come the lines that [`crate::write_lines`] writes, of thread T at its statement S, or at its end, where
/// S is `end`. Of each block B that isn't vacant the census tells `block B owners N weaks K`. The last line is
/// `made M ended E left L`.
///
/// Refused, in this order: by 1 where a growth was refused, by 10 just where a line of the script is faulty, by 11 just
/// where a number of the list is, with nothing written; by 12 just where the writer has failed, which then took a
/// beginning of the text. The writer hasn't failed before.
pub fn step_text<S: Sink>(
    alloc: Global,
    script: &[u8],
    turns: &[u8],
    writer: &mut S,
) -> Result<(), Fault>
    requires { S.has_failed writer.old ≡ false }

    // What is answered is true of the script and the list, and the text that was taken is that of the run.
    ensures holds { Delivers (TellsRun IsRunText script.now turns.now) result
        (S.taken writer.old) (S.taken writer.new) }
    ensures failed { S.has_failed writer.new ≡ is_output result }

    // Want of memory aside, a fault of the script is answered, then one of the list, and else the run is told.
    ensures syntax { (line : ℕ) (cause : Cause) → Faulty script.now line cause
        → IsUnlessMemory result (Err (Syntax line cause)) }
    ensures turns { (read : ScriptView) (position : ℕ) → ReadsAs script.now read
        → list_at (length read.threads) turns.now ≡ Err position
        → IsUnlessMemory result (Err (BadTurn position)) }
    ensures runs { (read : ScriptView) (listed : List ℕ) → ReadsAs script.now read
        → list_at (length read.threads) turns.now ≡ Ok listed
        → WritesOne (IsRunText read listed) result (S.taken writer.old) (S.taken writer.new) }

    // A script and its turns have one such text only.
    ensures one { (read : ScriptView) (listed text other : List ℕ) → IsRunText read listed text
        → IsRunText read listed other → text ≡ other }

    // What it tells is what the threads' statements and their ends ask for, act by act.
    ensures acts { (read : ScriptView) (listed text : List ℕ) (told : IsRunText read listed text)
        → TurnsFollow (script_abstraction read) told.items told.last }
{
    deliver(alloc, script, turns, Pace::Turns, writer)
}

/// The same, but each number of the list is one atomic step of its thread, as [`World::run`] takes it; then each thread
/// runs alone to its end in number order. Which act a step reaches depends on how the words are laid out; the text is
/// that of the steps in their order, and then the census and the totals (own).
///
/// Refused as [`step_text`] is.
pub fn fine_text<S: Sink>(
    alloc: Global,
    script: &[u8],
    turns: &[u8],
    writer: &mut S,
) -> Result<(), Fault>
    requires { S.has_failed writer.old ≡ false }

    // What is answered is true of the script and the list, and the text that was taken is that of such a run.
    ensures holds { Delivers (TellsRun IsFineText script.now turns.now) result
        (S.taken writer.old) (S.taken writer.new) }
    ensures failed { S.has_failed writer.new ≡ is_output result }

    // Want of memory aside, a fault of the script is answered, then one of the list, and else the run is told.
    ensures syntax { (line : ℕ) (cause : Cause) → Faulty script.now line cause
        → IsUnlessMemory result (Err (Syntax line cause)) }
    ensures turns { (read : ScriptView) (position : ℕ) → ReadsAs script.now read
        → list_at (length read.threads) turns.now ≡ Err position
        → IsUnlessMemory result (Err (BadTurn position)) }
    ensures runs { (read : ScriptView) (listed : List ℕ) → ReadsAs script.now read
        → list_at (length read.threads) turns.now ≡ Ok listed
        → WritesOne (IsFineText read listed) result (S.taken writer.old) (S.taken writer.new) }

    // A script and its numbers have one such text only.
    ensures one { (read : ScriptView) (listed text other : List ℕ) → IsFineText read listed text
        → IsFineText read listed other → text ≡ other }

    // The history that it tells of is an interleaving of the threads' statements and ends.
    ensures interleaves { (read : ScriptView) (listed text : List ℕ) (told : IsFineText read listed text)
        → IsInterleaving (program_in read.threads) told.steps told.last }
{
    deliver(alloc, script, turns, Pace::Steps, writer)
}
