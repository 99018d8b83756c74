//! The world at the end of a script's run (own).
ghost use Rattle.std.specs.Prelude.{◌≡◌, ℕ, ◌≤◌, ◌+◌, All, IfErr, IfOk, List, length};
ghost use Rattle.script_text.specs.declared.fault.Fault.TheVariants.{Memory};
ghost use Rattle.script_text.specs.Beginnings.{script_abstraction};
ghost use Rattle.script_text.specs.Drafts.{ScriptView};
ghost use Rattle.step_core.specs.Totals.{IsAtEnd};
ghost use Rattle.step_core.specs.Worlds.{abstraction};
ghost use Rattle.step_threads.specs.AbstractStates.{AbstractState};
ghost use Rattle.script_stepper.specs.Ends.{IsRunEnd, IsRefused, IsRunOut};

use crate::runs::answers::{Start, start_of};
use crate::runs::turns::run_turns;
use crate::turns::turns_of;
use script_text::{Fault, Script, parse};
use std::alloc::Global;
use step_core::World;

/// A world in which each thread is at its end, and how many blocks it has. It has the 256 free cells of scripts, of
/// which the first 128 are shared.
#[derive(Drop)]
pub struct End {
    pub world: World,
    pub blocks: u16,
    ghost ended: { IsAtEnd world },
    ghost all: { blocks ≡ world.ghost_state.extent.shape.blocks },
    ghost shared: { world.ghost_state.extent.shape.shared_cells ≡ 128 },
    ghost cells: { world.ghost_state.extent.shape.shared_cells + world.ghost_state.extent.shape.weak_cells ≡ 256 },
}

/// Runs a script to its end, with turns each of which names a thread.
fn run_out(alloc: Global, script: &Script, turns: &[u8]) -> Result<End, Fault>
    requires { All (λ thread. (1 ≤ thread) × (thread ≤ length script.now.threads)) turns.now }
    ensures ok { IfOk result (λ end. IsRunOut turns.now (script_abstraction script.now) (abstraction end.world)) }
    ensures memory { IfErr result (λ fault. fault ≡ Memory) }
{
    let Start {
        mut world,
        threads,
        blocks,
    } = start_of(alloc, script)?;
    let mut text = String::new(alloc);
    match run_turns(&mut world, threads, turns, &mut text) {
        Ok(()) => Ok(End { world, blocks }),
        Err(_) => Err(Fault::Memory),
    }
}

/// Runs a script with a list of turns, as [`crate::step_text`] does, and gives the world at its end (own): one turn for
/// each number of the list, then each thread to its end in number order. Refused by 1 where a growth was refused, by 10
/// just where a line of the script is faulty, and then by 11 just where a number of the list is.
pub fn end_of(alloc: Global, script: &[u8], turns: &[u8]) -> Result<End, Fault>
    ensures end { IfOk result (λ end. IsRunEnd script.now turns.now (abstraction end.world)) }
    ensures refused { IfErr result (λ fault. IsRefused script.now turns.now fault) }

    // A script and its turns have one such end only.
    ensures one { (read : ScriptView) (listed : List ℕ) (last other : AbstractState)
        → IsRunOut listed (script_abstraction read) last → IsRunOut listed (script_abstraction read) other → last
        ≡ other }
{
    let script = parse(alloc, script)?;
    let turns = turns_of(alloc, turns, script.threads() as u8)?;
    run_out(alloc, &script, turns.as_slice())
}
