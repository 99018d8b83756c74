//! Whether the outcomes that were found are all: each order is run, where there are few.

ghost use Rattle.std.specs.Prelude.{◌≡◌, ◌<◌, ◌≤◌, ◌-◌, ◌++◌, ◌∷◌, [], ℕ, List, length, is_some, true};
ghost use Rattle.std.specs.Prelude.{Contains, IfErr, IfOk, IfSome, IsTrue, OnOk};
ghost use Rattle.script_orders.specs.Coverage.{Covers, IsAfter, IsComplete, NameThreads, WasFound, acting_in};
ghost use Rattle.script_orders.specs.Found.{outcomes_in};
ghost use Rattle.script_orders.specs.Outcomes.{Outcome, texts_of};
ghost use Rattle.script_stepper.specs.Running.{AllRest, IsThread};
ghost use Rattle.script_text.specs.declared.fault.Fault.TheVariants.{Memory};
ghost use Rattle.script_text.specs.Grammar.{ReadsAs, Refuses};
ghost use Rattle.script_text.specs.Traces.{Item, TakeTurns};
ghost use Rattle.step_core.specs.Worlds.{abstraction};
ghost use Rattle.step_threads.specs.AbstractStates.{frame_of, next};

use crate::lists::list_of;
use crate::outcomes::{Outcomes, outcome_text};
use script_stepper::turns::turns_of;
use script_stepper::{Start, start_of};
use script_text::{Fault, Script};
use std::alloc::Global;
use step_core::World;

/// Most beginnings of orders, each of acts alone, that are gone on from to know whether outcomes are all.
const MOST_BEGINNINGS: u32 = 100_000;

/// Most forks in one order, each a beginning after which several threads have an act left: a walk nests so deep. An
/// order with more comes of a script with more beginnings than are gone on from, since from each fork two ways go on.
const MOST_FORKS: u16 = 500;

/// A script, as it was written and as it reads, and the outcomes of it that were found.
#[derive(Drop)]
pub(crate) struct FoundOutcomes<'a> {
    pub bytes: &'a [u8],
    pub script: &'a Script,
    pub outcomes: &'a Outcomes,
}

/// How many beginnings of orders may still be gone on from, and how many forks may still come in one.
#[derive(Drop)]
struct Left {
    beginnings: u32,
    forks: u16,
}

/// One turn of a thread.
fn take_turn(world: &mut World, thread: u8)
    requires rests { AllRest world.old }
    requires thread { IsThread world.old thread }
    ensures rests { AllRest world.new }
    ensures size { length world.new.frame_views ≡ length world.old.frame_views }
    ensures takes { (items : List Item)
        × TakeTurns (thread ∷ []) (abstraction world.old) items (abstraction world.new) }
{
    let _said = world.turn(thread);
}

/// The world after these turns.
fn world_after(alloc: Global, script: &Script, turns: &[u8]) -> Result<World, Fault>
    requires { NameThreads (length script.now.threads) turns.now }
    ensures after { IfOk result (λ world. IsAfter script.now turns.now world) }
    ensures memory { IfErr result (λ fault. fault ≡ Memory) }
{
    let Start {
        mut world,
        threads: _,
        blocks: _,
    } = start_of(alloc, script)?;
    for thread in turns {
        take_turn(&mut world, *thread);
    }
    Ok(world)
}

/// Whether a thread has an act left.
fn has_act(world: &World, thread: u8) -> bool
    requires { IsThread world.now thread }
    ensures { result ≡ is_some (next (frame_of (abstraction world.now) (thread - 1))) }
{
    world.has_ending(thread) || world.next_act(thread).is_some()
}

/// Adds a turn.
fn put(turns: &mut Vec<u8>, thread: u8) -> Result<(), Fault>
    ensures turns { OnOk result (turns.new.items ≡ turns.old.items ++ thread ∷ []) }
    ensures memory { IfErr result (λ fault. fault ≡ Memory) }
{
    match turns.push(thread) {
        Ok(()) => Ok(()),
        Err(_) => Err(Fault::Memory),
    }
}

/// The threads that have an act left.
fn acting(alloc: Global, world: &World, threads: u8) -> Result<Vec<u8>, Fault>
    requires { threads ≡ length world.now.frame_views }
    ensures acting { IfOk result (λ acting. acting.items ≡ acting_in (abstraction world.now) threads) }
    ensures memory { IfErr result (λ fault. fault ≡ Memory) }
{
    let mut acting = Vec::new(alloc);
    for before in 0..threads {
        if has_act(world, before + 1) {
            put(&mut acting, before + 1)?;
        }
    }
    Ok(acting)
}

/// Goes on while one thread alone has an act left. Answers which threads have one then, if so many beginnings may be
/// gone on from.
fn follow(
    alloc: Global,
    script: &Script,
    turns: &mut Vec<u8>,
    world: &mut World,
    left: &mut u32,
) -> Result<Option<Vec<u8>>, Fault>
    requires { IsAfter script.now turns.old.items world.old }
    ensures after { IfOk result (λ found. IsAfter script.now turns.new.items world.new) }
    ensures acting { IfOk result (λ found. IfSome found (λ acting.
        acting.items ≡ acting_in (abstraction world.new) (length script.now.threads))) }
    ensures covers { IfOk result (λ found. (outcomes : List Outcome)
        → Covers script.now outcomes turns.new.items → Covers script.now outcomes turns.old.items) }
    ensures longer { IfOk result (λ found. (more : List ℕ) × (turns.new.items ≡ turns.old.items ++ more)) }
    ensures less { IfOk result (λ found. IfSome found (λ acting. left.new < left.old)) }
    ensures few { left.new ≤ left.old }
    ensures memory { IfErr result (λ fault. fault ≡ Memory) }
{
    while *left > 0 {
        *left -= 1;
        let acting = acting(alloc, world, script.threads() as u8)?;
        if acting.len() != 1 {
            return Ok(Some(acting));
        }
        let thread = acting[0];
        take_turn(world, thread);
        put(turns, thread)?;
    }
    Ok(None)
}

/// Whether this is the text of an outcome that was found.
fn has_text(outcomes: &Outcomes, wanted: &[u8]) -> bool
    ensures { IsTrue result → Contains (texts_of (outcomes_in outcomes.now.found.entries)) wanted.now }
{
    for index in 0..outcomes.found.len() {
        if let Some((text, _)) = outcomes.found.get_index(index) {
            if text.as_slice() == wanted {
                return true;
            }
        }
    }
    false
}

/// Whether a list of turns reads as these, and the outcome of a run with it was found.
fn is_listed(
    alloc: Global,
    found: &FoundOutcomes<'_>,
    turns: &[u8],
    list: &[u8],
) -> Result<bool, Fault>
    ensures found { IfOk result (λ is. IsTrue is → WasFound found.now.bytes.now
        (length found.now.script.now.threads) (outcomes_in found.now.outcomes.now.found.entries) turns.now) }
    ensures refused { IfErr result (λ fault. Refuses fault found.now.bytes.now) }
{
    match turns_of(alloc, list, found.script.threads() as u8) {
        Ok(read) => {
            if read.as_slice() != turns {
                return Ok(false);
            }
        }
        Err(Fault::Memory) => return Err(Fault::Memory),
        Err(_) => return Ok(false),
    }
    let told = outcome_text(alloc, found.bytes, list)?;
    match told {
        Some(text) => Ok(has_text(found.outcomes, text.as_slice())),
        None => Ok(false),
    }
}

/// Whether the outcome of the run with these turns was found.
fn was_found(alloc: Global, found: &FoundOutcomes<'_>, turns: &[u8]) -> Result<bool, Fault>
    ensures found { IfOk result (λ is. IsTrue is → WasFound found.now.bytes.now
        (length found.now.script.now.threads) (outcomes_in found.now.outcomes.now.found.entries) turns.now) }
    ensures refused { IfErr result (λ fault. Refuses fault found.now.bytes.now) }
{
    match list_of(alloc, turns) {
        Ok(list) => is_listed(alloc, found, turns, list.as_slice()),
        Err(_) => Err(Fault::Memory),
    }
}

/// The world after these turns: the one at hand, or one that is run anew.
fn world_here(
    alloc: Global,
    script: &Script,
    turns: &[u8],
    here: Option<World>,
) -> Result<World, Fault>
    requires here { IfSome here (λ world. IsAfter script.now turns.now world) }
    requires named { NameThreads (length script.now.threads) turns.now }
    ensures after { IfOk result (λ world. IsAfter script.now turns.now world) }
    ensures memory { IfErr result (λ fault. fault ≡ Memory) }
{
    match here {
        Some(world) => Ok(world),
        None => world_after(alloc, script, turns),
    }
}

/// The world after these turns and one more. The turns may be those of the world at hand.
fn after_act(
    alloc: Global,
    script: &Script,
    turns: &[u8],
    here: Option<World>,
    thread: u8,
) -> Result<World, Fault>
    requires here { IfSome here (λ world. IsAfter script.now turns.now world) }
    requires named { NameThreads (length script.now.threads) turns.now }
    requires thread { (1 ≤ thread) × (thread ≤ length script.now.threads) }
    ensures after { IfOk result (λ world. IsAfter script.now (turns.now ++ thread ∷ []) world) }
    ensures memory { IfErr result (λ fault. fault ≡ Memory) }
{
    let mut world = world_here(alloc, script, turns, here)?;
    take_turn(&mut world, thread);
    Ok(world)
}

/// Whether the outcome of each order that begins with these turns was found. The turns are more afterwards.
fn walk(
    alloc: Global,
    found: &FoundOutcomes<'_>,
    turns: &mut Vec<u8>,
    mut world: World,
    left: &mut Left,
) -> Result<bool, Fault>
    requires reads { ReadsAs found.now.bytes.now found.now.script.now }
    requires after { IsAfter found.now.script.now turns.old.items world }
    ensures covers { IfOk result (λ is. is ≡ true → Covers found.now.script.now
        (outcomes_in found.now.outcomes.now.found.entries) turns.old.items) }
    ensures longer { IfOk result (λ is. (more : List ℕ) × (turns.new.items ≡ turns.old.items ++ more)) }
    ensures few { left.new.beginnings ≤ left.old.beginnings }
    ensures refused { IfErr result (λ fault. Refuses fault found.now.bytes.now) }
{
    let now = follow(alloc, found.script, turns, &mut world, &mut left.beginnings)?;
    let Some(acting) = now else {
        return Ok(false);
    };
    if acting.is_empty() {
        let is_found = was_found(alloc, found, turns.as_slice())?;
        return Ok(is_found);
    }
    if left.forks == 0 {
        return Ok(false);
    }
    left.forks -= 1;
    let length = turns.len();
    let mut here = Some(world);
    for thread in acting.as_slice() {
        let next = after_act(alloc, found.script, turns.as_slice(), here.take(), *thread)?;
        put(turns, *thread)?;
        if !walk(alloc, found, turns, next, left)? {
            return Ok(false);
        }
        turns.truncate(length);
    }
    left.forks = left.forks.saturating_add(1);
    Ok(true)
}

/// Whether the outcomes that were found are known to be all. No more than 100,000 beginnings of orders are gone on
/// from.
pub(crate) fn is_complete(alloc: Global, found: &FoundOutcomes<'_>) -> Result<bool, Fault>
    requires { ReadsAs found.now.bytes.now found.now.script.now }
    ensures complete { IfOk result (λ is. is ≡ true
        → IsComplete found.now.bytes.now (outcomes_in found.now.outcomes.now.found.entries)) }
    ensures refused { IfErr result (λ fault. Refuses fault found.now.bytes.now) }
{
    let mut turns = Vec::new(alloc);
    let first = world_after(alloc, found.script, turns.as_slice())?;
    let mut left = Left {
        beginnings: MOST_BEGINNINGS,
        forks: MOST_FORKS,
    };
    let is_all = walk(alloc, found, &mut turns, first, &mut left)?;
    Ok(is_all)
}
