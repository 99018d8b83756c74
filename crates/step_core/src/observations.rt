//! What a world shows between any two steps.
ghost use Rattle.std.specs.Prelude.{◌≡◌, ◌≤◌, ◌<◌, ◌+◌, ◌-◌, is_some, length, slice_index};
ghost use Rattle.std.specs.List.{list_any};
ghost use Rattle.control_word.specs.Layout.{spot};
ghost use Rattle.control_word.specs.Packing.{number_of};
ghost use Rattle.step_table.specs.Registers.{slot_pointer};
ghost use Rattle.step_table.specs.GhostStates.{model_state};
ghost use Rattle.step_threads.specs.Frames.{hand, todo};
ghost use Rattle.step_threads.specs.Endings.{first_of};
ghost use Rattle.step_threads.specs.AbstractStates.{frame_of};
ghost use Rattle.step_core.specs.WorldStates.{pending_call_of, abstraction};
ghost use Rattle.step_core.specs.Showing.{counts_by, ends_in, first_act, is_ending_in, is_load_on};
ghost use Rattle.step_core.specs.Showing.{is_make_in, is_on_block, loads_on, makes_in};
ghost use Rattle.step_core.specs.Totals.{census_of};

use crate::world::World;
use control_word::packed::counts::unpack_count;
use control_word::packed::layout::{OWNERS, WEAKS};
use control_word::{Block, CellWord, Counts, Handle};
use step_table::cell_steps::refill::Stage;
use step_threads::frame::Frame;
use step_threads::pending_call::PendingCall;
use step_threads::programs::act::Act;
use step_threads::programs::call::{Kind, Name};
use step_threads::thread::Thread;

impl World {
    /// How many owners and weak handles the object in a block has ([util.smartptr.shared.obs], and own), wherever they
    /// are; none where the block is vacant. The weak handle that its owners have in common is not counted. Between any
    /// two steps these are the handles that the history gives: what loads under way took is counted, and what a make
    /// has put into a vacant block is not. Condition: the block is one of the shape's, from 1.
    pub fn counts(&self, block: Block) -> Option<Counts>
        requires some { 0 < block.0 }
        requires within { block.0 ≤ self.now.ghost_state.extent.shape.blocks }
        ensures { result ≡ census_of (model_state self.now.ghost_state) block.0 }
    {
        self.table.assert_invariant();
        let owners = more(self.number(block, OWNERS), self.loads(block, Kind::Owner));
        let weaks = more(self.number(block, WEAKS), self.loads(block, Kind::Weak));
        counted(owners, less(weaks, self.makes(block)), self.ends(block))
    }

    /// The number in a count's word.
    fn number(&self, block: Block, word: usize) -> u32
        requires some { 0 < block.0 }
        requires within { block.0 ≤ self.now.ghost_state.extent.shape.blocks }
        requires inside { word < 10 }
        ensures { result ≡ number_of (slice_index self.now.ghost_state.words (spot block.0 word)) }
    {
        unpack_count(self.table.word(block, word)).number
    }

    /// How many loads of handles of this kind on a block are under way, which aren't in its number yet.
    fn loads(&self, block: Block, kind: Kind) -> u32
        requires { length self.now.pending_calls ≤ 64 }
        ensures { result ≡ loads_on (model_state self.now.ghost_state) block.0 kind self.now.pending_calls }
    {
        let mut loads = 0;
        for thread in &self.threads {
            loads += u32::from(self.is_load(thread.pending_call, block, kind));
        }
        loads
    }

    /// Whether what a thread has begun is a load of a handle of this kind on a block.
    fn is_load(&self, pending_call: PendingCall, block: Block, kind: Kind) -> bool
        ensures { result ≡ is_load_on (model_state self.now.ghost_state) block.0 kind pending_call }
    {
        match pending_call {
            PendingCall::Refill {
                stage: Stage::Turning,
                cell,
                found,
                ..
            } => is_on(found, block) && self.table.kind_in(cell) == kind,
            _ => false,
        }
    }

    /// How many objects are being made in a block, each of which has put 1 into its weak number.
    fn makes(&self, block: Block) -> u32
        requires { length self.now.pending_calls ≤ 64 }
        ensures { result ≡ makes_in block.0 self.now.pending_calls }
    {
        let mut makes = 0;
        for thread in &self.threads {
            makes += u32::from(is_make(thread.pending_call, block));
        }
        makes
    }

    /// Whether an object in a block ends in some thread's hands.
    fn ends(&self, block: Block) -> bool
        ensures { result ≡ ends_in block.0 self.now.frame_views }
    {
        end_in(self.threads.as_slice(), block)
    }

    /// The act of the next task of an actor (own): none behind its last. Where an object ends in its hands, that goes
    /// on first. Condition: the actor is one of the world's, from 1.
    pub fn next_act(&self, actor: u8) -> Option<Act>
        requires some { 0 < actor }
        requires within { actor ≤ length self.now.frame_views }
        ensures { result ≡ first_act (frame_of (abstraction self.now) (actor - 1)).todo }
    {
        act_of(&self.threads[usize::from(actor) - 1].frame)
    }

    /// Whether an object ends in an actor's hands (own). Condition: the actor is one of the world's, from 1.
    pub fn has_ending(&self, actor: u8) -> bool
        requires some { 0 < actor }
        requires within { actor ≤ length self.now.frame_views }
        ensures { result ≡ is_some (first_of (frame_of (abstraction self.now) (actor - 1)).endings) }
    {
        let frame = &self.threads[usize::from(actor) - 1].frame;
        frame.endings.first().is_some()
    }

    /// What an actor has begun and not ended (own). Condition: the actor is one of the world's, from 1.
    pub fn pending_call(&self, actor: u8) -> PendingCall
        requires some { 0 < actor }
        requires within { actor ≤ length self.now.frame_views }
        ensures { result ≡ pending_call_of self.now (actor - 1) }
    {
        self.threads[usize::from(actor) - 1].pending_call
    }

    /// What a name of an actor holds, where it is on an object (own). Condition: the actor is one of the world's, from
    /// 1.
    pub fn held(&self, actor: u8, name: Name) -> Option<Handle>
        requires some { 0 < actor }
        requires within { actor ≤ length self.now.frame_views }
        ensures { result ≡ slot_pointer (frame_of (abstraction self.now) (actor - 1)).slots name.0 }
    {
        held_at(&self.threads[usize::from(actor) - 1].frame, name)
    }

    /// What an actor has in hand between two acts, where it is on an object (own). Condition: the actor is one of the
    /// world's, from 1.
    pub fn in_hand(&self, actor: u8) -> Option<Handle>
        requires some { 0 < actor }
        requires within { actor ≤ length self.now.frame_views }
        ensures { result ≡ slot_pointer (frame_of (abstraction self.now) (actor - 1)).slots
            (hand (frame_of (abstraction self.now) (actor - 1)).slots) }
    {
        let registers = &self.threads[usize::from(actor) - 1].frame.registers;
        registers.get(registers.hand())
    }
}

/// Whether an object in a block ends in the hands of one of these threads.
fn end_in(threads: &[Thread], block: Block) -> bool
    ensures { result ≡ list_any (λ t. is_ending_in block.0 t.frame.endings.list) threads.now }
{
    threads.iter().any(|thread| thread.frame.endings.has(block))
}

/// Whether what a cell holds is a handle on a block.
fn is_on(found: CellWord, block: Block) -> bool
    ensures { result ≡ is_on_block block.0 found }
{
    match found.owned {
        Some(owned) => owned == block,
        None => false,
    }
}

/// Whether what a thread has begun is a make in a block.
fn is_make(pending_call: PendingCall, block: Block) -> bool
    ensures { result ≡ is_make_in block.0 pending_call }
{
    match pending_call {
        PendingCall::Making { block: made, .. } => made == block,
        _ => false,
    }
}

/// The act of the next task.
fn act_of(frame: &Frame) -> Option<Act>
    ensures { result ≡ first_act (todo frame.now) }
{
    if frame.at < frame.tasks.len() {
        Some(frame.tasks[frame.at].act)
    } else {
        None
    }
}

/// What a name holds.
fn held_at(frame: &Frame, name: Name) -> Option<Handle>
    requires { 0 < length frame.now.registers.slots.items }
    ensures { result ≡ slot_pointer frame.now.registers.slots.items name.0 }
{
    let slot = usize::from(name.0);
    if slot > frame.registers.hand() {
        return None;
    }
    frame.registers.get(slot)
}

/// A number with the loads that aren't in it yet.
fn more(number: u32, loads: u32) -> u32
    requires { number + loads < 4294967296 }
    ensures { result ≡ number + loads }
{
    number + loads
}

/// A number without what makes have put into it.
fn less(number: u32, makes: u32) -> u32
    ensures { result ≡ number - makes }
{
    number.saturating_sub(makes)
}

/// The counts of a block by its two numbers.
fn counted(owners: u32, number: u32, ends: bool) -> Option<Counts>
    ensures { result ≡ counts_by owners number ends }
{
    if number == 0 {
        return None;
    }
    let common = u32::from(owners > 0 || ends);
    Some(Counts {
        owners,
        weaks: number.saturating_sub(common),
    })
}
