//! How a thread goes on from act to act.
ghost use Rattle.std.specs.Prelude.{◌≡◌, ◌⊎◌, ◌+◌, ◌<◌, ◌≤◌, ◌==◌, ◌∷◌, [], ℕ};
ghost use Rattle.std.specs.Prelude.{length, drop, true, false, cond, slice_set, Option, Some, None, option_map};
ghost use Rattle.control_word.specs.declared.model.handle.Kind.TheVariants.{Owner};
ghost use Rattle.control_word.specs.Words.{flags_of};
ghost use Rattle.step_table.specs.AtomicSteps.{as_weak, by_word, downgrade, is_expired, is_last, leave, share, tell};
ghost use Rattle.step_table.specs.AtomicSteps.{tell_expired};
ghost use Rattle.step_table.specs.Registers.{HoldsBag, filled, is_full, plain, slot_pointer, slot_value};
ghost use Rattle.step_table.specs.GhostStates.{GhostState, IsMaking, ghost_after_step, known_words, object_of_block};
ghost use Rattle.step_table.specs.GhostStates.{pending};
ghost use Rattle.step_table.specs.GhostStates.{model_state};
ghost use Rattle.control_word.specs.declared.handle.Handle.{Handle};
ghost use Rattle.step_table.specs.declared.slots.slot.Slot.TheVariants.{Full};
ghost use Rattle.control_word.specs.Events.{origin};
ghost use Rattle.control_word.specs.Layout.{spot};
ghost use Rattle.control_word.specs.Views.{owed};

use crate::ending::Endings;
use crate::programs::act::{Act, Task};
use control_word::place::Block;
use step_table::memory::form::Form;
use step_table::memory::ghost_history::AtomicStep;
use step_table::memory::table::Table;
use step_table::slots::registers::Registers;

/// The tasks of a thread, of which those before `at` are done, what it holds, and the objects that end in its hands.
/// Where `taken`, an act has taken a value into the hand, an empty one perhaps.
#[derive(Drop)]
pub struct Frame {
    pub tasks: Vec<Task>,
    pub at: usize,
    pub registers: Registers,
    pub taken: bool,
    pub endings: Endings,
}

impl Frame {
    ghost use Rattle.step_table.specs.AtomicSteps.{on};
    ghost use Rattle.step_threads.specs.Frames.{CanAct, FrameReady, IsReady, done_on, hand, idle};
    ghost use Rattle.step_threads.specs.Frames.{slot_passed};
    ghost use Rattle.step_threads.specs.Frames.{placed, rest, frame_settled, task_at, todo, frame_view};
    ghost use Rattle.step_threads.specs.Passing.{HasGoneOn, IsPassed};

    /// Whether the next task is no act where it comes.
    fn is_idle(&self) -> bool
        requires within { self.now.at < length self.now.tasks.items }
        requires ready { FrameReady self.now }
        ensures { result ≡ idle (task_at self.now).act self.now.registers.slots.items self.now.taken }
    {
        match self.tasks[self.at].act {
            Act::Put { name } => !(self.taken && self.registers.is_full(usize::from(name))),
            Act::Clear { name } => !self.registers.is_full(usize::from(name)),
            Act::Swap { cell } => !self.is_offered(cell),
            Act::Compare { name, cell, .. } => !self.is_compared(name, cell),
            Act::Drop => !self.registers.is_full(self.registers.other()),
            _ => false,
        }
    }

    /// Goes past an idle task. A value that is in hand goes to its name, which is empty, or is to be dropped.
    fn pass(&mut self)
        requires within { self.old.at < length self.old.tasks.items }
        requires ready { FrameReady self.old }
        requires idle { idle (task_at self.old).act self.old.registers.slots.items self.old.taken ≡ true }
        ensures { IsPassed self.old self.new }
    {
        let act = self.tasks[self.at].act;
        self.at += 1;
        let other = self.registers.other();
        match act {
            Act::Put { name } => self.put_down(usize::from(name)),
            Act::Swap { .. } | Act::Compare { .. } => self.put_down(other),
            Act::Drop => self.registers.set_empty(other, None),
            _ => {}
        }
    }

    /// What was taken goes to a slot that holds nothing.
    fn put_down(&mut self, to: usize)
        requires inside { to < hand self.old.registers.slots.items }
        requires empty { self.old.taken ≡ true → slot_pointer self.old.registers.slots.items to ≡ None }
        ensures slots { self.new.registers.slots.items ≡ cond self.old.taken (slot_passed
            (hand self.old.registers.slots.items) to self.old.registers.slots.items) self.old.registers.slots.items }
        ensures frame { self.new ≡ record self.old { registers = self.new.registers; taken = false } }
        ensures holds { (d : ℕ) (v : GhostState) → HoldsBag d self.old.registers.slots.items v
            → HoldsBag d self.new.registers.slots.items v }
    {
        if self.taken {
            let hand = self.registers.hand();
            self.registers.pass_on(hand, to);
            self.taken = false;
        }
    }

    /// Goes on to the next task that is an act.
    pub fn settle(&mut self)
        requires within { self.old.at ≤ length self.old.tasks.items }
        requires ready { FrameReady self.old }
        ensures frame_view { frame_view self.new ≡ frame_settled self.old.registers.slots.items self.old.taken
            self.old.endings.list (todo self.old) }
        ensures tasks { self.new.tasks ≡ self.old.tasks }
        ensures endings { self.new.endings ≡ self.old.endings }
        ensures within { self.new.at ≤ length self.new.tasks.items }
        ensures onward { self.old.at ≤ self.new.at }
        ensures ready { FrameReady self.new }
        ensures still { self.new.at < length self.new.tasks.items
            → idle (task_at self.new).act self.new.registers.slots.items self.new.taken ≡ false }
        ensures holds { (d : ℕ) (v : GhostState) → HoldsBag d self.old.registers.slots.items v
            → HoldsBag d self.new.registers.slots.items v }
    {
        while self.at < self.tasks.len() && self.is_idle() {
            self.pass();
        }
    }

    /// The number of the next task's statement.
    pub(crate) fn statement(&self) -> u32
        requires { self.now.at < length self.now.tasks.items }
        ensures { result ≡ (task_at self.now).statement }
    {
        self.tasks[self.at].statement
    }

    /// Goes on after the next task.
    pub(crate) fn go_on(&mut self)
        requires within { self.old.at < length self.old.tasks.items }
        requires ready { IsReady self.old.registers.slots.items self.old.taken self.old.endings.list (rest self.old) }
        ensures frame_view { frame_view self.new ≡ frame_settled self.old.registers.slots.items self.old.taken
            self.old.endings.list (rest self.old) }
        ensures on { (d : ℕ) (v : GhostState) → HoldsBag d self.old.registers.slots.items v
            → HasGoneOn d self.old self.new v }
    {
        self.at += 1;
        self.settle();
    }

    /// Goes on after the next task, which took what is in hand or took nothing.
    pub(crate) fn take(&mut self, taken: bool)
        requires within { self.old.at < length self.old.tasks.items }
        requires ready { IsReady self.old.registers.slots.items taken self.old.endings.list (rest self.old) }
        ensures frame_view { frame_view self.new
            ≡ frame_settled self.old.registers.slots.items taken self.old.endings.list (rest self.old) }
        ensures on { (d : ℕ) (v : GhostState) → HoldsBag d self.old.registers.slots.items v
            → HasGoneOn d self.old self.new v }
    {
        self.taken = taken;
        self.go_on();
    }

    /// Takes a copy of what a name holds. Answers whether that touched a block.
    pub(crate) fn share(&mut self, desk: usize, table: &mut Table, name: u8) -> bool
        requires can { CanAct desk self.old table.old }
        requires act { (task_at self.old).act ≡ Act.Share name }
        ensures event { result ≡ is_full (slot_pointer self.old.registers.slots.items name) }
        ensures table { table.new ≡ done_on share table.old desk (slot_pointer self.old.registers.slots.items name) }
        ensures frame_view { frame_view self.new
            ≡ frame_settled (slice_set self.old.registers.slots.items (hand self.old.registers.slots.items)
            (slot_value self.old.registers.slots.items name)) true self.old.endings.list (rest self.old) }
        ensures on { HasGoneOn desk self.old self.new table.new }
    {
        let from = usize::from(name);
        let hand = self.registers.hand();
        self.taken = true;
        match self.registers.get(from) {
            None => {
                let place = self.registers.place(from);
                self.registers.set_empty(hand, place);
                self.go_on();
                false
            }
            Some(pointer) => {
                self.registers.share(desk, table, from, hand, pointer);
                self.go_on();
                true
            }
        }
    }

    /// Takes a weak pointer to the object of what a name holds. Answers whether that touched a block.
    pub(crate) fn downgrade(&mut self, desk: usize, table: &mut Table, name: u8) -> bool
        requires can { CanAct desk self.old table.old }
        requires act { (task_at self.old).act ≡ Act.Downgrade name }
        ensures event { result ≡ is_full (slot_pointer self.old.registers.slots.items name) }
        ensures table { table.new ≡ done_on downgrade table.old desk
            (slot_pointer self.old.registers.slots.items name) }
        ensures frame_view { frame_view self.new
            ≡ frame_settled (slice_set self.old.registers.slots.items (hand self.old.registers.slots.items)
            (filled (option_map as_weak (slot_pointer self.old.registers.slots.items name)))) true
            self.old.endings.list (rest self.old) }
        ensures on { HasGoneOn desk self.old self.new table.new }
    {
        let from = usize::from(name);
        let hand = self.registers.hand();
        self.taken = true;
        match self.registers.get(from) {
            None => {
                self.go_on();
                false
            }
            Some(pointer) => {
                self.registers.downgrade(desk, table, from, hand, pointer);
                self.go_on();
                true
            }
        }
    }

    /// Leaves what a name holds, if anything. Answers whether that was the last.
    pub(crate) fn leave(&mut self, desk: usize, table: &mut Table, name: u8) -> bool
        requires can { CanAct desk self.old table.old }
        requires act { ((task_at self.old).act ≡ Act.Leave name) ⊎ ((task_at self.old).act ≡ Act.Clear name) }
        ensures last { result ≡ on (is_last (model_state table.old)) false
            (slot_pointer self.old.registers.slots.items name) }
        ensures table { table.new ≡ done_on (leave (model_state table.old)) table.old desk
            (slot_pointer self.old.registers.slots.items name) }
        ensures frame_view { frame_view self.new ≡ frame_settled (slice_set self.old.registers.slots.items name plain)
            self.old.taken
            self.old.endings.list (rest self.old) }
        ensures on { HasGoneOn desk self.old self.new table.new }
    {
        let from = usize::from(name);
        match self.registers.get(from) {
            None => {
                self.registers.set_empty(from, None);
                self.go_on();
                false
            }
            Some(pointer) => {
                let last = self.registers.leave(desk, table, from, pointer);
                self.go_on();
                last
            }
        }
    }

    /// Leaves what a name holds, and puts there what is in hand. Answers whether that was the last.
    pub fn put(&mut self, desk: usize, table: &mut Table, name: u8) -> bool
        requires can { CanAct desk self.old table.old }
        requires act { (task_at self.old).act ≡ Act.Put name }
        ensures full { is_full (slot_pointer self.old.registers.slots.items name) ≡ true }
        ensures last { result ≡ on (is_last (model_state table.old)) false
            (slot_pointer self.old.registers.slots.items name) }
        ensures table { table.new ≡ done_on (leave (model_state table.old)) table.old desk
            (slot_pointer self.old.registers.slots.items name) }
        ensures frame_view { frame_view self.new
            ≡ frame_settled (placed name (slice_set self.old.registers.slots.items name plain))
            false self.old.endings.list (rest self.old) }
        ensures on { HasGoneOn desk self.old self.new table.new }
    {
        let to = usize::from(name);
        let hand = self.registers.hand();
        match self.registers.get(to) {
            None => unreachable!(),
            Some(pointer) => {
                let last = self.registers.leave(desk, table, to, pointer);
                self.registers.pass_on(hand, to);
                self.taken = false;
                self.go_on();
                last
            }
        }
    }

    /// The prepared object is made; its owner comes into the hand.
    pub(crate) fn claim(&mut self, desk: usize, table: &mut Table, block: Block, form: Form)
        requires seat { desk < table.old.extent.actors }
        requires making { IsMaking table.old desk block }
        requires known { known_words (pending table.old desk) ≡ flags_of form.enabled form.null ∷ form.fields }
        requires holds { HoldsBag desk self.old.registers.slots.items table.old }
        requires within { self.old.at < length self.old.tasks.items }
        requires ready { FrameReady self.old }
        requires none { self.old.endings.list ≡ [] }
        requires act { (task_at self.old).act ≡ Act.Make form }
        ensures table { table.new ≡ ghost_after_step table.old desk
            (AtomicStep.Claim block form.enabled form.null form.fields) }
        ensures frame_view { frame_view self.new
            ≡ frame_settled (slice_set self.old.registers.slots.items (hand self.old.registers.slots.items)
            (Full (record { kind = Owner; block = block; place = origin block.0 form.null }))) true
            self.old.endings.list (rest self.old) }
        ensures on { HasGoneOn desk self.old self.new table.new }
    {
        let hand = self.registers.hand();
        self.registers.claim(desk, table, hand, block, form);
        self.taken = true;
        self.go_on();
    }
}
