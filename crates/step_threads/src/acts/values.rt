//! What is done with pointers by their values: aliases, moves, and what is told of them.
ghost use Rattle.std.specs.Prelude.{◌≡◌, ◌<◌, ℕ, length, slice_set, true, Some, None, []};
ghost use Rattle.step_table.specs.AtomicSteps.{alias, aliased, on};
ghost use Rattle.step_table.specs.Registers.{HoldsBag, is_full, owner_slot, place_in, slot_pointer};
ghost use Rattle.step_threads.specs.Rows.{alias_in, asked};
ghost use Rattle.step_threads.specs.AbstractStates.{answers_order};
ghost use Rattle.step_table.specs.GhostStates.{GhostState, model_state};
ghost use Rattle.step_threads.specs.declared.programs.act.Act.{Act};

use crate::frame::Frame;
use crate::programs::act::Question;
use crate::said::{Answer, Said, Stepped};
use crate::thread::{Thread, says, silent};
use control_word::place::Place;
use step_table::memory::field::Field;
use step_table::memory::table::Table;
use step_table::slots::registers::Registers;

impl Question {
    ghost use Rattle.step_threads.specs.Frames.{IsAbout};

    /// What is told of slots.
    pub(crate) fn reply(self, desk: usize, table: &Table, registers: &Registers) -> Answer
        requires holds { HoldsBag desk registers.now.slots.items table.now }
        requires about { IsAbout (length registers.now.slots.items) self }
        ensures { result ≡ asked registers.now.slots.items self
            (answers_order (model_state table.now) registers.now.slots.items self) }
    {
        match self {
            Question::Place { name } => Answer::Place(registers.place(usize::from(name))),
            Question::Same { first, second } => Answer::Same(
                registers.place(usize::from(first)) == registers.place(usize::from(second)),
            ),
            Question::Before { first, second } => {
                Answer::Before(registers.is_before(desk, table, first, second))
            }
        }
    }
}

impl Frame {
    ghost use Rattle.step_threads.specs.Frames.{CanAct, FrameReady, done_on, hand, slot_passed, rest};
    ghost use Rattle.step_threads.specs.Passing.{HasGoneOn};
    ghost use Rattle.step_threads.specs.Frames.{frame_settled};
    ghost use Rattle.step_threads.specs.Frames.{task_at, frame_view};

    /// Takes an alias of what a name holds, as the act says. Answers whether that touched a block.
    pub fn alias(
        &mut self,
        desk: usize,
        table: &mut Table,
        name: u8,
        of: u8,
        field: Option<Field>,
    ) -> bool
        requires can { CanAct desk self.old table.old }
        requires act { (task_at self.old).act ≡ Act.Alias name of field }
        ensures event { result ≡ is_full (owner_slot (slot_pointer self.old.registers.slots.items name)) }
        ensures table { table.new
            ≡ done_on (alias (aliased field (place_in self.old.registers.slots.items of))) table.old desk
            (owner_slot (slot_pointer self.old.registers.slots.items name)) }
        ensures frame_view { frame_view self.new
            ≡ frame_settled (slice_set self.old.registers.slots.items (hand self.old.registers.slots.items)
            (alias_in self.old.registers.slots.items name of field)) true self.old.endings.list (rest self.old) }
        ensures on { HasGoneOn desk self.old self.new table.new }
    {
        let from = usize::from(name);
        let hand = self.registers.hand();
        let place = aliased(field, self.registers.place(usize::from(of)));
        self.taken = true;
        match self.registers.owner(from) {
            None => {
                self.registers.set_empty(hand, place);
                self.go_on();
                false
            }
            Some(pointer) => {
                self.registers
                    .alias(desk, table, from, hand, pointer, place);
                self.go_on();
                true
            }
        }
    }

    /// Takes what a name holds, which becomes empty.
    pub(crate) fn pull(&mut self, name: u8)
        requires within { self.old.at < length self.old.tasks.items }
        requires ready { FrameReady self.old }
        requires none { self.old.endings.list ≡ [] }
        requires act { (task_at self.old).act ≡ Act.Move name }
        ensures frame_view { frame_view self.new ≡ frame_settled (slot_passed name (hand self.old.registers.slots.items)
            self.old.registers.slots.items) true self.old.endings.list (rest self.old) }
        ensures on { (d : ℕ) (v : GhostState) → HoldsBag d self.old.registers.slots.items v
            → HasGoneOn d self.old self.new v }
    {
        let hand = self.registers.hand();
        self.registers.pass_on(usize::from(name), hand);
        self.take(true);
    }

    /// Tells what is asked of names.
    pub(crate) fn reply(&mut self, desk: usize, table: &Table, question: Question) -> Answer
        requires can { CanAct desk self.old table.now }
        requires act { (task_at self.old).act ≡ Act.Ask question }
        ensures answer { result ≡ asked self.old.registers.slots.items question
            (answers_order (model_state table.now) self.old.registers.slots.items question) }
        ensures frame_view { frame_view self.new ≡ frame_settled self.old.registers.slots.items self.old.taken
            self.old.endings.list (rest self.old) }
        ensures on { HasGoneOn desk self.old self.new table.now }
    {
        let answer = question.reply(desk, table, &self.registers);
        self.go_on();
        answer
    }
}

impl Thread {
    ghost use Rattle.step_threads.specs.Frames.{task_at};
    ghost use Rattle.step_threads.specs.Threads.{BeginsAct, FitsThread, HasStepped};

    /// Takes an alias of what a name holds: an owner more, or no word is touched where the name has no object.
    pub fn alias(
        &mut self,
        desk: usize,
        table: &mut Table,
        name: u8,
        of: u8,
        field: Option<Field>,
    ) -> Stepped
        requires begins { BeginsAct desk self.old table.old }
        requires act { (task_at self.old.frame).act ≡ Act.Alias name of field }
        ensures stepped { HasStepped desk self.old table.old result self.new table.new }
        ensures fits { FitsThread desk self.new table.new }
    {
        table.assert_invariant();
        let statement = self.frame.statement();
        let event = self.frame.alias(desk, table, name, of, field);
        says(event, silent(statement))
    }

    /// Takes what a name holds, which becomes empty: no word is touched.
    pub(crate) fn pull(&mut self, desk: usize, table: &Table, name: u8) -> Stepped
        requires begins { BeginsAct desk self.old table.now }
        requires act { (task_at self.old.frame).act ≡ Act.Move name }
        ensures stepped { HasStepped desk self.old table.now result self.new table.now }
        ensures fits { FitsThread desk self.new table.now }
    {
        let statement = self.frame.statement();
        self.frame.pull(name);
        Stepped::Quiet(silent(statement))
    }

    /// Tells what is asked of names: no word is touched.
    pub(crate) fn reply(&mut self, desk: usize, table: &Table, question: Question) -> Stepped
        requires begins { BeginsAct desk self.old table.now }
        requires act { (task_at self.old.frame).act ≡ Act.Ask question }
        ensures stepped { HasStepped desk self.old table.now result self.new table.now }
        ensures fits { FitsThread desk self.new table.now }
    {
        let statement = self.frame.statement();
        let answer = Some(self.frame.reply(desk, table, question));
        Stepped::Quiet(Said {
            statement,
            answer,
            ended: None,
        })
    }
}

/// The place with this field in the block of a place; null without a field, and of null.
fn aliased(field: Option<Field>, place: Option<Place>) -> Option<Place>
    ensures { result ≡ aliased field place }
{
    match (field, place) {
        (Some(field), Some(place)) => Some(Place {
            block: place.block,
            field: field.number(),
        }),
        _ => None,
    }
}
