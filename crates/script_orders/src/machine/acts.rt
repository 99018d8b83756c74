//! The acts of a thread.

use crate::machine::heap::Objects;
use crate::machine::line::Line;
use crate::machine::plan::Plan;
use crate::machine::pointer::empty;
use crate::machine::turn::Turn;
use control_word::Refusal;
use step_core::Act;
use step_threads::programs::act::{Question, Task};

impl Turn {
    /// Leaves what a name holds.
    fn leave_name(
        &mut self,
        objects: &mut Objects,
        statement: u32,
        name: u8,
    ) -> Result<(), Refusal> {
        let pointer = self.standing.name(name);
        self.standing.set_name(name, empty());
        self.leave(objects, pointer, statement)
    }

    /// Puts what is in hand into a name, and leaves what the name held.
    fn put(&mut self, objects: &mut Objects, statement: u32, name: u8) -> Result<(), Refusal> {
        let old = self.standing.name(name);
        let new = self.standing.let_go();
        self.standing.set_name(name, new);
        self.leave(objects, old, statement)
    }

    /// Leaves what is to be dropped.
    fn drop_aside(&mut self, objects: &mut Objects, statement: u32) -> Result<(), Refusal> {
        let pointer = self.standing.aside;
        self.standing.aside = empty();
        self.leave(objects, pointer, statement)
    }

    /// How many owners the object of a name has.
    fn owners(&self, objects: &Objects, name: u8) -> u32 {
        match self.standing.name(name).block() {
            Some(block) => objects.get(&self.heap, block).owners,
            None => 0,
        }
    }

    /// Reads the field that a name points at.
    fn read(&mut self, objects: &Objects, statement: u32, name: u8) {
        match self.standing.name(name).inside() {
            Some(spot) => {
                let value = objects.get(&self.heap, spot.block).field(spot.field);
                self.tell(statement, Line::Read(value));
            }
            None => self.refuse_outside(statement, name),
        }
    }

    /// What is told of pointers by their values.
    fn answer(&self, question: Question) -> Line {
        match question {
            Question::Place { name } => Line::Place(self.standing.name(name).spot),
            Question::Same { first, second } => {
                Line::Same(self.standing.name(first).spot == self.standing.name(second).spot)
            }
            Question::Before { first, second } => {
                Line::Before(self.standing.name(first).rank() < self.standing.name(second).rank())
            }
        }
    }

    /// An act that takes something, or leaves it.
    fn move_pointers(
        &mut self,
        objects: &mut Objects,
        statement: u32,
        act: Act,
    ) -> Result<(), Refusal> {
        match act {
            Act::Make { form } => self.make(objects, statement, form),
            Act::Share { name } => self.copy(objects, name),
            Act::Alias { name, of, field } => self.alias(objects, name, of, field),
            Act::Downgrade { name } => self.downgrade(objects, name),
            Act::Lock { name, must } => self.lock(objects, statement, name, must),
            Act::FromThis { name, kind } => self.from_this(objects, statement, name, kind),
            Act::Put { name } => self.put(objects, statement, name),
            Act::Leave { name } | Act::Clear { name } => self.leave_name(objects, statement, name),
            Act::Drop => self.drop_aside(objects, statement),
            Act::Offer { name, cell } => self.offer(objects, statement, name, cell),
            _ => Ok(()),
        }
    }

    /// An act that only looks, or only moves a value.
    fn look(&mut self, objects: &Objects, statement: u32, act: Act) {
        match act {
            Act::Move { name } => self.pull(name),
            Act::Count { name } => {
                let owners = self.owners(objects, name);
                self.tell(statement, Line::Count(owners));
            }
            Act::Expired { name } => {
                let owners = self.owners(objects, name);
                self.tell(statement, Line::Expired(owners == 0));
            }
            Act::Read { name } => self.read(objects, statement, name),
            Act::Ask { question } => {
                let line = self.answer(question);
                self.tell(statement, line);
            }
            _ => {}
        }
    }

    /// The next act, whichever it is.
    fn act(&mut self, objects: &mut Objects, plan: &Plan, task: Task) -> Result<(), Refusal> {
        let statement = task.statement;
        match task.act {
            Act::Swap { cell } => self.swap(objects, plan, cell),
            Act::Exchange { name, cell } => self.exchange(objects, plan, statement, name, cell),
            Act::Load { cell } => self.load(objects, plan, statement, cell),
            Act::Compare { name, cell, .. } => {
                self.compare(objects, plan, statement, name, cell)
            }
            Act::Holds { name, cell } => {
                self.holds(objects, plan, statement, name, cell);
                Ok(())
            }
            Act::Move { .. }
            | Act::Count { .. }
            | Act::Expired { .. }
            | Act::Read { .. }
            | Act::Ask { .. } => {
                self.look(objects, statement, task.act);
                Ok(())
            }
            _ => self.move_pointers(objects, statement, task.act),
        }
    }

    /// One turn of the thread, which isn't at its end: its next act, and what goes on by itself after it.
    pub fn take(
        &mut self,
        objects: &mut Objects,
        plan: &Plan,
        tasks: &[Task],
    ) -> Result<(), Refusal> {
        if self.standing.ends.is_empty() {
            if let Some(task) = tasks.get(self.standing.at) {
                self.act(objects, plan, *task)?;
                self.standing.at = self.standing.at.saturating_add(1);
                self.settle(tasks);
            }
        } else {
            self.leave_carried(objects)?;
        }
        self.rest(objects)
    }
}
