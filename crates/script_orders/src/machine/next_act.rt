//! How a thread goes on to its next act.

use crate::machine::pointer::empty;
use crate::machine::turn::Turn;
use step_core::{Act, CellName};
use step_threads::programs::act::Task;

impl Turn {
    /// Whether the cell is there, and what was taken may go in.
    fn is_offered(&self, cell: CellName) -> bool {
        self.standing.has_taken && self.is_there(cell) && self.standing.hand.is_of(cell.kind())
    }

    /// Whether an act is none where it comes.
    fn is_idle(&self, act: Act) -> bool {
        match act {
            Act::Put { name } => !(self.standing.has_taken && self.standing.name(name).is_full()),
            Act::Clear { name } => !self.standing.name(name).is_full(),
            Act::Swap { cell } => !self.is_offered(cell),
            Act::Compare { name, cell, .. } => {
                !(self.is_offered(cell) && self.standing.name(name).is_of(cell.kind()))
            }
            Act::Drop => !self.standing.aside.is_full(),
            _ => false,
        }
    }

    /// Passes over an act that is none. A value that is in hand goes to its name, or is to be dropped.
    fn pass(&mut self, act: Act) {
        match act {
            Act::Put { name } => {
                if self.standing.has_taken {
                    let pointer = self.standing.let_go();
                    self.standing.set_name(name, pointer);
                }
            }
            Act::Swap { .. } | Act::Compare { .. } => {
                if self.standing.has_taken {
                    self.standing.aside = self.standing.let_go();
                }
            }
            Act::Drop => self.standing.aside = empty(),
            _ => {}
        }
    }

    /// Goes on to the next task that is an act.
    pub fn settle(&mut self, tasks: &[Task]) {
        for _ in 0..tasks.len() {
            let Some(task) = tasks.get(self.standing.at) else {
                return;
            };
            if !self.is_idle(task.act) {
                return;
            }
            self.pass(task.act);
            self.standing.at = self.standing.at.saturating_add(1);
        }
    }
}
