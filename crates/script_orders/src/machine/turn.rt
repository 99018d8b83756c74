//! One act of a thread, under way.

use crate::machine::heap::Heap;
use crate::machine::line::Line;
use crate::machine::position::Standing;
use control_word::Refusal;
use step_core::CellName;

/// The thread and the heap, as the act leaves them so far, and what it told, with the number of its statement.
#[derive(Drop)]
pub(crate) struct Turn {
    pub heap: Heap,
    pub standing: Standing,
    pub told: Option<(u32, Line)>,
}

impl Turn {
    /// Whether the object is there whose member the cell is: the name owns it and points into it.
    pub fn is_there(&self, cell: CellName) -> bool {
        match cell {
            CellName::Member { name, .. } => self.standing.name(name.0).inside().is_some(),
            CellName::Shared(_) | CellName::Weak(_) => true,
        }
    }

    pub fn tell(&mut self, statement: u32, line: Line) {
        self.told = Some((statement, line));
    }

    /// The statement is refused.
    pub fn refuse(&mut self, statement: u32, why: Refusal) {
        self.tell(statement, Line::Refused(why.number()));
    }

    /// It is refused, as a name points nowhere, or outside what it owns.
    pub fn refuse_outside(&mut self, statement: u32, name: u8) {
        match self.standing.name(name).spot {
            None => self.refuse(statement, Refusal::Null),
            Some(_) => self.refuse(statement, Refusal::Outside),
        }
    }
}
