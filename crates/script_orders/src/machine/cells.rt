//! Acts on cells.

use crate::machine::heap::{Heap, Objects};
use crate::machine::line::Line;
use crate::machine::plan::Plan;
use crate::machine::pointer::{Pointer, empty};
use crate::machine::turn::Turn;
use control_word::Refusal;
use step_core::CellName;

/// A cell: a free one, or a member of the object in a block.
#[derive(Clone, Copy)]
enum Cell {
    Free(usize),
    Member { block: u32, member: u8 },
}

/// What a cell holds.
fn held(objects: &Objects, heap: &Heap, cell: Cell) -> Pointer {
    match cell {
        Cell::Free(at) => match heap.cells.as_slice().get(at) {
            Some(pointer) => *pointer,
            None => empty(),
        },
        Cell::Member { block, member } => objects.get(heap, block).member(member),
    }
}

/// Puts a pointer into a cell.
fn fill(
    objects: &mut Objects,
    heap: &mut Heap,
    cell: Cell,
    pointer: Pointer,
) -> Result<(), Refusal> {
    match cell {
        Cell::Free(at) => {
            if at < heap.cells.len() {
                heap.cells[at] = pointer;
            }
            Ok(())
        }
        Cell::Member { block, member } => {
            let object = objects.get(heap, block).with_member(member, pointer);
            objects.put(heap, block, object)
        }
    }
}

impl Turn {
    /// The cell that a statement names, if it is there.
    fn cell(&self, plan: &Plan, name: CellName) -> Option<Cell> {
        match name {
            CellName::Shared(number) => Some(Cell::Free(usize::from(number))),
            CellName::Weak(number) => {
                Some(Cell::Free(plan.shared.saturating_add(usize::from(number))))
            }
            CellName::Member { name, member } => {
                let spot = self.standing.name(name.0).inside()?;
                Some(Cell::Member {
                    block: spot.block,
                    member,
                })
            }
        }
    }

    /// A member of no object is refused.
    fn refuse_member(&mut self, statement: u32, cell: CellName) {
        if let CellName::Member { name, .. } = cell {
            self.refuse_outside(statement, name.0);
        }
    }

    /// Takes a copy of what a name holds, which is to go into a cell.
    pub fn offer(
        &mut self,
        objects: &mut Objects,
        statement: u32,
        name: u8,
        cell: CellName,
    ) -> Result<(), Refusal> {
        if !self.is_there(cell) {
            self.refuse_member(statement, cell);
            return Ok(());
        }
        let pointer = self.standing.name(name);
        let pointer = if pointer.is_of(cell.kind()) {
            pointer
        } else {
            empty()
        };
        self.standing.take(pointer);
        self.share(objects, pointer)
    }

    /// Puts what is in hand into a cell. What the cell held is to be dropped.
    pub fn swap(
        &mut self,
        objects: &mut Objects,
        plan: &Plan,
        name: CellName,
    ) -> Result<(), Refusal> {
        let Some(cell) = self.cell(plan, name) else {
            return Ok(());
        };
        let pointer = self.standing.let_go();
        self.standing.aside = held(objects, &self.heap, cell);
        fill(objects, &mut self.heap, cell, pointer)
    }

    /// Exchanges what a name holds for what a cell holds.
    pub fn exchange(
        &mut self,
        objects: &mut Objects,
        plan: &Plan,
        statement: u32,
        name: u8,
        into: CellName,
    ) -> Result<(), Refusal> {
        let Some(cell) = self.cell(plan, into) else {
            self.refuse_member(statement, into);
            return Ok(());
        };
        let pointer = self.standing.name(name);
        if !pointer.is_of(into.kind()) {
            return Ok(());
        }
        self.standing
            .set_name(name, held(objects, &self.heap, cell));
        fill(objects, &mut self.heap, cell, pointer)
    }

    /// Takes a copy of what a cell holds.
    pub fn load(
        &mut self,
        objects: &mut Objects,
        plan: &Plan,
        statement: u32,
        name: CellName,
    ) -> Result<(), Refusal> {
        let Some(cell) = self.cell(plan, name) else {
            self.refuse_member(statement, name);
            return Ok(());
        };
        let pointer = held(objects, &self.heap, cell);
        self.standing.take(pointer);
        self.share(objects, pointer)
    }

    /// Compares what a cell holds with what a name holds. Where it is equivalent, what is in hand goes into the cell,
    /// and what the cell held is to be dropped; else what was in hand is to be dropped, and what the cell holds is
    /// taken.
    pub fn compare(
        &mut self,
        objects: &mut Objects,
        plan: &Plan,
        statement: u32,
        name: u8,
        with: CellName,
    ) -> Result<(), Refusal> {
        let Some(cell) = self.cell(plan, with) else {
            return Ok(());
        };
        let found = held(objects, &self.heap, cell);
        let is_expected = found.is_equivalent(self.standing.name(name));
        self.tell(statement, Line::Compared(is_expected));
        let pointer = self.standing.let_go();
        if is_expected {
            self.standing.aside = found;
            return fill(objects, &mut self.heap, cell, pointer);
        }
        self.standing.aside = pointer;
        self.standing.take(found);
        self.share(objects, found)
    }

    /// Tells whether a cell holds what a name does, as a compare compares.
    pub fn holds(
        &mut self,
        objects: &Objects,
        plan: &Plan,
        statement: u32,
        name: u8,
        asked: CellName,
    ) {
        let Some(cell) = self.cell(plan, asked) else {
            self.refuse_member(statement, asked);
            return;
        };
        let is_held = held(objects, &self.heap, cell).is_equivalent(self.standing.name(name));
        self.tell(statement, Line::Holds(is_held));
    }
}
