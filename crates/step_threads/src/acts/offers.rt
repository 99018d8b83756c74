//! How a thread puts values into cells, act by act.
ghost use Rattle.std.specs.Prelude.{◌≡◌, ◌<◌, ◌≤◌, true, false, length, slice_set};
ghost use Rattle.step_table.specs.Contents.{as_word, is_of, owing_for, seen, slots_swapped};
ghost use Rattle.step_threads.specs.Programs.{kind_at};
ghost use Rattle.step_threads.specs.Frames.{CanAct, FrameReady, HasCell, IsNamed, cell_of_name, done_on};
ghost use Rattle.step_threads.specs.Passing.{HasGoneOn};
ghost use Rattle.step_threads.specs.Frames.{fitting, hand, is_offered, is_there, offered, other, rest, frame_settled};
ghost use Rattle.step_threads.specs.Frames.{task_at, frame_view};
ghost use Rattle.step_table.specs.AtomicSteps.{is_last, leave, share, on};
ghost use Rattle.step_table.specs.Registers.{HoldsBag, is_full, plain, slot_pointer, slot_value};
ghost use Rattle.step_threads.specs.AbstractStates.{came};
ghost use Rattle.step_table.specs.GhostStates.{ghost_after_step, pending, model_state};

use crate::frame::Frame;
use crate::programs::act::Act;
use crate::programs::call::CellName;
use control_word::{CellWord, Site};
use step_table::cell_steps::cell_step::CellStep;
use step_table::memory::ghost_history::AtomicStep;
use step_table::memory::table::Table;

impl Frame {
    /// Whether the object is there whose member the cell is: the name owns it and points into it.
    pub(crate) fn is_there(&self, cell: CellName) -> bool
        requires named { IsNamed (length self.now.registers.slots.items) cell }
        ensures { result ≡ is_there self.now.registers.slots.items cell }
    {
        match cell {
            CellName::Member { name, .. } => self.registers.inside(usize::from(name.0)).is_some(),
            _ => true,
        }
    }

    /// The cell in the table: the weak ones stand behind the shared ones.
    pub(crate) fn cell(&self, table: &Table, cell: CellName) -> Site
        requires named { IsNamed (length self.now.registers.slots.items) cell }
        requires there { is_there self.now.registers.slots.items cell ≡ true }
        ensures { result ≡ cell_of_name (model_state table.now) self.now.registers.slots.items cell }
    {
        table.assert_invariant();
        match cell {
            CellName::Shared(number) => Site::Free {
                number: u32::from(number),
            },
            CellName::Weak(number) => Site::Free {
                number: table.shared_cells() + u32::from(number),
            },
            CellName::Member { name, member } => {
                let Some(owner) = self.registers.inside(usize::from(name.0)) else {
                    unreachable!()
                };
                Site::Member {
                    block: owner.block,
                    member,
                }
            }
        }
    }

    /// Whether the cell is there, and what was taken may go in.
    pub(crate) fn is_offered(&self, cell: CellName) -> bool
        requires some { 1 < length self.now.registers.slots.items }
        requires named { IsNamed (length self.now.registers.slots.items) cell }
        ensures { result ≡ is_offered self.now.registers.slots.items self.now.taken cell }
    {
        self.taken && self.is_there(cell) && self.may_go_in(self.registers.hand(), cell)
    }

    /// Whether a slot's value may go into a cell.
    pub(crate) fn may_go_in(&self, at: usize, cell: CellName) -> bool
        requires { at < length self.now.registers.slots.items }
        ensures { result ≡ is_of (kind_at cell) (slot_value self.now.registers.slots.items at) }
    {
        self.registers.is_of(at, cell.kind())
    }

    /// Takes a copy of what a name holds, where it may go into the cell. Answers whether that touched a block.
    pub(crate) fn offer(&mut self, desk: usize, table: &mut Table, name: u8, cell: CellName) -> bool
        requires can { CanAct desk self.old table.old }
        requires act { (task_at self.old).act ≡ Act.Offer name cell }
        requires there { is_there self.old.registers.slots.items cell ≡ true }
        ensures event { result ≡ is_full (offered self.old.registers.slots.items name cell) }
        ensures table { table.new ≡ done_on share table.old desk (offered self.old.registers.slots.items name cell) }
        ensures frame_view { frame_view self.new ≡ frame_settled (slice_set self.old.registers.slots.items
            (hand self.old.registers.slots.items)
            (fitting (kind_at cell) (slot_value self.old.registers.slots.items name)))
            true self.old.endings.list (rest self.old) }
        ensures on { HasGoneOn desk self.old self.new table.new }
    {
        let from = usize::from(name);
        if !self.may_go_in(from, cell) {
            self.take(true);
            return false;
        }
        let hand = self.registers.hand();
        self.taken = true;
        match self.registers.get(from) {
            None => {
                let place = self.registers.place(from);
                self.registers.set_empty(hand, place);
                self.go_on();
                false
            }
            Some(pointer) => {
                self.registers.share(desk, table, from, hand, pointer);
                self.go_on();
                true
            }
        }
    }

    /// Puts what is in hand into a cell, for which its funds were brought. What the cell held is to be dropped.
    pub fn swap(&mut self, desk: usize, table: &mut Table, cell: CellName) -> CellWord
        requires seat { desk < table.old.extent.actors }
        requires holds { HoldsBag desk self.old.registers.slots.items table.old }
        requires within { self.old.at < length self.old.tasks.items }
        requires ready { FrameReady self.old }
        requires act { (task_at self.old).act ≡ Act.Swap cell }
        requires there { is_there self.old.registers.slots.items cell ≡ true }
        requires cell { HasCell table.old.extent.shape (task_at self.old).act }
        requires kind { is_of (kind_at cell)
            (slot_value self.old.registers.slots.items (hand self.old.registers.slots.items)) ≡ true }
        requires owes { pending table.old desk ≡ owing_for (model_state table.old)
            (slot_value self.old.registers.slots.items (hand self.old.registers.slots.items)) 256 }
        ensures found { result ≡ seen table.old
            (cell_of_name (model_state table.old) self.old.registers.slots.items cell) }
        ensures few { result.taken ≤ 256 }
        ensures table { table.new
            ≡ ghost_after_step table.old desk
            (AtomicStep.OnCell (CellStep.Swap (cell_of_name (model_state table.old) self.old.registers.slots.items cell)
            (as_word (slot_value self.old.registers.slots.items (hand self.old.registers.slots.items))) result)) }
        ensures frame_view { frame_view self.new
            ≡ frame_settled (slots_swapped (hand self.old.registers.slots.items)
            (other self.old.registers.slots.items) self.old.registers.slots.items
            (came (model_state table.old) self.old.registers.slots.items cell)) false self.old.endings.list
            (rest self.old) }
        ensures on { HasGoneOn desk self.old self.new table.new }
    {
        let hand = self.registers.hand();
        let other = self.registers.other();
        let cell = self.cell(table, cell);
        let found = self.registers.swap(desk, table, cell, hand, other);
        self.take(false);
        found
    }

    /// Exchanges what a name holds, for which its funds were brought, for what a cell holds.
    pub(crate) fn exchange(
        &mut self,
        desk: usize,
        table: &mut Table,
        name: u8,
        cell: CellName,
    ) -> CellWord
        requires seat { desk < table.old.extent.actors }
        requires holds { HoldsBag desk self.old.registers.slots.items table.old }
        requires within { self.old.at < length self.old.tasks.items }
        requires ready { FrameReady self.old }
        requires act { (task_at self.old).act ≡ Act.Exchange name cell }
        requires there { is_there self.old.registers.slots.items cell ≡ true }
        requires cell { HasCell table.old.extent.shape (task_at self.old).act }
        requires kind { is_of (kind_at cell) (slot_value self.old.registers.slots.items name) ≡ true }
        requires owes { pending table.old desk ≡ owing_for (model_state table.old)
            (slot_value self.old.registers.slots.items name) 256 }
        ensures found { result ≡ seen table.old
            (cell_of_name (model_state table.old) self.old.registers.slots.items cell) }
        ensures few { result.taken ≤ 256 }
        ensures table { table.new ≡ ghost_after_step table.old desk
            (AtomicStep.OnCell (CellStep.Swap (cell_of_name (model_state table.old) self.old.registers.slots.items cell)
            (as_word (slot_value self.old.registers.slots.items name)) result)) }
        ensures frame_view { frame_view self.new
            ≡ frame_settled (slice_set self.old.registers.slots.items name
            (came (model_state table.old) self.old.registers.slots.items cell)) self.old.taken
            self.old.endings.list (rest self.old) }
        ensures on { HasGoneOn desk self.old self.new table.new }
    {
        let cell = self.cell(table, cell);
        let found = self
            .registers
            .exchange(desk, table, cell, usize::from(name));
        self.go_on();
        found
    }

    /// Leaves what is to be dropped. Answers whether that was the last.
    pub(crate) fn drop_other(&mut self, desk: usize, table: &mut Table) -> bool
        requires can { CanAct desk self.old table.old }
        requires act { (task_at self.old).act ≡ Act.Drop }
        ensures full { is_full
            (slot_pointer self.old.registers.slots.items (other self.old.registers.slots.items)) ≡ true }
        ensures last { result ≡ on (is_last (model_state table.old)) false
            (slot_pointer self.old.registers.slots.items (other self.old.registers.slots.items)) }
        ensures table { table.new ≡ done_on (leave (model_state table.old)) table.old desk
            (slot_pointer self.old.registers.slots.items (other self.old.registers.slots.items)) }
        ensures frame_view { frame_view self.new ≡ frame_settled (slice_set self.old.registers.slots.items
            (other self.old.registers.slots.items) plain) self.old.taken self.old.endings.list (rest self.old) }
        ensures on { HasGoneOn desk self.old self.new table.new }
    {
        let other = self.registers.other();
        match self.registers.get(other) {
            None => unreachable!(),
            Some(pointer) => {
                let last = self.registers.leave(desk, table, other, pointer);
                self.go_on();
                last
            }
        }
    }
}
