//! Compares of what cells hold with the values of an actor's slots. Each function is one atomic step, or none where the
//! cell shows another word by then.
ghost use Rattle.std.specs.Prelude.{◌≡◌, ◌≢◌, ◌<◌, ◌≤◌, ◌==◌, ◌||◌, cond, is_some, true, false};
ghost use Rattle.std.specs.Prelude.{length, None};
ghost use Rattle.control_word.specs.declared.model.view.Pending.TheVariants.{Idle};
ghost use Rattle.control_word.specs.Limits.{cell_funds};
ghost use Rattle.control_word.specs.Packing.{IsCellWord, cell_bits};
ghost use Rattle.step_table.specs.CellAtomicSteps.{kind_in_state};
ghost use Rattle.step_table.specs.Cells.{IsOpenTo, word_of_cell};
ghost use Rattle.step_table.specs.Contents.{CanCompare, as_word, compared_in, differed, held_in, owing_for, same_block};
ghost use Rattle.step_table.specs.Contents.{same_value, seen, slot_of, slots_swapped};
ghost use Rattle.step_table.specs.Registers.{HoldsBag, Slots, slot_value};
ghost use Rattle.step_table.specs.GhostStates.{ghost_after_step, pending, model_state};

use crate::cell_steps::cell_step::{CellStep, Compared};
use crate::cell_steps::cells::is_same_place;
use crate::memory::contents::slot_in;
use crate::memory::ghost_history::AtomicStep;
use crate::memory::table::Table;
use crate::slots::registers::Registers;
use crate::slots::slot::Slot;
use control_word::{CellWord, Site};

/// A compare between slots: what is expected, and what is to go in. Where the cell holds what is expected, what comes
/// out of it comes into another slot, which has no object. Else this one gets what was to go in, and its slot gets what
/// the cell holds.
#[derive(Clone, Copy)]
pub struct Comparing {
    pub expected: usize,
    pub new: usize,
    pub other: usize,
    pub weak: bool,
}

impl Registers {
    /// A slot's value as it goes into a cell.
    pub fn word(&self, at: usize) -> CellWord
        requires { at < length self.now.slots.items }
        ensures { result ≡ as_word (slot_value self.now.slots.items at) }
    {
        self.slots[at].word()
    }

    /// What a compare expects and wants, as it is told to a table.
    fn compared(&self, comparing: Comparing) -> Compared
        requires expected { comparing.expected < length self.now.slots.items }
        requires new { comparing.new < length self.now.slots.items }
        ensures { result ≡ compared_in self.now.slots.items comparing }
    {
        Compared {
            expected: self.slots[comparing.expected].word(),
            new: self.slots[comparing.new].word(),
            weak: comparing.weak,
        }
    }

    /// The new value stays, in the other slot, and what the cell holds comes into its place.
    fn differ(&mut self, comparing: Comparing, held: Slot)
        requires new { comparing.new < length self.old.slots.items }
        requires other { comparing.other < length self.old.slots.items }
        ensures { self.new.slots.items ≡ differed comparing.new comparing.other self.old.slots.items held }
    {
        self.slots[comparing.other] = self.slots[comparing.new];
        self.slots[comparing.new] = held;
    }

    /// The look of a compare, as `Table::look_to_compare` says: where the cell has no object and isn't what is
    /// expected, what it holds comes into a slot.
    pub fn look_to_compare(
        &mut self,
        desk: usize,
        table: &mut Table,
        cell: Site,
        comparing: Comparing,
    ) -> CellWord
        requires seat { desk < table.old.extent.actors }
        requires idle { pending table.old desk ≡ Idle }
        requires holds { HoldsBag desk self.old.slots.items table.old }
        requires open { IsOpenTo table.old desk cell }
        requires compare { CanCompare (kind_in_state (model_state table.old) cell) self.old.slots.items comparing }
        ensures valid { IsCellWord result }
        ensures few { result.taken ≤ cell_funds }
        ensures found { result ≡ seen table.old cell }
        ensures slots { self.new.slots.items
            ≡ cond (is_some result.owned
            || same_value result (as_word (slot_value self.old.slots.items comparing.expected))) self.old.slots.items
            (differed comparing.new comparing.other self.old.slots.items
            (slot_of (model_state table.old) (held_in (model_state table.old) cell))) }
        ensures table { table.new
            ≡ cond (is_some result.owned
            || same_value result (as_word (slot_value self.old.slots.items comparing.expected))) table.old
            (ghost_after_step table.old desk
            (AtomicStep.OnCell (CellStep.Look cell result (Some (compared_in self.old.slots.items comparing))))) }
        ensures stays { (is_some result.owned || same_value result
            (as_word (slot_value self.old.slots.items comparing.expected))) ≡ true → self.new ≡ self.old }
        ensures holds { HoldsBag desk self.new.slots.items table.new }
    {
        table.assert_invariant();
        let compared = self.compared(comparing);
        let kind = table.kind_in(cell);
        let found = table.look_to_compare(desk, cell, compared);
        if found.owned.is_some() {
            return found;
        }
        if is_same_value(found, compared.expected) {
            return found;
        }
        self.differ(comparing, slot_in(kind, found));
        found
    }

    /// Takes a fund of a cell where the value isn't what is expected, as `Table::take_differing` says: it comes into a
    /// slot.
    pub fn take_differing(
        &mut self,
        desk: usize,
        table: &mut Table,
        cell: Site,
        seen: CellWord,
        comparing: Comparing,
    ) -> bool
        requires seat { desk < table.old.extent.actors }
        requires idle { pending table.old desk ≡ Idle }
        requires holds { HoldsBag desk self.old.slots.items table.old }
        requires open { IsOpenTo table.old desk cell }
        requires seen { IsCellWord seen × (seen.owned ≢ None) × (seen.taken < 256) }
        requires compare { CanCompare (kind_in_state (model_state table.old) cell) self.old.slots.items comparing }
        requires differs { same_value seen (as_word (slot_value self.old.slots.items comparing.expected)) ≡ false }
        ensures same { result ≡ (word_of_cell table.old cell == cell_bits seen) }
        ensures slots { self.new.slots.items
            ≡ cond result (differed comparing.new comparing.other self.old.slots.items
            (slot_of (model_state table.old) (held_in (model_state table.old) cell)))
            self.old.slots.items }
        ensures table { table.new
            ≡ cond result (ghost_after_step table.old desk
            (AtomicStep.OnCell (CellStep.Take cell seen
            (Some (compared_in self.old.slots.items comparing))))) table.old }
        ensures stays { result ≡ false → self.new ≡ self.old }
        ensures holds { HoldsBag desk self.new.slots.items table.new }
    {
        table.assert_invariant();
        let compared = self.compared(comparing);
        let kind = table.kind_in(cell);
        if !table.take_differing(desk, cell, seen, compared) {
            return false;
        }
        self.differ(comparing, slot_in(kind, seen));
        true
    }

    /// Compares and swaps a cell, as `Table::compare_and_swap` says: the new value goes in, and what the cell held
    /// comes into the other slot.
    pub fn compare_and_swap(
        &mut self,
        desk: usize,
        table: &mut Table,
        cell: Site,
        seen: CellWord,
        comparing: Comparing,
    ) -> bool
        requires seat { desk < table.old.extent.actors }
        requires holds { HoldsBag desk self.old.slots.items table.old }
        requires open { IsOpenTo table.old desk cell }
        requires seen { IsCellWord seen }
        requires compare { CanCompare (kind_in_state (model_state table.old) cell) self.old.slots.items comparing }
        requires alike { same_value seen (as_word (slot_value self.old.slots.items comparing.expected)) ≡ true }
        requires owes { pending table.old desk ≡ owing_for (model_state table.old)
            (slot_value self.old.slots.items comparing.new) 256 }
        ensures same { result ≡ (word_of_cell table.old cell == cell_bits seen) }
        ensures slots { self.new.slots.items
            ≡ cond result (slots_swapped comparing.new comparing.other self.old.slots.items
            (slot_of (model_state table.old) (held_in (model_state table.old) cell)))
            self.old.slots.items }
        ensures table { table.new
            ≡ cond result (ghost_after_step table.old desk
            (AtomicStep.OnCell (CellStep.CompareSwap cell seen
            (compared_in self.old.slots.items comparing)))) table.old }
        ensures stays { result ≡ false → self.new ≡ self.old }
        ensures holds { HoldsBag desk self.new.slots.items table.new }
    {
        table.assert_invariant();
        let compared = self.compared(comparing);
        let kind = table.kind_in(cell);
        if !table.compare_and_swap(desk, cell, seen, compared) {
            return false;
        }
        self.slots[comparing.other] = slot_in(kind, seen);
        self.slots[comparing.new] = Slot::Empty { place: None };
        true
    }
}

/// Whether two words tell the same value, however many funds were taken.
pub fn is_same_value(one: CellWord, other: CellWord) -> bool
    ensures { result ≡ same_value one other }
{
    let owned = match (one.owned, other.owned) {
        (None, None) => true,
        (Some(one), Some(other)) => one == other,
        _ => false,
    };
    owned && is_same_place(one.place, other.place)
}
