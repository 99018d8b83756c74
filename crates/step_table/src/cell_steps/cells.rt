//! Steps on cells: what `atomic<shared_ptr>` and `atomic<weak_ptr>` are made of. Each function is one atomic step on
//! one word. A value in a cell that has an object has 256 funds on the object's count, of which the cell's word tells
//! how many were taken.
ghost use Rattle.std.specs.Prelude.{◌≡◌, ◌≢◌, ◌<◌, ◌==◌, ◌||◌, Option, None, Some, cond};
ghost use Rattle.std.specs.Prelude.{is_some, true, false};
ghost use Rattle.control_word.specs.Layout.{IsSite};
ghost use Rattle.control_word.specs.declared.model.view.Pending.TheVariants.{Idle};
ghost use Rattle.control_word.specs.Handles.{equivalent, same_place};
ghost use Rattle.control_word.specs.Packing.{IsCellWord, cell_bits};
ghost use Rattle.control_word.specs.State.{State, bag_size};
ghost use Rattle.step_table.specs.CellAtomicSteps.{handle_told, kind_in_state, owing_funds};
ghost use Rattle.control_word.specs.declared.site.Site.{Site as At};
ghost use Rattle.step_table.specs.Cells.{HasInHand, IsOpenTo, IsCellInUse, ShowsCell, target_of};
ghost use Rattle.step_table.specs.Cells.{word_of_cell};
ghost use Rattle.step_table.specs.GhostStates.{ghost_after_step, pending, model_state};

use crate::cell_steps::cell_step::{CellStep, Compared};
use crate::memory::ghost_history::AtomicStep;
use crate::memory::table::Table;
use control_word::packed::cell::{ONE_TAKEN, pack, unpack};
use control_word::packed::layout::site_word;
use control_word::place::{Block, Place};
use control_word::{CellWord, Site};

/// Whether two places are one.
pub(crate) fn is_same_place(one: Option<Place>, other: Option<Place>) -> bool
    ensures { result ≡ same_place one other }
{
    match (one, other) {
        (None, None) => true,
        (Some(one), Some(other)) => one.block == other.block && one.field == other.field,
        _ => false,
    }
}

/// Whether a value without an object is equivalent to another.
fn is_same_empty(found: CellWord, expected: CellWord) -> bool
    requires { found.owned ≡ None }
    ensures { (s : State) (c : At) → result ≡ equivalent (handle_told s c found) (handle_told s c expected) }
{
    expected.owned.is_none() && is_same_place(found.place, expected.place)
}

impl Table {
    /// The block of the object that the handle in a cell is on; none where it is on none (own). Condition: the cell is
    /// free, or a member of what is in a block that isn't vacant.
    pub fn target(&self, cell: Site) -> Option<Block>
        requires { IsCellInUse self.now cell }
        ensures { result ≡ target_of (model_state self.now) cell }
    {
        unpack(self.words.get(site_word(self.extent.shape.blocks, cell))).owned
    }

    /// What a cell holds, and how many of its funds were taken.
    pub fn shown(&self, desk: usize, cell: Site) -> CellWord
        requires seat { desk < self.now.extent.actors }
        requires open { IsOpenTo self.now desk cell }
        ensures { ShowsCell self.now cell result }
    {
        unpack(self.words.get(site_word(self.extent.shape.blocks, cell)))
    }

    /// Whether a cell's word is still that of a value.
    fn shows(&self, desk: usize, cell: Site, seen: CellWord) -> bool
        requires seat { desk < self.now.extent.actors }
        requires open { IsOpenTo self.now desk cell }
        requires seen { IsCellWord seen }
        ensures { result ≡ (word_of_cell self.now cell == cell_bits seen) }
    {
        self.words.get(site_word(self.extent.shape.blocks, cell)) == pack(seen)
    }

    /// Swaps a cell: the new value goes in, for which 256 funds were brought if it has an object, and what the cell
    /// held comes out. The funds of that which were not taken are out then, to be given back.
    pub(crate) fn swap_cell(&mut self, desk: usize, cell: Site, new: CellWord) -> CellWord
        requires seat { desk < self.old.extent.actors }
        requires open { IsOpenTo self.old desk cell }
        requires new { IsCellWord new × (new.taken ≡ 0) }
        requires hand { HasInHand self.old desk cell new }
        requires owes { pending self.old desk ≡ owing_funds (model_state self.old)
            (kind_in_state (model_state self.old) cell) new.owned new.place 256 0 }
        requires room { new.owned ≡ None
            → bag_size (model_state self.old) desk < (model_state self.old).allowance desk }
        ensures found { ShowsCell self.old cell result }
        ensures after { self.new ≡ ghost_after_step self.old desk (AtomicStep.OnCell (CellStep.Swap cell new result)) }
    {
        let found = self.shown(desk, cell);
        let atomic_step = CellStep::Swap { cell, new, found };
        let ghost_history = self.then(desk, AtomicStep::OnCell { atomic_step });
        self.words
            .set(site_word(self.extent.shape.blocks, cell), pack(new));
        self.ghost_history = ghost_history;
        found
    }

    /// Takes a fund of a cell by a `compare_exchange`: where its word is still that of a value with an object, the word
    /// tells one more taken. That is the load of the value, which is under way until the fund is turned.
    pub fn take_fund(&mut self, desk: usize, cell: Site, seen: CellWord) -> bool
        requires seat { desk < self.old.extent.actors }
        requires idle { pending self.old desk ≡ Idle }
        requires open { IsOpenTo self.old desk cell }
        requires seen { IsCellWord seen × (seen.owned ≢ None) × (seen.taken < 256) }
        requires room { bag_size (model_state self.old) desk < (model_state self.old).allowance desk }
        ensures same { result ≡ (word_of_cell self.old cell == cell_bits seen) }
        ensures after { self.new ≡ cond result
            (ghost_after_step self.old desk (AtomicStep.OnCell (CellStep.Take cell seen None))) self.old }
    {
        if !self.shows(desk, cell, seen) {
            return false;
        }
        let atomic_step = CellStep::Take {
            cell,
            found: seen,
            compared: None,
        };
        let ghost_history = self.then(desk, AtomicStep::OnCell { atomic_step });
        self.words.set(
            site_word(self.extent.shape.blocks, cell),
            pack(seen) + ONE_TAKEN,
        );
        self.ghost_history = ghost_history;
        true
    }

    /// The look of a load, which answers what the cell holds. Where that has no object it is the load; else nothing is
    /// done.
    pub(crate) fn look_cell(&mut self, desk: usize, cell: Site) -> CellWord
        requires seat { desk < self.old.extent.actors }
        requires idle { pending self.old desk ≡ Idle }
        requires open { IsOpenTo self.old desk cell }
        ensures found { ShowsCell self.old cell result }
        ensures after { self.new ≡ cond (is_some result.owned) self.old
            (ghost_after_step self.old desk (AtomicStep.OnCell (CellStep.Look cell result None))) }
    {
        let found = self.shown(desk, cell);
        if found.owned.is_some() {
            return found;
        }
        let atomic_step = CellStep::Look {
            cell,
            found,
            compared: None,
        };
        self.ghost_history = self.then(desk, AtomicStep::OnCell { atomic_step });
        found
    }

    /// Refills a cell by a `compare_exchange`: where its word is still that of a value with an object, for which as
    /// many funds were brought as were taken, these funds go in and none is told to be taken any more. Else nothing is
    /// done.
    pub fn refill_cell(&mut self, desk: usize, cell: Site, seen: CellWord) -> bool
        requires seat { desk < self.old.extent.actors }
        requires open { IsOpenTo self.old desk cell }
        requires seen { IsCellWord seen × (seen.owned ≢ None) }
        requires owes { (p : Option Place) × (pending self.old desk ≡ owing_funds (model_state self.old)
            (kind_in_state (model_state self.old) cell) seen.owned p seen.taken 0) }
        ensures same { result ≡ (word_of_cell self.old cell == cell_bits seen) }
        ensures after { self.new ≡ cond result
            (ghost_after_step self.old desk (AtomicStep.OnCell (CellStep.Refill cell seen.taken))) self.old }
    {
        if !self.shows(desk, cell, seen) {
            return false;
        }
        let atomic_step = CellStep::Refill {
            cell,
            taken: seen.taken,
        };
        let ghost_history = self.then(desk, AtomicStep::OnCell { atomic_step });
        self.words.set(
            site_word(self.extent.shape.blocks, cell),
            pack(CellWord { taken: 0, ..seen }),
        );
        self.ghost_history = ghost_history;
        true
    }

    /// Compares and swaps a cell by a `compare_exchange`: where its word is still that of a value that is what is
    /// expected, this is a swap. Else nothing is done.
    pub fn compare_and_swap(
        &mut self,
        desk: usize,
        cell: Site,
        seen: CellWord,
        compared: Compared,
    ) -> bool
        requires seat { desk < self.old.extent.actors }
        requires open { IsOpenTo self.old desk cell }
        requires seen { IsCellWord seen }
        requires alike { equivalent (handle_told (model_state self.old) cell seen)
            (handle_told (model_state self.old) cell compared.expected) ≡ true }
        requires expected { HasInHand self.old desk cell compared.expected }
        requires new { IsCellWord compared.new × (compared.new.taken ≡ 0) }
        requires hand { HasInHand self.old desk cell compared.new }
        requires owes { pending self.old desk ≡ owing_funds (model_state self.old)
            (kind_in_state (model_state self.old) cell) compared.new.owned compared.new.place 256 0 }
        requires room { compared.new.owned ≡ None
            → bag_size (model_state self.old) desk < (model_state self.old).allowance desk }
        ensures same { result ≡ (word_of_cell self.old cell == cell_bits seen) }
        ensures after { self.new ≡ cond result
            (ghost_after_step self.old desk (AtomicStep.OnCell (CellStep.CompareSwap cell seen compared))) self.old }
    {
        if !self.shows(desk, cell, seen) {
            return false;
        }
        let atomic_step = CellStep::CompareSwap {
            cell,
            found: seen,
            compared,
        };
        let ghost_history = self.then(desk, AtomicStep::OnCell { atomic_step });
        self.words.set(
            site_word(self.extent.shape.blocks, cell),
            pack(compared.new),
        );
        self.ghost_history = ghost_history;
        true
    }

    /// The look of a compare, which answers what the cell holds. Where that has no object and isn't what is expected it
    /// is a compare that differs; else nothing is done.
    pub fn look_to_compare(&mut self, desk: usize, cell: Site, compared: Compared) -> CellWord
        requires seat { desk < self.old.extent.actors }
        requires idle { pending self.old desk ≡ Idle }
        requires open { IsOpenTo self.old desk cell }
        requires expected { HasInHand self.old desk cell compared.expected }
        requires hand { HasInHand self.old desk cell compared.new }
        ensures found { ShowsCell self.old cell result }
        ensures after { self.new
            ≡ cond (is_some result.owned || equivalent (handle_told (model_state self.old) cell result)
            (handle_told (model_state self.old) cell compared.expected)) self.old
            (ghost_after_step self.old desk (AtomicStep.OnCell (CellStep.Look cell result (Some compared)))) }
    {
        let found = self.shown(desk, cell);
        if found.owned.is_some() {
            return found;
        }
        if is_same_empty(found, compared.expected) {
            return found;
        }
        let atomic_step = CellStep::Look {
            cell,
            found,
            compared: Some(compared),
        };
        self.ghost_history = self.then(desk, AtomicStep::OnCell { atomic_step });
        found
    }

    /// Takes a fund of a cell, as `take_fund` does, where the value isn't what is expected: a compare that differs.
    pub fn take_differing(
        &mut self,
        desk: usize,
        cell: Site,
        seen: CellWord,
        compared: Compared,
    ) -> bool
        requires seat { desk < self.old.extent.actors }
        requires idle { pending self.old desk ≡ Idle }
        requires open { IsOpenTo self.old desk cell }
        requires seen { IsCellWord seen × (seen.owned ≢ None) × (seen.taken < 256) }
        requires differs { equivalent (handle_told (model_state self.old) cell seen)
            (handle_told (model_state self.old) cell compared.expected) ≡ false }
        requires expected { HasInHand self.old desk cell compared.expected }
        requires hand { HasInHand self.old desk cell compared.new }
        requires room { bag_size (model_state self.old) desk < (model_state self.old).allowance desk }
        ensures same { result ≡ (word_of_cell self.old cell == cell_bits seen) }
        ensures after { self.new ≡ cond result
            (ghost_after_step self.old desk (AtomicStep.OnCell (CellStep.Take cell seen (Some compared)))) self.old }
    {
        if !self.shows(desk, cell, seen) {
            return false;
        }
        let atomic_step = CellStep::Take {
            cell,
            found: seen,
            compared: Some(compared),
        };
        let ghost_history = self.then(desk, AtomicStep::OnCell { atomic_step });
        self.words.set(
            site_word(self.extent.shape.blocks, cell),
            pack(seen) + ONE_TAKEN,
        );
        self.ghost_history = ghost_history;
        true
    }
}
