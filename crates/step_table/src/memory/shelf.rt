//! The shelf: vacant blocks that any desk may take. Each function is one atomic step on one word.
ghost use Rattle.std.specs.Prelude.{◌≡◌, ◌<◌, ◌≤◌, cond, false};
ghost use Rattle.control_word.specs.declared.model.view.Pending.TheVariants.{Idle};
ghost use Rattle.control_word.specs.State.{Has, stored};
ghost use Rattle.control_word.specs.Words.{shelf_spot};
ghost use Rattle.step_table.specs.Openings.{opening};
ghost use Rattle.step_table.specs.GhostStates.{ghost_after_step, pending, model_state};

use crate::memory::ghost_history::AtomicStep;
use crate::memory::table::Table;
use control_word::packed::layout::{SHELF_BITS, shelf_bit, shelf_word};
use control_word::place::Block;

/// What a step on a shelf word did to a block's bit.
#[derive(Clone, Copy)]
pub enum ShelfStep {
    /// It was set: the block went from the desk's store to the shelf.
    Shelve,
    /// It was cleared, and had been set: the block went from the shelf to the desk's store.
    Unshelve,
    /// It was cleared, and had been clear.
    Miss,
}

impl Table {
    /// Where the shelf word with a block's bit lies.
    fn place_on_shelf(&self, block: Block) -> usize
        ensures { result ≡ shelf_spot (opening self.now.extent) block.0 }
    {
        self.assert_invariant();
        let shape = &self.extent.shape;
        shelf_word(
            shape.blocks,
            shape.shared_cells + shape.weak_cells,
            block.number() / SHELF_BITS,
        )
    }

    /// Puts a block of the desk's store on the shelf: its bit is set.
    pub fn shelve(&mut self, desk: usize, block: Block)
        requires seat { desk < self.old.extent.actors }
        requires idle { pending self.old desk ≡ Idle }
        requires stored { Has (stored desk block.0) (model_state self.old).stores }
        ensures { self.new ≡ ghost_after_step self.old desk (AtomicStep.OnShelf block ShelfStep.Shelve) }
    {
        let word = self.place_on_shelf(block);
        let found = self.words.get(word);
        let atomic_step = ShelfStep::Shelve;
        let ghost_history = self.then(desk, AtomicStep::OnShelf { block, atomic_step });
        self.words.set(word, found | shelf_bit(block));
        self.ghost_history = ghost_history;
    }

    /// Clears a block's bit. Answers whether it was set: just then the block was on the shelf, and is the desk's now.
    pub fn unshelve(&mut self, desk: usize, block: Block) -> bool
        requires seat { desk < self.old.extent.actors }
        requires idle { pending self.old desk ≡ Idle }
        ensures got { result ≡ (model_state self.old).shelved block.0 }
        ensures after { self.new ≡ ghost_after_step self.old desk
            (AtomicStep.OnShelf block (cond result ShelfStep.Unshelve ShelfStep.Miss)) }
    {
        if block.number() > self.extent.shape.blocks {
            self.miss(desk, block);
            return false;
        }
        self.clear_bit(desk, block)
    }

    /// The same of a block that the table doesn't have. It is on no shelf, and this is a look.
    fn miss(&mut self, desk: usize, block: Block)
        requires seat { desk < self.old.extent.actors }
        requires idle { pending self.old desk ≡ Idle }
        requires beyond { self.old.extent.shape.blocks < block.0 }
        ensures absent { (model_state self.old).shelved block.0 ≡ false }
        ensures after { self.new ≡ ghost_after_step self.old desk (AtomicStep.OnShelf block ShelfStep.Miss) }
    {
        let atomic_step = ShelfStep::Miss;
        self.ghost_history = self.then(desk, AtomicStep::OnShelf { block, atomic_step });
    }

    /// The same of one that it has.
    fn clear_bit(&mut self, desk: usize, block: Block) -> bool
        requires seat { desk < self.old.extent.actors }
        requires idle { pending self.old desk ≡ Idle }
        requires inside { block.0 ≤ self.old.extent.shape.blocks }
        ensures got { result ≡ (model_state self.old).shelved block.0 }
        ensures after { self.new ≡ ghost_after_step self.old desk
            (AtomicStep.OnShelf block (cond result ShelfStep.Unshelve ShelfStep.Miss)) }
    {
        let word = self.place_on_shelf(block);
        let found = self.words.get(word);
        let got = found & shelf_bit(block) != 0;
        let atomic_step = cleared(got);
        let ghost_history = self.then(desk, AtomicStep::OnShelf { block, atomic_step });
        self.words.set(word, found & !shelf_bit(block));
        self.ghost_history = ghost_history;
        got
    }
}

/// What clearing a bit did, by whether it was set.
fn cleared(got: bool) -> ShelfStep
    ensures { result ≡ cond got ShelfStep.Unshelve ShelfStep.Miss }
{
    if got {
        ShelfStep::Unshelve
    } else {
        ShelfStep::Miss
    }
}
