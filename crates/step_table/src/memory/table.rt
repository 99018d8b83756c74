//! The words of all blocks, and what has happened to them. Each function is one atomic step on one word.
ghost use Rattle.std.specs.Prelude.{◌≡◌, ℕ, ◌<◌, ◌≤◌, ◌==◌, Bool, [], ◌∷◌, IfOk, replicate};
ghost use Rattle.std.specs.Prelude.{slice_index};
ghost use Rattle.control_word.specs.declared.model.view.Pending.TheVariants.{Idle};
ghost use Rattle.control_word.specs.Handles.{IsPointer, empty};
ghost use Rattle.control_word.specs.Layout.{spot, table_size};
ghost use Rattle.control_word.specs.State.{Has, held, stored, ending, bag_size, count, kind_of_member, weak};
ghost use Rattle.control_word.specs.Views.{fresh, owed};
ghost use Rattle.step_table.specs.AtomicSteps.{told_number, remains};
ghost use Rattle.control_word.specs.Words.{flags_of};
ghost use Rattle.step_table.specs.Openings.{IsExtent};
ghost use Rattle.step_table.specs.GhostStates.{IsMaking, TableInvariant, ghost_after_step, handle_in_block};
ghost use Rattle.step_table.specs.GhostStates.{history_after};
ghost use Rattle.step_table.specs.GhostStates.{known_words, object_of_block, owner_in};
ghost use Rattle.step_table.specs.GhostStates.{pending, model_state, views_after};

use crate::memory::ended::Ended;
use crate::memory::extent::Extent;
use crate::memory::ghost_history::{AtomicStep, Done, GhostHistory};
use crate::memory::words::Words;
use control_word::Handle;
use control_word::packed::counts::{is_last, use_count_of};
use control_word::packed::layout::{
    BLOCK_STRIDE, FIELDS, FLAGS, NULL, OWNERS, WEAKS, block_word, table_words,
};
use control_word::place::{Block, Place};
use std::alloc::{AllocError, Global};
use std::marker::Model;

/// The words of a world. They show the state that its history leads to.
#[derive(Drop)]
pub struct Table {
    pub(crate) words: Words,
    pub(crate) extent: Extent,
    pub(crate) ghost_history: GhostHistory,
}

impl Model for Table {
    ghost use Rattle.step_table.specs.GhostStates.{GhostState, TableInvariant};

    ghost Value = { GhostState };

    ghost view = { λ t. record {
      extent = t.extent;
      words = t.words;
      views = t.ghost_history.views;
      history = t.ghost_history.history;
    } };

    ghost invariant = { λ t. TableInvariant
        (record {
          extent = t.extent;
          words = t.words;
          views = t.ghost_history.views;
          history = t.ghost_history.history;
        }) };
}

impl Table {
    /// All blocks vacant, all cells empty, and nothing has happened.
    pub fn new(alloc: Global, extent: &Extent) -> Result<Table, AllocError>
        requires { IsExtent extent.now }
        ensures { IfOk result
            (λ t. t ≡ record {
              extent = extent.now;
              words = replicate (table_size extent.now.shape) 0;
              views = fresh 0 extent.now.actors;
              history = [];
            }) }
    {
        let of_blocks = BLOCK_STRIDE * extent.shape.blocks as usize;
        let words = Words::new(alloc, table_words(&extent.shape), of_blocks)?;
        Ok(Table {
            words,
            extent: *extent,
            ghost_history: GhostHistory::start(extent),
        })
    }

    /// What always holds of a table: its words stand for its history.
    pub fn assert_invariant(&self)
        ensures { TableInvariant self.now }
    {
        let _ = &self.words;
    }

    /// How many cells for shared pointers there are: the weak ones stand behind them.
    pub fn shared_cells(&self) -> u32
        ensures shared { result ≡ (model_state self.now).shared }
        ensures few { result ≤ 256 }
    {
        self.assert_invariant();
        self.extent.shape.shared_cells
    }

    /// A word of a block.
    pub fn word(&self, block: Block, word: usize) -> u64
        requires some { 0 < block.0 }
        requires block { block.0 ≤ self.now.extent.shape.blocks }
        requires inside { word < 10 }
        ensures { result ≡ slice_index self.now.words (spot block.0 word) }
    {
        self.words.get(block_word(block, word))
    }

    /// What the table knows after an atomic step.
    pub(crate) fn then(&self, desk: usize, atomic_step: AtomicStep) -> GhostHistory
        ensures { (result.history ≡ history_after self.now desk atomic_step)
            × (result.views ≡ views_after self.now desk atomic_step) }
    {
        GhostHistory::next(self, &Done { desk, atomic_step })
    }

    /// Begins a make: the weak word of an own vacant block becomes 1, before anybody can see the object.
    pub fn prepare(&mut self, desk: usize, block: Block)
        requires seat { desk < self.old.extent.actors }
        requires idle { pending self.old desk ≡ Idle }
        requires stored { Has (stored desk block.0) (model_state self.old).stores }
        ensures { self.new ≡ ghost_after_step self.old desk (AtomicStep.Prepare block) }
    {
        let ghost_history = self.then(desk, AtomicStep::Prepare { block });
        self.words.set(block_word(block, WEAKS), 1);
        self.ghost_history = ghost_history;
    }

    /// Looks at the flags (0) or a field (1 to 4) of a block that a make has prepared: nobody else writes it.
    pub fn look(&self, desk: usize, block: Block, index: u8) -> u64
        requires seat { desk < self.now.extent.actors }
        requires making { IsMaking self.now desk block }
        requires inside { index < 5 }
        ensures { result ≡ slice_index (known_words (pending self.now desk)) index }
    {
        self.words
            .get(block_word(block, FLAGS + usize::from(index)))
    }

    /// Writes the flags (0) or a field (1 to 4) of a block that a make has prepared.
    pub fn write(&mut self, desk: usize, block: Block, index: u8, value: u64)
        requires seat { desk < self.old.extent.actors }
        requires making { IsMaking self.old desk block }
        requires inside { index < 5 }
        ensures { self.new ≡ ghost_after_step self.old desk (AtomicStep.Write block index value) }
    {
        let ghost_history = self.then(
            desk,
            AtomicStep::Write {
                block,
                index,
                value,
            },
        );
        let word = FLAGS + usize::from(index);
        self.words.set(block_word(block, word), value);
        self.ghost_history = ghost_history;
    }

    /// Makes the object: the owner word of a prepared block becomes 1, as nobody else counts on a vacant block.
    pub fn claim(&mut self, desk: usize, block: Block, enabled: bool, null: bool, fields: [u64; 4])
        requires seat { desk < self.old.extent.actors }
        requires making { IsMaking self.old desk block }
        requires known { known_words (pending self.old desk) ≡ flags_of enabled null ∷ fields }
        requires room { bag_size (model_state self.old) desk < (model_state self.old).allowance desk }
        ensures { self.new ≡ ghost_after_step self.old desk (AtomicStep.Claim block enabled null fields) }
    {
        let ghost_history = self.then(
            desk,
            AtomicStep::Claim {
                block,
                enabled,
                null,
                fields,
            },
        );
        self.words.set(block_word(block, OWNERS), 1);
        self.ghost_history = ghost_history;
    }

    /// Shares what an owner owns: it keeps the object while the word goes up.
    pub fn share(&mut self, desk: usize, block: Block, of: Option<Place>, place: Option<Place>)
        requires seat { desk < self.old.extent.actors }
        requires idle { pending self.old desk ≡ Idle }
        requires held { Has (held desk (owner_in self.old block of)) (model_state self.old).hands }
        requires place { IsPointer place }
        requires room { bag_size (model_state self.old) desk < (model_state self.old).allowance desk }
        ensures { self.new ≡ ghost_after_step self.old desk (AtomicStep.Share block of place) }
    {
        let found = self.words.get(block_word(block, OWNERS));
        let ghost_history = self.then(desk, AtomicStep::Share { block, of, place });
        self.words.set(block_word(block, OWNERS), found + 1);
        self.ghost_history = ghost_history;
    }

    /// Ends an owner. Answers whether it was the last: just where the whole word was 1, as a fund stands for a handle.
    pub fn leave(&mut self, desk: usize, block: Block, place: Option<Place>) -> bool
        requires seat { desk < self.old.extent.actors }
        requires idle { pending self.old desk ≡ Idle }
        requires held { Has (held desk (owner_in self.old block place)) (model_state self.old).hands }
        ensures last { result ≡ (count (model_state self.old) (object_of_block self.old block) == 1) }
        ensures after { self.new ≡ ghost_after_step self.old desk (AtomicStep.Leave block place result) }
    {
        let found = self.words.get(block_word(block, OWNERS));
        let last = is_last(found);
        let ghost_history = self.then(desk, AtomicStep::Leave { block, place, last });
        self.words.set(block_word(block, OWNERS), found - 1);
        self.ghost_history = ghost_history;
        last
    }

    /// How many owners there are, by a handle: those that the word numbers, and where it numbers none 1 if it has
    /// funds, as then a load is under way. A load that is under way may be left out.
    pub fn count(&mut self, desk: usize, pointer: Handle) -> u32
        requires seat { desk < self.old.extent.actors }
        requires idle { pending self.old desk ≡ Idle }
        requires held { Has (held desk (handle_in_block self.old pointer.kind pointer.block pointer.place))
            (model_state self.old).hands }
        ensures told { result ≡ told_number (slice_index self.old.words (spot pointer.block.0 0)) }
        ensures none { (result == 0) ≡ (count (model_state self.old) (object_of_block self.old pointer.block) == 0) }
        ensures most { result ≤ count (model_state self.old) (object_of_block self.old pointer.block) }
        ensures exact { owed self.old.views (spot pointer.block.0 0) ≡ 0
            → result ≡ count (model_state self.old) (object_of_block self.old pointer.block) }
        ensures after { self.new ≡ ghost_after_step self.old desk
            (AtomicStep.Count pointer.kind pointer.block pointer.place result) }
    {
        let owners = use_count_of(self.words.get(block_word(pointer.block, OWNERS)));
        self.ghost_history = self.then(
            desk,
            AtomicStep::Count {
                kind: pointer.kind,
                block: pointer.block,
                place: pointer.place,
                owners,
            },
        );
        owners
    }

    /// Ends the owners' common count of an ending object whose members are empty. Answers whether the block is vacant:
    /// just where the whole word was 1.
    pub fn finish(&mut self, desk: usize, block: Block) -> bool
        requires seat { desk < self.old.extent.actors }
        requires idle { pending self.old desk ≡ Idle }
        requires ending { ((model_state self.old).object (object_of_block self.old block)).phase ≡ ending desk }
        requires cleared { (m : ℕ) → m < 3
            → ((model_state self.old).object (object_of_block self.old block)).member m
            ≡ empty (kind_of_member 2 m) }
        ensures vacant { result ≡ (weak (model_state self.old) (object_of_block self.old block) == 0) }
        ensures after { self.new ≡ ghost_after_step self.old desk (AtomicStep.Finish block result) }
    {
        let found = self.words.get(block_word(block, WEAKS));
        let vacant = is_last(found);
        let ghost_history = self.then(desk, AtomicStep::Finish { block, vacant });
        self.words.set(block_word(block, WEAKS), found - 1);
        self.ghost_history = ghost_history;
        vacant
    }

    /// A word of the flags (2) or fields (3 to 6) of an ending object: none of them changes any more.
    fn body_word(&self, desk: usize, block: Block, word: usize) -> u64
        requires ending { ((model_state self.now).object (object_of_block self.now block)).phase ≡ ending desk }
        requires inside { word < 7 }
        ensures { result ≡ slice_index self.now.words (spot block.0 word) }
    {
        self.words.get(block_word(block, word))
    }

    /// What an ending object leaves: its fields, or that it was null.
    pub fn remains(&self, desk: usize, block: Block) -> Ended
        requires ending { ((model_state self.now).object (object_of_block self.now block)).phase ≡ ending desk }
        ensures { result ≡ remains ((model_state self.now).object (object_of_block self.now block)) }
    {
        self.assert_invariant();
        if is_null(self.body_word(desk, block, FLAGS)) {
            return Ended::Null;
        }
        Ended::Fields([
            self.body_word(desk, block, FIELDS),
            self.body_word(desk, block, FIELDS + 1),
            self.body_word(desk, block, FIELDS + 2),
            self.body_word(desk, block, FIELDS + 3),
        ])
    }
}

/// Whether flags say that an owned pointer is null.
fn is_null(flags: u64) -> bool
    ensures { (enabled null : Bool) → flags ≡ flags_of enabled null → result ≡ null }
{
    flags & NULL != 0
}
