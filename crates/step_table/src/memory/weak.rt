//! What weak handles do to the words of a table. Each function is one atomic step on one word.
ghost use Rattle.std.specs.Prelude.{◌≡◌, ◌⊎◌, ◌<◌, ◌==◌, ◌&&◌, true, false, cond, slice_index};
ghost use Rattle.control_word.specs.declared.model.view.Pending.TheVariants.{Idle};
ghost use Rattle.control_word.specs.Events.{is_gone, place_at};
ghost use Rattle.control_word.specs.Layout.{spot};
ghost use Rattle.control_word.specs.State.{Has, held, bag_size, count, weak};
ghost use Rattle.step_table.specs.GhostStates.{ghost_after_step, handle_in_block, model_state, object_of_block};
ghost use Rattle.step_table.specs.GhostStates.{pending};
ghost use Rattle.step_table.specs.GhostStates.{weak_in};

use crate::memory::ghost_history::AtomicStep;
use crate::memory::table::Table;
use control_word::Handle;
use control_word::packed::counts::is_last;
use control_word::packed::layout::{OWNERS, WEAKS, block_word};
use control_word::place::{Block, Place};

impl Table {
    /// A weak handle more, with the place of a handle or of its object itself. That handle keeps the block while the
    /// word goes up.
    pub(crate) fn weak_share(&mut self, desk: usize, pointer: Handle, place: Option<Place>)
        requires seat { desk < self.old.extent.actors }
        requires idle { pending self.old desk ≡ Idle }
        requires held { Has (held desk (handle_in_block self.old pointer.kind pointer.block pointer.place))
            (model_state self.old).hands }
        requires place { (place ≡ pointer.place) ⊎ (place ≡ place_at pointer.block.0) }
        requires room { bag_size (model_state self.old) desk < (model_state self.old).allowance desk }
        ensures { self.new ≡ ghost_after_step self.old desk (AtomicStep.WeakShare pointer.block place) }
    {
        let block = pointer.block;
        let found = self.words.get(block_word(block, WEAKS));
        let ghost_history = self.then(desk, AtomicStep::WeakShare { block, place });
        self.words.set(block_word(block, WEAKS), found + 1);
        self.ghost_history = ghost_history;
    }

    /// Ends a weak handle. Answers whether the block is vacant: just where the whole word was 1, as the owners of an
    /// object that isn't gone count as one more.
    pub(crate) fn weak_leave(&mut self, desk: usize, block: Block, place: Option<Place>) -> bool
        requires seat { desk < self.old.extent.actors }
        requires idle { pending self.old desk ≡ Idle }
        requires held { Has (held desk (weak_in self.old block place)) (model_state self.old).hands }
        ensures vacant { result ≡ (weak (model_state self.old) (object_of_block self.old block) == 1
            && is_gone ((model_state self.old).object (object_of_block self.old block)).phase) }
        ensures after { self.new ≡ ghost_after_step self.old desk (AtomicStep.WeakLeave block place result) }
    {
        let found = self.words.get(block_word(block, WEAKS));
        let vacant = is_last(found);
        let ghost_history = self.then(
            desk,
            AtomicStep::WeakLeave {
                block,
                place,
                vacant,
            },
        );
        self.words.set(block_word(block, WEAKS), found - 1);
        self.ghost_history = ghost_history;
        vacant
    }

    /// Whether no owner is left, by a handle: just where the whole owner word is 0.
    pub fn is_expired(&mut self, desk: usize, pointer: Handle) -> bool
        requires seat { desk < self.old.extent.actors }
        requires idle { pending self.old desk ≡ Idle }
        requires held { Has (held desk (handle_in_block self.old pointer.kind pointer.block pointer.place))
            (model_state self.old).hands }
        ensures exact { result ≡ (count (model_state self.old) (object_of_block self.old pointer.block) == 0) }
        ensures after { self.new ≡ ghost_after_step self.old desk
            (AtomicStep.Expired pointer.kind pointer.block pointer.place result) }
    {
        let Handle { kind, block, place } = pointer;
        let expired = self.words.get(block_word(block, OWNERS)) == 0;
        self.ghost_history = self.then(
            desk,
            AtomicStep::Expired {
                kind,
                block,
                place,
                expired,
            },
        );
        expired
    }

    /// The first look of a lock, which answers the owner word. Where that is 0 no owner is left: the lock is empty by
    /// this look.
    pub fn look_lock(&mut self, desk: usize, block: Block, place: Option<Place>) -> u64
        requires seat { desk < self.old.extent.actors }
        requires idle { pending self.old desk ≡ Idle }
        requires held { Has (held desk (weak_in self.old block place)) (model_state self.old).hands }
        ensures found { result ≡ slice_index self.old.words (spot block.0 0) }
        ensures left { (result == 0) ≡ (count (model_state self.old) (object_of_block self.old block) == 0) }
        ensures after { self.new ≡ cond (result == 0)
            (ghost_after_step self.old desk (AtomicStep.Lock block place false)) self.old }
    {
        let found = self.words.get(block_word(block, OWNERS));
        if found > 0 {
            return found;
        }
        self.ghost_history = self.then(
            desk,
            AtomicStep::Lock {
                block,
                place,
                got: false,
            },
        );
        found
    }

    /// Tries a lock by a `compare_exchange`: where the owner word is still the one that was found, which isn't 0, it
    /// goes up by one. Answers the word as it was.
    pub fn try_lock(&mut self, desk: usize, block: Block, place: Option<Place>, found: u64) -> u64
        requires seat { desk < self.old.extent.actors }
        requires idle { pending self.old desk ≡ Idle }
        requires held { Has (held desk (weak_in self.old block place)) (model_state self.old).hands }
        requires room { bag_size (model_state self.old) desk < (model_state self.old).allowance desk }
        requires some { 0 < found }
        ensures word { result ≡ slice_index self.old.words (spot block.0 0) }
        ensures left { (result == 0) ≡ (count (model_state self.old) (object_of_block self.old block) == 0) }
        ensures after { self.new ≡ cond (result == found)
            (ghost_after_step self.old desk (AtomicStep.Lock block place true)) self.old }
    {
        let now = self.words.get(block_word(block, OWNERS));
        if now != found {
            return now;
        }
        let ghost_history = self.then(
            desk,
            AtomicStep::Lock {
                block,
                place,
                got: true,
            },
        );
        self.words.set(block_word(block, OWNERS), now + 1);
        self.ghost_history = ghost_history;
        now
    }
}
