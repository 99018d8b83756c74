//! How the members of an ending object are cleared. Each function is one atomic step on one word.
ghost use Rattle.std.specs.Prelude.{◌≡◌, ◌<◌, ◌+◌, ◌==◌, ◌↔◌, cond, slice_index};
ghost use Rattle.control_word.specs.declared.model.view.Pending.TheVariants.{Idle};
ghost use Rattle.control_word.specs.Handles.{empty};
ghost use Rattle.control_word.specs.Layout.{spot};
ghost use Rattle.control_word.specs.State.{bag_size, ending, kind_of_member};
ghost use Rattle.step_table.specs.Cells.{ShowsCell};
ghost use Rattle.step_table.specs.GhostStates.{ghost_after_step, object_of_block, pending, model_state};

use crate::cell_steps::cell_step::CellStep;
use crate::memory::ghost_history::AtomicStep;
use crate::memory::table::Table;
use control_word::packed::cell::unpack;
use control_word::packed::layout::{MEMBERS, block_word};
use control_word::place::Block;
use control_word::{CellWord, Site};

impl Table {
    /// Looks at a member of an ending object, and answers its word. Where that is 0 the member is empty, and cleared by
    /// this look.
    pub fn look_member(&mut self, desk: usize, block: Block, member: u8) -> u64
        requires seat { desk < self.old.extent.actors }
        requires idle { pending self.old desk ≡ Idle }
        requires ending { ((model_state self.old).object (object_of_block self.old block)).phase ≡ ending desk }
        requires inside { member < 3 }
        ensures found { result ≡ slice_index self.old.words (spot block.0 (7 + member)) }
        ensures empty { (result ≡ 0)
            ↔ (((model_state self.old).object (object_of_block self.old block)).member member ≡ empty
            (kind_of_member 2 member)) }
        ensures after { self.new ≡ cond (result == 0)
            (ghost_after_step self.old desk (AtomicStep.Clear block member)) self.old }
    {
        let found = self
            .words
            .get(block_word(block, MEMBERS + usize::from(member)));
        if found > 0 {
            return found;
        }
        self.ghost_history = self.then(desk, AtomicStep::Clear { block, member });
        found
    }

    /// What a member of an ending object holds, and how many of its funds were taken.
    fn shown_member(&self, desk: usize, block: Block, member: u8) -> CellWord
        requires seat { desk < self.now.extent.actors }
        requires ending { ((model_state self.now).object (object_of_block self.now block)).phase ≡ ending desk }
        requires inside { member < 3 }
        ensures { ShowsCell self.now (Site.Member block member) result }
    {
        unpack(
            self.words
                .get(block_word(block, MEMBERS + usize::from(member))),
        )
    }

    /// Takes out what a member of an ending object holds: the member is swapped for nothing. The funds of what came out
    /// that were not taken are out then, to be given back.
    pub fn take_out(&mut self, desk: usize, block: Block, member: u8) -> CellWord
        requires seat { desk < self.old.extent.actors }
        requires idle { pending self.old desk ≡ Idle }
        requires ending { ((model_state self.old).object (object_of_block self.old block)).phase ≡ ending desk }
        requires inside { member < 3 }
        requires room { bag_size (model_state self.old) desk < (model_state self.old).allowance desk }
        ensures found { ShowsCell self.old (Site.Member block member) result }
        ensures after { self.new ≡ ghost_after_step self.old desk
            (AtomicStep.OnCell (CellStep.TakeOut block member result)) }
    {
        let found = self.shown_member(desk, block, member);
        let atomic_step = CellStep::TakeOut {
            block,
            member,
            found,
        };
        let ghost_history = self.then(desk, AtomicStep::OnCell { atomic_step });
        self.words
            .set(block_word(block, MEMBERS + usize::from(member)), 0);
        self.ghost_history = ghost_history;
        found
    }
}
