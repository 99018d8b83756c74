//! Funds: handles that are paid for ahead, on the count of an object's owners or of its weak handles. Each function is
//! one atomic step on one word.
ghost use Rattle.std.specs.Prelude.{◌≡◌, ◌<◌, ◌≤◌, Option, Some};
ghost use Rattle.control_word.specs.declared.place.Place.{Place};
ghost use Rattle.control_word.specs.declared.model.view.Pending.TheVariants.{Idle};
ghost use Rattle.control_word.specs.State.{Has, held};
ghost use Rattle.step_table.specs.CellAtomicSteps.{owing_funds};
ghost use Rattle.step_table.specs.GhostStates.{ghost_after_step, handle_in_block, pending, model_state};

use crate::cell_steps::cell_step::CellStep;
use crate::memory::ghost_history::AtomicStep;
use crate::memory::table::Table;
use control_word::Handle;
use control_word::model::handle::Kind;
use control_word::packed::counts::{with_fund_turned, with_funds, without_funds};
use control_word::packed::layout::count_word;
use control_word::place::Block;

impl Table {
    /// Brings up to 256 funds to the count of a handle in hand: for that handle, which goes into a cell, or for one
    /// like it that is there. They are out until they are in the cell or given back.
    pub fn bring(&mut self, desk: usize, pointer: Handle, funds: u32)
        requires seat { desk < self.old.extent.actors }
        requires idle { pending self.old desk ≡ Idle }
        requires held { Has (held desk (handle_in_block self.old pointer.kind pointer.block pointer.place))
            (model_state self.old).hands }
        requires few { funds ≤ 256 }
        ensures { self.new ≡ ghost_after_step self.old desk
            (AtomicStep.OnCell (CellStep.Bring pointer.kind pointer.block pointer.place funds)) }
    {
        let Handle { kind, block, place } = pointer;
        let found = self.words.get(count_word(block, kind));
        let atomic_step = CellStep::Bring {
            kind,
            block,
            place,
            funds,
        };
        let ghost_history = self.then(desk, AtomicStep::OnCell { atomic_step });
        self.words
            .set(count_word(block, kind), with_funds(found, funds));
        self.ghost_history = ghost_history;
    }

    /// Gives back the funds that are out, all of them: nothing is half done any more.
    pub fn give_back(&mut self, desk: usize, kind: Kind, block: Block, funds: u32)
        requires seat { desk < self.old.extent.actors }
        requires owes { (p : Option Place)
            × (pending self.old desk ≡ owing_funds (model_state self.old) kind (Some block) p funds 0) }
        ensures { self.new ≡ ghost_after_step self.old desk (AtomicStep.OnCell (CellStep.GiveBack kind block funds)) }
    {
        let found = self.words.get(count_word(block, kind));
        let atomic_step = CellStep::GiveBack { kind, block, funds };
        let ghost_history = self.then(desk, AtomicStep::OnCell { atomic_step });
        self.words
            .set(count_word(block, kind), without_funds(found, funds));
        self.ghost_history = ghost_history;
    }

    /// Turns the fund that a load took into a handle in the number: the load is over.
    pub fn turn_fund(&mut self, desk: usize, kind: Kind, block: Block)
        requires seat { desk < self.old.extent.actors }
        requires owes { (p : Option Place)
            × (pending self.old desk ≡ owing_funds (model_state self.old) kind (Some block) p 1 1) }
        ensures { self.new ≡ ghost_after_step self.old desk (AtomicStep.OnCell (CellStep.Turn kind block)) }
    {
        let found = self.words.get(count_word(block, kind));
        let atomic_step = CellStep::Turn { kind, block };
        let ghost_history = self.then(desk, AtomicStep::OnCell { atomic_step });
        self.words
            .set(count_word(block, kind), with_fund_turned(found));
        self.ghost_history = ghost_history;
    }
}
