//! What a world tells of its state.
ghost use Rattle.std.specs.Prelude.{◌≡◌, ◌↔◌, ◌<◌, ◌≤◌, [], None, IfSome};
ghost use Rattle.control_word.specs.Packing.{number_of};
ghost use Rattle.control_word.specs.State.{IsVacant};
ghost use Rattle.step_table.specs.Cells.{IsCellInUse, target_of};
ghost use Rattle.step_table.specs.GhostStates.{TableInvariant, model_state};
ghost use Rattle.step_core.specs.Totals.{IsAtEnd, census_of, counts_in, ended_in, fields_of, made_in};

use crate::world::World;
use control_word::packed::counts::unpack_count;
use control_word::packed::layout::{FIELDS, OWNERS, WEAKS};
use control_word::{Block, Counts, Site};

impl World {
    /// How many owners and weak handles the object in a block has ([util.smartptr.shared.obs], and own); none where the
    /// block is vacant. The weak handle that its owners have in common is not counted. Conditions: each actor is at its
    /// end, and the block is one of the shape's, from 1.
    pub fn census(&self, block: Block) -> Option<Counts>
        requires end { IsAtEnd self.now }
        requires some { 0 < block.0 }
        requires within { block.0 ≤ self.now.ghost_state.extent.shape.blocks }
        ensures counts { result ≡ census_of (model_state self.now.ghost_state) block.0 }
        ensures vacant { result ≡ None ↔ IsVacant (model_state self.now.ghost_state) block.0 }
    {
        self.table.assert_invariant();
        counted(
            self.table.word(block, OWNERS),
            self.table.word(block, WEAKS),
        )
    }

    /// The fields of the object in a block (own); none where the block is vacant. Conditions: each actor is at its end,
    /// and the block is one of the shape's, from 1.
    pub fn fields(&self, block: Block) -> Option<[u64; 4]>
        requires end { IsAtEnd self.now }
        requires some { 0 < block.0 }
        requires within { block.0 ≤ self.now.ghost_state.extent.shape.blocks }
        ensures { result ≡ fields_of (model_state self.now.ghost_state) block.0 }
    {
        self.table.assert_invariant();
        if self.census(block).is_none() {
            return None;
        }
        Some([
            self.table.word(block, FIELDS),
            self.table.word(block, FIELDS + 1),
            self.table.word(block, FIELDS + 2),
            self.table.word(block, FIELDS + 3),
        ])
    }

    /// What holds where each actor is at its end (own): the words stand for the history, and no actor has a handle, so
    /// that each handle is in a cell.
    pub fn assert_invariant_at_end(&self)
        requires { IsAtEnd self.now }
        ensures kept { TableInvariant self.now.ghost_state }
        ensures hands { (model_state self.now.ghost_state).hands ≡ [] }
    {
        self.table.assert_invariant();
    }

    /// The block of the object that the handle in a cell is on; none where it is on none (own). Condition: the cell is
    /// free, or a member of what is in a block that isn't vacant.
    pub fn target(&self, cell: Site) -> Option<Block>
        requires { IsCellInUse self.now.ghost_state cell }
        ensures target { result ≡ target_of (model_state self.now.ghost_state) cell }
        ensures within { IfSome result (λ b. (0 < b.0) × (b.0 ≤ self.now.ghost_state.extent.shape.blocks)) }
    {
        self.table.assert_invariant();
        self.table.target(cell)
    }

    /// How many objects were made (own).
    pub fn made(&self) -> u32
        ensures { result ≡ made_in self.now.ghost_state.history }
    {
        self.made
    }

    /// Of how many objects the last owner left (own).
    pub fn ended(&self) -> u32
        ensures { result ≡ ended_in self.now.ghost_state.history }
    {
        self.ended
    }
}

/// What the words of a block's two counts say: none where it is vacant.
fn counted(owners: u64, weaks: u64) -> Option<Counts>
    ensures { result ≡ counts_in (number_of owners) (number_of weaks) }
{
    let owners = unpack_count(owners).number;
    let number = unpack_count(weaks).number;
    if number == 0 {
        return None;
    }
    let common = u32::from(owners > 0);
    Some(Counts {
        owners,
        weaks: number - common,
    })
}
