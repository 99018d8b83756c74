//! What is left of a domain once its sole desk closes it.
ghost use Rattle.std.specs.Prelude.{◌≡◌, ◌<◌, ◌≤◌, ◌↔◌, IsTrue};
ghost use Rattle.control_word.specs.Limits.{most_blocks};
ghost use Rattle.control_block.specs.Census.{owners_in, weaks_in, HasBlock};

mod all_holders;
mod each;
mod holders;
mod vacancy;

pub use crate::parting::close::close;
use crate::slot::Slot;
use atomic_table::Closed;
use control_word::packed::counts::unpack_count;
use control_word::packed::layout::{OWNERS, WEAKS, block_word};
use control_word::{Block, Counts, Shape};
pub use each::EachBlock;
pub use holders::Holders;
use std::alloc::Global;
use std::marker::Model;

/// The counts of each block. The values that are left are dropped with it.
pub struct Census<V: Drop> {
    pub(crate) closed: Closed<Slot<V>, Global>,
    pub(crate) shape: Shape,
}

impl<V: Drop> Model for Census<V> {
    ghost use Rattle.control_block.specs.Census.{CensusNow};
    ghost use Rattle.control_block.specs.Rule.{members_of};
    ghost use Rattle.control_word.specs.Layout.{table_size};
    ghost use Rattle.control_word.specs.Limits.{most_blocks, most_free_cells, most_members};
    ghost use Rattle.std.specs.Prelude.{◌+◌, ◌≤◌};
    ghost use Rattle.std.specs.Slots.{slots_items, slots_len, IsFull};

    ghost Value = { CensusNow };

    ghost view = { λ c. record {
      blocks = c.shape.blocks;
      members = members_of c.shape;
      owners = c.shape.owners;
      shared_cells = c.shape.shared_cells;
      weak_cells = c.shape.weak_cells;
      words = slots_items c.closed.words;
    } };

    ghost invariant = { λ c. IsFull c.closed.words × IsFull c.closed.slots
        × (table_size c.shape ≤ slots_len c.closed.words) × (c.shape.blocks ≤ most_blocks)
        × (members_of c.shape ≤ most_members) × (c.shape.shared_cells + c.shape.weak_cells ≤ most_free_cells) };
}

impl<V: Drop> Census<V> {
    /// How many blocks the domain had (own).
    pub fn blocks(&self) -> u32
        ensures is { result ≡ self.now.blocks }
        ensures few { result ≤ most_blocks }
    {
        self.shape.blocks
    }

    /// How many owners and weak handles the block's object has (own): none where the domain had no such block.
    pub fn counts(&self, block: Block) -> Counts
        ensures there { HasBlock self.now block.0 → (result.owners ≡ owners_in self.now block.0)
            × (result.weaks ≡ weaks_in self.now block.0) }
        ensures none { (HasBlock self.now block.0 → ⊥) → (result.owners ≡ 0) × (result.weaks ≡ 0) }
    {
        if self.has(block) {
            self.counts_in(block)
        } else {
            Counts {
                owners: 0,
                weaks: 0,
            }
        }
    }

    pub(crate) fn has(&self, block: Block) -> bool
        ensures { IsTrue result ↔ HasBlock self.now block.0 }
    {
        block.number() > 0 && block.number() <= self.shape.blocks
    }

    pub(crate) fn counts_in(&self, block: Block) -> Counts
        requires { HasBlock self.now block.0 }
        ensures { (result.owners ≡ owners_in self.now block.0) × (result.weaks ≡ weaks_in self.now block.0) }
    {
        let owners = unpack_count(self.closed.word(block_word(block, OWNERS))).number;
        if self.is_free(block) {
            return Counts { owners, weaks: 0 };
        }
        let number = unpack_count(self.closed.word(block_word(block, WEAKS))).number;
        let weaks = if owners == 0 {
            number
        } else {
            number.saturating_sub(1)
        };
        Counts { owners, weaks }
    }
}

impl<V: Drop> Drop for Census<V> {
    fn drop(self) {
        let Self {
            mut closed,
            shape: _,
        } = self;
        let mut i = 0;
        while i < closed.slot_count() {
            drop(closed.take(i));
            i += 1;
        }
        closed.free();
    }
}
