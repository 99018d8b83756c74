//! Which blocks are vacant.
ghost use Rattle.std.specs.Prelude.{◌≡◌, ◌↔◌, IsTrue};
ghost use Rattle.control_block.specs.Census.{is_free, vacant_in, HasBlock, IsFree};

use crate::census::Census;
use control_word::Block;
use control_word::packed::layout::{SHELF_BITS, shelf_bit, shelf_word};

impl<V: Drop> Census<V> {
    /// Whether the domain had this block, and it is vacant (own).
    pub fn is_vacant(&self, block: Block) -> bool
        ensures { IsTrue result ↔ (HasBlock self.now block.0 × IsFree self.now block.0) }
    {
        self.has(block) && self.is_free(block)
    }

    /// How many blocks are vacant (own).
    pub fn vacant(&self) -> u32
        ensures { result ≡ vacant_in self.now }
    {
        let mut vacant = 0;
        for number in 0..self.shape.blocks {
            if self.is_free(Block::numbered(number + 1)) {
                vacant += 1;
            }
        }
        vacant
    }

    /// Whether the block is on the shelf. Its counts don't say it: a vacant block's weak word may have kept a 1, and
    /// that of an object which is gone and has one weak handle is 1 too.
    pub(crate) fn is_free(&self, block: Block) -> bool
        requires { HasBlock self.now block.0 }
        ensures { result ≡ is_free self.now block.0 }
    {
        let word = shelf_word(self.shape.blocks, self.frees(), block.number() / SHELF_BITS);
        self.closed.word(word) & shelf_bit(block) != 0
    }
}
