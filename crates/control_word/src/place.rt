//! What a pointer points at.

use crate::shape::MOST_BLOCKS;

/// A control block's number, 1 to 4,000,000 (own). Where a word names no block it has 0.
#[derive(Clone, Copy, PartialEq, Eq, Debug, Drop)]
pub struct Block(u32);

impl Block {
    ghost use Rattle.std.specs.Prelude.{◌≡◌, ◌<◌, ◌≤◌, IfSome, IfNone};
    ghost use Rattle.control_word.specs.Limits.{most_blocks};
    ghost use Rattle.control_word.specs.Packing.{IsBlock};

    /// The block of this number (own); none where no domain has it, as 0 is none's.
    pub fn new(number: u32) -> Option<Block>
        ensures some { IfSome result (λ block. IsBlock block × (block.0 ≡ number)) }
        ensures none { IfNone result (0 < number → most_blocks < number) }
    {
        if number > 0 && number <= MOST_BLOCKS {
            Some(Block(number))
        } else {
            None
        }
    }

    /// The block of a number that is known to be a block's (own).
    #[inline]
    pub fn numbered(number: u32) -> Block
        requires { (0 < number) × (number ≤ most_blocks) }
        ensures { result.0 ≡ number }
    {
        Block(number)
    }

    /// Its number, from 1 on (own).
    #[inline]
    pub fn number(self) -> u32
        ensures { result ≡ self.0 }
    {
        self.0
    }
}

/// A field of an object, named by the object's block: what a pointer stores (own). Field 0 is the
/// object itself. The place of an ended object is a plain number, and may equal a later object's.
#[derive(Clone, Copy, PartialEq, Eq, Debug, Drop)]
pub struct Place {
    pub block: Block,
    /// 0 to 3.
    pub field: u8,
}
