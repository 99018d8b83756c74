//! The blocks of a shape, one after another.
ghost use Rattle.std.specs.Prelude.{◌≡◌, ◌≤◌, min};
ghost use Rattle.std.specs.Iterator.{YieldsFirst, item_count};
ghost use Rattle.control_word.specs.Blocks.{blocks_from};
ghost use Rattle.control_word.specs.Limits.{most_blocks};

use crate::place::Block;
use crate::shape::{MOST_BLOCKS, Shape};
use std::marker::Model;

/// Blocks from the least on, seen as the list of those that are left.
#[derive(Drop)]
pub struct Blocks {
    next: u32,
    left: u32,
}

impl Model for Blocks {
    ghost use Rattle.std.specs.Prelude.{◌+◌, ◌<◌, ◌≤◌, List};
    ghost use Rattle.control_word.specs.Blocks.{blocks_from};
    ghost use Rattle.control_word.specs.Limits.{most_blocks};
    ghost use Rattle.control_word.specs.declared.place.Block.{Block};

    ghost Value = { List Block };

    ghost view = { λ it. blocks_from it.next it.left };

    ghost invariant = { λ it. (0 < it.next) × (it.next + it.left ≤ most_blocks + 1) };
}

impl Block {
    /// All blocks of a shape, from the least (own). Of a shape with more than 4,000,000, which no domain has, it is the
    /// first 4,000,000.
    pub fn all(shape: &Shape) -> Blocks
        ensures all { result ≡ blocks_from 1 (min shape.now.blocks most_blocks) }
        ensures within { shape.now.blocks ≤ most_blocks → result ≡ blocks_from 1 shape.now.blocks }
    {
        Blocks {
            next: 1,
            left: shape.blocks.min(MOST_BLOCKS),
        }
    }
}

impl Iterator for Blocks {
    type Item = Block;

    ghost next_gives = { YieldsFirst (λ rest. rest) };

    ghost remaining = { item_count (λ rest. rest) };

    fn next(&mut self) -> Option<Block> {
        if self.left == 0 {
            return None;
        }
        let block = Block::numbered(self.next);
        self.next += 1;
        self.left -= 1;
        Some(block)
    }
}
