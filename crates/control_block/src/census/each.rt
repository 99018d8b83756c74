//! What a census tells of each block.
ghost use Rattle.std.specs.Prelude.{◌≡◌, map};
ghost use Rattle.std.specs.Iterator.{YieldsFirst, item_count};
ghost use Rattle.control_block.specs.EachBlock.{told_of};
ghost use Rattle.control_word.specs.Blocks.{blocks_from};

use crate::census::Census;
use control_word::{Block, Blocks, Counts};
use std::marker::Model;

/// The blocks of a census from the least on, each with its counts, seen as the list of what is left.
#[derive(Drop)]
pub struct EachBlock<'a, V: Drop> {
    census: &'a Census<V>,
    blocks: Blocks,
}

impl<'a, V: Drop> Model for EachBlock<'a, V> {
    ghost use Rattle.std.specs.Prelude.{All, List, map};
    ghost use Rattle.control_block.specs.Census.{HasBlock};
    ghost use Rattle.control_block.specs.EachBlock.{told_of};
    ghost use Rattle.control_word.specs.declared.packed.counts.Counts.{Counts};
    ghost use Rattle.control_word.specs.declared.place.Block.{Block};

    ghost Value = { List (Block × Counts) };

    ghost view = { λ it. map (told_of it.census.now) it.blocks };

    ghost invariant = { λ it. All (λ b. HasBlock it.census.now b.0) it.blocks };
}

impl<V: Drop> Census<V> {
    /// Each block of the domain from the least, with how many owners and weak handles its object has (own).
    pub fn each(&self) -> EachBlock<'_, V>
        ensures { result ≡ map (told_of self.now) (blocks_from 1 self.now.blocks) }
    {
        EachBlock {
            census: self,
            blocks: Block::all(&self.shape),
        }
    }
}

impl<'a, V: Drop> Iterator for EachBlock<'a, V> {
    type Item = (Block, Counts);

    ghost next_gives = { YieldsFirst (λ rest. rest) };

    ghost remaining = { item_count (λ rest. rest) };

    fn next(&mut self) -> Option<(Block, Counts)> {
        match self.blocks.next() {
            Some(block) => Some((block, self.census.counts(block))),
            None => None,
        }
    }
}
