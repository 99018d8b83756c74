//! The shelf: vacant blocks that desks have to spare, for any desk that has none.
ghost use Rattle.std.specs.Prelude.{◌≡◌, ℕ, ◌+◌, ◌/◌, ◌<◌, ◌≤◌, cond, false, length, min};
ghost use Rattle.control_word.specs.State.{on_shelf};
ghost use Rattle.control_block.specs.Desks.{Belongs, state_of, stock_of};
ghost use Rattle.control_block.specs.Own.{IsSole};
ghost use Rattle.control_block.specs.Shelf.{Shelved, Unshelved, shelved_of};
ghost use Rattle.control_block.specs.ShelfStepKinds.{HasBlocks, IsShelfWord, shelf_at};
ghost use Rattle.control_word.specs.Layout.{shelf_words};
ghost use Rattle.control_word.specs.Limits.{most_blocks};

mod summary;

use crate::desk::Desk;
use crate::domain::Domain;
use crate::steps::shelf;
use control_word::Block;
use control_word::packed::layout::{SHELF_BITS, shelf_bit, shelf_length, shelf_word};
use std::marker::Brand;

impl<V: Drop> Domain<V> {
    /// How many words of the shelf have a block's bit.
    pub(crate) fn shelf_words(&self) -> u32
        ensures { result ≡ shelf_words self.now.shape.blocks }
    {
        shelf_length(self.shape.blocks)
    }

    /// Where a word of the shelf lies.
    fn shelf_place(&self, word: u32) -> usize
        ensures { result ≡ shelf_at self.now.shape word }
    {
        let cells = self.shape.shared_cells + self.shape.weak_cells;
        shelf_word(self.shape.blocks, cells, word)
    }
}

impl<V: Drop> Desk<V> {
    /// Up to `count` vacant blocks of the desk go to the shelf, where any desk of the domain may take them (own). It
    /// says how many: the lesser of `count` and `stock`. It waits for nobody and takes no memory. Condition: the desk
    /// is the domain's.
    pub fn shelve(&mut self, domain: &Domain<V>, count: u32) -> u32
        requires domain { Belongs self.old domain.now }
        ensures count { result ≡ min count (length (stock_of self.old)) }
        ensures shelved { Shelved result self.old self.new }
    {
        let most = count.min(self.stock());
        let mut shelved = 0;
        while shelved < most {
            let word = self.last_word();
            self.shelve_last(domain);
            self.note_word(domain, word);
            shelved += 1;
        }
        shelved
    }

    /// The word of the shelf that the store's last block has its bit in.
    fn last_word(&self) -> u32 {
        match self.store.last() {
            Some(block) => block.number() / SHELF_BITS,
            None => 0,
        }
    }

    /// Up to `count` blocks of the shelf come to the desk's store (own). It says how many: a sole desk gets the lesser
    /// of `count` and how many there are. It looks where the shelf's summary tells of blocks, first where it found one
    /// last. Where these are too few it goes over each word of the shelf once. It waits for nobody, and takes no
    /// memory. Condition: the desk is the domain's.
    pub fn unshelve(&mut self, domain: &Domain<V>, count: u32) -> u32
        requires domain { Belongs self.old domain.now }
        ensures most { result ≤ count }
        ensures unshelved { Unshelved result self.old self.new }
        ensures same { result ≡ 0 → self.new ≡ self.old }
        ensures sole { IsSole self.old → result ≡ min count (shelved_of self.old) }
    {
        let taken = self.unshelve_told(domain, count);
        taken + self.unshelve_any(domain, count - taken)
    }

    /// The same by each word of the shelf.
    fn unshelve_any(&mut self, domain: &Domain<V>, count: u32) -> u32
        requires domain { Belongs self.old domain.now }
        ensures most { result ≤ count }
        ensures unshelved { Unshelved result self.old self.new }
        ensures same { result ≡ 0 → self.new ≡ self.old }
        ensures sole { IsSole self.old → result ≡ min count (shelved_of self.old) }
    {
        let words = domain.shelf_words();
        let first = self.shelf_word % words;
        let taken = self.unshelve_among(domain, first, words, count);
        taken + self.unshelve_among(domain, 0, first, count - taken)
    }

    /// The same of the words from one on, below another.
    fn unshelve_among(&mut self, domain: &Domain<V>, from: u32, to: u32, count: u32) -> u32
        requires domain { Belongs self.old domain.now }
        requires words { to ≤ shelf_words domain.now.shape.blocks }
        ensures most { result ≤ count }
        ensures unshelved { Unshelved result self.old self.new }
        ensures same { result ≡ 0 → self.new ≡ self.old }
        ensures cleared { IsSole self.old → result < count
            → (b : ℕ) → from ≤ b / 64 → b / 64 < to → on_shelf (state_of self.new) b ≡ 0 }
    {
        let mut taken = 0;
        for word in from..to {
            if taken == count {
                return taken;
            }
            taken += self.unshelve_from(domain, word, count - taken);
        }
        taken
    }

    /// The same of one word: one look at it, and one step for each block that the look told.
    pub(crate) fn unshelve_from(&mut self, domain: &Domain<V>, word: u32, count: u32) -> u32
        requires domain { Belongs self.old domain.now }
        requires word { word < shelf_words domain.now.shape.blocks }
        ensures most { result ≤ count }
        ensures unshelved { Unshelved result self.old self.new }
        ensures same { result ≡ 0 → self.new ≡ self.old }
        ensures cleared { IsSole self.old → result < count
            → (b : ℕ) → b / 64 ≡ word → on_shelf (state_of self.new) b ≡ 0 }
    {
        let mut bits = self.look_on_shelf(domain, word);
        let mut taken = 0;
        while bits != 0 {
            if taken == count {
                return taken;
            }
            let block = Block::numbered(64 * word + bits.trailing_zeros());
            bits &= !shelf_bit(block);
            taken += u32::from(self.unshelve_block(domain, block));
        }
        taken
    }

    /// The block that the store has last goes to the shelf. Condition: there is one.
    fn shelve_last(&mut self, domain: &Domain<V>)
        requires domain { Belongs self.old domain.now }
        requires stock { 0 < length (stock_of self.old) }
        ensures shelved { Shelved 1 self.old self.new }
    {
        let Some(block) = self.store.pop() else {
            unreachable!()
        };
        let place = domain.shelf_place(block.number() / SHELF_BITS);
        let table = &domain.table.shared;
        shelf::shelve::<V, Brand>(table, &mut self.seat, place, block);
    }

    /// A word of the shelf.
    pub(crate) fn look_on_shelf(&mut self, domain: &Domain<V>, word: u32) -> u64
        requires domain { Belongs self.old domain.now }
        requires word { word < shelf_words domain.now.shape.blocks }
        ensures told { IsSole self.old → IsShelfWord word result (state_of self.old) }
        ensures inside { HasBlocks domain.now.shape.blocks word result }
        ensures few { domain.now.shape.blocks ≤ most_blocks }
        ensures same { self.new ≡ self.old }
    {
        let place = domain.shelf_place(word);
        shelf::look::<V, Brand>(&domain.table.shared, &mut self.seat, place)
    }

    /// A block comes from the shelf to the store, if it is there still. It says whether it was.
    fn unshelve_block(&mut self, domain: &Domain<V>, block: Block) -> bool
        requires domain { Belongs self.old domain.now }
        requires block { block.0 ≤ domain.now.shape.blocks }
        ensures unshelved { Unshelved (cond result 1 0) self.old self.new }
        ensures same { result ≡ false → self.new ≡ self.old }
        ensures off { IsSole self.old → on_shelf (state_of self.new) block.0 ≡ 0 }
    {
        let word = block.number() / SHELF_BITS;
        let place = domain.shelf_place(word);
        let table = &domain.table.shared;
        if !shelf::unshelve::<V, Brand>(table, &mut self.seat, place, block) {
            return false;
        }
        self.store.push_reserved(block);
        self.shelf_word = word;
        true
    }
}
