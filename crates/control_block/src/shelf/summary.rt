//! The shelf's summary: where a desk looks first. A word's bit is set once a block is there, and cleared by who finds
//! the word empty, and looks at it once more then. So where no desk is shelving, each word with a block has its bit.
ghost use Rattle.std.specs.Prelude.{◌≡◌, ◌+◌, ◌<◌, ◌≤◌};
ghost use Rattle.control_block.specs.Desks.{Belongs};
ghost use Rattle.control_block.specs.Shelf.{Unshelved};
ghost use Rattle.control_block.specs.SummaryStepKinds.{summary_at};
ghost use Rattle.control_word.specs.Layout.{shelf_words, summary_words};
ghost use Rattle.control_word.specs.Limits.{most_blocks};

use crate::desk::Desk;
use crate::domain::Domain;
use crate::steps::summary;
use control_word::packed::layout::{SHELF_BITS, summary_length, summary_word};

impl<V: Drop> Domain<V> {
    /// How many words the summary has.
    fn summary_words(&self) -> u32
        ensures is { result ≡ summary_words self.now.shape.blocks }
        ensures some { 0 < result }
        ensures few { result ≤ 1048577 }
    {
        summary_length(self.shape.blocks)
    }

    /// Where a word of the summary lies.
    fn summary_place(&self, row: u32) -> usize
        ensures { result ≡ summary_at self.now.shape row }
    {
        let cells = self.shape.shared_cells + self.shape.weak_cells;
        summary_word(self.shape.blocks, cells, row)
    }
}

impl<V: Drop> Desk<V> {
    /// Up to `count` blocks come to the store, from where the summary tells of some. It says how many.
    pub(crate) fn unshelve_told(&mut self, domain: &Domain<V>, count: u32) -> u32
        requires domain { Belongs self.old domain.now }
        ensures most { result ≤ count }
        ensures unshelved { Unshelved result self.old self.new }
        ensures same { result ≡ 0 → self.new ≡ self.old }
    {
        let rows = domain.summary_words();
        let first = self.shelf_word / SHELF_BITS % rows;
        let mut taken = 0;
        for step in 0..rows {
            if taken == count {
                return taken;
            }
            taken += self.unshelve_by(domain, (first + step) % rows, count - taken);
        }
        taken
    }

    /// The same by one word of the summary.
    fn unshelve_by(&mut self, domain: &Domain<V>, row: u32, count: u32) -> u32
        requires domain { Belongs self.old domain.now }
        requires row { row < summary_words domain.now.shape.blocks }
        ensures most { result ≤ count }
        ensures unshelved { Unshelved result self.old self.new }
        ensures same { result ≡ 0 → self.new ≡ self.old }
    {
        let bits = self.look_at_summary(domain, row);
        if bits == 0 {
            return 0;
        }
        let first = self.shelf_word % SHELF_BITS;
        let mut taken = 0;
        for step in 0..SHELF_BITS {
            if taken == count {
                return taken;
            }
            let word = SHELF_BITS * row + (first + step) % SHELF_BITS;
            taken += self.unshelve_bit(domain, bits, word, count - taken);
        }
        taken
    }

    /// The same by one bit of it, a word's of the shelf, if it is set. Where the word has no block any more, the bit is
    /// cleared.
    fn unshelve_bit(&mut self, domain: &Domain<V>, bits: u64, word: u32, count: u32) -> u32
        requires domain { Belongs self.old domain.now }
        ensures most { result ≤ count }
        ensures unshelved { Unshelved result self.old self.new }
        ensures same { result ≡ 0 → self.new ≡ self.old }
    {
        let bit = bits & (1 << (word % SHELF_BITS));
        if bit == 0 {
            return 0;
        }
        if word >= domain.shelf_words() {
            return 0;
        }
        let taken = self.unshelve_from(domain, word, count);
        if taken < count {
            self.forget_word(domain, word);
        }
        taken
    }

    /// A word was found empty: its bit is cleared, and set again where it isn't empty after that.
    fn forget_word(&mut self, domain: &Domain<V>, word: u32)
        requires domain { Belongs self.old domain.now }
        requires word { word < shelf_words domain.now.shape.blocks }
        ensures same { self.new ≡ self.old }
    {
        self.clear_word(domain, word);
        if self.look_on_shelf(domain, word) != 0 {
            self.note_word(domain, word);
        }
    }

    /// A word got a block: its bit of the summary is set, where it isn't yet.
    pub(crate) fn note_word(&mut self, domain: &Domain<V>, word: u32)
        requires domain { Belongs self.old domain.now }
        ensures same { self.new ≡ self.old }
    {
        if word >= domain.shelf_words() {
            return;
        }
        let bit = 1 << (word % SHELF_BITS);
        if self.look_at_summary(domain, word / SHELF_BITS) & bit == 0 {
            self.set_word(domain, word);
        }
    }

    /// A word of the summary.
    fn look_at_summary(&mut self, domain: &Domain<V>, row: u32) -> u64
        requires domain { Belongs self.old domain.now }
        requires row { row < summary_words domain.now.shape.blocks }
        ensures few { domain.now.shape.blocks ≤ most_blocks }
        ensures same { self.new ≡ self.old }
    {
        let place = domain.summary_place(row);
        summary::look(&domain.table.shared, &mut self.seat, place)
    }

    /// The bit of a word of the shelf is set.
    fn set_word(&mut self, domain: &Domain<V>, word: u32)
        requires domain { Belongs self.old domain.now }
        requires word { word < shelf_words domain.now.shape.blocks }
        ensures same { self.new ≡ self.old }
    {
        let place = domain.summary_place(word / SHELF_BITS);
        summary::set(
            &domain.table.shared,
            &mut self.seat,
            place,
            1 << (word % SHELF_BITS),
        );
    }

    /// The bit of a word of the shelf is cleared.
    fn clear_word(&mut self, domain: &Domain<V>, word: u32)
        requires domain { Belongs self.old domain.now }
        requires word { word < shelf_words domain.now.shape.blocks }
        ensures same { self.new ≡ self.old }
    {
        let place = domain.summary_place(word / SHELF_BITS);
        summary::clear(
            &domain.table.shared,
            &mut self.seat,
            place,
            1 << (word % SHELF_BITS),
        );
    }
}
