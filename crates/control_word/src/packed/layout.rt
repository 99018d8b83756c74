//! Where words lie in a table: block after block, then the free cells, then the shelf and its summary.
//!
//! | word of a block | holds |
//! |---|---|
//! | 0 | `OWNERS`: number and funds of the owners |
//! | 1 | `WEAKS`: the same of the weak handles, with 1 more while the object is live or ending |
//! | 2 | `FLAGS` |
//! | 3 to 6 | `FIELDS`: fields 0 to 3 |
//! | 7 to 15 | `MEMBERS`: the cells `first`, `next` and `up`, and further owners |
//!
//! A vacant block has 0 in its counts and members; its flags and fields may be anything. Bit
//! `b % 64` of shelf word `b / 64` is 1 while block `b` is on the shelf. Bit `j % 64` of summary
//! word `j / 64` is shelf word `j`'s.
ghost use Rattle.std.specs.Prelude.{◌≡◌, ◌<◌};
ghost use Rattle.control_word.specs.Layout.{IsSite, WordsLieApart, bit_of, cell_place, shelf_place};
ghost use Rattle.control_word.specs.Layout.{shelf_words, site_place, spot, summary_place, summary_words, table_size};
ghost use Rattle.control_word.specs.Words.{slot};

use crate::model::handle::Kind;
use crate::place::Block;
use crate::shape::Shape;
use crate::site::Site;

/// Words from a block to the next: seven, and up to nine members, so that a count never shares a
/// cache line with another block.
pub const BLOCK_STRIDE: usize = 16;
/// Words from a free cell to the next: one used and seven that stay 0, for the same reason.
pub const CELL_STRIDE: usize = 8;
/// Bits of a word of the shelf or of its summary.
pub const SHELF_BITS: u32 = 64;
/// Words of a block that are used.
pub const BLOCK_WORDS: usize = 16;

/// Word of a block: the owners, as a `Count`.
pub const OWNERS: usize = 0;
/// Word of a block: the weak handles, as a `Count`.
pub const WEAKS: usize = 1;
/// Word of a block: the flags.
///
/// | bit | flag | is set |
/// |---|---|---|
/// | 0 | `ENABLED` | where the object gives pointers to itself ([util.smartptr.enab]) |
/// | 1 | `NULL` | where the owned pointer is null, and all fields are 0 |
/// | 2 | `DOOR` | while a visit of the object's value is under way, and others wait |
/// | 3 to 63 | | never |
pub const FLAGS: usize = 2;
/// First of four words of a block: the object's fields.
pub const FIELDS: usize = 3;
/// First of nine words of a block: the object's member cells, each as a `CellWord`.
pub const MEMBERS: usize = 7;

/// Flag: the object has the from-this flag.
pub const ENABLED: u64 = 1;
/// Flag: the owned pointer is null.
pub const NULL: u64 = 2;
/// Flag: the door of `visit` is shut.
pub const DOOR: u64 = 4;

/// Where a word of a block lies (own). Conditions: blocks are from 1 on, words below the stride.
#[inline]
pub fn block_word(block: Block, word: usize) -> usize
    requires block { 0 < block.0 }
    requires word { word < 16 }
    ensures { result ≡ spot block.0 word }
{
    BLOCK_STRIDE * (block.number() as usize - 1) + word
}

/// Where handles of this kind on the block's object are counted (own). Condition: blocks are from 1 on.
#[inline]
pub fn count_word(block: Block, kind: Kind) -> usize
    requires { 0 < block.0 }
    ensures { result ≡ spot block.0 (slot kind) }
{
    match kind {
        Kind::Owner => block_word(block, OWNERS),
        Kind::Weak => block_word(block, WEAKS),
    }
}

/// Where a free cell lies (own), by its number from 0, in a table of so many blocks.
#[inline]
pub fn cell_word(blocks: u32, cell: u32) -> usize
    ensures { result ≡ cell_place blocks cell }
{
    BLOCK_STRIDE * blocks as usize + CELL_STRIDE * cell as usize
}

/// Where a cell's word lies (own), in a table of so many blocks. Conditions: a member's block is from 1 on, its number
/// below 9.
#[inline]
pub fn site_word(blocks: u32, site: Site) -> usize
    requires { IsSite site }
    ensures { result ≡ site_place blocks site }
{
    match site {
        Site::Free { number } => cell_word(blocks, number),
        Site::Member { block, member } => block_word(block, MEMBERS + usize::from(member)),
    }
}

/// Where a shelf word lies (own), by its number from 0, in a table of so many blocks and free
/// cells.
#[inline]
pub fn shelf_word(blocks: u32, cells: u32, word: u32) -> usize
    ensures { result ≡ shelf_place blocks cells word }
{
    BLOCK_STRIDE * blocks as usize + CELL_STRIDE * cells as usize + word as usize
}

/// A block's bit in its shelf word (own), which is the word of the number `block / 64`.
#[inline]
pub fn shelf_bit(block: Block) -> u64
    ensures { result ≡ bit_of block.0 }
{
    1 << (block.number() % 64)
}

/// How many words the shelf of so many blocks has (own): a bit for each number up to the last block's.
#[inline]
pub fn shelf_length(blocks: u32) -> u32
    ensures { result ≡ shelf_words blocks }
{
    blocks / SHELF_BITS + 1
}

/// How many words its summary has (own): a bit for each word of the shelf.
#[inline]
pub fn summary_length(blocks: u32) -> u32
    ensures { result ≡ summary_words blocks }
{
    blocks / SHELF_BITS / SHELF_BITS + 1
}

/// Where a summary word lies (own), by its number from 0.
#[inline]
pub fn summary_word(blocks: u32, cells: u32, word: u32) -> usize
    ensures { result ≡ summary_place blocks cells word }
{
    shelf_word(blocks, cells, 0) + shelf_length(blocks) as usize + word as usize
}

/// How many words a table of this shape has (own).
pub fn table_words(shape: &Shape) -> usize
    ensures { result ≡ table_size shape.now }
{
    let cells = shape.shared_cells as usize + shape.weak_cells as usize;
    let shelf = shelf_length(shape.blocks) as usize + summary_length(shape.blocks) as usize;
    BLOCK_STRIDE * shape.blocks as usize + CELL_STRIDE * cells + shelf
}

/// Of the layout (own): no two words lie at one place, and each lies within its table.
pub fn words_lie_apart()
    ensures { WordsLieApart }
{}
