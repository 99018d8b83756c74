//! The word of a cell: which handle it holds, and how many of the handle's funds were taken.
ghost use Rattle.std.specs.Prelude.{◌≡◌, ◌+◌, ◌*◌, ◌/◌, ◌%◌, ◌<◌, ◌≤◌, IfSome};
ghost use Rattle.control_word.specs.CellRows.{HighRows, LowRows};
ghost use Rattle.control_word.specs.Limits.{block_low, block_high, most_blocks};
ghost use Rattle.control_word.specs.Packing.{IsBlock, IsCellWord, IsPackedCell, IsPlace, PackingIsOneToOne};
ghost use Rattle.control_word.specs.Packing.{block_number, cell_bits, place_block, place_field};
ghost use Rattle.control_word.specs.Packing.{field_in, high_part, low_part, owned_in, place_block_in, taken_in};
ghost use Rattle.control_word.specs.Packing.{without_taken};
ghost use Rattle.control_word.specs.declared.packed.cell.CellWord.{CellWord};

use crate::place::{Block, Place};

/// Width of the low part of a block's number.
pub const BLOCK_LOW_BITS: u32 = 16;
/// Width of its high part.
pub const BLOCK_HIGH_BITS: u32 = 6;
/// Width of the place's field.
pub const FIELD_BITS: u32 = 2;
/// Width of the number of funds taken.
pub const TAKEN_BITS: u32 = 18;

/// Where the low part of the place's block begins. The owned block's begins at bit 0.
pub const PLACE_SHIFT: u32 = BLOCK_LOW_BITS;
/// Where the place's field begins.
pub const FIELD_SHIFT: u32 = PLACE_SHIFT + BLOCK_LOW_BITS;
/// Where the funds taken begin.
pub const TAKEN_SHIFT: u32 = FIELD_SHIFT + FIELD_BITS;
/// Where the high part of the owned block begins.
pub const OWNED_HIGH_SHIFT: u32 = TAKEN_SHIFT + TAKEN_BITS;
/// Where the high part of the place's block begins. Nothing lies above it.
pub const PLACE_HIGH_SHIFT: u32 = OWNED_HIGH_SHIFT + BLOCK_HIGH_BITS;

/// The bits of a low part, shifted down.
pub const BLOCK_LOW_MASK: u64 = (1 << BLOCK_LOW_BITS) - 1;
/// The bits of a high part, shifted down.
pub const BLOCK_HIGH_MASK: u64 = (1 << BLOCK_HIGH_BITS) - 1;
/// The bits of a field, shifted down.
pub const FIELD_MASK: u64 = (1 << FIELD_BITS) - 1;
/// The bits of the funds taken, shifted down.
pub const TAKEN_MASK: u64 = (1 << TAKEN_BITS) - 1;
/// One fund taken.
pub const ONE_TAKEN: u64 = 1 << TAKEN_SHIFT;

/// What a cell's word says (own).
///
/// | bits | part | value |
/// |---|---|---|
/// | 0 to 15 | owned block, low part | its number, or 0 for none: what 65,536 leaves of it |
/// | 16 to 31 | the place's block, low part | the same; 0 for a null place |
/// | 32, 33 | the place's field | 0 to 3, and 0 where the place is null |
/// | 34 to 51 | funds taken | 0 to 262,143; no step leaves more than 256 there |
/// | 52 to 57 | owned block, high part | how often 65,536 is in its number |
/// | 58 to 63 | the place's block, high part | the same |
///
/// So the word of a domain of at most 65,535 blocks has 0 in its 12 highest bits.
///
/// | owned | place | taken | the cell holds |
/// |---|---|---|---|
/// | none | null | 0 | an empty pointer: the whole word is 0 |
/// | none | set | 0 | an empty pointer that stores a place, as an alias of an empty one does |
/// | block | null | 0 to 256 | a handle on the block's object that stores the null pointer |
/// | block | set | 0 to 256 | a handle on the block's object; the place may be of another block |
///
/// A handle on an object went in with 256 funds on the object's count. `taken` tells how many of
/// these loads took since; at 256 none is left, and the next load waits. A handle on nothing has
/// no funds, so there `taken` stays 0.
#[derive(Clone, Copy, PartialEq, Eq, Debug, Drop)]
pub struct CellWord {
    /// Block of the object that the held handle owns.
    pub owned: Option<Block>,
    /// The pointer that it stores.
    pub place: Option<Place>,
    /// How many of its funds were taken, less than 262,144.
    pub taken: u32,
}

/// A block's number, 0 where there is none.
#[inline]
fn number_of(block: Option<Block>) -> u64
    requires { IfSome block IsBlock }
    ensures number { result ≡ block_number block }
    ensures fits { result ≤ most_blocks }
{
    match block {
        None => 0,
        Some(block) => u64::from(block.number()),
    }
}

/// A place's field, 0 where the place is null.
#[inline]
fn field_of(place: Option<Place>) -> u64
    requires { IfSome place IsPlace }
    ensures field { result ≡ place_field place }
    ensures fits { result < 4 }
{
    match place {
        None => 0,
        Some(place) => u64::from(place.field),
    }
}

/// The number of a place's block, 0 where the place is null.
#[inline]
fn place_number(place: Option<Place>) -> u64
    requires { IfSome place IsPlace }
    ensures number { result ≡ place_block place }
    ensures fits { result ≤ most_blocks }
{
    match place {
        None => 0,
        Some(place) => u64::from(place.block.number()),
    }
}

/// The low part of a block's number.
#[inline]
fn low(number: u64) -> u64
    ensures part { result ≡ low_part number }
    ensures fits { result < block_low }
{
    number & BLOCK_LOW_MASK
}

/// Its high part.
#[inline]
fn high(number: u64) -> u64
    requires { number ≤ most_blocks }
    ensures part { result ≡ high_part number }
    ensures fits { result < block_high }
{
    number >> BLOCK_LOW_BITS
}

/// The word of a cell (own). Condition: block numbers are from 1 on, the field is at most 3 and the
/// funds taken are less than 262,144.
#[inline]
pub fn pack(word: CellWord) -> u64
    requires { IsCellWord word }
    ensures { result ≡ cell_bits word }
{
    let owned = number_of(word.owned);
    let block = place_number(word.place);
    low(owned)
        | low(block) << PLACE_SHIFT
        | field_of(word.place) << FIELD_SHIFT
        | u64::from(word.taken) << TAKEN_SHIFT
        | high(owned) << OWNED_HIGH_SHIFT
        | high(block) << PLACE_HIGH_SHIFT
}

/// The number of the owned block in a cell's word (own), 0 where there is none.
#[inline]
pub fn owned_number(word: u64) -> u64
    ensures number { result ≡ owned_in word }
    ensures fits { result < 4194304 }
{
    word & BLOCK_LOW_MASK | (word >> OWNED_HIGH_SHIFT & BLOCK_HIGH_MASK) << BLOCK_LOW_BITS
}

/// The number of the place's block in a cell's word, 0 where the place is null.
#[inline]
fn place_block_number(word: u64) -> u64
    ensures number { result ≡ place_block_in word }
    ensures fits { result < 4194304 }
{
    word >> PLACE_SHIFT & BLOCK_LOW_MASK | word >> PLACE_HIGH_SHIFT << BLOCK_LOW_BITS
}

/// How many funds were taken, in a cell's word (own).
#[inline]
pub fn taken_number(word: u64) -> u32
    ensures { result ≡ taken_in word }
{
    (word >> TAKEN_SHIFT & TAKEN_MASK) as u32
}

/// A cell's word with no fund taken (own): two words that are equal but for their funds hold the
/// same block and place.
#[inline]
pub fn with_none_taken(word: u64) -> u64
    ensures { result ≡ without_taken word }
{
    word - (word & (TAKEN_MASK << TAKEN_SHIFT))
}

/// What `number_of` was given.
#[inline]
fn block_of(number: u64) -> Option<Block>
    requires { number ≤ most_blocks }
    ensures valid { IfSome result IsBlock }
    ensures number { block_number result ≡ number }
{
    if number == 0 {
        None
    } else {
        Some(Block::numbered(number as u32))
    }
}

/// The place in a cell's word.
#[inline]
fn place_of(number: u64, field: u8) -> Option<Place>
    requires fits { (number ≤ most_blocks) × (field < 4) }
    requires null { number ≡ 0 → field ≡ 0 }
    ensures valid { IfSome result IsPlace }
    ensures block { place_block result ≡ number }
    ensures field { place_field result ≡ field }
{
    block_of(number).map(|block| Place { block, field })
}

/// What a cell's word says (own): the very cell that `pack` was given. Condition: it is the word of
/// some cell, as every word of a cell in a table is.
#[inline]
pub fn unpack(word: u64) -> CellWord
    requires { IsPackedCell word }
    ensures valid { IsCellWord result }
    ensures bits { cell_bits result ≡ word }
    ensures packed { (cell : CellWord) → IsCellWord cell → word ≡ cell_bits cell → result ≡ cell }
{
    let field = (word >> FIELD_SHIFT & FIELD_MASK) as u8;
    CellWord {
        owned: block_of(owned_number(word)),
        place: place_of(place_block_number(word), field),
        taken: taken_number(word),
    }
}

/// Of the layout (own): two cells with the same word are the same.
pub fn packing_is_one_to_one()
    ensures { PackingIsOneToOne }
{}

/// Of the layout (own): cells have these words, with few blocks and with many.
pub fn cells_have_their_words()
    ensures low { LowRows }
    ensures high { HighRows }
{}
