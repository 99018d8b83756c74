//! Handles as words of cells, and cells' words as values.
ghost use Rattle.std.specs.Prelude.{◌<◌, ◌≤◌, IfSome};
ghost use Rattle.control_word.specs.Limits.{most_blocks};
ghost use Rattle.control_word.specs.Packing.{IsBlock, IsCellWord, IsPlace};

use crate::same::same;
use control_word::packed::cell::{CellWord, ONE_TAKEN, pack};
use control_word::packed::handle_word::equal_words_are_equivalent;
use control_word::place::{Block, Place};
use control_word::{HandleWord, PackedCell};
use std::process::Abort;

fn numbered(block: u32) -> Option<Block>
    requires { (0 < block) × (block ≤ most_blocks) }
    ensures { IfSome result IsBlock }
{
    Some(Block::numbered(block))
}

fn at(block: u32, field: u8) -> Option<Place>
    requires block { (0 < block) × (block ≤ most_blocks) }
    requires field { field ≤ 3 }
    ensures { IfSome result IsPlace }
{
    Some(Place {
        block: Block::numbered(block),
        field,
    })
}

/// A handle has this word, says what it was made of, and is what a cell of this word holds, also where loads took of
/// its funds.
fn check_handle(rt: &impl Abort, block: Option<Block>, place: Option<Place>, word: u64)
    requires block { IfSome block IsBlock }
    requires place { IfSome place IsPlace }
{
    let handle = HandleWord::of(block, place);
    same(rt, (handle.bits(), handle.block()), (word, block));
    same(rt, handle.place(), place);
    same(rt, handle.is_empty(), word == 0);
    same(rt, handle.cell().bits(), word);
    let cell = CellWord {
        owned: block,
        place,
        taken: 5,
    };
    let cell = PackedCell::of_bits(pack(cell));
    same(rt, cell.bits(), word.wrapping_add(5 * ONE_TAKEN));
    same(rt, (cell.owned(), cell.taken()), (block, 5));
    same(rt, cell.place(), place);
    same(
        rt,
        (cell.handle() == handle, cell.holds(handle)),
        (true, true),
    );
}

#[test]
fn each_handle_has_its_word(rt: HostRuntime) {
    check_handle(&rt, None, None, 0);
    check_handle(&rt, None, at(1, 0), 65_536);
    check_handle(&rt, numbered(7), None, 7);
    check_handle(&rt, numbered(7), at(7, 2), 8_590_393_351);
    check_handle(&rt, numbered(65_535), at(65_535, 3), 17_179_869_183);
    check_handle(&rt, numbered(65_536), None, 4_503_599_627_370_496);
    check_handle(
        &rt,
        numbered(65_537),
        at(131_073, 1),
        580_964_356_225_826_817,
    );
    check_handle(
        &rt,
        numbered(4_000_000),
        at(4_000_000, 3),
        17_856_772_535_559_915_776,
    );
}

#[test]
fn handles_are_equal_where_both_parts_are(rt: HostRuntime) {
    let handle = HandleWord::of(numbered(7), at(7, 2));
    let elsewhere = handle.with_place(at(7, 1));
    let other = HandleWord::of(numbered(65_543), at(7, 2));
    same(&rt, (handle == elsewhere, handle == other), (false, false));
    same(&rt, elsewhere.with_place(at(7, 2)) == handle, true);
    same(&rt, handle.cell().holds(elsewhere), false);
    same(&rt, handle.cell().holds(other), false);
    let nothing = PackedCell::empty();
    same(
        &rt,
        (nothing.bits(), nothing.handle().is_empty()),
        (0, true),
    );
    equal_words_are_equivalent();
}
