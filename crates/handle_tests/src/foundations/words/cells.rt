//! Rows of the cells' words, and each part at its limits.
ghost use Rattle.std.specs.Prelude.{◌<◌, ◌≤◌, IfSome};
ghost use Rattle.control_word.specs.Limits.{most_blocks, taken_limit};
ghost use Rattle.control_word.specs.Packing.{IsCellWord, IsPlace};

use crate::same::same;
use control_word::packed::cell::{
    CellWord, ONE_TAKEN, cells_have_their_words, pack, packing_is_one_to_one, unpack,
};
use control_word::place::{Block, Place};
use std::process::Abort;

fn at(block: u32, field: u8) -> Option<Place>
    requires block { (0 < block) × (block ≤ most_blocks) }
    requires field { field ≤ 3 }
    ensures { IfSome result IsPlace }
{
    Some(Place {
        block: Block::numbered(block),
        field,
    })
}

fn owning(block: u32, place: Option<Place>, taken: u32) -> CellWord
    requires block { (0 < block) × (block ≤ most_blocks) }
    requires place { IfSome place IsPlace }
    requires taken { taken < taken_limit }
    ensures { IsCellWord result }
{
    CellWord {
        owned: Some(Block::numbered(block)),
        place,
        taken,
    }
}

fn owning_none(place: Option<Place>) -> CellWord
    requires { IfSome place IsPlace }
    ensures { IsCellWord result }
{
    CellWord {
        owned: None,
        place,
        taken: 0,
    }
}

/// This cell has this word, and comes back from it.
fn check_cell(rt: &impl Abort, cell: CellWord, word: u64)
    requires { IsCellWord cell }
{
    let packed = pack(cell);
    same(rt, (packed, unpack(packed)), (word, cell));
}

#[test]
fn each_cell_has_its_word(rt: HostRuntime) {
    check_cell(&rt, owning_none(None), 0);
    check_cell(&rt, owning_none(at(1, 0)), 65_536);
    check_cell(&rt, owning(7, at(7, 2), 0), 8_590_393_351);
    check_cell(&rt, owning(7, at(7, 2), 1), 25_770_262_535);
    check_cell(&rt, owning(7, at(7, 2), 256), 4_406_636_904_455);
    check_cell(&rt, owning(65_535, at(65_535, 3), 0), 17_179_869_183);
    cells_have_their_words();
}

/// A block's number from 65,536 on lies in two parts of the word.
#[test]
fn cells_of_many_blocks_have_their_words(rt: HostRuntime) {
    check_cell(&rt, owning(65_536, None, 0), 4_503_599_627_370_496);
    check_cell(&rt, owning(65_537, None, 1), 4_503_616_807_239_681);
    check_cell(&rt, owning_none(at(65_537, 3)), 288_230_389_036_679_168);
    let last = at(4_000_000, 3);
    check_cell(&rt, owning(4_000_000, last, 0), 17_856_772_535_559_915_776);
    check_cell(
        &rt,
        owning(4_000_000, last, 256),
        17_856_776_933_606_426_880,
    );
}

#[test]
fn each_part_of_a_cell_comes_back_at_its_limits(rt: HostRuntime) {
    check_cell(&rt, owning(1, None, 0), 1);
    check_cell(&rt, owning(65_535, None, 0), 65_535);
    check_cell(&rt, owning_none(at(65_535, 0)), 4_294_901_760);
    check_cell(&rt, owning_none(at(1, 3)), 12_884_967_424);
    check_cell(&rt, owning(1, None, 1), 1 + ONE_TAKEN);
    check_cell(&rt, owning(1, None, 256), 1 + 256 * ONE_TAKEN);
    check_cell(&rt, owning(65_535, at(65_535, 3), 256), 4_415_226_380_287);
    check_cell(&rt, owning(1, None, 262_143), 4_503_582_447_501_313);
    let word = 17_861_276_118_007_417_088;
    check_cell(&rt, owning(4_000_000, at(4_000_000, 3), 262_143), word);
    packing_is_one_to_one();
}
