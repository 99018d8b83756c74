//! Rows of the layout, and the limits.
use crate::same::same;
use control_word::model::handle::Kind;
use control_word::packed::layout::{
    DOOR, ENABLED, FIELDS, FLAGS, MEMBERS, NULL, OWNERS, WEAKS, block_word, cell_word, table_words,
    words_lie_apart,
};
use control_word::place::Block;
use control_word::shape::{self, Shape};

#[test]
fn words_lie_where_the_layout_says(rt: HostRuntime) {
    let first = Block::numbered(1);
    let of_blocks = [
        block_word(first, OWNERS),
        block_word(first, MEMBERS + 2),
        block_word(Block::numbered(2), WEAKS),
        block_word(Block::numbered(65_535), MEMBERS + 2),
        block_word(Block::numbered(4_000_000), MEMBERS + 8),
    ];
    let shape = Shape {
        blocks: 4,
        owners: 2,
        weaks: 1,
        shared_cells: 1,
        weak_cells: 2,
        allowance: 8,
    };
    let of_cells = [cell_word(65_535, 0), cell_word(4, 0), cell_word(4, 2)];
    let all = table_words(&shape);
    words_lie_apart();
    // 16 for each block, 8 for each cell, a word of the shelf and one of its summary
    same(
        &rt,
        (of_blocks, of_cells, all),
        (
            [0, 9, 17, 1_048_553, 63_999_999],
            [1_048_560, 64, 80],
            88 + 2,
        ),
    );
    let words = [OWNERS, WEAKS, FLAGS, FIELDS, MEMBERS];
    same(
        &rt,
        (words, [ENABLED, NULL, DOOR]),
        ([0, 1, 2, 3, 7], [1, 2, 4]),
    );
}

/// Blocks, free cells of both kinds and allowance of a shape, and whether it is within the limits.
const SHAPES: [(u32, u32, u32, u32, bool); 13] = [
    (1, 0, 0, 1, true),
    (4_000_000, 65_536, 0, 4_194_304, true),
    (4_000_000, 0, 65_536, 4_194_304, true),
    (4, 32_768, 32_768, 8, true),
    (0, 0, 0, 1, false),
    (4_000_001, 0, 0, 1, false),
    (1, 65_537, 0, 1, false),
    (1, 0, 65_537, 1, false),
    (1, 32_768, 32_769, 1, false),
    (1, u32::MAX, 1, 1, false),
    (1, u32::MAX, u32::MAX, 1, false),
    (1, 0, 0, 0, false),
    (1, 0, 0, 4_194_305, false),
];

#[test]
fn a_shape_has_limits(rt: HostRuntime) {
    for (blocks, shared_cells, weak_cells, allowance, within) in SHAPES {
        let shape = Shape {
            blocks,
            owners: 2,
            weaks: 1,
            shared_cells,
            weak_cells,
            allowance,
        };
        same(&rt, (shape, shape.is_within_limits()), (shape, within));
    }
}

/// Owner and weak members of an object, and whether a shape may have them.
const MEMBERS_OF_SHAPES: [(u32, u32, bool); 10] = [
    (2, 1, true),
    (8, 1, true),
    (2, 7, true),
    (5, 4, true),
    (1, 1, false),
    (0, 1, false),
    (2, 0, false),
    (8, 2, false),
    (u32::MAX, 1, false),
    (u32::MAX, u32::MAX, false),
];

#[test]
fn a_shape_has_so_many_members(rt: HostRuntime) {
    for (owners, weaks, within) in MEMBERS_OF_SHAPES {
        let shape = Shape {
            blocks: 1,
            owners,
            weaks,
            shared_cells: 0,
            weak_cells: 0,
            allowance: 1,
        };
        same(&rt, (shape, shape.is_within_limits()), (shape, within));
    }
}

/// Blocks, owner and weak members, free cells and allowance of a shape, and whether the funds of all handles that may
/// be on one block fit its count.
const FULL_SHAPES: [(u32, u32, u32, u32, u32, bool); 8] = [
    (2_097_151, 8, 1, 5, 1, true),
    (2_097_151, 8, 1, 6, 1, false),
    (2_097_152, 8, 1, 0, 1, false),
    (2_396_744, 2, 7, 5, 1, true),
    (2_396_744, 2, 7, 6, 1, false),
    (1_040_384, 8, 1, 65_535, 4_194_304, true),
    (1_040_384, 8, 1, 65_536, 4_194_304, false),
    (4_000_000, 3, 1, 0, 2_388_608, false),
];

#[test]
fn the_funds_of_all_handles_fit(rt: HostRuntime) {
    for (blocks, owners, weaks, shared_cells, allowance, within) in FULL_SHAPES {
        let shape = Shape {
            blocks,
            owners,
            weaks,
            shared_cells,
            weak_cells: 0,
            allowance,
        };
        same(&rt, (shape, shape.is_within_limits()), (shape, within));
    }
}

/// Owner members, a member, and the kind of its handles.
const KINDS: [(u32, u8, Kind); 12] = [
    (2, 0, Kind::Owner),
    (2, 1, Kind::Owner),
    (2, 2, Kind::Weak),
    (2, 3, Kind::Weak),
    (2, 8, Kind::Weak),
    (3, 3, Kind::Owner),
    (3, 4, Kind::Weak),
    (8, 0, Kind::Owner),
    (8, 2, Kind::Weak),
    (8, 3, Kind::Owner),
    (8, 8, Kind::Owner),
    (7, 8, Kind::Weak),
];

#[test]
fn a_member_has_its_kind(rt: HostRuntime) {
    for (owners, member, kind) in KINDS {
        let shape = Shape {
            blocks: 1,
            owners,
            weaks: 1,
            shared_cells: 0,
            weak_cells: 0,
            allowance: 1,
        };
        let told = shape.kind_of_member(member);
        same(&rt, (owners, member, told), (owners, member, kind));
    }
}

#[test]
fn limits_have_their_numbers(rt: HostRuntime) {
    let of_domains = [
        shape::MOST_BLOCKS,
        shape::MOST_MEMBERS,
        shape::MOST_FREE_CELLS,
        shape::MOST_ALLOWANCE,
        shape::MOST_NUMBER,
        shape::CELL_FUNDS,
    ];
    same(
        &rt,
        of_domains,
        [4_000_000, 9, 65_536, 4_194_304, 16_777_215, 256],
    );
}
