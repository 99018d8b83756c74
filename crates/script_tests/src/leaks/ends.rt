//! What is found at a script's end: who holds what, and in which color each block is drawn.
use crate::same::same;
use leak_report::{colors, holdings};
use owner_graph::Holding;
use script_stepper::{End, end_of};
use std::alloc::{AllocError, Global};
use std::test::Fail;

/// A circle of two, an object that a free cell holds, and one that the circle owns.
const SCRIPT: &[u8] =
    b"make a\nmake b\nstore a.first b\nstore b.next a\nmake c\nstore s3 c\nmake d\nstore b.first d\n";

/// The blocks that are left, with their colors.
fn drawn(alloc: Global, end: &End) -> Result<Vec<(u16, &'static str)>, AllocError> {
    let mut blocks = Vec::new(alloc);
    for colored in colors(alloc, end)? {
        blocks.push((colored.block, colored.color))?;
    }
    Ok(blocks)
}

const COLORS: [(u16, &str); 4] = [(1, "orange"), (2, "orange"), (3, "white"), (4, "lightgrey")];

#[test]
fn each_block_has_its_color(rt: HostRuntime) -> Result<(), Fail> {
    let end = end_of(rt.alloc(), SCRIPT, b"")?;
    same(&rt, drawn(rt.alloc(), &end)?.as_slice(), COLORS.as_slice());
    Ok(())
}

/// Where an owner is, and on which block.
fn place_of(held: &Holding) -> (u32, u32, u32, bool) {
    (held.from, held.slot, held.to, held.is_owner)
}

/// The free cell comes first, and then the members by block.
const HELD: [(u32, u32, u32, bool); 4] = [
    (0, 3, 3, true),
    (1, 0, 2, true),
    (2, 0, 4, true),
    (2, 1, 1, true),
];

#[test]
fn each_cell_tells_what_it_holds(rt: HostRuntime) -> Result<(), Fail> {
    let end = end_of(rt.alloc(), SCRIPT, b"")?;
    let held = holdings(rt.alloc(), &end.world, 128, 256, end.blocks)?;
    same(&rt, held.len(), HELD.len());
    for (held, wanted) in held.iter().zip(HELD) {
        same(&rt, place_of(held), wanted);
    }
    Ok(())
}
