//! What stands above and below the rows: titles, the rest of the lanes, and what is left at the
//! end.

ghost use Rattle.std.specs.Prelude.{OnOk, Some, string_bytes};
ghost use Rattle.std.specs.List.{flat_map};
ghost use Rattle.run_picture.specs.Elements.{Shows};
ghost use Rattle.run_picture.specs.Shown.{cell_words, lane_words, left_block_words};
ghost use Rattle.run_picture.specs.Shown.{left_words, thread_titles};

use crate::changes::put_piece;
use crate::lanes::{Lane, Lanes};
use crate::page::{Page, column_of};
use crate::picture::{Left, LeftBlock};
use crate::sheet::{
    BOX_WIDTH, LEFT, Point, TOP, at, put_box, put_left, put_line, put_title, put_words,
};
use std::alloc::{AllocError, Global};

/// Where titles stand.
const TITLES: u32 = TOP - 30;

/// Adds the titles of threads.
pub(crate) fn put_threads(
    alloc: Global,
    text: &mut String,
    columns: &[u32],
    threads: u8,
) -> Result<(), AllocError>
    ensures { OnOk result (Shows (string_bytes text.old) (string_bytes text.new)
        (thread_titles threads)) }
{
    for index in 0..threads {
        let point = at(column_of(columns, usize::from(index)), TITLES);
        put_title(alloc, text, "thread ", u32::from(index) + 1, point)?;
    }
    Ok(())
}

/// Adds the title of a free cell, of which so many are shared.
fn put_cell_title(
    alloc: Global,
    text: &mut String,
    cell: u32,
    shared: u32,
    point: Point,
) -> Result<(), AllocError>
    ensures { OnOk result (Shows (string_bytes text.old) (string_bytes text.new)
        (cell_words shared cell)) }
{
    if cell < shared {
        put_title(alloc, text, "s", cell, point)
    } else {
        put_title(alloc, text, "w", cell - shared, point)
    }
}

/// Adds the lane of a free cell down to a point, with its title. So many free cells are shared.
fn put_cell(
    alloc: Global,
    text: &mut String,
    cell: u32,
    shared: u32,
    bottom: Point,
) -> Result<(), AllocError>
    ensures { OnOk result (Shows (string_bytes text.old) (string_bytes text.new)
        (cell_words shared cell)) }
{
    put_cell_title(alloc, text, cell, shared, at(bottom.x, TITLES))?;
    put_line(text, "cell", at(bottom.x, TITLES + 8), bottom)?;
    Ok(())
}

/// Adds the lanes of free cells, of which so many are shared, with their titles.
pub(crate) fn put_cells(
    alloc: Global,
    text: &mut String,
    lanes: &Lanes,
    shared: u32,
    bottom: u32,
) -> Result<(), AllocError>
    ensures { OnOk result (Shows (string_bytes text.old) (string_bytes text.new)
        (flat_map (cell_words shared) lanes.now.cells.items)) }
{
    for index in 0..lanes.cells.len() {
        let x = lanes.cell_lane(index);
        put_cell(alloc, text, lanes.cells[index], shared, at(x, bottom))?;
    }
    Ok(())
}

/// Adds the title of a block's lane, and the piece of it that goes on down to a point.
fn put_block(alloc: Global, text: &mut String, lane: Lane, bottom: Point) -> Result<(), AllocError>
    ensures { OnOk result (Shows (string_bytes text.old) (string_bytes text.new)
        (lane_words lane)) }
{
    put_title(alloc, text, "block ", lane.block, at(bottom.x, TITLES))?;
    put_piece(text, lane, bottom.x, bottom.y)?;
    Ok(())
}

/// Adds the titles of the lanes of blocks, and the pieces of them that go on to the bottom.
pub(crate) fn put_blocks(
    alloc: Global,
    text: &mut String,
    lanes: &Lanes,
    bottom: u32,
) -> Result<(), AllocError>
    ensures { OnOk result (Shows (string_bytes text.old) (string_bytes text.new)
        (flat_map lane_words lanes.now.blocks.items)) }
{
    for index in 0..lanes.blocks.len() {
        let x = lanes.block_lane(index);
        put_block(alloc, text, lanes.blocks[index], at(x, bottom))?;
    }
    Ok(())
}

/// Adds a block that is left at the end, in its color.
fn put_left_block(
    alloc: Global,
    text: &mut String,
    lanes: &Lanes,
    left: &LeftBlock,
    y: u32,
) -> Result<(), AllocError>
    ensures { OnOk result (Shows (string_bytes text.old) (string_bytes text.new)
        (left_block_words left.now)) }
{
    let x = lanes.block_place(left.block);
    put_box(text, left.color, at(x.saturating_sub(BOX_WIDTH / 2), y))?;
    put_left(alloc, text, left.block, at(x, y.saturating_add(14)))?;
    Ok(())
}

/// Adds the blocks that are left at the end.
fn put_left_blocks(
    alloc: Global,
    text: &mut String,
    lanes: &Lanes,
    blocks: &[LeftBlock],
    y: u32,
) -> Result<(), AllocError>
    ensures { OnOk result (Shows (string_bytes text.old) (string_bytes text.new)
        (flat_map left_block_words blocks.now)) }
{
    for block in blocks {
        put_left_block(alloc, text, lanes, block, y)?;
    }
    Ok(())
}

/// Adds what is left at the end, and the last line.
pub(crate) fn put_end(
    alloc: Global,
    text: &mut String,
    page: &Page,
    left: &Left,
    y: u32,
) -> Result<(), AllocError>
    ensures { OnOk result (Shows (string_bytes text.old) (string_bytes text.new)
        (left_words (Some left.now))) }
{
    put_left_blocks(alloc, text, &page.lanes, left.blocks.as_slice(), y)?;
    let point = at(LEFT, y.saturating_add(14));
    put_words(text, "totals", point, left.totals.as_bytes())?;
    Ok(())
}
