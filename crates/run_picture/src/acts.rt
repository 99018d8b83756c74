//! The rows of a picture: an act each, with what it said, its cell, and the counts that it changed.

ghost use Rattle.std.specs.Prelude.{◌≡◌, ◌∷◌, [], OnOk, decimal, string_bytes};
ghost use Rattle.std.specs.List.{flat_map};
ghost use Rattle.run_picture.specs.Elements.{Shows};
ghost use Rattle.run_picture.specs.Shown.{line_words, row_words, touch_words};

use crate::changes::put_changes;
use crate::page::{Page, column_of};
use crate::picture::{Row, Touch};
use crate::sheet::{
    LEFT, LINE, Point, TOP, at, put_dot, put_head, put_line, put_number, put_words, width_of,
};
use std::alloc::{AllocError, Global};

/// Adds lines below a point. Answers where the last stands.
fn put_lines(text: &mut String, lines: &[String], point: Point) -> Result<u32, AllocError>
    ensures { OnOk result (Shows (string_bytes text.old) (string_bytes text.new)
        (flat_map line_words lines.now)) }
{
    let Point { x, mut y } = point;
    for line in lines {
        y = y.saturating_add(LINE);
        put_words(text, "line", at(x, y), line.as_bytes())?;
    }
    Ok(y)
}

/// Adds the arrow of an act to the lane of the cell that it writes, or from there.
#[tactic(auto, using(crate::proofs::Showing::shows_none, crate::proofs::Showing::shows_after))]
fn put_shaft(
    alloc: Global,
    text: &mut String,
    touch: &Touch,
    from: Point,
    lane: u32,
) -> Result<(), AllocError>
    ensures { OnOk result (Shows (string_bytes text.old) (string_bytes text.new) []) }
{
    let end = at(lane.saturating_sub(3), from.y);
    if touch.writes {
        put_line(text, "write", from, end)?;
        put_head(alloc, text, true, end)?;
    } else {
        put_line(text, "read", from, end)?;
        put_head(alloc, text, false, from)?;
    }
    Ok(())
}

/// Adds the arrow of an act on a cell, and what is said of it.
fn put_touch(
    alloc: Global,
    text: &mut String,
    touch: &Touch,
    from: Point,
    lane: u32,
) -> Result<(), AllocError>
    ensures { OnOk result
        (Shows (string_bytes text.old) (string_bytes text.new)
        (string_bytes touch.now.shown ∷ [])) }
{
    put_shaft(alloc, text, touch, from, lane)?;
    let end = at(lane.saturating_sub(10), from.y.saturating_sub(5));
    put_words(text, "held", end, touch.shown.as_bytes())?;
    Ok(())
}

/// Adds the arrow of an act, if it is one on a cell.
#[tactic(auto, using(crate::proofs::Showing::shows_none))]
fn put_arrow(
    alloc: Global,
    page: &Page,
    text: &mut String,
    row: &Row,
    point: Point,
) -> Result<(), AllocError>
    ensures { OnOk result
        (Shows (string_bytes text.old) (string_bytes text.new) (touch_words row.now.touch)) }
{
    match &row.touch {
        Some(touch) => put_touch(alloc, text, touch, point, page.lanes.place_of(touch.cell)),
        None => Ok(()),
    }
}

/// Adds the number of an act, its statement, and what it did. Answers where that ends.
fn put_act(alloc: Global, text: &mut String, row: &Row, point: Point) -> Result<u32, AllocError>
    ensures { OnOk result (Shows (string_bytes text.old) (string_bytes text.new)
        (decimal row.now.number ∷ string_bytes row.now.statement ∷ row.now.word.now ∷ [])) }
{
    let Point { x, y } = point;
    let base = y.saturating_add(4);
    put_number(alloc, text, row.number, at(LEFT - 14, base))?;
    put_dot(text, "act", point, 3)?;
    let begin = x.saturating_add(10);
    put_words(text, "statement", at(begin, base), row.statement.as_bytes())?;
    let behind = begin
        .saturating_add(width_of(row.statement.len()))
        .saturating_add(8);
    put_words(text, "word", at(behind, base), row.word.as_bytes())?;
    Ok(behind.saturating_add(width_of(row.word.len())))
}

/// Adds a row. Answers where the next begins.
fn put_row(
    alloc: Global,
    page: &mut Page,
    text: &mut String,
    row: &Row,
    y: u32,
) -> Result<u32, AllocError>
    ensures { OnOk result (Shows (string_bytes text.old) (string_bytes text.new)
        (row_words row.now)) }
{
    let index = usize::from(row.thread.saturating_sub(1));
    let x = column_of(page.columns.as_slice(), index).saturating_add(6);
    let behind = put_act(alloc, text, row, at(x, y))?;
    put_arrow(alloc, page, text, row, at(behind.saturating_add(4), y))?;
    let below = put_lines(
        text,
        row.lines.as_slice(),
        at(x.saturating_add(10), y.saturating_add(4)),
    )?;
    put_changes(alloc, text, &mut page.lanes, row.changes.as_slice(), y)?;
    Ok(below.saturating_add(LINE + 6))
}

/// Adds rows, in order. Answers where they end.
pub(crate) fn put_rows(
    alloc: Global,
    page: &mut Page,
    text: &mut String,
    rows: &[Row],
) -> Result<u32, AllocError>
    ensures { OnOk result (Shows (string_bytes text.old) (string_bytes text.new)
        (flat_map row_words rows.now)) }
{
    let mut y = TOP;
    for row in rows {
        y = put_row(alloc, page, text, row, y)?;
    }
    Ok(y)
}
