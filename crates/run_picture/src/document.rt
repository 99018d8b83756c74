//! The whole picture.

ghost use Rattle.std.specs.Prelude.{ℕ, ◌++◌, List, [], IfOk, OnOk, string_bytes};
ghost use Rattle.std.specs.List.{flat_map};
ghost use Rattle.run_picture.specs.Elements.{Shows};
ghost use Rattle.run_picture.specs.Shown.{ShowsPicture, cell_words, lane_words, left_words, top_words};

use crate::acts::put_rows;
use crate::element::{put_group, put_label};
use crate::ends::{put_blocks, put_cells, put_end, put_threads};
use crate::page::{Page, page_of};
use crate::picture::{Left, Picture};
use crate::sheet::{LEFT, LINE, at, number, put_words, word};
use std::alloc::{AllocError, Global};
use std::fmt::Write;

/// How wide a picture is at least, so that its legend has room.
const LEAST_WIDTH: u32 = 640;

/// What the parts of a picture are.
const COUNTS_LEGEND: &[u8] =
    b"2 w1: two owners and one weak pointer. Red dot: the value comes out.";

const LANES_LEGEND: &[u8] = b"Green lane: owned. Dashed lane: only weak pointers keep the block.";

const ARROWS_LEGEND: &[u8] =
    b"Orange arrow to a cell's lane: written, with the block. Dashed, from it: read.";

const BOXES_LEGEND: &[u8] = b"Box at the end: white is kept, orange in a leaked knot, grey leaked.";

/// How things look, on a light page and on a dark one.
const STYLE: &[u8] = b"
svg { color: #1b1b1b; font: 12px monospace; }
@media (prefers-color-scheme: dark) { svg { color: #e6e6e6; } }
text { fill: currentColor; }
.title, .lane, .statement { font-weight: bold; }
.number, .word, .legend, .held { opacity: 0.7; }
.number, .held { text-anchor: end; }
.held { font-size: 11px; }
.lane, .left { text-anchor: middle; }
.line, .totals { fill: #1f77d0; }
.left { fill: #000; }
.act { fill: currentColor; }
.out { fill: #d62728; }
.owned { stroke: #2a9d4a; stroke-width: 4; }
.watched { stroke: #8a8a8a; stroke-width: 2; stroke-dasharray: 3 3; }
.cell { stroke: currentColor; stroke-opacity: 0.4; }
.write, .read { stroke: #c06a00; }
.read { stroke-dasharray: 5 3; }
.head { fill: #c06a00; }
.box { stroke: #000; }
";

/// A body's size.
#[derive(Clone, Copy)]
struct Size {
    width: u32,
    height: u32,
}

/// Adds how things look, and what they mean.
fn put_legends(text: &mut String) -> Result<(), AllocError>
    ensures { OnOk result (Shows (string_bytes text.old) (string_bytes text.new) (top_words 0)) }
{
    put_label(text, "style", &[], STYLE)?;
    put_words(text, "legend", at(LEFT, 20), COUNTS_LEGEND)?;
    put_words(text, "legend", at(LEFT, 36), LANES_LEGEND)?;
    put_words(text, "legend", at(LEFT, 52), ARROWS_LEGEND)?;
    put_words(text, "legend", at(LEFT, 68), BOXES_LEGEND)?;
    Ok(())
}

/// Adds what stands above the rows.
fn put_top(alloc: Global, page: &Page, threads: u8, text: &mut String) -> Result<(), AllocError>
    ensures { OnOk result (Shows (string_bytes text.old) (string_bytes text.new)
        (top_words threads)) }
{
    put_legends(text)?;
    put_threads(alloc, text, page.columns.as_slice(), threads)?;
    Ok(())
}

/// Adds what is left at the end, if that is known.
#[tactic(auto, using(crate::proofs::Showing::shows_none))]
fn put_left(
    alloc: Global,
    page: &Page,
    left: &Option<Left>,
    bottom: u32,
    text: &mut String,
) -> Result<(), AllocError>
    ensures { OnOk result (Shows (string_bytes text.old) (string_bytes text.new)
        (left_words left.now)) }
{
    match left {
        Some(left) => put_end(alloc, text, page, left, bottom),
        None => Ok(()),
    }
}

/// Adds the lanes, and what stands below the rows.
fn put_bottom(
    alloc: Global,
    page: &Page,
    picture: &Picture,
    bottom: u32,
    text: &mut String,
) -> Result<(), AllocError>
    ensures { OnOk result (Shows (string_bytes text.old) (string_bytes text.new)
        (flat_map (cell_words picture.now.shared_cells) page.now.lanes.cells.items
        ++ (flat_map lane_words page.now.lanes.blocks.items
        ++ left_words picture.now.left))) }
{
    put_cells(alloc, text, &page.lanes, picture.shared_cells, bottom)?;
    put_blocks(alloc, text, &page.lanes, bottom)?;
    put_left(alloc, page, &picture.left, bottom, text)?;
    Ok(())
}

/// Adds the rows, and all that stands around them. Answers how large it is.
fn put_body(
    alloc: Global,
    page: &mut Page,
    picture: &Picture,
    text: &mut String,
) -> Result<Size, AllocError>
    ensures { OnOk result (ShowsPicture picture.now (string_bytes text.old)
        (string_bytes text.new)) }
{
    put_top(alloc, page, picture.threads, text)?;
    let bottom = put_rows(alloc, page, text, picture.rows.as_slice())?;
    put_bottom(alloc, page, picture, bottom, text)?;
    Ok(Size {
        width: page.lanes.right().max(LEAST_WIDTH),
        height: bottom.saturating_add(2 * LINE),
    })
}

/// The whole text.
fn document_of(alloc: Global, body: &str, size: Size) -> Result<String, AllocError>
    ensures { IfOk result (λ text. (shown : List (List ℕ)) → Shows [] body.now shown
        → Shows [] (string_bytes text) shown) }
{
    let Size { width, height } = size;
    let mut view = String::new(alloc);
    write!(view, "0 0 {width} {height}")?;
    let attributes = [
        word("xmlns", "http://www.w3.org/2000/svg"),
        number("width", width),
        number("height", height),
        word("viewBox", view.as_str()),
    ];
    let mut text = String::new(alloc);
    put_group(&mut text, "svg", &attributes, body)?;
    Ok(text)
}

/// A picture as the text of one SVG (own): elements, each closed where it was opened. On them the
/// words of each row are read just once, in their order, between what stands above and below them,
/// and nothing else is. Where things stand is not told. Refused where a growth was.
#[tactic(auto, using(crate::proofs::Showing::picture_within))]
pub fn draw(alloc: Global, picture: &Picture) -> Result<String, AllocError>
    ensures { IfOk result (λ text. ShowsPicture picture.now [] (string_bytes text)) }
{
    let mut page = page_of(alloc, picture)?;
    let mut body = String::new(alloc);
    let size = put_body(alloc, &mut page, picture, &mut body)?;
    document_of(alloc, body.as_str(), size)
}
