//! What is drawn in the lanes of blocks: a piece for as long as a lane looks the same, and counts
//! where they change.

ghost use Rattle.std.specs.Prelude.{◌≡◌, ◌∷◌, ◌++◌, [], OnOk, codes, decimal, string_bytes};
ghost use Rattle.std.specs.List.{flat_map};
ghost use Rattle.run_picture.specs.Elements.{Shows};
ghost use Rattle.run_picture.specs.Shown.{change_words, counts_text};

use crate::lanes::{Lane, Lanes};
use crate::picture::Change;
use crate::sheet::{Point, at, put_dot, put_line, put_words};
use control_word::Counts;
use std::alloc::{AllocError, Global};
use std::fmt::Write;

/// How a lane is drawn: with owners, without, or not at all.
#[derive(Clone, Copy, PartialEq, Eq)]
enum Look {
    Owned,
    Watched,
    Vacant,
}

fn look_of(counts: Option<Counts>) -> Look {
    match counts {
        None => Look::Vacant,
        Some(Counts { owners: 0, .. }) => Look::Watched,
        Some(_) => Look::Owned,
    }
}

/// Adds the piece of a lane that ends at a place.
#[tactic(auto, using(crate::proofs::Showing::shows_none, crate::proofs::Showing::shows_after))]
pub(crate) fn put_piece(text: &mut String, lane: Lane, x: u32, y: u32) -> Result<(), AllocError>
    ensures { OnOk result (Shows (string_bytes text.old) (string_bytes text.new) []) }
{
    let from = at(x, lane.since);
    match look_of(lane.counts) {
        Look::Owned => put_line(text, "owned", from, at(x, y)),
        Look::Watched => put_line(text, "watched", from, at(x, y)),
        Look::Vacant => Ok(()),
    }
}

/// Adds two numbers, of owners and weak pointers.
fn put_numbers(text: &mut String, owners: u32, weaks: u32) -> Result<(), AllocError>
    ensures { OnOk result
        (string_bytes text.new ≡ string_bytes text.old
        ++ (decimal owners ++ codes " w" ++ decimal weaks)) }
{
    write!(text, "{owners} w{weaks}")?;
    Ok(())
}

/// Adds the owners and weak pointers of a block to a text.
pub(crate) fn put_counts_text(text: &mut String, counts: Option<Counts>) -> Result<(), AllocError>
    ensures { OnOk result (string_bytes text.new ≡ string_bytes text.old ++ counts_text counts) }
{
    match counts {
        None => text.push_str("0 w0")?,
        Some(Counts { owners, weaks }) => put_numbers(text, owners, weaks)?,
    }
    Ok(())
}

/// Adds the counts of a block, beside its lane.
#[tactic(auto, using(crate::proofs::Showing::shows_is))]
fn put_counts(
    alloc: Global,
    text: &mut String,
    counts: Option<Counts>,
    point: Point,
) -> Result<(), AllocError>
    ensures { OnOk result (Shows (string_bytes text.old) (string_bytes text.new)
        (counts_text counts ∷ [])) }
{
    let mut shown = String::new(alloc);
    put_counts_text(&mut shown, counts)?;
    put_words(text, "count", point, shown.as_bytes())?;
    Ok(())
}

/// Adds a mark where the last owner of what is in a lane left.
#[tactic(auto, using(crate::proofs::Showing::shows_none, crate::proofs::Showing::shows_after))]
fn put_mark(text: &mut String, lane: Lane, point: Point) -> Result<(), AllocError>
    ensures { OnOk result (Shows (string_bytes text.old) (string_bytes text.new) []) }
{
    if look_of(lane.counts) == Look::Owned {
        return put_dot(text, "out", point, 5);
    }
    Ok(())
}

/// Ends a piece of a lane, where it looks otherwise from here on.
#[tactic(auto, using(crate::proofs::Showing::shows_none, crate::proofs::Showing::shows_after))]
fn put_turn(text: &mut String, lane: Lane, after: Look, point: Point) -> Result<(), AllocError>
    ensures { OnOk result (Shows (string_bytes text.old) (string_bytes text.new) []) }
{
    if look_of(lane.counts) == after {
        return Ok(());
    }
    put_piece(text, lane, point.x, point.y)?;
    put_mark(text, lane, point)?;
    Ok(())
}

/// The lane from a place on, with these counts.
fn lane_on(lane: Lane, counts: Option<Counts>, y: u32) -> Lane {
    let stays = look_of(lane.counts) == look_of(counts);
    Lane {
        block: lane.block,
        counts,
        since: if stays { lane.since } else { y },
    }
}

/// Goes on in a lane with these counts.
#[tactic(auto, using(crate::proofs::Showing::shows_none, crate::proofs::Showing::shows_after))]
fn put_look(
    text: &mut String,
    lane: &mut Lane,
    counts: Option<Counts>,
    point: Point,
) -> Result<(), AllocError>
    ensures { OnOk result (Shows (string_bytes text.old) (string_bytes text.new) []) }
{
    put_turn(text, *lane, look_of(counts), point)?;
    *lane = lane_on(*lane, counts, point.y);
    Ok(())
}

/// Goes on in the lane of a block.
#[tactic(auto, using(crate::proofs::Showing::shows_none, crate::proofs::Showing::shows_after))]
fn put_lane(
    text: &mut String,
    lanes: &mut Lanes,
    change: Change,
    point: Point,
) -> Result<(), AllocError>
    ensures { OnOk result (Shows (string_bytes text.old) (string_bytes text.new) []) }
{
    if let Some(index) = lanes.index_of(change.block) {
        if index < lanes.blocks.len() {
            return put_look(text, &mut lanes.blocks[index], change.counts, point);
        }
    }
    Ok(())
}

/// Adds a change in the lane of its block.
fn put_change(
    alloc: Global,
    text: &mut String,
    lanes: &mut Lanes,
    change: Change,
    y: u32,
) -> Result<(), AllocError>
    ensures { OnOk result (Shows (string_bytes text.old) (string_bytes text.new)
        (change_words change)) }
{
    let x = lanes.block_place(change.block);
    let beside = at(x.saturating_add(7), y.saturating_add(4));
    put_counts(alloc, text, change.counts, beside)?;
    put_lane(text, lanes, change, at(x, y))?;
    Ok(())
}

/// Adds what a row changes in the lanes of blocks.
pub(crate) fn put_changes(
    alloc: Global,
    text: &mut String,
    lanes: &mut Lanes,
    changes: &[Change],
    y: u32,
) -> Result<(), AllocError>
    ensures { OnOk result (Shows (string_bytes text.old) (string_bytes text.new)
        (flat_map change_words changes.now)) }
{
    for change in changes {
        put_change(alloc, text, lanes, *change, y)?;
    }
    Ok(())
}
