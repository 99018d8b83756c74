//! The lines of knots.

ghost use Rattle.std.specs.Prelude.{◌≡◌, ℕ, [], ◌∷◌, ◌++◌, map, IfOk, OnOk, ◌==◌, string_bytes};
ghost use Rattle.std.specs.Prelude.{codes};
ghost use Rattle.owner_text.specs.Prelude.{AddsLines, at, flat_map, held_in, held_on, homes};
ghost use Rattle.owner_text.specs.Prelude.{row_at};
ghost use Rattle.owner_text.specs.Drafts.{draft_of};
ghost use Rattle.owner_text.specs.Lines.{cut_lines, knot_lines, knot_text, lines_to, member_text};
ghost use Rattle.owner_text.specs.Lines.{tie_text, tied_lines, vertices_of, weaken_text};

use crate::draft::Draft;
use crate::labels::Labels;
use crate::lines::{put_end, put_tie, put_weakening};
use owner_graph::{Findings, Holding, LabelPair};
use std::alloc::{AllocError, Global};
use std::fmt::Write;

/// Adds an object of a knot, after a space.
fn put_member(text: &mut String, member: Holding) -> Result<(), AllocError>
    ensures { OnOk result (string_bytes text.new ≡ string_bytes text.old ++ member_text member) }
{
    let number = member.from;
    write!(text, " {number}")?;
    Ok(())
}

/// Adds the objects of a knot.
fn put_members(text: &mut String, members: &[Holding]) -> Result<(), AllocError>
    ensures { OnOk result (string_bytes text.new ≡ string_bytes text.old
        ++ flat_map member_text members.now) }
{
    for member in members {
        put_member(text, *member)?;
    }
    Ok(())
}

/// Adds the first line of a knot.
fn put_knot(text: &mut String, members: &[Holding]) -> Result<(), AllocError>
    ensures { OnOk result (AddsLines text.old text.new (knot_text members.now ∷ [])) }
{
    text.push_str("knot")?;
    put_members(text, members)?;
    put_end(text)
}

/// Adds the lines of the owners that tie a knot.
fn put_ties(text: &mut String, labels: &Labels, ties: &[Holding]) -> Result<(), AllocError>
    ensures { OnOk result (AddsLines text.old text.new
        (map (tie_text (codes "tie") labels.now) ties.now)) }
{
    for tie in ties {
        put_tie(text, "tie", labels, *tie)?;
    }
    Ok(())
}

/// Adds the line of an owner, where it is a cut.
fn put_cut(
    text: &mut String,
    labels: &Labels,
    found: &Findings,
    tie: Holding,
) -> Result<(), AllocError>
    ensures { OnOk result (AddsLines text.old text.new
        (cut_lines found.now.cuts.items labels.now tie)) }
{
    if !found.is_cut(tie.slot) {
        return Ok(());
    }
    put_tie(text, "cut", labels, tie)
}

/// Adds the lines of the owners that are cuts.
fn put_cuts(
    text: &mut String,
    labels: &Labels,
    found: &Findings,
    ties: &[Holding],
) -> Result<(), AllocError>
    ensures { OnOk result (AddsLines text.old text.new
        (flat_map (cut_lines found.now.cuts.items labels.now) ties.now)) }
{
    for tie in ties {
        put_cut(text, labels, found, *tie)?;
    }
    Ok(())
}

/// Adds the lines of labels whose owners would have to be weak.
fn put_weakenings(text: &mut String, labels: &Labels, pairs: &[LabelPair]) -> Result<(), AllocError>
    ensures { OnOk result (AddsLines text.old text.new (map (weaken_text labels.now) pairs.now)) }
{
    for pair in pairs {
        put_weakening(text, labels, *pair)?;
    }
    Ok(())
}

/// Adds the lines of a knot that these owners tie.
fn put_tied(
    text: &mut String,
    draft: &Draft,
    found: &Findings,
    least: u32,
    ties: &[Holding],
) -> Result<(), AllocError>
    requires { (k : ℕ) → row_at found.now.index.members.items k
        ≡ held_on (homes found.now.knots.items (vertices_of (draft_of draft.now))) k }
    ensures { OnOk result (AddsLines text.old text.new
        (tied_lines (draft_of draft.now) found.now least ties.now)) }
{
    if ties.is_empty() {
        return Ok(());
    }
    put_knot(text, found.members_of(least))?;
    put_ties(text, &draft.labels, ties)?;
    put_cuts(text, &draft.labels, found, ties)?;
    put_weakenings(text, &draft.labels, found.weakenings_of(least))?;
    Ok(())
}

/// Adds the lines of the knot with this least object, where something ties it.
fn put_lines(
    alloc: Global,
    text: &mut String,
    draft: &Draft,
    found: &Findings,
    least: u32,
) -> Result<(), AllocError>
    requires members { (k : ℕ) → row_at found.now.index.members.items k
        ≡ held_on (homes found.now.knots.items (vertices_of (draft_of draft.now))) k }
    requires sources { (b : ℕ) → row_at found.now.sources.items b
        ≡ held_in draft.now.handles.items b }
    ensures { OnOk result (AddsLines text.old text.new
        (knot_lines (draft_of draft.now) found.now least)) }
{
    if !found.is_least(least) {
        return Ok(());
    }
    let ties = found.ties_of(alloc, least)?;
    put_tied(text, draft, found, least, ties.as_slice())?;
    Ok(())
}

/// Adds the lines of all knots, in the order of their least objects.
pub(crate) fn put_knots(
    alloc: Global,
    text: &mut String,
    draft: &Draft,
    found: &Findings,
    vertices: u32,
) -> Result<(), AllocError>
    requires members { (k : ℕ) → row_at found.now.index.members.items k
        ≡ held_on (homes found.now.knots.items (vertices_of (draft_of draft.now))) k }
    requires sources { (b : ℕ) → row_at found.now.sources.items b
        ≡ held_in draft.now.handles.items b }
    ensures { OnOk result (AddsLines text.old text.new
        (lines_to (knot_lines (draft_of draft.now) found.now) vertices)) }
{
    for before in 0..vertices {
        put_lines(alloc, text, draft, found, before + 1)?;
    }
    Ok(())
}
