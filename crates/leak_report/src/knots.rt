//! The lines of leaked blocks that own each other in a circle.
ghost use Rattle.std.specs.Prelude.{◌≡◌, ℕ, [], ◌∷◌, ◌++◌, OnOk, string_bytes};
ghost use Rattle.leak_report.specs.Prelude.{AddsLines, AreFindings, flat_map};
ghost use Rattle.leak_report.specs.Knots.{all_knots, cut_lines, cut_text, cycle_text, knot_lines};
ghost use Rattle.leak_report.specs.Knots.{owner_cell_text, tied_lines};

use crate::found::Found;
use crate::lines::put_cell;
use owner_graph::{Findings, Holding};
use std::alloc::{AllocError, Global};

/// Adds an owner's cell, after a space.
fn put_word(text: &mut String, shared: u32, tie: Holding) -> Result<(), AllocError>
    ensures { OnOk result (string_bytes text.new ≡ string_bytes text.old ++ owner_cell_text shared tie) }
{
    text.push_str(" ")?;
    put_cell(text, shared, tie)
}

/// Adds the cells of owners, in order.
fn put_words(text: &mut String, shared: u32, ties: &[Holding]) -> Result<(), AllocError>
    ensures { OnOk result (string_bytes text.new ≡ string_bytes text.old ++ flat_map
        (owner_cell_text shared) ties.now) }
{
    for tie in ties {
        put_word(text, shared, *tie)?;
    }
    Ok(())
}

/// Adds the line of the owners that tie a knot.
fn put_cycle(text: &mut String, shared: u32, ties: &[Holding]) -> Result<(), AllocError>
    ensures { OnOk result (AddsLines text.old text.new (cycle_text shared ties.now ∷ [])) }
{
    text.push_str("cycle")?;
    put_words(text, shared, ties)?;
    text.push_str("\n")?;
    Ok(())
}

/// Adds the line of an owner that is a cut.
fn put_cut_line(text: &mut String, shared: u32, cut: Holding) -> Result<(), AllocError>
    ensures { OnOk result (AddsLines text.old text.new (cut_text shared cut ∷ [])) }
{
    text.push_str("cut")?;
    put_word(text, shared, cut)?;
    text.push_str("\n")?;
    Ok(())
}

/// Adds the line of an owner, where it is a cut.
fn put_cut(text: &mut String, shared: u32, found: &Findings, tie: Holding) -> Result<(), AllocError>
    ensures { OnOk result (AddsLines text.old text.new (cut_lines found.now.cuts.items shared tie)) }
{
    if !found.is_cut(tie.slot) {
        return Ok(());
    }
    put_cut_line(text, shared, tie)
}

/// Adds the lines of the owners that are cuts, in order.
fn put_cuts(
    text: &mut String,
    shared: u32,
    found: &Findings,
    ties: &[Holding],
) -> Result<(), AllocError>
    ensures { OnOk result (AddsLines text.old text.new
        (flat_map (cut_lines found.now.cuts.items shared) ties.now)) }
{
    for tie in ties {
        put_cut(text, shared, found, *tie)?;
    }
    Ok(())
}

/// Adds the lines of a knot that these owners tie.
fn put_tied(
    text: &mut String,
    shared: u32,
    found: &Findings,
    ties: &[Holding],
) -> Result<(), AllocError>
    ensures { OnOk result (AddsLines text.old text.new
        (tied_lines found.now.cuts.items shared ties.now)) }
{
    if ties.is_empty() {
        return Ok(());
    }
    put_cycle(text, shared, ties)?;
    put_cuts(text, shared, found, ties)?;
    Ok(())
}

/// Adds the lines of the knot with this least block, where something ties it.
fn put_knot(
    alloc: Global,
    shared: u32,
    found: &Found,
    least: u32,
    text: &mut String,
) -> Result<(), AllocError>
    requires { AreFindings found.now.blocks found.now.held.items found.now.findings }
    ensures { OnOk result (AddsLines text.old text.new (knot_lines shared found.now.findings
        found.now.held.items found.now.blocks least)) }
{
    let findings = &found.findings;
    if !findings.is_least(least) {
        return Ok(());
    }
    let ties = findings.ties_of(alloc, least)?;
    put_tied(text, shared, findings, ties.as_slice())?;
    Ok(())
}

/// Adds the lines of all knots, in the order of their least blocks.
pub(crate) fn put_knots(
    alloc: Global,
    shared: u32,
    found: &Found,
    text: &mut String,
) -> Result<(), AllocError>
    requires { AreFindings found.now.blocks found.now.held.items found.now.findings }
    ensures { OnOk result (AddsLines text.old text.new (all_knots shared found.now.findings
        found.now.held.items found.now.blocks found.now.blocks)) }
{
    for before in 0..found.blocks {
        put_knot(alloc, shared, found, before + 1, text)?;
    }
    Ok(())
}
