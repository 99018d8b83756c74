//! What is left, block by block.
ghost use Rattle.std.specs.Prelude.{◌≡◌, ℕ, ◌≤◌, false, [], ◌∷◌, IfOk, OnOk, string_bytes};
ghost use Rattle.leak_report.specs.Prelude.{abstraction, AddsLines, AreFindings, ended_in, IsAtEnd};
ghost use Rattle.leak_report.specs.Prelude.{made_in, state_in, totals_text};
ghost use Rattle.leak_report.specs.Findings.{held_at};
ghost use Rattle.leak_report.specs.Left.{IsCountedAt, TellsOf};
ghost use Rattle.leak_report.specs.Lines.{left_lines, listing};

use crate::found::{Found, leaks};
use crate::knots::put_knots;
use crate::lines::{put_block, put_holders};
use control_word::Block;
use script_stepper::{End, put_totals};
use std::alloc::{AllocError, Global};
use step_core::World;
use step_table::limits::SCRIPT_SHARED_CELLS;

/// Adds the lines of a block, where it isn't vacant.
fn put_left(
    world: &World,
    number: u16,
    shared: u32,
    found: &Found,
    text: &mut String,
) -> Result<(), AllocError>
    requires end { IsAtEnd world.now }
    requires block { (1 ≤ number) × (number ≤ world.now.ghost_state.extent.shape.blocks) }
    requires found { AreFindings found.now.blocks found.now.held.items found.now.findings }
    ensures { OnOk result (AddsLines text.old text.new
        (left_lines shared found.now.held.items found.now.findings.kept.items
        (state_in (abstraction world.now)) number)) }
{
    let Some(counts) = world.census(Block::numbered(u32::from(number))) else {
        return Ok(());
    };
    let block = u32::from(number);
    put_block(text, number, counts, found.findings.is_kept(block))?;
    put_holders(text, shared, found.findings.handles_on(block))?;
    Ok(())
}

/// Adds the lines of all blocks, in order.
fn put_listing(
    world: &World,
    blocks: u16,
    shared: u32,
    found: &Found,
    text: &mut String,
) -> Result<(), AllocError>
    requires end { IsAtEnd world.now }
    requires all { blocks ≡ world.now.ghost_state.extent.shape.blocks }
    requires found { AreFindings found.now.blocks found.now.held.items found.now.findings }
    ensures { OnOk result (AddsLines text.old text.new
        (listing shared found.now.held.items found.now.findings.kept.items blocks
        (state_in (abstraction world.now)))) }
{
    for before in 0..blocks {
        put_left(world, before + 1, shared, found, text)?;
    }
    Ok(())
}

/// Adds the last line: how many objects were made, have ended, and are left.
fn put_sums(world: &World, text: &mut String) -> Result<(), AllocError>
    ensures { OnOk result (AddsLines text.old text.new
        (totals_text (made_in world.now.ghost_state.history) (ended_in world.now.ghost_state.history) ∷ [])) }
{
    put_totals(text, u64::from(world.made()), u64::from(world.ended()))?;
    Ok(())
}

/// The report of a run's end.
#[derive(Drop)]
pub(crate) struct Report {
    pub text: String,
    /// Whether a block is leaked.
    pub leaks: bool,
}

/// Reports what is left at a run's end.
pub(crate) fn listed_at(alloc: Global, end: &End, found: &Found) -> Result<Report, AllocError>
    requires held { found.now.held.items ≡ held_at (abstraction end.now.world) }
    requires found { AreFindings found.now.blocks found.now.held.items found.now.findings }
    requires counted { IsCountedAt (abstraction end.now.world) }
    requires blocks { found.now.blocks ≡ end.now.world.ghost_state.extent.shape.blocks }
    ensures { IfOk result (λ report. TellsOf (abstraction end.now.world) false report.leaks
        (string_bytes report.text)) }
{
    let mut text = String::new(alloc);
    put_listing(
        &end.world,
        end.blocks,
        SCRIPT_SHARED_CELLS,
        found,
        &mut text,
    )?;
    put_knots(alloc, SCRIPT_SHARED_CELLS, found, &mut text)?;
    put_sums(&end.world, &mut text)?;
    let leaks = leaks(&end.world, end.blocks, found);
    Ok(Report { text, leaks })
}
