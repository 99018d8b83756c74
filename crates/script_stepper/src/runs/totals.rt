//! How a run's text ends: the census of a world, and its totals (own).
ghost use Rattle.std.specs.Prelude.{◌≡◌, ◌≤◌, OnOk};
ghost use Rattle.step_core.specs.Worlds.{abstraction};
ghost use Rattle.step_threads.specs.AbstractStates.{state_in};
ghost use Rattle.step_core.specs.Totals.{IsAtEnd};
ghost use Rattle.script_text.specs.Canonical.{AddsLines};
ghost use Rattle.script_stepper.specs.Lines.{block_lines, census_lines, closing_lines};

use crate::lines::{put_block, put_totals};
use control_word::place::Block;
use std::alloc::AllocError;
use step_core::World;

/// Adds the line of a block, where it isn't vacant.
fn put_counts(world: &World, block: Block, text: &mut String) -> Result<(), AllocError>
    requires end { IsAtEnd world.now }
    requires block { (1 ≤ block.0) × (block.0 ≤ world.now.ghost_state.extent.shape.blocks) }
    ensures { OnOk result (AddsLines text.old text.new (block_lines (state_in (abstraction world.now)) block.0)) }
{
    if let Some(counts) = world.census(block) {
        put_block(text, block, counts)?;
    }
    Ok(())
}

/// Adds a line for each block that isn't vacant, in block order.
fn put_census(world: &World, blocks: u16, text: &mut String) -> Result<(), AllocError>
    requires end { IsAtEnd world.now }
    requires all { blocks ≡ world.now.ghost_state.extent.shape.blocks }
    ensures { OnOk result (AddsLines text.old text.new (census_lines blocks (state_in (abstraction world.now)))) }
{
    for before in 0..blocks {
        put_counts(world, Block::numbered(u32::from(before + 1)), text)?;
    }
    Ok(())
}

/// Adds the census and the last line.
pub(crate) fn put_closing(world: &World, blocks: u16, text: &mut String) -> Result<(), AllocError>
    requires end { IsAtEnd world.now }
    requires all { blocks ≡ world.now.ghost_state.extent.shape.blocks }
    ensures { OnOk result (AddsLines text.old text.new (closing_lines (abstraction world.now))) }
{
    put_census(world, blocks, text)?;
    put_totals(text, u64::from(world.made()), u64::from(world.ended()))?;
    Ok(())
}
