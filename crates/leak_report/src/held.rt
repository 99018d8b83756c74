//! What all cells of a world hold.
ghost use Rattle.std.specs.Prelude.{◌≡◌, ◌++◌, ◌<◌, ◌≤◌, All, IfOk, OnOk};
ghost use Rattle.std.specs.List.{flat_map};
ghost use Rattle.step_core.specs.Totals.{IsAtEnd};
ghost use Rattle.step_table.specs.Cells.{IsCellInUse};
ghost use Rattle.step_table.specs.GhostStates.{model_state};
ghost use Rattle.step_threads.specs.Stocks.{from};
ghost use Rattle.leak_report.specs.Holders.{AddsAmong, AllCounted, all_held, free_cells, held_by_block, held_by_free};
ghost use Rattle.leak_report.specs.Holders.{holding, holdings_in, holds_owner, slot, source};
ghost use Rattle.owner_graph.specs.Owners.{IsAmong};

use control_word::Block;
use owner_graph::Holding;
use std::alloc::{AllocError, Global};
use step_core::{Site, World};

/// Whether a cell holds an owner: one of the first free cells, of which so many are shared, or
/// `first` or `next` of an object.
fn holds_owner(shared: u32, cell: Site) -> bool
    ensures { result ≡ holds_owner shared cell }
{
    match cell {
        Site::Free { number } => number < shared,
        Site::Member { member, .. } => member < 2,
    }
}

/// The block in whose object a cell is; 0 for a free one.
fn source(cell: Site) -> u32
    ensures { result ≡ source cell }
{
    match cell {
        Site::Free { .. } => 0,
        Site::Member { block, .. } => block.number(),
    }
}

/// Which of the cells there it is.
fn slot(cell: Site) -> u32
    ensures { result ≡ slot cell }
{
    match cell {
        Site::Free { number } => number,
        Site::Member { member, .. } => u32::from(member),
    }
}

/// A handle in a cell, on a block.
fn holding(shared: u32, cell: Site, block: Block) -> Holding
    ensures { result ≡ holding shared cell block }
{
    Holding {
        from: source(cell),
        to: block.number(),
        slot: slot(cell),
        label: slot(cell),
        is_owner: holds_owner(shared, cell),
    }
}

/// Adds what a cell holds, where it holds something.
fn add(
    world: &World,
    shared: u32,
    cell: Site,
    holdings: &mut Vec<Holding>,
) -> Result<(), AllocError>
    requires shared { shared ≡ (model_state world.now.ghost_state).shared }
    requires there { IsCellInUse world.now.ghost_state cell }
    requires among { source cell ≤ world.now.ghost_state.extent.shape.blocks }
    ensures held { OnOk result
        (holdings.new.items ≡ holdings.old.items ++ holdings_in (model_state world.now.ghost_state) cell) }
    ensures among { OnOk result
        (AddsAmong world.now.ghost_state.extent.shape.blocks holdings.old.items holdings.new.items) }
{
    if let Some(block) = world.target(cell) {
        holdings.push(holding(shared, cell, block))?;
    }
    Ok(())
}

/// Adds what the free cells hold.
fn add_free(
    world: &World,
    shared: u32,
    cells: u32,
    holdings: &mut Vec<Holding>,
) -> Result<(), AllocError>
    requires shared { shared ≡ (model_state world.now.ghost_state).shared }
    requires cells { cells ≡ (model_state world.now.ghost_state).cells }
    ensures held { OnOk result (holdings.new.items
        ≡ holdings.old.items ++ flat_map (held_by_free (model_state world.now.ghost_state)) (from 0 cells)) }
    ensures among { OnOk result
        (AddsAmong world.now.ghost_state.extent.shape.blocks holdings.old.items holdings.new.items) }
{
    for number in 0..cells {
        add(world, shared, Site::Free { number }, holdings)?;
    }
    Ok(())
}

/// Adds what the members of an object hold.
fn add_members(
    world: &World,
    shared: u32,
    block: Block,
    holdings: &mut Vec<Holding>,
) -> Result<(), AllocError>
    requires shared { shared ≡ (model_state world.now.ghost_state).shared }
    requires end { IsAtEnd world.now }
    requires block { (1 ≤ block.0) × (block.0 ≤ world.now.ghost_state.extent.shape.blocks) }
    ensures held { OnOk result (holdings.new.items
        ≡ holdings.old.items ++ held_by_block (model_state world.now.ghost_state) block.0) }
    ensures among { OnOk result
        (AddsAmong world.now.ghost_state.extent.shape.blocks holdings.old.items holdings.new.items) }
{
    if world.census(block).is_none() {
        return Ok(());
    }
    add(world, shared, Site::Member { block, member: 0 }, holdings)?;
    add(world, shared, Site::Member { block, member: 1 }, holdings)?;
    add(world, shared, Site::Member { block, member: 2 }, holdings)?;
    Ok(())
}

/// Adds what the members of all objects hold.
fn add_blocks(
    world: &World,
    shared: u32,
    blocks: u16,
    holdings: &mut Vec<Holding>,
) -> Result<(), AllocError>
    requires shared { shared ≡ (model_state world.now.ghost_state).shared }
    requires end { IsAtEnd world.now }
    requires all { blocks ≡ world.now.ghost_state.extent.shape.blocks }
    ensures held { OnOk result (holdings.new.items
        ≡ holdings.old.items ++ flat_map (held_by_block (model_state world.now.ghost_state)) (from 1 blocks)) }
    ensures among { OnOk result
        (AddsAmong world.now.ghost_state.extent.shape.blocks holdings.old.items holdings.new.items) }
{
    for before in 0..blocks {
        add_members(
            world,
            shared,
            Block::numbered(u32::from(before + 1)),
            holdings,
        )?;
    }
    Ok(())
}

/// What all cells hold (own), in the order of the cells: the free ones, the shared before the weak,
/// and then the members by block; the blocks of all of them are the world's. On each block are just
/// as many owners and weak handles as its census counts, and on a vacant one none. Conditions: each
/// thread is at its end, and shared cells, free cells and blocks are as many as the world has.
pub fn holdings(
    alloc: Global,
    world: &World,
    shared: u32,
    cells: u32,
    blocks: u16,
) -> Result<Vec<Holding>, AllocError>
    requires end { IsAtEnd world.now }
    requires shared { shared ≡ world.now.ghost_state.extent.shape.shared_cells }
    requires cells { cells ≡ free_cells world.now.ghost_state.extent.shape }
    requires blocks { blocks ≡ world.now.ghost_state.extent.shape.blocks }
    ensures held { IfOk result (λ v. v.items ≡ all_held (model_state world.now.ghost_state) blocks) }
    ensures among { IfOk result (λ v. All (IsAmong blocks) v.items) }
    ensures counted { IfOk result (λ v. AllCounted blocks (model_state world.now.ghost_state) v.items) }
{
    world.assert_invariant_at_end();
    let mut holdings = Vec::new(alloc);
    add_free(world, shared, cells, &mut holdings)?;
    add_blocks(world, shared, blocks, &mut holdings)?;
    Ok(holdings)
}
