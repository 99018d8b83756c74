//! The pointers that a thread has in names and in its hands, and those in cells.
ghost use Rattle.std.specs.Prelude.{◌≡◌, ◌++◌, ◌<◌, ◌≤◌, IfOk, OnOk, length};
ghost use Rattle.std.specs.List.{flat_map};
ghost use Rattle.control_word.specs.State.{weak_number};
ghost use Rattle.leak_report.specs.Holders.{holds_owner};
ghost use Rattle.step_core.specs.Runs.{NamesActor};
ghost use Rattle.step_core.specs.Worlds.{abstraction};
ghost use Rattle.step_table.specs.Cells.{IsCellInUse};
ghost use Rattle.step_table.specs.GhostStates.{model_state};
ghost use Rattle.step_threads.specs.Stocks.{from};
ghost use Rattle.script_picture.specs.Pointers.{HasCells, in_block, in_cell, in_free, in_slot};
ghost use Rattle.script_picture.specs.Pointers.{is_owner, pointers_after};

use control_word::Block;
use run_picture::{Holder, Pointer};
use std::alloc::{AllocError, Global};
use step_core::{Kind, Name, Site, World};
use step_table::limits::{SCRIPT_NAMES, SCRIPT_SHARED_CELLS, SCRIPT_WEAK_CELLS};

/// How many slots a thread has at most: its names, what it is about to drop, and what it has in
/// hand.
const SLOTS: u32 = SCRIPT_NAMES + 2;

/// How many free cells a script has.
const CELLS: u32 = SCRIPT_SHARED_CELLS + SCRIPT_WEAK_CELLS;

/// Whether a pointer of this kind owns.
fn is_owner(kind: Kind) -> bool
    ensures { result ≡ is_owner kind }
{
    match kind {
        Kind::Owner => true,
        Kind::Weak => false,
    }
}

/// Whether a cell holds owners: a shared one, or `first` or `next` of an object.
fn holds_owner(cell: Site) -> bool
    ensures { result ≡ holds_owner 128 cell }
{
    match cell {
        Site::Free { number } => number < SCRIPT_SHARED_CELLS,
        Site::Member { member, .. } => member < 2,
    }
}

/// Adds what a slot of a thread has, if it has a pointer.
fn add_slot(
    world: &World,
    thread: u8,
    number: u8,
    pointers: &mut Vec<Pointer>,
) -> Result<(), AllocError>
    requires { NamesActor (length world.now.frame_views) thread }
    ensures { OnOk result (pointers.new.items
        ≡ pointers.old.items ++ in_slot (abstraction world.now) thread number) }
{
    if let Some(handle) = world.held(thread, Name(number)) {
        pointers.push(Pointer {
            holder: Holder::Name { thread, number },
            block: handle.block.number(),
            is_owner: is_owner(handle.kind),
        })?;
    }
    Ok(())
}

/// Adds what a thread has in its slots.
fn add_slots(world: &World, thread: u8, pointers: &mut Vec<Pointer>) -> Result<(), AllocError>
    requires { NamesActor (length world.now.frame_views) thread }
    ensures { OnOk result (pointers.new.items
        ≡ pointers.old.items ++ flat_map (in_slot (abstraction world.now) thread) (from 0 34)) }
{
    for number in 0..SLOTS as u8 {
        add_slot(world, thread, number, pointers)?;
    }
    Ok(())
}

/// Adds what is in a cell, if it has a pointer.
fn add_cell(world: &World, cell: Site, pointers: &mut Vec<Pointer>) -> Result<(), AllocError>
    requires { IsCellInUse world.now.ghost_state cell }
    ensures { OnOk result (pointers.new.items
        ≡ pointers.old.items ++ in_cell (model_state world.now.ghost_state) cell) }
{
    if let Some(block) = world.target(cell) {
        pointers.push(Pointer {
            holder: Holder::Cell(cell),
            block: block.number(),
            is_owner: holds_owner(cell),
        })?;
    }
    Ok(())
}

/// Adds what is in the free cells.
fn add_free(world: &World, pointers: &mut Vec<Pointer>) -> Result<(), AllocError>
    requires { HasCells world.now.ghost_state }
    ensures { OnOk result (pointers.new.items
        ≡ pointers.old.items ++ flat_map (in_free (model_state world.now.ghost_state)) (from 0 256)) }
{
    for number in 0..CELLS {
        add_cell(world, Site::Free { number }, pointers)?;
    }
    Ok(())
}

/// Adds what is in the members of an object that is there or that weak pointers keep.
fn add_members(world: &World, block: Block, pointers: &mut Vec<Pointer>) -> Result<(), AllocError>
    requires { 0 < weak_number (model_state world.now.ghost_state)
        ((model_state world.now.ghost_state).latest block.0) }
    ensures { OnOk result (pointers.new.items ≡ pointers.old.items
        ++ (in_cell (model_state world.now.ghost_state) (Site.Member block 0)
        ++ in_cell (model_state world.now.ghost_state) (Site.Member block 1)
        ++ in_cell (model_state world.now.ghost_state) (Site.Member block 2))) }
{
    add_cell(world, Site::Member { block, member: 0 }, pointers)?;
    add_cell(world, Site::Member { block, member: 1 }, pointers)?;
    add_cell(world, Site::Member { block, member: 2 }, pointers)?;
    Ok(())
}

/// Adds what is in the members of an object; a vacant block has none.
fn add_block(world: &World, block: Block, pointers: &mut Vec<Pointer>) -> Result<(), AllocError>
    requires some { 1 ≤ block.0 }
    requires within { block.0 ≤ world.now.ghost_state.extent.shape.blocks }
    ensures { OnOk result (pointers.new.items
        ≡ pointers.old.items ++ in_block (model_state world.now.ghost_state) block.0) }
{
    match world.counts(block) {
        Some(_) => add_members(world, block, pointers),
        None => Ok(()),
    }
}

/// Adds what is in the members of all objects.
fn add_blocks(world: &World, blocks: u16, pointers: &mut Vec<Pointer>) -> Result<(), AllocError>
    requires { blocks ≤ world.now.ghost_state.extent.shape.blocks }
    ensures { OnOk result (pointers.new.items
        ≡ pointers.old.items ++ flat_map (in_block (model_state world.now.ghost_state)) (from 1 blocks)) }
{
    for before in 0..blocks {
        add_block(world, Block::numbered(u32::from(before + 1)), pointers)?;
    }
    Ok(())
}

/// The pointers that a thread has after an act of its own, and those that are in cells then.
pub(crate) fn pointers_of(
    alloc: Global,
    world: &World,
    thread: u8,
    blocks: u16,
) -> Result<Vec<Pointer>, AllocError>
    requires thread { NamesActor (length world.now.frame_views) thread }
    requires cells { HasCells world.now.ghost_state }
    requires blocks { blocks ≡ world.now.ghost_state.extent.shape.blocks }
    ensures { IfOk result (λ v. v.items ≡ pointers_after (abstraction world.now) thread) }
{
    let mut pointers = Vec::new(alloc);
    add_slots(world, thread, &mut pointers)?;
    add_free(world, &mut pointers)?;
    add_blocks(world, blocks, &mut pointers)?;
    Ok(pointers)
}
