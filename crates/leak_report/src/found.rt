//! What is held at a run's end, and what is found of it.
ghost use Rattle.std.specs.Prelude.{◌≡◌, ◌≤◌, false, ◌≢◌, ◌↔◌, IfOk, IsTrue, None};
ghost use Rattle.leak_report.specs.Prelude.{abstraction, AreFindings, census_of};
ghost use Rattle.leak_report.specs.Prelude.{IsAtEnd, marked, state_in};
ghost use Rattle.leak_report.specs.Findings.{held_at, numbered, placed};
ghost use Rattle.leak_report.specs.Left.{IsCountedAt, Leaks, MarksKept};

use crate::held::holdings;
use control_word::Block;
use owner_graph::{Findings, Holding};
use script_stepper::End;
use std::alloc::{AllocError, Global};
use step_core::World;
use step_table::limits::{SCRIPT_SHARED_CELLS, SCRIPT_WEAK_CELLS};

/// A handle with its place in a list as its slot.
fn placed(holding: Holding, place: usize) -> Holding
    requires { place ≤ 4294967295 }
    ensures { result ≡ placed place holding }
{
    Holding {
        slot: place as u32,
        ..holding
    }
}

/// The same handles, each with its place in the list as its slot. There are at most 196,861 cells.
fn numbered(alloc: Global, holdings: &[Holding]) -> Result<Vec<Holding>, AllocError>
    ensures { IfOk result (λ v. v.items ≡ numbered 0 holdings.now) }
{
    let mut moved = Vec::new(alloc);
    for holding in holdings {
        let place = moved.len();
        if place > 0xffff_ffff {
            return Err(AllocError);
        }
        moved.push(placed(*holding, place))?;
    }
    Ok(moved)
}

/// What all cells hold at a run's end, of a world with so many blocks, and what is found of the
/// owners among it.
#[derive(Drop)]
pub(crate) struct Found {
    pub blocks: u32,
    pub held: Vec<Holding>,
    pub findings: Findings,
}

/// Finds what is held at a run's end.
pub(crate) fn find(alloc: Global, end: &End) -> Result<Found, AllocError>
    ensures found { IfOk result (λ found. AreFindings found.blocks found.held.items found.findings) }
    ensures held { IfOk result (λ found. found.held.items ≡ held_at (abstraction end.now.world)) }
    ensures counted { IfOk result (λ _. IsCountedAt (abstraction end.now.world)) }
    ensures blocks { IfOk result (λ found. found.blocks ≡ end.now.world.ghost_state.extent.shape.blocks) }
{
    let cells = holdings(
        alloc,
        &end.world,
        SCRIPT_SHARED_CELLS,
        SCRIPT_SHARED_CELLS + SCRIPT_WEAK_CELLS,
        end.blocks,
    )?;
    let held = numbered(alloc, cells.as_slice())?;
    let blocks = u32::from(end.blocks);
    let findings = Findings::new(alloc, blocks, held.as_slice())?;
    Ok(Found {
        blocks,
        held,
        findings,
    })
}

/// Whether a block is neither vacant nor kept.
fn is_leaked(world: &World, number: u16, found: &Found) -> bool
    requires end { IsAtEnd world.now }
    requires block { (1 ≤ number) × (number ≤ world.now.ghost_state.extent.shape.blocks) }
    ensures { IsTrue result ↔ ((census_of (state_in (abstraction world.now)) number ≢ None)
        × (marked found.now.findings.kept.items number ≡ false)) }
{
    world.census(Block::numbered(u32::from(number))).is_some()
        && !found.findings.is_kept(u32::from(number))
}

/// Whether a block is leaked.
pub(crate) fn leaks(world: &World, blocks: u16, found: &Found) -> bool
    requires end { IsAtEnd world.now }
    requires all { blocks ≡ world.now.ghost_state.extent.shape.blocks }
    requires marks { MarksKept (abstraction world.now) found.now.findings.kept.items }
    ensures { Leaks result (abstraction world.now) }
{
    for before in 0..blocks {
        if is_leaked(world, before + 1, found) {
            return true;
        }
    }
    false
}
