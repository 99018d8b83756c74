//! The colors of blocks that are left at a run's end.
ghost use Rattle.std.specs.Prelude.{◌≡◌, ◌≤◌, ◌++◌, map, IfOk, OnOk};
ghost use Rattle.leak_report.specs.Prelude.{abstraction, AreFindings, IsAtEnd, state_in};
ghost use Rattle.leak_report.specs.Colors.{AreColored, colored, in_color};
ghost use Rattle.leak_report.specs.Graph.{color_at};

use crate::found::{Found, find};
use control_word::Block;
use owner_graph::drawing::color_word;
use script_stepper::End;
use std::alloc::{AllocError, Global};
use step_core::World;

/// A block that isn't vacant, and the color that it has in a graph of what is left: `white` where
/// it is kept, `orange` where it is leaked in a knot that something ties, and `lightgrey` where it
/// is leaked otherwise.
#[derive(Clone, Copy)]
pub struct Colored {
    pub block: u16,
    pub color: &'static str,
}

/// The color of a block, by what was found.
pub(crate) fn color_of(found: &Found, number: u16) -> &'static str
    requires { AreFindings found.now.blocks found.now.held.items found.now.findings }
    ensures { result.now ≡ color_at found.now.findings found.now.held.items number }
{
    let block = u32::from(number);
    color_word(found.findings.is_kept(block), found.findings.has_tie(block))
}

/// Adds a block, where it isn't vacant.
fn add_colored(
    world: &World,
    number: u16,
    found: &Found,
    blocks: &mut Vec<Colored>,
) -> Result<(), AllocError>
    requires end { IsAtEnd world.now }
    requires block { (1 ≤ number) × (number ≤ world.now.ghost_state.extent.shape.blocks) }
    requires found { AreFindings found.now.blocks found.now.held.items found.now.findings }
    ensures { OnOk result (map in_color blocks.new.items ≡ map in_color blocks.old.items
        ++ colored (state_in (abstraction world.now)) found.now.findings found.now.held.items number) }
{
    match world.census(Block::numbered(u32::from(number))) {
        Some(_) => {
            let color = color_of(found, number);
            blocks.push(Colored {
                block: number,
                color,
            })?;
            Ok(())
        }
        None => Ok(()),
    }
}

/// The blocks that aren't vacant at a run's end, in order, each in its color (own). Refused where a
/// growth was.
pub fn colors(alloc: Global, end: &End) -> Result<Vec<Colored>, AllocError>
    ensures { IfOk result (λ v. AreColored (abstraction end.now.world) v.items) }
{
    let found = find(alloc, end)?;
    let mut blocks = Vec::new(alloc);
    for before in 0..end.blocks {
        add_colored(&end.world, before + 1, &found, &mut blocks)?;
    }
    Ok(blocks)
}
