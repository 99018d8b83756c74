//! Rings and stages of knots that are no circles.
ghost use Rattle.std.specs.Prelude.{All, IfOk, IsTrue};
ghost use Rattle.owner_graph.specs.Rings.{IsRing};
ghost use Rattle.owner_graph.specs.Stages.{IsOut, IsStaged};

use crate::circles::Circles;
use crate::holding::{Holding, as_index};
use crate::index::Index;
use crate::rings::{Ring, held_rings};
use crate::search::backs::is_inner;
use crate::search::components::at;
use crate::search::knot_rings::{Found, find_rings};
use crate::stages::{Stages, are_stages, is_out};
use crate::tie::marked;
use std::alloc::{AllocError, Global};

/// Rings whose checks pass, and stages, where theirs does.
#[derive(Drop)]
pub(crate) struct KnotRings {
    pub(crate) rings: Vec<Ring>,
    pub(crate) stages: Stages,
    pub(crate) are_stages: bool,
}

/// Whether an owner is within a knot that is no circle.
fn is_wanted(index: &Index, knots: &[usize], circles: &Circles, handle: Holding) -> bool {
    is_inner(index, knots, handle)
        && !marked(circles.are.as_slice(), at(knots, as_index(handle.to)))
}

/// Searches for rings and stages, where there is such an owner.
fn found(
    alloc: Global,
    vertices: u32,
    handles: &[Holding],
    knots: &[usize],
    index: &Index,
    circles: &Circles,
) -> Result<Found, AllocError> {
    for handle in handles {
        if is_wanted(index, knots, circles, *handle) {
            return find_rings(alloc, vertices, handles, index, knots);
        }
    }
    Ok(Found {
        rings: Vec::new(alloc),
        stages: Stages::new(alloc, 0)?,
    })
}

/// Searches for rings and stages, and checks them.
pub(crate) fn look_for_rings(
    alloc: Global,
    vertices: u32,
    handles: &[Holding],
    knots: &[usize],
    index: &Index,
    circles: &Circles,
) -> Result<KnotRings, AllocError>
    ensures rings { IfOk result (λ k. All (IsRing vertices index.now knots.now) k.rings.items) }
    ensures stages { IfOk result (λ k. IsTrue k.are_stages
        → All (IsStaged index.now.stays.items knots.now k.stages) handles.now) }
{
    let mut found = found(alloc, vertices, handles, knots, index, circles)?;
    let rings = held_rings(alloc, vertices, index, knots, &mut found.rings)?;
    let stages = found.stages;
    let are_stages = are_stages(handles, knots, index.stays.as_slice(), &stages);
    Ok(KnotRings {
        rings,
        stages,
        are_stages,
    })
}

/// Whether a tie is known to be a cut by the stages.
pub(crate) fn leads_from_stage(known: &KnotRings, tie: Holding) -> bool
    ensures { IsTrue result → IsTrue known.now.are_stages × IsOut known.now.stages tie }
{
    known.are_stages && is_out(&known.stages, tie)
}
