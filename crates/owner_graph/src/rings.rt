//! Rings: vertices of knots, each of which has an owner in another one, or in another knot. No
//! owner but those is a cut.
ghost use Rattle.std.specs.Prelude.{◌↔◌, All, IfOk, IsTrue, OnOk};
ghost use Rattle.owner_graph.specs.declared.rings.Ring.{Ring};
ghost use Rattle.owner_graph.specs.Rings.{HasRingHolder, HoldsRing, IsBeside, IsHeld, IsRing};
ghost use Rattle.owner_graph.specs.Rings.{IsRingPlace};

use crate::holding::{Holding, as_index};
use crate::index::{Index, row};
use crate::search::components::at;
use crate::tie::marked;
use std::alloc::{AllocError, Global};

/// Of each vertex of a ring the place of an owner on it, as a vertex and a slot; of each vertex in
/// which such an owner is the one that it is on; and of each knot, by its least vertex, one that is
/// in its ring. [`are_held`] checks it.
#[derive(Drop)]
pub(crate) struct Ring {
    pub(crate) sources: Vec<usize>,
    pub(crate) slots: Vec<usize>,
    pub(crate) targets: Vec<usize>,
    pub(crate) firsts: Vec<usize>,
}

/// Whether a handle is at the place that is recorded for a vertex.
fn is_ring_place(ring: &Ring, vertex: usize, handle: Holding) -> bool
    ensures { IsTrue result ↔ IsRingPlace ring.now vertex handle }
{
    as_index(handle.from) == at(ring.sources.as_slice(), vertex)
        && as_index(handle.slot) == at(ring.slots.as_slice(), vertex)
}

/// Whether a handle is the owner that is recorded for a vertex; and in another vertex of the ring,
/// in which there is no other such owner, or in one of another knot that stays.
fn holds(index: &Index, knots: &[usize], ring: &Ring, vertex: usize, handle: Holding) -> bool
    ensures { IsTrue result → HoldsRing index.now.stays.items knots.now ring.now vertex handle }
{
    let from = as_index(handle.from);
    if !handle.is_owner || !is_ring_place(ring, vertex, handle) {
        return false;
    }
    if at(knots, from) == at(knots, vertex) {
        at(ring.sources.as_slice(), from) > 0 && at(ring.targets.as_slice(), from) == vertex
    } else {
        marked(index.stays.as_slice(), from)
    }
}

/// Whether one of the handles is.
#[tactic(auto, unfolding(crate::specs::Rings::HasRingHolder))]
fn has_holder(
    index: &Index,
    knots: &[usize],
    ring: &Ring,
    vertex: usize,
    handles: &[Holding],
) -> bool
    ensures { IsTrue result → HasRingHolder index.now.stays.items knots.now ring.now vertex
        handles.now }
{
    for handle in handles {
        if holds(index, knots, ring, vertex, *handle) {
            return true;
        }
    }
    false
}

/// Whether one of those on a vertex is, where the ring has that vertex.
fn is_held(index: &Index, knots: &[usize], ring: &Ring, vertex: usize) -> bool
    ensures { IsTrue result → IsHeld index.now knots.now ring.now vertex }
{
    if at(ring.sources.as_slice(), vertex) == 0 {
        return true;
    }
    let handles = row(index.rows.as_slice(), vertex);
    has_holder(index, knots, ring, vertex, handles)
}

/// Whether it is so of each vertex.
fn are_held(vertices: u32, index: &Index, knots: &[usize], ring: &Ring) -> bool
    ensures { IsTrue result → IsRing vertices index.now knots.now ring.now }
{
    for before in 0..vertices {
        let vertex = as_index(before) + 1;
        if !is_held(index, knots, ring, vertex) {
            return false;
        }
    }
    true
}

/// Adds a ring to others, where its check passes.
fn add_held(
    vertices: u32,
    index: &Index,
    knots: &[usize],
    ring: Ring,
    rings: &mut Vec<Ring>,
) -> Result<(), AllocError>
    requires { All (IsRing vertices index.now knots.now) rings.old.items }
    ensures { OnOk result (All (IsRing vertices index.now knots.now) rings.new.items) }
{
    if are_held(vertices, index, knots, &ring) {
        rings.push(ring)?;
    }
    Ok(())
}

/// Those rings whose checks pass.
pub(crate) fn held_rings(
    alloc: Global,
    vertices: u32,
    index: &Index,
    knots: &[usize],
    found: &mut Vec<Ring>,
) -> Result<Vec<Ring>, AllocError>
    ensures { IfOk result (λ rings. All (IsRing vertices index.now knots.now) rings.items) }
{
    let mut rings = Vec::new(alloc);
    while let Some(ring) = found.pop() {
        add_held(vertices, index, knots, ring, &mut rings)?;
    }
    Ok(rings)
}

/// Whether a vertex of a tie's knot is in a ring, and the tie is no owner of the ring.
fn is_beside(vertices: u32, knots: &[usize], ring: &Ring, tie: Holding) -> bool
    ensures { IsTrue result → IsBeside vertices knots.now ring.now tie }
{
    let knot = as_index(tie.to);
    let first = at(ring.firsts.as_slice(), knot);
    let target = at(ring.targets.as_slice(), as_index(tie.from));
    first > 0
        && first <= as_index(vertices)
        && at(knots, first) == knot
        && at(ring.sources.as_slice(), first) > 0
        && !is_ring_place(ring, target, tie)
}

/// Whether it is so of one of some rings.
pub(crate) fn is_beside_one(
    vertices: u32,
    index: &Index,
    knots: &[usize],
    rings: &[Ring],
    tie: Holding,
) -> bool
    requires { All (IsRing vertices index.now knots.now) rings.now }
    ensures { IsTrue result → (r : Ring) × IsRing vertices index.now knots.now r
        × IsBeside vertices knots.now r tie }
{
    for ring in rings {
        if is_beside(vertices, knots, ring, tie) {
            return true;
        }
    }
    false
}
