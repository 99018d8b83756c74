//! A search for the stages of knots. Nothing is proved of it: its result is a certificate, which is
//! checked.
use crate::holding::{Holding, as_index};
use crate::index::Index;
use crate::search::backs::is_inner;
use crate::search::components::{at, put_at, zeros};
use crate::search::crossings::Crossings;
use crate::search::detours::Placed;
use crate::search::order::TopologicalOrder;
use crate::search::places::is_of_ring;
use crate::stages::Stages;
use crate::tie::marked;
use std::alloc::{AllocError, Global};

/// Of each knot, by its least vertex, a vertex in which an owner of its ring is that no detour
/// passes by; 0 where there is none.
fn bases_of(
    alloc: Global,
    vertices: u32,
    knots: &[usize],
    exits: &[bool],
) -> Result<Vec<usize>, AllocError> {
    let mut bases = zeros(alloc, as_index(vertices) + 1)?;
    for vertex in 0..exits.len() {
        if exits[vertex] {
            put_at(&mut bases, at(knots, vertex), vertex);
        }
    }
    Ok(bases)
}

/// All vertices in an order in which no owner leads back but those in these vertices.
fn ordered(
    alloc: Global,
    vertices: u32,
    handles: &[Holding],
    index: &Index,
    knots: &[usize],
    placed: &Placed,
    bases: &[usize],
) -> Result<Vec<usize>, AllocError> {
    let mut ordering = TopologicalOrder::new(alloc, vertices, handles.len())?;
    for place in 0..handles.len() {
        let handle = handles[place];
        let from = as_index(handle.from);
        let is_base = at(bases, at(knots, from)) == from && is_of_ring(&placed.ring, handle);
        if is_inner(index, knots, handle) && !is_base {
            ordering.add(handles, place + 1);
        }
    }
    ordering.run(handles, as_index(vertices))?;
    Ok(ordering.order)
}

impl Stages {
    /// No vertex in any, of so many.
    pub(crate) fn new(alloc: Global, size: usize) -> Result<Stages, AllocError> {
        Ok(Stages {
            stages: zeros(alloc, size)?,
            ranks: zeros(alloc, size)?,
            sources: zeros(alloc, size)?,
            slots: zeros(alloc, size)?,
            firsts: zeros(alloc, size)?,
            afters: zeros(alloc, size)?,
            are: vec![in alloc; false; size]?,
        })
    }

    /// A knot has stages from this one on.
    fn begin(&mut self, knot: usize, first: usize) {
        put_at(&mut self.firsts, knot, first);
        put_at(&mut self.afters, knot, first);
        if knot < self.are.len() {
            self.are[knot] = true;
        }
    }

    /// Puts a vertex in a stage; the next one of the knot follows where the vertex leads out.
    fn put(&mut self, placed: &Placed, exits: &[bool], knot: usize, vertex: usize, rank: usize) {
        let stage = at(self.afters.as_slice(), knot);
        put_at(&mut self.stages, vertex, stage);
        put_at(&mut self.ranks, vertex, rank);
        if marked(exits, vertex) {
            let target = at(placed.ring.targets.as_slice(), vertex);
            put_at(&mut self.sources, stage, vertex);
            put_at(
                &mut self.slots,
                stage,
                at(placed.ring.slots.as_slice(), target),
            );
            put_at(&mut self.afters, knot, stage.saturating_add(1));
        }
    }
}

/// Searches for the stages of all knots that have some.
pub(crate) fn find_stages(
    alloc: Global,
    vertices: u32,
    handles: &[Holding],
    index: &Index,
    knots: &[usize],
    placed: &Placed,
    crossings: &Crossings,
) -> Result<Stages, AllocError> {
    let size = as_index(vertices) + 1;
    let exits = crossings.exits.as_slice();
    let bases = bases_of(alloc, vertices, knots, exits)?;
    let order = ordered(
        alloc,
        vertices,
        handles,
        index,
        knots,
        placed,
        bases.as_slice(),
    )?;
    let mut stages = Stages::new(alloc, size)?;
    for knot in 0..size {
        if at(bases.as_slice(), knot) > 0 {
            stages.begin(knot, at(crossings.firsts.as_slice(), knot));
        }
    }
    for rank in 0..order.len() {
        let vertex = order[rank];
        let knot = at(knots, vertex);
        if at(bases.as_slice(), knot) > 0 {
            stages.put(placed, exits, knot, vertex, rank);
        }
    }
    Ok(stages)
}
