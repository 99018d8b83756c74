//! A search for the rings and the stages of all knots. Nothing is proved of it: its results are
//! certificates, which are checked.
use crate::holding::{Holding, as_index};
use crate::index::Index;
use crate::rings::Ring;
use crate::search::backs::{Backs, is_inner};
use crate::search::components::{at, put_at, zeros};
use crate::search::crossings::{Crossings, find_crossings};
use crate::search::detours::{Detours, Placed};
use crate::search::places::Places;
use crate::search::ring::find_ring;
use crate::search::stage_order::find_stages;
use crate::stages::Stages;
use crate::tie::marked;
use std::alloc::{AllocError, Global};

/// Rings and stages.
#[derive(Drop)]
pub(crate) struct Found {
    pub(crate) rings: Vec<Ring>,
    pub(crate) stages: Stages,
}

/// Of each vertex an owner on it; of each knot, by its least vertex, one from which the ways back
/// begin, and whether all owners of its vertices are within it.
#[derive(Drop)]
struct Beginnings {
    backs: Backs,
    starts: Vec<usize>,
    are_open: Vec<bool>,
}

impl Beginnings {
    fn new(alloc: Global, vertices: u32) -> Result<Beginnings, AllocError> {
        let size = as_index(vertices) + 1;
        Ok(Beginnings {
            backs: Backs::new(alloc, vertices)?,
            starts: zeros(alloc, size)?,
            are_open: vec![in alloc; true; size]?,
        })
    }

    /// The rings of this knot are known.
    fn close(&mut self, knot: usize) {
        if knot < self.are_open.len() {
            self.are_open[knot] = false;
        }
    }

    /// Takes an owner in.
    fn add(&mut self, index: &Index, knots: &[usize], owner: Holding) {
        let to = as_index(owner.to);
        let knot = at(knots, to);
        if !is_inner(index, knots, owner) {
            self.close(knot);
            put_at(&mut self.starts, knot, to);
            self.backs.put(owner);
            return;
        }
        if self.backs.before(to) == 0 {
            self.backs.put(owner);
        }
        if at(self.starts.as_slice(), knot) == 0 {
            put_at(&mut self.starts, knot, to);
        }
    }

    /// Takes in all owners in vertices that stay.
    fn add_all(&mut self, handles: &[Holding], index: &Index, knots: &[usize]) {
        for handle in handles {
            if handle.is_owner && marked(index.stays.as_slice(), as_index(handle.from)) {
                self.add(index, knots, *handle);
            }
        }
    }
}

/// Marks the vertices that are in an order.
fn marks_of(alloc: Global, vertices: u32, order: &[usize]) -> Result<Vec<usize>, AllocError> {
    let mut marks = zeros(alloc, as_index(vertices) + 1)?;
    for vertex in order {
        put_at(&mut marks, *vertex, 1);
    }
    Ok(marks)
}

/// Where owners beside a knot's ring lead round by themselves, the way back is along these.
fn lead_round(
    handles: &[Holding],
    index: &Index,
    knots: &[usize],
    placed: &Placed,
    marks: &[usize],
    backs: &mut Backs,
    found: &mut Beginnings,
) {
    for handle in handles {
        let to = as_index(handle.to);
        if at(marks, to) > 0
            || at(marks, as_index(handle.from)) > 0
            || !placed.is_beside(index, knots, *handle)
        {
            continue;
        }
        backs.put(*handle);
        put_at(&mut found.starts, at(knots, to), to);
        found.close(at(knots, to));
    }
}

/// The rings that lead by detours.
fn detoured(
    alloc: Global,
    vertices: u32,
    knots: &[usize],
    crossings: &Crossings,
    starts: &[usize],
) -> Result<Vec<Ring>, AllocError> {
    let mut rings = Vec::new(alloc);
    for backs in [
        &crossings.forth,
        &crossings.forth_again,
        &crossings.back,
        &crossings.back_again,
    ] {
        rings.push(find_ring(alloc, vertices, knots, backs, starts)?)?;
    }
    Ok(rings)
}

/// Searches for the rings and stages of all knots.
pub(crate) fn find_rings(
    alloc: Global,
    vertices: u32,
    handles: &[Holding],
    index: &Index,
    knots: &[usize],
) -> Result<Found, AllocError> {
    let mut found = Beginnings::new(alloc, vertices)?;
    found.add_all(handles, index, knots);
    let ring = find_ring(
        alloc,
        vertices,
        knots,
        &found.backs,
        found.starts.as_slice(),
    )?;
    let places = Places::new(alloc, vertices, knots, &ring)?;
    let placed = Placed { ring, places };
    let detours = Detours::new(alloc, vertices, handles, index, knots, &placed)?;
    let marks = marks_of(alloc, vertices, detours.order.as_slice())?;
    let mut round = found.backs.copied(alloc)?;
    lead_round(
        handles,
        index,
        knots,
        &placed,
        marks.as_slice(),
        &mut round,
        &mut found,
    );
    let open = found.are_open.as_slice();
    let crossings = find_crossings(alloc, vertices, &round, &placed, &detours, open)?;
    let stages = find_stages(alloc, vertices, handles, index, knots, &placed, &crossings)?;
    let mut rings = detoured(alloc, vertices, knots, &crossings, found.starts.as_slice())?;
    rings.push(placed.ring)?;
    Ok(Found { rings, stages })
}
