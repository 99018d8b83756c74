//! A search for a ring in each knot. Nothing is proved of it: its result is a certificate, which is
//! checked.
use crate::holding::{Holding, as_index};
use crate::rings::Ring;
use crate::search::backs::Backs;
use crate::search::components::{at, put_at, zeros};
use std::alloc::{AllocError, Global};

/// The vertex where the way back from a vertex comes for the second time, or from which it leaves
/// the knot. Vertices are marked on the way.
fn first_of(backs: &Backs, knots: &[usize], start: usize, marks: &mut Vec<usize>) -> usize {
    let mut vertex = start;
    for _step in 0..marks.len() {
        if at(marks.as_slice(), vertex) > 0 {
            break;
        }
        put_at(marks, vertex, 1);
        let before = backs.before(vertex);
        if before == 0 || at(knots, before) != at(knots, vertex) {
            break;
        }
        vertex = before;
    }
    vertex
}

impl Ring {
    /// No vertex, of so many.
    fn new(alloc: Global, vertices: u32) -> Result<Ring, AllocError> {
        let size = as_index(vertices) + 1;
        Ok(Ring {
            sources: zeros(alloc, size)?,
            slots: zeros(alloc, size)?,
            targets: zeros(alloc, size)?,
            firsts: zeros(alloc, size)?,
        })
    }

    /// Takes a handle in. Answers whether it leads to another vertex of the knot than the first.
    fn add(&mut self, knots: &[usize], first: usize, handle: Holding) -> bool {
        let from = as_index(handle.from);
        let to = as_index(handle.to);
        if from == 0 {
            return false;
        }
        put_at(&mut self.sources, to, from);
        put_at(&mut self.slots, to, as_index(handle.slot));
        if at(knots, from) != at(knots, to) {
            return false;
        }
        put_at(&mut self.targets, from, to);
        from != first
    }

    /// Takes the way back from a vertex in, until it comes there again.
    fn add_way(&mut self, backs: &Backs, knots: &[usize], first: usize) {
        put_at(&mut self.firsts, at(knots, first), first);
        let mut vertex = first;
        for _step in 0..knots.len() {
            if !self.add(knots, first, backs.on(vertex)) {
                break;
            }
            vertex = backs.before(vertex);
        }
    }
}

/// Searches for a ring in each knot, by the least vertex of which there is a vertex to start from.
pub(crate) fn find_ring(
    alloc: Global,
    vertices: u32,
    knots: &[usize],
    backs: &Backs,
    starts: &[usize],
) -> Result<Ring, AllocError> {
    let mut ring = Ring::new(alloc, vertices)?;
    let mut marks = zeros(alloc, as_index(vertices) + 1)?;
    for start in starts {
        if *start == 0 {
            continue;
        }
        let first = first_of(backs, knots, *start, &mut marks);
        ring.add_way(backs, knots, first);
    }
    Ok(ring)
}
