//! Places of the vertices of rings, one after another along the owners. Nothing is proved of it.
use crate::holding::{Holding, as_index};
use crate::rings::Ring;
use crate::search::components::{at, put_at, zeros};
use std::alloc::{AllocError, Global};

/// Of each vertex its place, from 1 on, or 0 where it is in no ring; of each place the vertex; and
/// of each knot, by its least vertex, the first and the last place of its ring.
#[derive(Drop)]
pub(crate) struct Places {
    pub(crate) of: Vec<usize>,
    pub(crate) vertices: Vec<usize>,
    pub(crate) firsts: Vec<usize>,
    pub(crate) lasts: Vec<usize>,
}

/// Whether the ring has this owner.
pub(crate) fn is_of_ring(ring: &Ring, handle: Holding) -> bool {
    let to = as_index(handle.to);
    at(ring.sources.as_slice(), to) == as_index(handle.from)
        && at(ring.slots.as_slice(), to) == as_index(handle.slot)
}

impl Places {
    /// Gives the vertices of a knot's ring the places up to this one, and answers the last that is
    /// free.
    fn add(&mut self, knots: &[usize], ring: &Ring, knot: usize, last: usize) -> usize {
        let first = at(ring.firsts.as_slice(), knot);
        put_at(&mut self.lasts, knot, last);
        let mut vertex = first;
        let mut place = last;
        for _step in 0..last {
            put_at(&mut self.of, vertex, place);
            put_at(&mut self.vertices, place, vertex);
            put_at(&mut self.firsts, knot, place);
            place = place.saturating_sub(1);
            vertex = at(ring.sources.as_slice(), vertex);
            if vertex == first || at(knots, vertex) != knot {
                break;
            }
        }
        place
    }

    /// Gives the vertices of all rings places.
    pub(crate) fn new(
        alloc: Global,
        vertices: u32,
        knots: &[usize],
        ring: &Ring,
    ) -> Result<Places, AllocError> {
        let size = as_index(vertices) + 1;
        let mut places = Places {
            of: zeros(alloc, size)?,
            vertices: zeros(alloc, size)?,
            firsts: zeros(alloc, size)?,
            lasts: zeros(alloc, size)?,
        };
        let mut last = as_index(vertices);
        for knot in 0..size {
            if at(ring.firsts.as_slice(), knot) > 0 {
                last = places.add(knots, ring, knot, last);
            }
        }
        Ok(places)
    }
}
