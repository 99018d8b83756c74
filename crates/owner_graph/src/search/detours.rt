//! Ways from one vertex of a ring to another that have none of the ring's owners. Nothing is proved
//! of it.
use crate::holding::{Holding, as_index};
use crate::index::{Index, row};
use crate::rings::Ring;
use crate::search::backs::{Backs, NO_HANDLE, is_inner};
use crate::search::components::{at, put_at, zeros};
use crate::search::order::TopologicalOrder;
use crate::search::places::{Places, is_of_ring};
use std::alloc::{AllocError, Global};

/// Of each vertex the least and the greatest place from which a detour leads to it, with the last
/// owner of it, and the least place to which one leads from it, with the first owner; all vertices
/// in an order in which no detour leads back, as far as there is one.
#[derive(Drop)]
pub(crate) struct Detours {
    pub(crate) order: Vec<usize>,
    pub(crate) lows: Vec<usize>,
    pub(crate) low_backs: Backs,
    pub(crate) highs: Vec<usize>,
    pub(crate) high_backs: Backs,
    pub(crate) ends: Vec<usize>,
    pub(crate) end_owners: Vec<Holding>,
}

/// What rings are searched with.
#[derive(Drop)]
pub(crate) struct Placed {
    pub(crate) ring: Ring,
    pub(crate) places: Places,
}

impl Placed {
    /// Whether an owner may be one of a detour.
    pub(crate) fn is_beside(&self, index: &Index, knots: &[usize], handle: Holding) -> bool {
        is_inner(index, knots, handle) && !is_of_ring(&self.ring, handle)
    }

    /// The place of a vertex, or what is known of it where it has none.
    fn place_or(&self, vertex: usize, known: &[usize]) -> usize {
        let place = at(self.places.of.as_slice(), vertex);
        if place > 0 { place } else { at(known, vertex) }
    }
}

/// The vertices in an order in which no owner leads back that is beside the rings.
fn ordered(
    alloc: Global,
    vertices: u32,
    handles: &[Holding],
    index: &Index,
    knots: &[usize],
    placed: &Placed,
) -> Result<Vec<usize>, AllocError> {
    let mut ordering = TopologicalOrder::new(alloc, vertices, handles.len())?;
    for place in 0..handles.len() {
        if placed.is_beside(index, knots, handles[place]) {
            ordering.add(handles, place + 1);
        }
    }
    ordering.run(handles, as_index(vertices))?;
    Ok(ordering.order)
}

impl Detours {
    /// A detour leads on by an owner.
    fn lead_on(&mut self, placed: &Placed, owner: Holding) {
        let from = as_index(owner.from);
        let to = as_index(owner.to);
        let low = placed.place_or(from, self.lows.as_slice());
        let known = at(self.lows.as_slice(), to);
        if low > 0 && (known == 0 || low < known) {
            put_at(&mut self.lows, to, low);
            self.low_backs.put(owner);
        }
        let high = placed.place_or(from, self.highs.as_slice());
        if high > at(self.highs.as_slice(), to) {
            put_at(&mut self.highs, to, high);
            self.high_backs.put(owner);
        }
    }

    /// A detour leads on from an owner.
    fn lead_from(&mut self, placed: &Placed, owner: Holding) {
        let from = as_index(owner.from);
        let end = placed.place_or(as_index(owner.to), self.ends.as_slice());
        let known = at(self.ends.as_slice(), from);
        if end > 0 && from < self.end_owners.len() && (known == 0 || end < known) {
            put_at(&mut self.ends, from, end);
            self.end_owners[from] = owner;
        }
    }

    /// Follows all of them to where they lead.
    fn follow(&mut self, index: &Index, knots: &[usize], placed: &Placed) {
        for step in 0..self.order.len() {
            let vertex = at(self.order.as_slice(), step);
            for owner in row(index.rows.as_slice(), vertex) {
                if placed.is_beside(index, knots, *owner) {
                    self.lead_on(placed, *owner);
                }
            }
        }
    }

    /// Follows all of them back.
    fn follow_back(&mut self, index: &Index, knots: &[usize], placed: &Placed) {
        for step in 0..self.order.len() {
            let vertex = at(
                self.order.as_slice(),
                self.order.len().saturating_sub(step + 1),
            );
            for owner in row(index.rows.as_slice(), vertex) {
                if placed.is_beside(index, knots, *owner) {
                    self.lead_from(placed, *owner);
                }
            }
        }
    }

    /// Searches for detours.
    pub(crate) fn new(
        alloc: Global,
        vertices: u32,
        handles: &[Holding],
        index: &Index,
        knots: &[usize],
        placed: &Placed,
    ) -> Result<Detours, AllocError> {
        let size = as_index(vertices) + 1;
        let mut detours = Detours {
            order: ordered(alloc, vertices, handles, index, knots, placed)?,
            lows: zeros(alloc, size)?,
            low_backs: Backs::new(alloc, vertices)?,
            highs: zeros(alloc, size)?,
            high_backs: Backs::new(alloc, vertices)?,
            ends: zeros(alloc, size)?,
            end_owners: vec![in alloc; NO_HANDLE; size]?,
        };
        detours.follow(index, knots, placed);
        detours.follow_back(index, knots, placed);
        Ok(detours)
    }
}
