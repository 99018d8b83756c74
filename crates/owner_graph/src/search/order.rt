//! Vertices in an order in which no owner leads back, as far as there is one. Nothing is
//! proved of it.
use crate::holding::{Holding, as_index};
use crate::search::components::{at, put_at, zeros};
use crate::search::edge_index::{EdgeIndex, target_at};
use std::alloc::{AllocError, Global};

/// Owners, of each vertex how many of those on it are not yet behind, and the vertices that are
/// behind, in order.
#[derive(Drop)]
pub(crate) struct TopologicalOrder {
    owners: EdgeIndex,
    counts: Vec<usize>,
    pub(crate) order: Vec<usize>,
}

impl TopologicalOrder {
    /// No owner.
    pub(crate) fn new(
        alloc: Global,
        vertices: u32,
        handles: usize,
    ) -> Result<TopologicalOrder, AllocError> {
        Ok(TopologicalOrder {
            owners: EdgeIndex::new(alloc, vertices, handles)?,
            counts: zeros(alloc, as_index(vertices) + 1)?,
            order: Vec::new(alloc),
        })
    }

    /// Adds the owner at a place.
    pub(crate) fn add(&mut self, handles: &[Holding], place: usize) {
        self.owners.add(handles, place);
        let vertex = target_at(handles, place);
        let count = at(self.counts.as_slice(), vertex);
        put_at(&mut self.counts, vertex, count.saturating_add(1));
    }

    /// One owner on a vertex is behind; where none is left, the vertex follows.
    fn lower(&mut self, vertex: usize) -> Result<(), AllocError> {
        let count = at(self.counts.as_slice(), vertex);
        put_at(&mut self.counts, vertex, count.saturating_sub(1));
        if count == 1 {
            self.order.push(vertex)?;
        }
        Ok(())
    }

    /// All owners in a vertex are behind.
    fn pass(&mut self, handles: &[Holding], vertex: usize) -> Result<(), AllocError> {
        let mut place = self.owners.first_in(vertex);
        for _owner in 0..handles.len() {
            if place == 0 {
                break;
            }
            self.lower(target_at(handles, place))?;
            place = self.owners.next_in(place);
        }
        Ok(())
    }

    /// The vertices without owners come first.
    fn begin(&mut self, vertices: usize) -> Result<(), AllocError> {
        for before in 0..vertices {
            if at(self.counts.as_slice(), before + 1) == 0 {
                self.order.push(before + 1)?;
            }
        }
        Ok(())
    }

    /// Orders so many vertices, from 1.
    pub(crate) fn run(&mut self, handles: &[Holding], vertices: usize) -> Result<(), AllocError> {
        self.begin(vertices)?;
        for index in 0..vertices {
            if index >= self.order.len() {
                break;
            }
            let vertex = self.order[index];
            self.pass(handles, vertex)?;
        }
        Ok(())
    }
}
