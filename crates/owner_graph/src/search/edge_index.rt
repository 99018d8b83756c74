//! Owners by the vertices where they are. Nothing is proved of it.
use crate::holding::{Holding, as_index};
use crate::search::components::{at, put_at, zeros};
use std::alloc::{AllocError, Global};

/// Of each vertex a first owner in it, and of each owner the next one in the same vertex, by places
/// in a list from 1 on; 0 is none.
#[derive(Drop)]
pub(crate) struct EdgeIndex {
    first: Vec<usize>,
    next: Vec<usize>,
}

/// The handle at a place, from 1 on, if there is one.
fn handle_at(handles: &[Holding], place: usize) -> Option<Holding> {
    if place > 0 && place <= handles.len() {
        Some(handles[place - 1])
    } else {
        None
    }
}

/// The vertex where the handle at a place is; 0 where there is none.
fn source_at(handles: &[Holding], place: usize) -> usize {
    match handle_at(handles, place) {
        Some(handle) => as_index(handle.from),
        None => 0,
    }
}

/// The vertex that the handle at a place is on; 0 where there is none.
pub(crate) fn target_at(handles: &[Holding], place: usize) -> usize {
    match handle_at(handles, place) {
        Some(handle) => as_index(handle.to),
        None => 0,
    }
}

impl EdgeIndex {
    /// No owner, between so many vertices.
    pub(crate) fn new(
        alloc: Global,
        vertices: u32,
        handles: usize,
    ) -> Result<EdgeIndex, AllocError> {
        Ok(EdgeIndex {
            first: zeros(alloc, as_index(vertices) + 1)?,
            next: zeros(alloc, handles.saturating_add(1))?,
        })
    }

    /// Adds the owner at a place, as the first one in its vertex.
    pub(crate) fn add(&mut self, handles: &[Holding], place: usize) {
        let vertex = source_at(handles, place);
        let next = self.first_in(vertex);
        put_at(&mut self.next, place, next);
        put_at(&mut self.first, vertex, place);
    }

    /// The first owner in a vertex.
    pub(crate) fn first_in(&self, vertex: usize) -> usize {
        at(self.first.as_slice(), vertex)
    }

    /// The one after it.
    pub(crate) fn next_in(&self, place: usize) -> usize {
        at(self.next.as_slice(), place)
    }
}
