//! Of each vertex one of the handles on it, and the way back along these. Nothing is proved of it.
use crate::holding::{Holding, as_index};
use crate::index::Index;
use crate::search::components::at;
use crate::tie::marked;
use std::alloc::{AllocError, Global};

/// No handle.
pub(crate) const NO_HANDLE: Holding = Holding {
    from: 0,
    to: 0,
    slot: 0,
    label: 0,
    is_owner: false,
};

/// Of each vertex a handle on it; one in vertex 0 is none.
#[derive(Drop)]
pub(crate) struct Backs {
    handles: Vec<Holding>,
}

/// Whether a handle is an owner within a knot, in a vertex that stays.
pub(crate) fn is_inner(index: &Index, knots: &[usize], handle: Holding) -> bool {
    let from = as_index(handle.from);
    handle.is_owner
        && from > 0
        && marked(index.stays.as_slice(), from)
        && at(knots, from) == at(knots, as_index(handle.to))
}

impl Backs {
    /// None, on so many vertices.
    pub(crate) fn new(alloc: Global, vertices: u32) -> Result<Backs, AllocError> {
        Ok(Backs {
            handles: vec![in alloc; NO_HANDLE; as_index(vertices) + 1]?,
        })
    }

    /// The same once more.
    pub(crate) fn copied(&self, alloc: Global) -> Result<Backs, AllocError> {
        let mut handles = Vec::new(alloc);
        for handle in self.handles.as_slice() {
            handles.push(*handle)?;
        }
        Ok(Backs { handles })
    }

    /// The handle on a vertex.
    pub(crate) fn on(&self, vertex: usize) -> Holding {
        if vertex < self.handles.len() {
            self.handles[vertex]
        } else {
            NO_HANDLE
        }
    }

    /// The vertex that it is in; 0 where there is none.
    pub(crate) fn before(&self, vertex: usize) -> usize {
        as_index(self.on(vertex).from)
    }

    /// Takes a handle as that on its vertex.
    pub(crate) fn put(&mut self, handle: Holding) {
        let vertex = as_index(handle.to);
        if vertex < self.handles.len() {
            self.handles[vertex] = handle;
        }
    }
}
