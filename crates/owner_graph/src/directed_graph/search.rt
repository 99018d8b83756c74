//! A search: what is marked, and what is still to be followed.
ghost use Rattle.std.specs.Prelude.{◌≡◌, ◌<◌, [], OnOk, IfOk, All, false, length, replicate, vec_len};
ghost use Rattle.owner_graph.specs.Searches.{mark, mark_all, marks_of};

use std::alloc::{AllocError, Global};

/// The vertices that are marked, and those of them whose edges weren't followed yet.
#[derive(Drop)]
pub(crate) struct Search {
    pub(crate) marked: Vec<bool>,
    pub(crate) pending: Vec<usize>,
}

impl Search {
    /// Of so many vertices none is marked.
    pub(crate) fn new(alloc: Global, vertices: usize) -> Result<Search, AllocError>
        ensures { IfOk result (λ s. marks_of s ≡ record { marked = replicate vertices false; pending = [] }) }
    {
        let marked = vec![in alloc; false; vertices]?;
        Ok(Search {
            marked,
            pending: Vec::new(alloc),
        })
    }

    /// Marks a vertex, if it isn't marked yet.
    pub(crate) fn mark(&mut self, vertex: usize) -> Result<(), AllocError>
        requires { vertex < vec_len self.old.marked }
        ensures { OnOk result (marks_of self.new ≡ mark (marks_of self.old) vertex) }
    {
        if self.marked[vertex] {
            return Ok(());
        }
        self.pending.push(vertex)?;
        self.marked[vertex] = true;
        Ok(())
    }

    /// Marks those that aren't marked yet.
    pub(crate) fn mark_all(&mut self, vertices: &[usize]) -> Result<(), AllocError>
        requires { All (λ v. v < vec_len self.old.marked) vertices.now }
        ensures { OnOk result (marks_of self.new ≡ mark_all vertices.now (marks_of self.old)) }
    {
        for vertex in vertices {
            self.mark(*vertex)?;
        }
        Ok(())
    }
}
