//! What is reached from a vertex.
ghost use Rattle.std.specs.Prelude.{IfOk};
ghost use Rattle.owner_graph.specs.Paths.{IsGraph, MarksReached};

use crate::directed_graph::graph::Graph;
use crate::directed_graph::search::Search;
use std::alloc::{AllocError, Global};

/// Marks what is reached from the root.
fn mark_reached(alloc: Global, graph: &[Vec<usize>], root: usize) -> Result<Vec<bool>, AllocError>
    requires { IsGraph graph.now }
    ensures { IfOk result (λ marked. MarksReached graph.now root marked.items) }
{
    let mut search = Search::new(alloc, graph.len())?;
    if root < graph.len() {
        search.mark(root)?;
    }
    while let Some(vertex) = search.pending.pop() {
        search.mark_all(graph[vertex].as_slice())?;
    }
    let Search { marked, pending } = search;
    let _ = pending;
    Ok(marked)
}

impl Graph {
    /// Marks just the vertices to which a path leads from the root (own): it, those to which its
    /// edges lead, and so on. From a number that is none of a vertex none is reached. It takes time
    /// linear in vertices and edges, and is refused only where a growth of memory was.
    pub fn reached(&self, alloc: Global, root: usize) -> Result<Vec<bool>, AllocError>
        ensures { IfOk result (λ marked. MarksReached self.now root marked.items) }
    {
        mark_reached(alloc, self.rows.as_slice(), root)
    }
}
