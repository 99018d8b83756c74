//! A graph from its edges.
ghost use Rattle.std.specs.Prelude.{◌≡◌, ◌<◌, ◌↔◌, ℕ, [], All, IfErr, IfOk, IsTrue, length, vec_len};
ghost use Rattle.owner_graph.specs.Paths.{AreWithin, HasRows, IsEdgeWithin, leading, targets};

use std::alloc::{AllocError, Global};
use std::marker::Model;

/// An edge of a graph: the vertex from which it leads, and the one to which.
#[derive(Clone, Copy, Drop)]
pub struct Edge {
    pub from: usize,
    pub to: usize,
}

/// Why a graph was not made.
#[derive(Clone, Copy, PartialEq, Eq, Debug, Drop)]
pub enum GraphError {
    /// A growth of memory was refused.
    Memory,
    /// An edge leads from or to a number that is none of a vertex.
    Outside,
}

impl From<AllocError> for GraphError {
    ghost use Rattle.owner_graph.specs.declared.directed_graph.graph.GraphError.TheVariants.{Memory};

    ghost from_gives = { λ _ why. why ≡ Memory };

    fn from(_error: AllocError) -> Self {
        Self::Memory
    }
}

/// A directed graph: of each vertex, from 0, those to which its edges lead. Each of them is a
/// vertex.
#[derive(Drop)]
pub struct Graph {
    pub(crate) rows: Vec<Vec<usize>>,
}

impl Model for Graph {
    ghost use Rattle.owner_graph.specs.Paths.{IsGraph, Rows};

    ghost Value = { Rows };

    ghost view = { λ g. g.rows.items };

    ghost invariant = { λ g. IsGraph g.rows.items };
}

/// Whether each edge leads from a vertex to a vertex, where there are so many.
fn are_within(edges: &[Edge], vertices: usize) -> bool
    ensures { IsTrue result ↔ AreWithin vertices edges.now }
{
    edges
        .iter()
        .all(|edge| edge.from < vertices && edge.to < vertices)
}

/// So many vertices without edges.
fn without_edges(alloc: Global, vertices: usize) -> Result<Vec<Vec<usize>>, AllocError>
    ensures size { IfOk result (λ g. length g.items ≡ vertices) }
    ensures none { IfOk result (λ g. (v : ℕ) → targets g.items v ≡ []) }
{
    let mut rows = Vec::new(alloc);
    for _vertex in 0..vertices {
        rows.push(Vec::new(alloc))?;
    }
    Ok(rows)
}

/// Of each vertex, those to which its edges lead.
fn rows_of(alloc: Global, vertices: usize, edges: &[Edge]) -> Result<Vec<Vec<usize>>, AllocError>
    requires { AreWithin vertices edges.now }
    ensures { IfOk result (λ g. HasRows vertices edges.now g.items) }
{
    let mut rows = without_edges(alloc, vertices)?;
    for edge in edges {
        rows[edge.from].push(edge.to)?;
    }
    Ok(rows)
}

impl Graph {
    /// The graph with so many vertices, from 0, and these edges: of each vertex, those to which its
    /// edges lead, in the order of the edges (own). It is refused `Outside` just where an edge
    /// leads from or to another number, and else `Memory` only where a growth was really refused.
    pub fn new(alloc: Global, vertices: usize, edges: &[Edge]) -> Result<Graph, GraphError>
        ensures rows { IfOk result (λ g. HasRows vertices edges.now g) }
        ensures within { IfOk result (λ _. AreWithin vertices edges.now) }
        ensures outside { IfErr result (λ why. why ≡ GraphError.Outside ↔ (AreWithin vertices edges.now → ⊥)) }
    {
        if !are_within(edges, vertices) {
            return Err(GraphError::Outside);
        }
        let rows = rows_of(alloc, vertices, edges)?;
        Ok(Graph { rows })
    }
}
