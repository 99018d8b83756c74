//! Owners as edges of a graph, from the vertex where one is to the vertex that it is on.
ghost use Rattle.std.specs.Prelude.{◌≡◌, ◌++◌, IfOk, OnOk};
ghost use Rattle.owner_graph.specs.Edges.{back_edges, edges_by, owner_edges};

use crate::directed_graph::Edge;
use crate::holding::{Holding, as_index};
use std::alloc::{AllocError, Global};

/// Adds an edge for an owner, and none for a weak handle.
fn add_edge(handle: Holding, edges: &mut Vec<Edge>) -> Result<(), AllocError>
    ensures { OnOk result (edges.new.items ≡ edges.old.items ++ edges_by handle) }
{
    if handle.is_owner {
        edges.push(Edge {
            from: as_index(handle.from),
            to: as_index(handle.to),
        })?;
    }
    Ok(())
}

/// An edge for each owner, from the vertex where it is to the vertex that it is on.
pub(crate) fn edges_of(alloc: Global, handles: &[Holding]) -> Result<Vec<Edge>, AllocError>
    ensures { IfOk result (λ v. v.items ≡ owner_edges handles.now) }
{
    let mut edges = Vec::new(alloc);
    for handle in handles {
        add_edge(*handle, &mut edges)?;
    }
    Ok(edges)
}

/// The same edges, each the other way round.
fn turned_round(alloc: Global, edges: &[Edge]) -> Result<Vec<Edge>, AllocError>
    ensures { IfOk result (λ v. v.items ≡ back_edges edges.now) }
{
    let mut back = Vec::new(alloc);
    for edge in edges {
        back.push(Edge {
            from: edge.to,
            to: edge.from,
        })?;
    }
    Ok(back)
}

/// An edge for each owner, from the vertex that it is on to the vertex where it is.
pub(crate) fn back_edges_of(alloc: Global, handles: &[Holding]) -> Result<Vec<Edge>, AllocError>
    ensures { IfOk result (λ v. v.items ≡ back_edges (owner_edges handles.now)) }
{
    let edges = edges_of(alloc, handles)?;
    let back = turned_round(alloc, edges.as_slice())?;
    Ok(back)
}
