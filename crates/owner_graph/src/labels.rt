//! The knots of all vertices.
ghost use Rattle.std.specs.Prelude.{◌≡◌, ◌+◌, ◌≤◌, ℕ, All, IfOk, length};
ghost use Rattle.owner_graph.specs.Knots.{IsLeast, KnotsAre};
ghost use Rattle.owner_graph.specs.Labels.{at};
ghost use Rattle.owner_graph.specs.Owners.{IsAmong};

use crate::certificates::knots::are_knots;
use crate::directed_graph::GraphError;
use crate::holding::{Holding, as_index};
use crate::reachability::knot;
use crate::rows::by_vertex;
use crate::search::components::{KnotCertificate, at, find_components};
use std::alloc::{AllocError, Global};

/// The label of each vertex: the least vertex of its rank.
fn labels_of(
    alloc: Global,
    vertices: u32,
    certificate: &KnotCertificate,
) -> Result<Vec<usize>, AllocError>
    ensures size { IfOk result (λ labels. length labels.items ≡ vertices + 1) }
    ensures labels { IfOk result (λ labels. (b : ℕ) → b ≤ vertices
        → at labels.items b ≡ at certificate.now.firsts.items
        (at certificate.now.ranks.items b)) }
{
    let mut labels = Vec::new(alloc);
    for vertex in 0..as_index(vertices) + 1 {
        let rank = at(certificate.ranks.as_slice(), vertex);
        labels.push(at(certificate.firsts.as_slice(), rank))?;
    }
    Ok(labels)
}

/// The least vertex of the knot that a vertex is in, by a search each way.
fn least_of(
    alloc: Global,
    vertices: u32,
    handles: &[Holding],
    vertex: u32,
) -> Result<u32, AllocError>
    requires among { All (IsAmong vertices) handles.now }
    requires vertex { (1 ≤ vertex) × (vertex ≤ vertices) }
    ensures { IfOk result (λ least. IsLeast handles.now vertex least) }
{
    let marks = match knot(alloc, vertices, handles, vertex) {
        Ok(marks) => marks,
        Err(GraphError::Memory) => return Err(AllocError),
        Err(GraphError::Outside) => unreachable!(),
    };
    for before in 0..vertices {
        if marks[as_index(before) + 1] {
            return Ok(before + 1);
        }
    }
    Ok(vertex)
}

/// The least vertex of each vertex's knot, vertex by vertex.
fn one_by_one(alloc: Global, vertices: u32, handles: &[Holding]) -> Result<Vec<usize>, AllocError>
    requires { All (IsAmong vertices) handles.now }
    ensures { IfOk result (λ knots. KnotsAre vertices handles.now knots.items) }
{
    let mut knots = Vec::new(alloc);
    knots.push(0)?;
    for before in 0..vertices {
        let least = least_of(alloc, vertices, handles, before + 1)?;
        knots.push(as_index(least))?;
    }
    Ok(knots)
}

/// Searches for the knots.
fn certificate_of(
    alloc: Global,
    vertices: u32,
    handles: &[Holding],
) -> Result<KnotCertificate, AllocError>
    requires { All (IsAmong vertices) handles.now }
{
    let rows = by_vertex(alloc, vertices, handles)?;
    find_components(alloc, vertices, handles.len(), rows.as_slice())
}

/// Of each vertex, from 1, the least of the knot that it is in (own): vertices have one knot just
/// where owners lead from each to the other. A vertex that nothing ties is a knot of its own. Of
/// the free cells so many are.
///
/// One search finds labels, and two more check them, so that this takes time linear in vertices and
/// handles; where the check failed, each vertex would be searched from. It is refused only where a
/// growth of memory was. Condition: the vertices of all that is listed are among so many.
pub fn knots(alloc: Global, vertices: u32, handles: &[Holding]) -> Result<Vec<usize>, AllocError>
    requires { All (IsAmong vertices) handles.now }
    ensures { IfOk result (λ knots. KnotsAre vertices handles.now knots.items) }
{
    let certificate = certificate_of(alloc, vertices, handles)?;
    let labels = labels_of(alloc, vertices, &certificate)?;
    let ranks = certificate.ranks.as_slice();
    if are_knots(alloc, vertices, handles, ranks, labels.as_slice())? {
        return Ok(labels);
    }
    one_by_one(alloc, vertices, handles)
}
