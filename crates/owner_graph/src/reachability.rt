//! Which vertices owners keep from outside, and which keep each other.
ghost use Rattle.std.specs.Prelude.{◌≡◌, ◌↔◌, ◌+◌, ◌<◌, ◌≤◌, ◌&&◌, ℕ, IfErr, IfOk};
ghost use Rattle.std.specs.Prelude.{false, true, length, slice_index_or};
ghost use Rattle.owner_graph.specs.Paths.{AreWithin};
ghost use Rattle.owner_graph.specs.Owners.{IsKept, OwnersLead};
ghost use Rattle.owner_graph.specs.Edges.{MarksLed, owner_edges};

use crate::directed_graph::{Edge, Graph, GraphError};
use crate::edges::{back_edges_of, edges_of};
use crate::holding::{Holding, as_index};
use std::alloc::{AllocError, Global};

/// Which vertices edges lead to from one.
fn led_to(
    alloc: Global,
    vertices: u32,
    edges: &[Edge],
    vertex: u32,
) -> Result<Vec<bool>, GraphError>
    ensures led { IfOk result (λ v. MarksLed vertices edges.now vertex v.items) }
    ensures outside { IfErr result (λ why. why ≡ GraphError.Outside
        → AreWithin (vertices + 1) edges.now → ⊥) }
{
    let vertices = as_index(vertices) + 1;
    let graph = Graph::new(alloc, vertices, edges)?;
    let marked = graph.reached(alloc, as_index(vertex))?;
    Ok(marked)
}

/// Which vertices owners lead to from one: it, those that owners in it are on, and so on.
pub(crate) fn reached(
    alloc: Global,
    vertices: u32,
    handles: &[Holding],
    vertex: u32,
) -> Result<Vec<bool>, GraphError>
    ensures size { IfOk result (λ v. length v.items ≡ vertices + 1) }
    ensures reached { IfOk result (λ v. (b : ℕ) → b ≤ vertices
        → slice_index_or v.items b false ≡ true ↔ OwnersLead handles.now vertex b) }
    ensures outside { IfErr result (λ why. why ≡ GraphError.Outside
        → AreWithin (vertices + 1) (owner_edges handles.now) → ⊥) }
{
    let edges = edges_of(alloc, handles)?;
    let marked = led_to(alloc, vertices, edges.as_slice(), vertex)?;
    Ok(marked)
}

/// From which vertices owners lead to one: it, those in which owners are on it, and so on.
pub(crate) fn reaching(
    alloc: Global,
    vertices: u32,
    handles: &[Holding],
    vertex: u32,
) -> Result<Vec<bool>, GraphError>
    ensures size { IfOk result (λ v. length v.items ≡ vertices + 1) }
    ensures reaching { IfOk result (λ v. (b : ℕ) → b ≤ vertices
        → slice_index_or v.items b false ≡ true ↔ OwnersLead handles.now b vertex) }
    ensures outside { IfErr result (λ why. why ≡ GraphError.Outside
        → AreWithin (vertices + 1) (owner_edges handles.now) → ⊥) }
{
    let back = back_edges_of(alloc, handles)?;
    let marked = led_to(alloc, vertices, back.as_slice(), vertex)?;
    Ok(marked)
}

/// Which vertices are kept (own): those to which a path of owners leads from vertex 0. What is in
/// any other vertex that isn't vacant is leaked, or only weak handles are on it. It takes time
/// linear in vertices and handles. Of the free cells so many are. Refused `Outside` only where an
/// owner is in or on a vertex that isn't among so many, and else `Memory` only where a growth was
/// really refused.
pub fn kept(alloc: Global, vertices: u32, handles: &[Holding]) -> Result<Vec<bool>, GraphError>
    ensures size { IfOk result (λ v. length v.items ≡ vertices + 1) }
    ensures kept { IfOk result (λ v. (b : ℕ) → b ≤ vertices
        → slice_index_or v.items b false ≡ true ↔ IsKept handles.now b) }
    ensures outside { IfErr result (λ why. why ≡ GraphError.Outside
        → AreWithin (vertices + 1) (owner_edges handles.now) → ⊥) }
{
    reached(alloc, vertices, handles, 0)
}

/// Where both lists have a mark.
fn marked_twice(alloc: Global, one: &[bool], other: &[bool]) -> Result<Vec<bool>, AllocError>
    requires { length one.now ≡ length other.now }
    ensures size { IfOk result (λ v. length v.items ≡ length one.now) }
    ensures both { IfOk result (λ v. (k : ℕ) → k < length v.items
        → slice_index_or v.items k false ≡ (slice_index_or one.now k false
        && slice_index_or other.now k false)) }
{
    let mut both = Vec::new(alloc);
    for index in 0..one.len() {
        both.push(one[index] && other[index])?;
    }
    Ok(both)
}

/// The knot that a vertex is in (own): just the vertices to which owners lead from it, and from
/// which they lead back. So they keep each other, and no further one could be added. It takes time
/// linear in vertices and handles. Refused as [`kept`] is.
pub fn knot(
    alloc: Global,
    vertices: u32,
    handles: &[Holding],
    vertex: u32,
) -> Result<Vec<bool>, GraphError>
    ensures size { IfOk result (λ v. length v.items ≡ vertices + 1) }
    ensures knot { IfOk result (λ v. (b : ℕ) → b ≤ vertices
        → slice_index_or v.items b false ≡ true
        ↔ (OwnersLead handles.now vertex b × OwnersLead handles.now b vertex)) }
    ensures outside { IfErr result (λ why. why ≡ GraphError.Outside
        → AreWithin (vertices + 1) (owner_edges handles.now) → ⊥) }
{
    let after = reached(alloc, vertices, handles, vertex)?;
    let before = reaching(alloc, vertices, handles, vertex)?;
    let both = marked_twice(alloc, after.as_slice(), before.as_slice())?;
    Ok(both)
}
