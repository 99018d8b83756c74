//! Handles, by the vertex that they are on, or in.
ghost use Rattle.std.specs.Prelude.{◌≡◌, ◌+◌, ℕ, [], All, IfOk, length};
ghost use Rattle.owner_graph.specs.Owners.{IsAmong};
ghost use Rattle.owner_graph.specs.Rows.{held_in, held_on, row_at};

use crate::holding::{Holding, as_index};
use std::alloc::{AllocError, Global};

/// So many empty lists.
fn empty_rows(alloc: Global, count: usize) -> Result<Vec<Vec<Holding>>, AllocError>
    ensures size { IfOk result (λ rows. length rows.items ≡ count) }
    ensures none { IfOk result (λ rows. (vertex : ℕ) → row_at rows.items vertex ≡ []) }
{
    let mut rows = Vec::new(alloc);
    for _vertex in 0..count {
        rows.push(Vec::new(alloc))?;
    }
    Ok(rows)
}

/// Of each vertex, from 0, what is on it, in the order of what is listed (own). It takes time
/// linear in vertices and handles, and is refused only where a growth of memory was. Condition: the
/// vertices of all that is listed are among so many.
pub fn by_vertex(
    alloc: Global,
    vertices: u32,
    handles: &[Holding],
) -> Result<Vec<Vec<Holding>>, AllocError>
    requires { All (IsAmong vertices) handles.now }
    ensures size { IfOk result (λ rows. length rows.items ≡ vertices + 1) }
    ensures rows { IfOk result (λ rows. (vertex : ℕ)
        → row_at rows.items vertex ≡ held_on handles.now vertex) }
{
    let mut rows = empty_rows(alloc, as_index(vertices) + 1)?;
    for handle in handles {
        rows[as_index(handle.to)].push(*handle)?;
    }
    Ok(rows)
}

/// Of each vertex, from 0, what is in it, in the order of what is listed (own). It takes time
/// linear in vertices and handles, and is refused only where a growth of memory was. Condition: the
/// vertices of all that is listed are among so many.
pub(crate) fn by_source(
    alloc: Global,
    vertices: u32,
    handles: &[Holding],
) -> Result<Vec<Vec<Holding>>, AllocError>
    requires { All (IsAmong vertices) handles.now }
    ensures size { IfOk result (λ rows. length rows.items ≡ vertices + 1) }
    ensures rows { IfOk result (λ rows. (vertex : ℕ)
        → row_at rows.items vertex ≡ held_in handles.now vertex) }
{
    let mut rows = empty_rows(alloc, as_index(vertices) + 1)?;
    for handle in handles {
        rows[as_index(handle.from)].push(*handle)?;
    }
    Ok(rows)
}
