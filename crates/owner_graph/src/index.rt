//! What is asked again and again of a graph of owners, looked up once.
ghost use Rattle.std.specs.Prelude.{◌≡◌, ◌↔◌, ◌+◌, ◌≤◌, ℕ, All, IfOk, false, length};
ghost use Rattle.owner_graph.specs.Ends.{EndsWithOwners};
ghost use Rattle.owner_graph.specs.Fed.{marked};
ghost use Rattle.owner_graph.specs.Indices.{IsIndex};
ghost use Rattle.owner_graph.specs.Knots.{KnotsAre};
ghost use Rattle.owner_graph.specs.Labels.{at};
ghost use Rattle.owner_graph.specs.Members.{home, homes};
ghost use Rattle.owner_graph.specs.Owners.{IsAmong};
ghost use Rattle.owner_graph.specs.Rows.{held_on, row_at};

use crate::ends::staying;
use crate::holding::{Holding, as_index};
use crate::rows::by_vertex;
use crate::search::components::at;
use crate::weakening::Weakening;
use std::alloc::{AllocError, Global};

/// Of each vertex the handles on it, and whether it stays where no owner is weak; and of each knot,
/// by its least vertex, its vertices (own).
#[derive(Drop)]
pub struct Index {
    pub rows: Vec<Vec<Holding>>,
    pub members: Vec<Vec<Holding>>,
    pub stays: Vec<bool>,
}

/// The row with a number; an empty one where there are fewer.
pub fn row(rows: &[Vec<Holding>], index: usize) -> &[Holding]
    ensures { result.now ≡ row_at rows.now index }
{
    if index < rows.len() {
        rows[index].as_slice()
    } else {
        &[]
    }
}

/// Which vertices stay (own): all but those that end, each of whose owners is in a vertex that
/// ends. It takes time linear in vertices and handles, and is refused only where a growth of memory
/// was. Condition: the vertices of all handles are among so many.
pub(crate) fn stays(
    alloc: Global,
    vertices: u32,
    handles: &[Holding],
) -> Result<Vec<bool>, AllocError>
    requires { All (IsAmong vertices) handles.now }
    ensures size { IfOk result (λ stays. length stays.items ≡ vertices + 1) }
    ensures ends { IfOk result (λ stays. (b : ℕ) → b ≤ vertices
        → marked stays.items b ≡ false ↔ EndsWithOwners handles.now b) }
{
    let stays = staying(alloc, vertices, handles, &[], Weakening::Nobody)?;
    Ok(stays)
}

/// A vertex, as a handle in it on the least of its knot.
fn home(knots: &[usize], vertex: u32) -> Holding
    requires { at knots.now vertex ≤ 4294967295 }
    ensures { result ≡ home knots.now vertex }
{
    Holding {
        from: vertex,
        to: at(knots, as_index(vertex)) as u32,
        slot: 0,
        label: 0,
        is_owner: false,
    }
}

/// All vertices, from 1, so.
fn homes(alloc: Global, vertices: u32, knots: &[usize]) -> Result<Vec<Holding>, AllocError>
    requires { (b : ℕ) → 1 ≤ b → b ≤ vertices → at knots.now b ≤ vertices }
    ensures homes { IfOk result (λ v. v.items ≡ homes knots.now vertices) }
    ensures among { IfOk result (λ v. All (IsAmong vertices) v.items) }
{
    let mut homes = Vec::new(alloc);
    for before in 0..vertices {
        homes.push(home(knots, before + 1))?;
    }
    Ok(homes)
}

/// Of each knot, by its least vertex, its vertices in order, each as a handle in it (own). It takes
/// time linear in vertices, and is refused only where a growth of memory was.
pub(crate) fn members(
    alloc: Global,
    vertices: u32,
    handles: &[Holding],
    knots: &[usize],
) -> Result<Vec<Vec<Holding>>, AllocError>
    requires among { All (IsAmong vertices) handles.now }
    requires knots { KnotsAre vertices handles.now knots.now }
    ensures { IfOk result (λ rows. (k : ℕ) → row_at rows.items k ≡ held_on
        (homes knots.now vertices) k) }
{
    let homes = homes(alloc, vertices, knots)?;
    let rows = by_vertex(alloc, vertices, homes.as_slice())?;
    Ok(rows)
}

impl Index {
    /// Looks all of it up, in time linear in vertices and handles. It is refused only where a
    /// growth of memory was.
    pub(crate) fn new(
        alloc: Global,
        vertices: u32,
        handles: &[Holding],
        knots: &[usize],
    ) -> Result<Index, AllocError>
        requires among { All (IsAmong vertices) handles.now }
        requires knots { KnotsAre vertices handles.now knots.now }
        ensures { IfOk result (λ index. IsIndex vertices handles.now knots.now index) }
    {
        Ok(Index {
            rows: by_vertex(alloc, vertices, handles)?,
            members: members(alloc, vertices, handles, knots)?,
            stays: stays(alloc, vertices, handles)?,
        })
    }
}
