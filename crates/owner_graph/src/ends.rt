//! Which vertices end where some owners are weak.
ghost use Rattle.std.specs.Prelude.{◌≡◌, ◌↔◌, ◌+◌, ◌≤◌, ℕ, All, IfOk, IsTrue, false, length};
ghost use Rattle.std.specs.Prelude.{slice_index_or, vec_len};
ghost use Rattle.owner_graph.specs.Ends.{EndsWithOwners, EndsWithout, is_weakened, without};
ghost use Rattle.owner_graph.specs.Fed.{Feeds, IsFed, IsLess, Starves};
ghost use Rattle.owner_graph.specs.Knots.{KnotsAre};
ghost use Rattle.owner_graph.specs.Owners.{IsAmong};

use crate::holding::{Holding, as_index};
use crate::search::components::at;
use crate::search::layers::{are_layers, find_layers};
use crate::weakening::{Weakening, is_weakened};
use std::alloc::{AllocError, Global};

/// Whether a handle is an owner that isn't to be weak, in a vertex that stays.
fn feeds(knots: &[usize], weakening: Weakening, handle: Holding, stays: &[bool]) -> bool
    ensures { IsTrue result ↔ Feeds (is_weakened knots.now weakening) stays.now handle }
{
    if is_weakened(knots, weakening, handle) || !handle.is_owner {
        return false;
    }
    let from = as_index(handle.from);
    from < stays.len() && stays[from]
}

/// Marks the vertices on which an owner is that is not to be weak, in a vertex that stays.
pub(crate) fn fed_by(
    alloc: Global,
    handles: &[Holding],
    knots: &[usize],
    weakening: Weakening,
    stays: &[bool],
) -> Result<Vec<bool>, AllocError>
    ensures { IfOk result (λ fed. IsFed (without
        (is_weakened knots.now weakening) handles.now) stays.now fed.items) }
{
    let mut fed = vec![in alloc; false; stays.len()]?;
    for handle in handles {
        let vertex = as_index(handle.to);
        if vertex >= fed.len() {
            continue;
        }
        if !feeds(knots, weakening, *handle, stays) {
            continue;
        }
        fed[vertex] = true;
    }
    Ok(fed)
}

/// Lets the vertices stay no longer, but for number 0, that weren't fed. Answers whether there was
/// one.
fn starve(stays: &mut Vec<bool>, fed: &[bool]) -> bool
    requires { vec_len stays.old ≡ length fed.now }
    ensures starves { Starves fed.now stays.old.items stays.new.items }
    ensures less { IsLess result fed.now stays.old.items stays.new.items }
{
    let mut found = false;
    for vertex in 0..fed.len() {
        if vertex == 0 || fed[vertex] || !stays[vertex] {
            continue;
        }
        stays[vertex] = false;
        found = true;
    }
    found
}

/// Which vertices stay, where some owners are weak: all but those that end. It takes as many rounds
/// as the longest of the paths by which vertices end has vertices.
fn by_rounds(
    alloc: Global,
    vertices: u32,
    handles: &[Holding],
    knots: &[usize],
    weakening: Weakening,
) -> Result<Vec<bool>, AllocError>
    requires { All (IsAmong vertices) handles.now }
    ensures size { IfOk result (λ stays. length stays.items ≡ vertices + 1) }
    ensures ends { IfOk result (λ stays. (b : ℕ) → b ≤ vertices
        → slice_index_or stays.items b false ≡ false ↔ EndsWithOwners
        (without (is_weakened knots.now weakening) handles.now) b) }
{
    let mut stays = vec![in alloc; true; as_index(vertices) + 1]?;
    loop {
        let fed = fed_by(alloc, handles, knots, weakening, stays.as_slice())?;
        if !starve(&mut stays, fed.as_slice()) {
            return Ok(stays);
        }
    }
}

/// Which vertices stay where some owners are weak. A search finds them, and where the check of its
/// certificate passes, this takes time linear in vertices and handles.
pub(crate) fn staying(
    alloc: Global,
    vertices: u32,
    handles: &[Holding],
    knots: &[usize],
    weakening: Weakening,
) -> Result<Vec<bool>, AllocError>
    requires { All (IsAmong vertices) handles.now }
    ensures size { IfOk result (λ stays. length stays.items ≡ vertices + 1) }
    ensures ends { IfOk result (λ stays. (b : ℕ) → b ≤ vertices
        → slice_index_or stays.items b false ≡ false ↔ EndsWithOwners
        (without (is_weakened knots.now weakening) handles.now) b) }
{
    let layers = find_layers(alloc, vertices, handles, knots, weakening)?;
    if are_layers(alloc, vertices, handles, knots, weakening, &layers)? {
        return Ok(layers.stays);
    }
    by_rounds(alloc, vertices, handles, knots, weakening)
}

/// Whether each vertex of the knot of a vertex would end, if some owners were weak (own). The least
/// vertex of each one's knot is what [`crate::knots`] gives. It takes time linear in vertices and
/// handles, and is refused only where a growth of memory was. Conditions: the vertices of all
/// handles are among so many, and the vertex is one of them, from 1.
pub fn is_cut(
    alloc: Global,
    vertices: u32,
    handles: &[Holding],
    knots: &[usize],
    vertex: u32,
    weakening: Weakening,
) -> Result<bool, AllocError>
    requires among { All (IsAmong vertices) handles.now }
    requires knots { KnotsAre vertices handles.now knots.now }
    requires vertex { (1 ≤ vertex) × (vertex ≤ vertices) }
    ensures { IfOk result (λ is. IsTrue is ↔ EndsWithout vertices handles.now
        (is_weakened knots.now weakening) vertex) }
{
    let stays = staying(alloc, vertices, handles, knots, weakening)?;
    let least = at(knots, as_index(vertex));
    for before in 0..vertices {
        let number = as_index(before) + 1;
        if at(knots, number) != least {
            continue;
        }
        if stays[number] {
            return Ok(false);
        }
    }
    Ok(true)
}
