//! A search for the vertices that end where some owners are weak, and the check of what it found.
ghost use Rattle.std.specs.Prelude.{◌≡◌, ◌≢◌, ◌↔◌, ◌+◌, ◌≤◌, ℕ, All, IfOk, IsTrue};
ghost use Rattle.std.specs.Prelude.{false, length, true};
ghost use Rattle.owner_graph.specs.Ends.{EndsWithOwners, is_weakened, without};
ghost use Rattle.owner_graph.specs.Fed.{marked};
ghost use Rattle.owner_graph.specs.Layers.{AllFed, EndsLater};
ghost use Rattle.owner_graph.specs.Owners.{IsAmong};

use crate::ends::fed_by;
use crate::holding::{Holding, as_index};
use crate::search::components::{at, put_at, zeros};
use crate::search::order::TopologicalOrder;
use crate::tie::marked;
use crate::weakening::{Weakening, is_weakened};
use std::alloc::{AllocError, Global};

/// Which vertices stay, and of the others a rank, which is greater than that of each owner's
/// vertex.
#[derive(Drop)]
pub(crate) struct Layers {
    pub(crate) stays: Vec<bool>,
    pub(crate) ranks: Vec<usize>,
}

impl Layers {
    /// All vertices stay.
    fn new(alloc: Global, size: usize) -> Result<Layers, AllocError> {
        Ok(Layers {
            stays: vec![in alloc; true; size]?,
            ranks: zeros(alloc, size)?,
        })
    }

    /// A vertex ends, with this rank.
    fn end(&mut self, vertex: usize, rank: usize) {
        put_at(&mut self.ranks, vertex, rank);
        if vertex < self.stays.len() {
            self.stays[vertex] = false;
        }
    }

    /// Vertices end in an order.
    fn end_all(&mut self, order: &[usize]) {
        for rank in 0..order.len() {
            self.end(order[rank], rank);
        }
    }
}

/// All vertices, from 1, in an order in which no owner leads back that isn't to be weak, as far as
/// there is one.
fn ordered(
    alloc: Global,
    vertices: u32,
    handles: &[Holding],
    knots: &[usize],
    weakening: Weakening,
) -> Result<Vec<usize>, AllocError> {
    let mut ordering = TopologicalOrder::new(alloc, vertices, handles.len())?;
    for index in 0..handles.len() {
        let handle = handles[index];
        if handle.is_owner && !is_weakened(knots, weakening, handle) {
            ordering.add(handles, index + 1);
        }
    }
    ordering.run(handles, as_index(vertices))?;
    Ok(ordering.order)
}

/// Searches for the vertices that end where some owners are weak.
pub(crate) fn find_layers(
    alloc: Global,
    vertices: u32,
    handles: &[Holding],
    knots: &[usize],
    weakening: Weakening,
) -> Result<Layers, AllocError> {
    let order = ordered(alloc, vertices, handles, knots, weakening)?;
    let mut layers = Layers::new(alloc, as_index(vertices) + 1)?;
    layers.end_all(order.as_slice());
    Ok(layers)
}

/// Whether a handle, where it is an owner that isn't to be weak, and on a vertex that doesn't stay,
/// is in one that doesn't either, and whose rank is less.
fn ends_later(knots: &[usize], weakening: Weakening, handle: Holding, layers: &Layers) -> bool
    ensures { IsTrue result → EndsLater (is_weakened knots.now weakening) layers.now.stays.items
        layers.now.ranks.items handle }
{
    let stays = layers.stays.as_slice();
    let ranks = layers.ranks.as_slice();
    let from = as_index(handle.from);
    let to = as_index(handle.to);
    if is_weakened(knots, weakening, handle) || !handle.is_owner || marked(stays, to) {
        return true;
    }
    !marked(stays, from) && at(ranks, from) < at(ranks, to)
}

/// The same of all handles.
fn end_later(handles: &[Holding], knots: &[usize], weakening: Weakening, layers: &Layers) -> bool
    ensures { IsTrue result
        → All (EndsLater (is_weakened knots.now weakening) layers.now.stays.items
        layers.now.ranks.items) handles.now }
{
    handles
        .iter()
        .all(|handle| ends_later(knots, weakening, *handle, layers))
}

/// Whether there is a mark for each vertex, and one at 0.
fn are_marks(vertices: u32, layers: &Layers) -> bool
    ensures { IsTrue result → (length layers.now.stays.items ≡ vertices + 1)
        × (marked layers.now.stays.items 0 ≡ true) }
{
    layers.stays.len() == as_index(vertices) + 1 && marked(layers.stays.as_slice(), 0)
}

/// Whether a vertex is fed, where it stays and isn't number 0.
fn is_fed(stays: &[bool], fed: &[bool], vertex: usize) -> bool
    ensures { IsTrue result → vertex ≢ 0 → marked stays.now vertex ≡ true
        → marked fed.now vertex ≡ true }
{
    vertex == 0 || !marked(stays, vertex) || marked(fed, vertex)
}

/// Whether each vertex is.
fn are_fed(stays: &[bool], fed: &[bool]) -> bool
    ensures { IsTrue result → AllFed stays.now fed.now }
{
    for vertex in 0..stays.len() {
        if !is_fed(stays, fed, vertex) {
            return false;
        }
    }
    true
}

/// Whether the layers pass: each vertex that stays is fed, and each other one ends.
pub(crate) fn are_layers(
    alloc: Global,
    vertices: u32,
    handles: &[Holding],
    knots: &[usize],
    weakening: Weakening,
    layers: &Layers,
) -> Result<bool, AllocError>
    requires { All (IsAmong vertices) handles.now }
    ensures size { IfOk result (λ are. IsTrue are → length layers.now.stays.items ≡ vertices + 1) }
    ensures ends { IfOk result (λ are. IsTrue are → (b : ℕ) → b ≤ vertices
        → marked layers.now.stays.items b ≡ false ↔ EndsWithOwners (without
        (is_weakened knots.now weakening) handles.now) b) }
{
    if !are_marks(vertices, layers) {
        return Ok(false);
    }
    if !end_later(handles, knots, weakening, layers) {
        return Ok(false);
    }
    let stays = layers.stays.as_slice();
    let fed = fed_by(alloc, handles, knots, weakening, stays)?;
    Ok(are_fed(stays, fed.as_slice()))
}
