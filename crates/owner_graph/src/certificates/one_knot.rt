//! Checks of a walk through one knot: that the knot ends where some owners are weak, or stays.
ghost use Rattle.std.specs.Prelude.{◌<◌, ◌≤◌, ℕ, All, IsTrue, length};
ghost use Rattle.owner_graph.specs.Ends.{is_weakened};
ghost use Rattle.owner_graph.specs.Labels.{at};
ghost use Rattle.owner_graph.specs.OneKnot.{HasHolder, Holds, IsListed, IsWitness, Rises};
ghost use Rattle.owner_graph.specs.Rows.{row_at};

use crate::holding::{Holding, as_index};
use crate::index::{Index, row};
use crate::search::components::at;
use crate::search::walk::{Knot, Walk};
use crate::tie::marked;
use crate::weakening::is_weakened;

/// Whether an owner on a vertex of the knot is weak, or in a vertex that ends, or in one of the
/// knot with a lesser rank.
fn rises(
    index: &Index,
    knots: &[usize],
    walk: &Walk,
    knot: Knot,
    vertex: usize,
    handle: Holding,
) -> bool
    ensures { IsTrue result → Rises (is_weakened knots.now knot.weakening) index.now.stays.items
        knots.now walk.now.ranks.items knot.least vertex handle }
{
    if !handle.is_owner || is_weakened(knots, knot.weakening, handle) {
        return true;
    }
    let from = as_index(handle.from);
    let ranks = walk.ranks.as_slice();
    !marked(index.stays.as_slice(), from)
        || (from > 0
            && at(knots, from) == as_index(knot.least)
            && at(ranks, from) < at(ranks, vertex))
}

/// Whether each of the handles is so.
fn all_rise(
    index: &Index,
    knots: &[usize],
    walk: &Walk,
    knot: Knot,
    vertex: usize,
    handles: &[Holding],
) -> bool
    ensures { IsTrue result → All (Rises (is_weakened knots.now knot.weakening)
        index.now.stays.items knots.now walk.now.ranks.items knot.least vertex) handles.now }
{
    handles
        .iter()
        .all(|handle| rises(index, knots, walk, knot, vertex, *handle))
}

/// Whether each of those on a vertex is.
fn has_risen(index: &Index, knots: &[usize], walk: &Walk, knot: Knot, vertex: usize) -> bool
    ensures { IsTrue result → All (Rises (is_weakened knots.now knot.weakening)
        index.now.stays.items knots.now walk.now.ranks.items knot.least vertex)
        (row_at index.now.rows.items vertex) }
{
    let handles = row(index.rows.as_slice(), vertex);
    all_rise(index, knots, walk, knot, vertex, handles)
}

/// Whether it is so of each vertex of the knot.
pub(crate) fn is_risen(
    index: &Index,
    knots: &[usize],
    walk: &Walk,
    knot: Knot,
    members: &[Holding],
) -> bool
    ensures { IsTrue result → All (λ m. All (Rises (is_weakened knots.now knot.weakening)
        index.now.stays.items knots.now walk.now.ranks.items knot.least m.from)
        (row_at index.now.rows.items m.from)) members.now }
{
    members.iter().all(|member| has_risen(index, knots, walk, knot, as_index(member.from)))
}

/// Whether a vertex is one of the ring.
fn is_listed(walk: &Walk, vertex: usize) -> bool
    ensures { IsTrue result → IsListed walk.now.ring.items vertex }
{
    let place = at(walk.places.as_slice(), vertex);
    place > 0 && place <= walk.ring.len() && at(walk.ring.as_slice(), place - 1) == vertex
}

/// Whether an owner isn't weak, and is outside, or in a vertex of the knot that is one of the ring,
/// or in another one that stays.
fn holds(index: &Index, knots: &[usize], walk: &Walk, knot: Knot, handle: Holding) -> bool
    ensures { IsTrue result → Holds (is_weakened knots.now knot.weakening) index.now.stays.items
        knots.now walk.now.ring.items knot.least handle }
{
    if !handle.is_owner || is_weakened(knots, knot.weakening, handle) {
        return false;
    }
    let from = as_index(handle.from);
    if from == 0 {
        return true;
    }
    if at(knots, from) == as_index(knot.least) {
        is_listed(walk, from)
    } else {
        marked(index.stays.as_slice(), from)
    }
}

/// Whether one of the handles is so.
#[tactic(auto, unfolding(crate::specs::OneKnot::HasHolder))]
fn has_holder(index: &Index, knots: &[usize], walk: &Walk, knot: Knot, handles: &[Holding]) -> bool
    ensures { IsTrue result → HasHolder (is_weakened knots.now knot.weakening)
        index.now.stays.items knots.now walk.now.ring.items knot.least handles.now }
{
    for handle in handles {
        if holds(index, knots, walk, knot, *handle) {
            return true;
        }
    }
    false
}

/// Whether one of those on a vertex is.
fn is_held(index: &Index, knots: &[usize], walk: &Walk, knot: Knot, vertex: usize) -> bool
    ensures { IsTrue result → HasHolder (is_weakened knots.now knot.weakening)
        index.now.stays.items knots.now walk.now.ring.items knot.least
        (row_at index.now.rows.items vertex) }
{
    let handles = row(index.rows.as_slice(), vertex);
    has_holder(index, knots, walk, knot, handles)
}

/// Whether it is so of each vertex of the ring.
fn are_held(index: &Index, knots: &[usize], walk: &Walk, knot: Knot, ring: &[usize]) -> bool
    ensures { IsTrue result → All (λ b. HasHolder (is_weakened knots.now knot.weakening)
        index.now.stays.items knots.now walk.now.ring.items knot.least
        (row_at index.now.rows.items b)) ring.now }
{
    ring.iter()
        .all(|vertex| is_held(index, knots, walk, knot, *vertex))
}

/// Whether the ring has a first vertex, which is one of the knot.
fn has_witness(vertices: u32, knots: &[usize], walk: &Walk, knot: Knot) -> bool
    ensures { IsTrue result → 0 < length walk.now.ring.items
        × IsWitness vertices knots.now knot.least (at walk.now.ring.items 0) }
{
    let first = at(walk.ring.as_slice(), 0);
    walk.ring.len() > 0
        && first > 0
        && first <= as_index(vertices)
        && at(knots, first) == as_index(knot.least)
}

/// Whether the knot is found to stay.
pub(crate) fn is_stuck(
    vertices: u32,
    index: &Index,
    knots: &[usize],
    walk: &Walk,
    knot: Knot,
) -> bool
    ensures witness { IsTrue result → 0 < length walk.now.ring.items
        × IsWitness vertices knots.now knot.least (at walk.now.ring.items 0) }
    ensures holders { IsTrue result → All (λ b. HasHolder (is_weakened knots.now knot.weakening)
        index.now.stays.items knots.now walk.now.ring.items knot.least
        (row_at index.now.rows.items b)) walk.now.ring.items }
{
    has_witness(vertices, knots, walk, knot)
        && are_held(index, knots, walk, knot, walk.ring.as_slice())
}
