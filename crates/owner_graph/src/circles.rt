//! Circles: knots each of whose vertices has just one owner that counts. Each owner within a circle
//! is a cut.
ghost use Rattle.std.specs.Prelude.{◌≡◌, ◌≢◌, ◌≤◌, All, IsTrue, true};
ghost use Rattle.owner_graph.specs.Circles.{IsLinked, IsPlace, IsOnCircle};
ghost use Rattle.owner_graph.specs.Fed.{marked};
ghost use Rattle.owner_graph.specs.Labels.{at};

use crate::holding::{Holding, as_index};
use crate::search::components::{at, put_at, zeros};
use crate::tie::marked;
use std::alloc::{AllocError, Global};

/// Of each vertex the place of an owner on it, as a vertex and a slot, and a vertex that an owner
/// in it is on; and of each knot, by its least vertex, whether it is a circle. [`are_circles`]
/// checks it.
#[derive(Drop)]
pub(crate) struct Circles {
    pub(crate) sources: Vec<usize>,
    pub(crate) slots: Vec<usize>,
    pub(crate) targets: Vec<usize>,
    pub(crate) are: Vec<bool>,
}

impl Circles {
    /// No owner, on so many vertices.
    fn new(alloc: Global, vertices: u32) -> Result<Circles, AllocError> {
        let size = as_index(vertices) + 1;
        Ok(Circles {
            sources: zeros(alloc, size)?,
            slots: zeros(alloc, size)?,
            targets: zeros(alloc, size)?,
            are: vec![in alloc; true; size]?,
        })
    }

    /// Takes an owner in. A vertex of a circle has no other one, and none from elsewhere.
    fn add(&mut self, knots: &[usize], owner: Holding) {
        let from = as_index(owner.from);
        let to = as_index(owner.to);
        let knot = at(knots, to);
        if from > 0 && at(knots, from) == knot && at(self.sources.as_slice(), to) == 0 {
            put_at(&mut self.sources, to, from);
            put_at(&mut self.slots, to, as_index(owner.slot));
            put_at(&mut self.targets, from, to);
        } else if knot < self.are.len() {
            self.are[knot] = false;
        }
    }
}

/// Searches for circles, by which vertices stay.
pub(crate) fn find_circles(
    alloc: Global,
    vertices: u32,
    handles: &[Holding],
    knots: &[usize],
    stays: &[bool],
) -> Result<Circles, AllocError> {
    let mut circles = Circles::new(alloc, vertices)?;
    for handle in handles {
        if handle.is_owner && marked(stays, as_index(handle.from)) {
            circles.add(knots, *handle);
        }
    }
    Ok(circles)
}

/// Whether a handle is at the place that is recorded for a vertex.
fn is_place(circles: &Circles, vertex: usize, handle: Holding) -> bool
    ensures { IsTrue result → IsPlace circles.now vertex handle }
{
    as_index(handle.from) == at(circles.sources.as_slice(), vertex)
        && as_index(handle.slot) == at(circles.slots.as_slice(), vertex)
}

/// Whether an owner is on a vertex, and where it is in a vertex that stays, and on one of a circle,
/// at the place that is recorded for that.
fn is_linked(stays: &[bool], knots: &[usize], circles: &Circles, handle: Holding) -> bool
    ensures { IsTrue result → IsLinked stays.now knots.now circles.now handle }
{
    let to = as_index(handle.to);
    !handle.is_owner
        || (to > 0
            && (!marked(stays, as_index(handle.from))
                || !marked(circles.are.as_slice(), at(knots, to))
                || is_place(circles, to, handle)))
}

/// Whether the circles are found to be some.
pub(crate) fn are_circles(
    handles: &[Holding],
    knots: &[usize],
    stays: &[bool],
    circles: &Circles,
) -> bool
    ensures { IsTrue result → All (IsLinked stays.now knots.now circles.now) handles.now }
{
    handles
        .iter()
        .all(|handle| is_linked(stays, knots, circles, *handle))
}

/// Whether an owner is recorded as one within a circle.
pub(crate) fn is_on_circle(vertices: u32, knots: &[usize], circles: &Circles, tie: Holding) -> bool
    ensures { IsTrue result → IsOnCircle vertices knots.now circles.now tie }
{
    let knot = as_index(tie.to);
    let vertex = at(circles.targets.as_slice(), as_index(tie.from));
    vertex > 0
        && vertex <= as_index(vertices)
        && at(knots, vertex) == knot
        && marked(circles.are.as_slice(), knot)
        && is_place(circles, vertex, tie)
}
