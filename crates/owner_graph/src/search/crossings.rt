//! A search for the owners of rings that no detour passes by, and for rings that leave out all
//! others. Nothing is proved of it: its result is a certificate, which is checked.
use crate::holding::{Holding, as_index};
use crate::search::backs::Backs;
use crate::search::components::{at, put_at, zeros};
use crate::search::detours::{Detours, Placed};
use std::alloc::{AllocError, Global};

/// Ways back by which rings take detours: in turn those that lead forth along a ring, and of those
/// that lead back the one to the greatest place, and the one from the least. Of each vertex whether
/// the ring's owner in it is passed by no detour; of each knot, by its least vertex, the numbers of
/// its first stage and of that after its last; and how many stages there are.
#[derive(Drop)]
pub(crate) struct Crossings {
    pub(crate) forth: Backs,
    pub(crate) forth_again: Backs,
    pub(crate) back: Backs,
    pub(crate) back_again: Backs,
    pub(crate) exits: Vec<bool>,
    pub(crate) firsts: Vec<usize>,
    pub(crate) afters: Vec<usize>,
    stages: usize,
}

/// A sweep along a ring from its last place: the least place from which a detour leads to a vertex
/// behind, and that vertex; the place from which the detour leads that was taken last; and which of
/// two ways back takes the next one.
#[derive(Clone, Copy, Drop)]
struct Sweep {
    low: usize,
    vertex: usize,
    passed: usize,
    is_second: bool,
}

/// Takes the detour to a vertex.
fn lead(backs: &mut Backs, detour: &Backs, placed: &Placed, end: usize) {
    let mut vertex = end;
    for _step in 0..placed.places.of.len() {
        backs.put(detour.on(vertex));
        vertex = detour.before(vertex);
        if vertex == 0 || at(placed.places.of.as_slice(), vertex) > 0 {
            break;
        }
    }
}

/// Takes the detour from a vertex.
fn lead_from(backs: &mut Backs, detours: &Detours, placed: &Placed, start: usize) {
    let mut vertex = start;
    for _step in 0..placed.places.of.len() {
        if vertex >= detours.end_owners.len() {
            break;
        }
        let owner = detours.end_owners[vertex];
        backs.put(owner);
        vertex = as_index(owner.to);
        if vertex == 0 || at(placed.places.of.as_slice(), vertex) > 0 {
            break;
        }
    }
}

impl Crossings {
    fn new(alloc: Global, vertices: u32, backs: &Backs) -> Result<Crossings, AllocError> {
        let size = as_index(vertices) + 1;
        Ok(Crossings {
            forth: backs.copied(alloc)?,
            forth_again: backs.copied(alloc)?,
            back: backs.copied(alloc)?,
            back_again: backs.copied(alloc)?,
            exits: vec![in alloc; false; size]?,
            firsts: zeros(alloc, size)?,
            afters: zeros(alloc, size)?,
            stages: 0,
        })
    }

    /// The ring's owner in the vertex at this place is passed by a detour, or by none.
    fn pass(&mut self, placed: &Placed, detours: &Detours, sweep: Sweep, place: usize) -> Sweep {
        if sweep.passed > 0 && place >= sweep.passed {
            return sweep;
        }
        if sweep.low == 0 || sweep.low > place {
            let vertex = at(placed.places.vertices.as_slice(), place);
            if vertex < self.exits.len() {
                self.exits[vertex] = true;
                self.stages = self.stages.saturating_add(1);
            }
            return sweep;
        }
        if sweep.is_second {
            lead(
                &mut self.forth_again,
                &detours.low_backs,
                placed,
                sweep.vertex,
            );
        } else {
            lead(&mut self.forth, &detours.low_backs, placed, sweep.vertex);
        }
        Sweep {
            passed: sweep.low,
            is_second: !sweep.is_second,
            ..sweep
        }
    }

    /// Sweeps along the ring of a knot between two places.
    fn sweep(&mut self, placed: &Placed, detours: &Detours, knot: usize, begin: usize, end: usize) {
        let first = at(placed.places.firsts.as_slice(), knot);
        let last = at(placed.places.lasts.as_slice(), knot);
        let mut sweep = Sweep {
            low: 0,
            vertex: 0,
            passed: 0,
            is_second: false,
        };
        for step in first..last.saturating_add(1) {
            let place = last.saturating_sub(step - first);
            if place >= begin && place < end {
                sweep = self.pass(placed, detours, sweep, place);
            }
            let vertex = at(placed.places.vertices.as_slice(), place);
            let low = at(detours.lows.as_slice(), vertex);
            if low > 0 && low < place && (sweep.low == 0 || low < sweep.low) {
                sweep.low = low;
                sweep.vertex = vertex;
            }
        }
    }

    /// Takes the detours that lead back to the greatest place and from the least, and sweeps along
    /// what is between.
    fn cross(&mut self, placed: &Placed, detours: &Detours, knot: usize) {
        let first = at(placed.places.firsts.as_slice(), knot);
        let last = at(placed.places.lasts.as_slice(), knot);
        let mut begin = first;
        let mut end = last.saturating_add(1);
        for place in first..last.saturating_add(1) {
            let vertex = at(placed.places.vertices.as_slice(), place);
            if at(detours.highs.as_slice(), vertex) > place {
                begin = place;
            }
            let least = at(detours.ends.as_slice(), vertex);
            if least > 0 && least < place && place < end {
                end = place;
            }
        }
        if begin > first {
            let vertex = at(placed.places.vertices.as_slice(), begin);
            lead(&mut self.back, &detours.high_backs, placed, vertex);
        }
        if end <= last {
            let vertex = at(placed.places.vertices.as_slice(), end);
            lead_from(&mut self.back_again, detours, placed, vertex);
        }
        self.sweep(placed, detours, knot, begin, end);
    }
}

/// Searches along the rings of all knots that are open.
pub(crate) fn find_crossings(
    alloc: Global,
    vertices: u32,
    backs: &Backs,
    placed: &Placed,
    detours: &Detours,
    are_open: &[bool],
) -> Result<Crossings, AllocError> {
    let mut crossings = Crossings::new(alloc, vertices, backs)?;
    for knot in 0..are_open.len() {
        put_at(&mut crossings.firsts, knot, crossings.stages);
        if are_open[knot] && at(placed.places.firsts.as_slice(), knot) > 0 {
            crossings.cross(placed, detours, knot);
        }
        put_at(&mut crossings.afters, knot, crossings.stages);
    }
    Ok(crossings)
}
