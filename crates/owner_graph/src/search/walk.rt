//! A walk back along owners, which shows whether one knot ends where some others are weak. Nothing
//! is proved of it: its result is a certificate, which is checked.
use crate::holding::{Holding, as_index};
use crate::index::Index;
use crate::search::components::{at, holding_at, put_at, zeros};
use crate::tie::marked;
use crate::weakening::{Weakening, is_weakened};
use std::alloc::{AllocError, Global};

/// The rank of a vertex on the way to where a walk is; 0 is that of one where it wasn't yet.
const ON_THE_WAY: usize = 1;

/// A walk: of each vertex a rank, which is greater than those of the vertices that its owners are
/// in, and how many of the handles on it were followed; the vertices where it was, those on the way
/// to where it is, and the next rank. And a ring: vertices that stay, since each has an owner in
/// another one, or elsewhere; and of each its place in the ring, from 1 on.
#[derive(Drop)]
pub(crate) struct Walk {
    pub(crate) ranks: Vec<usize>,
    followed: Vec<usize>,
    visited: Vec<usize>,
    path: Vec<usize>,
    next: usize,
    pub(crate) ring: Vec<usize>,
    pub(crate) places: Vec<usize>,
}

/// What a walk is in: a knot, by its least vertex, and which owners are weak.
#[derive(Clone, Copy, Drop)]
pub(crate) struct Knot {
    pub(crate) least: u32,
    pub(crate) weakening: Weakening,
}

impl Walk {
    pub(crate) fn new(alloc: Global, vertices: u32) -> Result<Walk, AllocError> {
        let size = as_index(vertices) + 1;
        Ok(Walk {
            ranks: zeros(alloc, size)?,
            followed: zeros(alloc, size)?,
            places: zeros(alloc, size)?,
            visited: Vec::new(alloc),
            path: Vec::new(alloc),
            ring: Vec::new(alloc),
            next: ON_THE_WAY,
        })
    }

    /// Forgets the walk before.
    fn clear(&mut self) {
        for index in 0..self.visited.len() {
            let vertex = at(self.visited.as_slice(), index);
            put_at(&mut self.ranks, vertex, 0);
            put_at(&mut self.followed, vertex, 0);
        }
        self.visited.clear();
        self.path.clear();
        self.ring.clear();
        self.next = ON_THE_WAY;
    }

    /// Goes on at a vertex.
    fn enter(&mut self, vertex: usize) -> Result<(), AllocError> {
        put_at(&mut self.ranks, vertex, ON_THE_WAY);
        self.visited.push(vertex)?;
        self.path.push(vertex)?;
        Ok(())
    }

    /// Goes back from a vertex, all of whose owners were followed.
    fn leave(&mut self, vertex: usize) {
        let _ = self.path.pop();
        self.next = self.next.saturating_add(1);
        put_at(&mut self.ranks, vertex, self.next);
    }

    /// The vertices on the way since this one stay.
    fn close(&mut self, first: usize) -> Result<(), AllocError> {
        for _vertex in 0..self.path.len() {
            let Some(vertex) = self.path.pop() else {
                break;
            };
            self.ring.push(vertex)?;
            put_at(&mut self.places, vertex, self.ring.len());
            if vertex == first {
                break;
            }
        }
        self.path.clear();
        Ok(())
    }

    /// Follows an owner of a vertex back to where it is.
    fn follow(
        &mut self,
        index: &Index,
        knots: &[usize],
        knot: Knot,
        vertex: usize,
        owner: usize,
    ) -> Result<(), AllocError> {
        if owner == 0 || at(knots, owner) != as_index(knot.least) {
            if owner == 0 || marked(index.stays.as_slice(), owner) {
                self.close(vertex)?;
            }
            return Ok(());
        }
        match at(self.ranks.as_slice(), owner) {
            0 => self.enter(owner),
            ON_THE_WAY => self.close(owner),
            _ => Ok(()),
        }
    }

    /// Follows the next owner of a vertex, or goes back.
    fn step(
        &mut self,
        index: &Index,
        knots: &[usize],
        knot: Knot,
        vertex: usize,
    ) -> Result<(), AllocError> {
        let place = at(self.followed.as_slice(), vertex);
        put_at(&mut self.followed, vertex, place.saturating_add(1));
        let Some(handle) = holding_at(index.rows.as_slice(), vertex, place) else {
            self.leave(vertex);
            return Ok(());
        };
        if handle.is_owner && !is_weakened(knots, knot.weakening, handle) {
            self.follow(index, knots, knot, vertex, as_index(handle.from))?;
        }
        Ok(())
    }

    /// Walks back from a vertex, until all that leads to it is ranked, or a vertex stays.
    fn walk_from(
        &mut self,
        index: &Index,
        knots: &[usize],
        knot: Knot,
        vertex: usize,
    ) -> Result<(), AllocError> {
        if at(self.ranks.as_slice(), vertex) > 0 {
            return Ok(());
        }
        self.enter(vertex)?;
        for _step in 0..usize::MAX {
            let Some(last) = self.path.last() else {
                break;
            };
            let last = *last;
            self.step(index, knots, knot, last)?;
        }
        Ok(())
    }

    /// Walks through a knot.
    pub(crate) fn run(
        &mut self,
        index: &Index,
        knots: &[usize],
        knot: Knot,
        members: &[Holding],
    ) -> Result<(), AllocError> {
        self.clear();
        for member in members {
            if !self.ring.is_empty() {
                break;
            }
            self.walk_from(index, knots, knot, as_index(member.from))?;
        }
        Ok(())
    }
}
