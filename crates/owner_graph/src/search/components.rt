//! A search for the knots, against the owners' direction. Nothing is proved of it: its result is a
//! certificate, which is checked.
ghost use Rattle.std.specs.Prelude.{◌≡◌};
ghost use Rattle.owner_graph.specs.Labels.{at};

use crate::holding::{Holding, as_index};
use std::alloc::{AllocError, Global};

/// The number at a place of a list; 0 past its end.
pub(crate) fn at(list: &[usize], index: usize) -> usize
    ensures { result ≡ at list.now index }
{
    if index < list.len() { list[index] } else { 0 }
}

/// Puts a number at a place of a list, if it has it.
pub(crate) fn put_at(list: &mut Vec<usize>, index: usize, number: usize) {
    if index < list.len() {
        list[index] = number;
    }
}

/// So many zeros.
pub(crate) fn zeros(alloc: Global, count: usize) -> Result<Vec<usize>, AllocError> {
    Ok(vec![in alloc; 0; count]?)
}

/// What is on a vertex, by its place in the vertex's row, if there are so many.
pub(crate) fn holding_at(rows: &[Vec<Holding>], vertex: usize, index: usize) -> Option<Holding> {
    if vertex < rows.len() && index < rows[vertex].len() {
        Some(rows[vertex][index])
    } else {
        None
    }
}

/// Of each vertex the rank of its knot, from 1, and of each rank the least vertex; no rank falls
/// from an owner's vertex to the one that it is on.
#[derive(Drop)]
pub(crate) struct KnotCertificate {
    pub(crate) ranks: Vec<usize>,
    pub(crate) firsts: Vec<usize>,
}

/// A search: when each vertex was found, from 1, the earliest still open vertex that it leads back
/// to, how many of the handles on it were followed, the vertices on the way to where the search is,
/// and those whose knot isn't known.
#[derive(Drop)]
struct ComponentSearch {
    places: Vec<usize>,
    lows: Vec<usize>,
    followed: Vec<usize>,
    path: Vec<usize>,
    open: Vec<usize>,
    found: usize,
    certificate: KnotCertificate,
}

impl KnotCertificate {
    fn new(alloc: Global, size: usize) -> Result<KnotCertificate, AllocError> {
        Ok(KnotCertificate {
            ranks: zeros(alloc, size)?,
            firsts: zeros(alloc, 1)?,
        })
    }
}

impl ComponentSearch {
    fn new(alloc: Global, size: usize) -> Result<ComponentSearch, AllocError> {
        Ok(ComponentSearch {
            places: zeros(alloc, size)?,
            lows: zeros(alloc, size)?,
            followed: zeros(alloc, size)?,
            certificate: KnotCertificate::new(alloc, size)?,
            path: Vec::new(alloc),
            open: Vec::new(alloc),
            found: 0,
        })
    }

    /// Goes on at a vertex that wasn't found yet.
    fn enter(&mut self, vertex: usize) -> Result<(), AllocError> {
        self.path.push(vertex)?;
        self.open.push(vertex)?;
        self.found = self.found.saturating_add(1);
        put_at(&mut self.places, vertex, self.found);
        put_at(&mut self.lows, vertex, self.found);
        Ok(())
    }

    /// A vertex leads back to one that was found at this place.
    fn lower(&mut self, vertex: usize, place: usize) {
        if place < at(self.lows.as_slice(), vertex) {
            put_at(&mut self.lows, vertex, place);
        }
    }

    /// Follows an owner of a vertex back to where it is.
    fn follow(&mut self, vertex: usize, owner: usize) -> Result<(), AllocError> {
        let place = at(self.places.as_slice(), owner);
        if place == 0 {
            return self.enter(owner);
        }
        if at(self.certificate.ranks.as_slice(), owner) == 0 {
            self.lower(vertex, place);
        }
        Ok(())
    }

    /// What is open since a vertex was found is its knot.
    fn close(&mut self, vertex: usize) -> Result<(), AllocError> {
        let rank = self.certificate.firsts.len();
        let mut first = vertex;
        while let Some(member) = self.open.pop() {
            put_at(&mut self.certificate.ranks, member, rank);
            if member < first {
                first = member;
            }
            if member == vertex {
                break;
            }
        }
        self.certificate.firsts.push(first)?;
        Ok(())
    }

    /// Goes back from a vertex, all of whose owners were followed.
    fn leave(&mut self, vertex: usize) -> Result<(), AllocError> {
        let _ = self.path.pop();
        let low = at(self.lows.as_slice(), vertex);
        if low == at(self.places.as_slice(), vertex) {
            self.close(vertex)?;
        }
        if let Some(before) = self.path.last() {
            let before = *before;
            self.lower(before, low);
        }
        Ok(())
    }

    /// Follows the next owner of a vertex, or goes back.
    fn step(&mut self, rows: &[Vec<Holding>], vertex: usize) -> Result<(), AllocError> {
        let index = at(self.followed.as_slice(), vertex);
        put_at(&mut self.followed, vertex, index.saturating_add(1));
        let Some(handle) = holding_at(rows, vertex, index) else {
            return self.leave(vertex);
        };
        let owner = as_index(handle.from);
        if owner > 0 && handle.is_owner {
            self.follow(vertex, owner)?;
        }
        Ok(())
    }

    /// Goes on from a vertex until all that lead to it are found. It takes so many steps at most.
    fn run(&mut self, rows: &[Vec<Holding>], vertex: usize, most: usize) -> Result<(), AllocError> {
        if at(self.places.as_slice(), vertex) > 0 {
            return Ok(());
        }
        self.enter(vertex)?;
        for _step in 0..most {
            let Some(last) = self.path.last() else {
                return Ok(());
            };
            let last = *last;
            self.step(rows, last)?;
        }
        Ok(())
    }
}

/// Searches for the knots, where so many handles are on so many vertices.
pub(crate) fn find_components(
    alloc: Global,
    vertices: u32,
    handles: usize,
    rows: &[Vec<Holding>],
) -> Result<KnotCertificate, AllocError> {
    let size = as_index(vertices) + 1;
    let most = handles.saturating_add(size);
    let mut search = ComponentSearch::new(alloc, size)?;
    for before in 0..vertices {
        search.run(rows, as_index(before) + 1, most)?;
    }
    Ok(search.certificate)
}
