//! What was found of a graph of owners, by the numbers of its vertices and handles.
ghost use Rattle.std.specs.Prelude.{◌≡◌, ◌==◌, IfOk};
ghost use Rattle.std.specs.List.{filter, flat_map, list_any};
ghost use Rattle.owner_graph.specs.Fed.{marked};
ghost use Rattle.owner_graph.specs.Findings.{pairs_at};
ghost use Rattle.owner_graph.specs.Labels.{at};
ghost use Rattle.owner_graph.specs.Rows.{row_at};
ghost use Rattle.owner_graph.specs.Ties.{is_tie};

use crate::findings::Findings;
use crate::holding::{Holding, as_index};
use crate::index::row;
use crate::label_pairs::{LabelPair, knot_ties};
use crate::search::components::at;
use crate::tie::{is_tie, marked};
use std::alloc::{AllocError, Global};

/// The pairs in a row; none where there are fewer.
fn pair_row(rows: &[Vec<LabelPair>], index: usize) -> &[LabelPair]
    ensures { result.now ≡ pairs_at rows.now index }
{
    if index < rows.len() {
        rows[index].as_slice()
    } else {
        &[]
    }
}

/// Whether one of these handles ties a knot.
fn has_one(found: &Findings, handles: &[Holding]) -> bool
    ensures { result ≡ list_any (is_tie found.now.kept.items found.now.knots.items) handles.now }
{
    handles.iter().any(|handle| found.is_tie(*handle))
}

// Each of these takes a number; of one past the last, nothing is so, and nothing is listed.
impl Findings {
    /// Whether a vertex is kept (own).
    pub fn is_kept(&self, vertex: u32) -> bool
        ensures { result ≡ marked self.now.kept.items vertex }
    {
        marked(self.kept.as_slice(), as_index(vertex))
    }

    /// Whether a vertex stays (own): it has not ended.
    pub fn stays(&self, vertex: u32) -> bool
        ensures { result ≡ marked self.now.index.stays.items vertex }
    {
        marked(self.index.stays.as_slice(), as_index(vertex))
    }

    /// Whether the handle at a place of the list is a cut (own).
    pub fn is_cut(&self, place: u32) -> bool
        ensures { result ≡ marked self.now.cuts.items place }
    {
        marked(self.cuts.as_slice(), as_index(place))
    }

    /// Whether a handle ties a knot of vertices that aren't kept (own).
    pub fn is_tie(&self, handle: Holding) -> bool
        ensures { result ≡ is_tie self.now.kept.items self.now.knots.items handle }
    {
        is_tie(handle, self.kept.as_slice(), self.knots.as_slice())
    }

    /// The handles on a vertex (own), in the order of the list.
    pub fn handles_on(&self, vertex: u32) -> &[Holding]
        ensures { result.now ≡ row_at self.now.index.rows.items vertex }
    {
        row(self.index.rows.as_slice(), as_index(vertex))
    }

    /// The handles in a vertex (own), in the order of the list.
    pub fn handles_in(&self, vertex: u32) -> &[Holding]
        ensures { result.now ≡ row_at self.now.sources.items vertex }
    {
        row(self.sources.as_slice(), as_index(vertex))
    }

    /// Whether a handle in a vertex ties its knot (own).
    pub fn has_tie(&self, vertex: u32) -> bool
        ensures { result ≡ list_any (is_tie self.now.kept.items self.now.knots.items)
            (row_at self.now.sources.items vertex) }
    {
        has_one(self, self.handles_in(vertex))
    }

    /// Whether a vertex is the least one of its knot (own).
    pub fn is_least(&self, vertex: u32) -> bool
        ensures { result ≡ (at self.now.knots.items vertex == vertex) }
    {
        at(self.knots.as_slice(), as_index(vertex)) == as_index(vertex)
    }

    /// The vertices of the knot with this least one (own), each as a handle in it.
    pub fn members_of(&self, least: u32) -> &[Holding]
        ensures { result.now ≡ row_at self.now.index.members.items least }
    {
        row(self.index.members.as_slice(), as_index(least))
    }

    /// The owners that tie the knot with this least vertex (own), in the order of its vertices.
    /// It is refused only where a growth of memory was.
    pub fn ties_of(&self, alloc: Global, least: u32) -> Result<Vec<Holding>, AllocError>
        ensures { IfOk result (λ ties. ties.items
            ≡ flat_map (λ m. filter (is_tie self.now.kept.items self.now.knots.items)
            (row_at self.now.sources.items m.from)) (row_at self.now.index.members.items least)) }
    {
        let (sources, kept) = (self.sources.as_slice(), self.kept.as_slice());
        let members = self.members_of(least);
        let ties = knot_ties(alloc, sources, kept, self.knots.as_slice(), members)?;
        Ok(ties)
    }

    /// The labels whose owners, made weak, would let the knot with this least vertex end (own).
    pub fn weakenings_of(&self, least: u32) -> &[LabelPair]
        ensures { result.now ≡ pairs_at self.now.weakenings.items least }
    {
        pair_row(self.weakenings.as_slice(), as_index(least))
    }
}
