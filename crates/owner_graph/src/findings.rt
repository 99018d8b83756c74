//! All that is found of a graph of owners.
ghost use Rattle.std.specs.Prelude.{◌≡◌, ◌↔◌, ◌+◌, ◌<◌, ◌≤◌, ℕ, All, IfOk, IsTrue, length, true};
ghost use Rattle.owner_graph.specs.Circles.{IsLinked};
ghost use Rattle.owner_graph.specs.Ends.{EndsWhenCut};
ghost use Rattle.owner_graph.specs.Fed.{marked};
ghost use Rattle.owner_graph.specs.Findings.{AreFindings, pairs_at};
ghost use Rattle.owner_graph.specs.Indices.{IsIndex};
ghost use Rattle.owner_graph.specs.Knots.{KnotsAre};
ghost use Rattle.owner_graph.specs.Labels.{at};
ghost use Rattle.owner_graph.specs.Owners.{IsAmong, IsKept};
ghost use Rattle.owner_graph.specs.Rings.{IsRing};
ghost use Rattle.owner_graph.specs.Rows.{handle_listed, held_in, row_at};
ghost use Rattle.owner_graph.specs.Stages.{IsStaged};
ghost use Rattle.owner_graph.specs.Ties.{is_tie};
ghost use Rattle.owner_graph.specs.Weakenings.{AreWeakenings, knot_ties, labels_of};

use crate::directed_graph::GraphError;
use crate::holding::{Holding, as_index};
use crate::index::{Index, row};
use crate::label_pairs::{LabelPair, knot_ties, weakenings_of};
use crate::labels::knots;
use crate::reachability::kept;
use crate::rows::by_source;
use crate::search::components::at;
use crate::search::walk::Walk;
use crate::tie::{Lookup, is_cut_by, is_tie, look_up};
use std::alloc::{AllocError, Global};

/// What is found of a graph of owners (own): which vertices are kept, the least vertex of each
/// one's knot, which stay, the handles in each vertex and on it, which of all handles are cuts, and
/// of each knot, by its least vertex, the labels whose owners, made weak, would let it end.
#[derive(Drop)]
pub struct Findings {
    pub kept: Vec<bool>,
    pub knots: Vec<usize>,
    pub index: Index,
    pub sources: Vec<Vec<Holding>>,
    pub cuts: Vec<bool>,
    pub weakenings: Vec<Vec<LabelPair>>,
}

/// Which vertices are kept, where those of all handles are among so many.
fn marks_of(alloc: Global, vertices: u32, handles: &[Holding]) -> Result<Vec<bool>, AllocError>
    requires { All (IsAmong vertices) handles.now }
    ensures { IfOk result (λ v. (b : ℕ) → b ≤ vertices → marked v.items b ≡ true
        ↔ IsKept handles.now b) }
{
    match kept(alloc, vertices, handles) {
        Ok(marks) => Ok(marks),
        Err(GraphError::Memory) => Err(AllocError),
        Err(GraphError::Outside) => unreachable!(),
    }
}

/// Whether a handle ties a knot, and is a cut.
fn is_cut_tie(
    alloc: Global,
    vertices: u32,
    handles: &[Holding],
    kept: &[bool],
    knots: &[usize],
    lookup: &Lookup,
    walk: &mut Walk,
    handle: Holding,
) -> Result<bool, AllocError>
    requires among { All (IsAmong vertices) handles.now }
    requires knots { KnotsAre vertices handles.now knots.now }
    requires circles { IsTrue lookup.now.are_circles
        → All (IsLinked lookup.now.index.stays.items knots.now lookup.now.circles) handles.now }
    requires index { IsIndex vertices handles.now knots.now lookup.now.index }
    requires rings { All (IsRing vertices lookup.now.index knots.now)
        lookup.now.knot_rings.rings.items }
    requires stages { IsTrue lookup.now.knot_rings.are_stages
        → All (IsStaged lookup.now.index.stays.items knots.now lookup.now.knot_rings.stages)
        handles.now }
    requires handle { IsAmong vertices handle }
    ensures { IfOk result (λ is. IsTrue is ↔ ((is_tie kept.now knots.now handle ≡ true)
        × EndsWhenCut vertices handles.now (at knots.now handle.from) handle)) }
{
    if !is_tie(handle, kept, knots) {
        return Ok(false);
    }
    let least = at(knots, as_index(handle.from)) as u32;
    let tie = Holding {
        to: least,
        ..handle
    };
    let is = is_cut_by(alloc, vertices, handles, knots, lookup, walk, tie)?;
    Ok(is)
}

/// Which of all handles are cuts.
fn cuts_of(
    alloc: Global,
    vertices: u32,
    handles: &[Holding],
    kept: &[bool],
    knots: &[usize],
    lookup: &Lookup,
    walk: &mut Walk,
) -> Result<Vec<bool>, AllocError>
    requires among { All (IsAmong vertices) handles.now }
    requires knots { KnotsAre vertices handles.now knots.now }
    requires circles { IsTrue lookup.now.are_circles
        → All (IsLinked lookup.now.index.stays.items knots.now lookup.now.circles) handles.now }
    requires index { IsIndex vertices handles.now knots.now lookup.now.index }
    requires rings { All (IsRing vertices lookup.now.index knots.now)
        lookup.now.knot_rings.rings.items }
    requires stages { IsTrue lookup.now.knot_rings.are_stages
        → All (IsStaged lookup.now.index.stays.items knots.now lookup.now.knot_rings.stages)
        handles.now }
    ensures { IfOk result (λ v. (i : ℕ) → i < length handles.now → marked v.items i ≡ true
        ↔ ((is_tie kept.now knots.now (handle_listed handles.now i) ≡ true)
        × EndsWhenCut vertices handles.now (at knots.now (handle_listed handles.now i).from)
        (handle_listed handles.now i))) }
{
    let mut cuts = Vec::new(alloc);
    for handle in handles {
        let is_cut = is_cut_tie(alloc, vertices, handles, kept, knots, lookup, walk, *handle)?;
        cuts.push(is_cut)?;
    }
    Ok(cuts)
}

/// What lets one knot end, where this is the least vertex of one.
fn weakenings_at(
    alloc: Global,
    vertices: u32,
    handles: &[Holding],
    kept: &[bool],
    knots: &[usize],
    index: &Index,
    sources: &[Vec<Holding>],
    walk: &mut Walk,
    vertex: u32,
) -> Result<Vec<LabelPair>, AllocError>
    requires among { All (IsAmong vertices) handles.now }
    requires knots { KnotsAre vertices handles.now knots.now }
    requires index { IsIndex vertices handles.now knots.now index.now }
    requires sources { (b : ℕ) → row_at sources.now b ≡ held_in handles.now b }
    requires vertex { (1 ≤ vertex) × (vertex ≤ vertices) }
    ensures { IfOk result (λ v. at knots.now vertex ≡ vertex
        → AreWeakenings vertices handles.now knots.now vertex
        (labels_of (knot_ties kept.now knots.now vertices handles.now vertex)) v.items) }
{
    if at(knots, as_index(vertex)) != as_index(vertex) {
        return Ok(Vec::new(alloc));
    }
    let members = row(index.members.as_slice(), as_index(vertex));
    let ties = knot_ties(alloc, sources, kept, knots, members)?;
    let found = weakenings_of(
        alloc,
        vertices,
        handles,
        knots,
        index,
        walk,
        vertex,
        ties.as_slice(),
    )?;
    Ok(found)
}

/// What lets each knot end, by its least vertex.
fn all_weakenings(
    alloc: Global,
    vertices: u32,
    handles: &[Holding],
    kept: &[bool],
    knots: &[usize],
    index: &Index,
    sources: &[Vec<Holding>],
    walk: &mut Walk,
) -> Result<Vec<Vec<LabelPair>>, AllocError>
    requires among { All (IsAmong vertices) handles.now }
    requires knots { KnotsAre vertices handles.now knots.now }
    requires index { IsIndex vertices handles.now knots.now index.now }
    requires sources { (b : ℕ) → row_at sources.now b ≡ held_in handles.now b }
    ensures { IfOk result (λ v. (k : ℕ) → 1 ≤ k → k ≤ vertices → at knots.now k ≡ k
        → AreWeakenings vertices handles.now knots.now k
        (labels_of (knot_ties kept.now knots.now vertices handles.now k))
        (pairs_at v.items k)) }
{
    let mut all = Vec::new(alloc);
    all.push(Vec::new(alloc))?;
    for before in 0..vertices {
        let found = weakenings_at(
            alloc,
            vertices,
            handles,
            kept,
            knots,
            index,
            sources,
            walk,
            before + 1,
        )?;
        all.push(found)?;
    }
    Ok(all)
}

impl Findings {
    /// Finds all of it (own). It is refused only where a growth of memory was. Condition: the
    /// vertices of all handles are among so many.
    pub fn new(alloc: Global, vertices: u32, handles: &[Holding]) -> Result<Findings, AllocError>
        requires { All (IsAmong vertices) handles.now }
        ensures { IfOk result (λ f. AreFindings vertices handles.now f) }
    {
        let kept = marks_of(alloc, vertices, handles)?;
        let knots = knots(alloc, vertices, handles)?;
        let sources = by_source(alloc, vertices, handles)?;
        let marks = kept.as_slice();
        let labels = knots.as_slice();
        let lookup = look_up(alloc, vertices, handles, labels)?;
        let mut walk = Walk::new(alloc, vertices)?;
        let cuts = cuts_of(alloc, vertices, handles, marks, labels, &lookup, &mut walk)?;
        let index = lookup.index;
        let weakenings = all_weakenings(
            alloc,
            vertices,
            handles,
            marks,
            labels,
            &index,
            sources.as_slice(),
            &mut walk,
        )?;
        Ok(Findings {
            kept,
            knots,
            index,
            sources,
            cuts,
            weakenings,
        })
    }
}
