//! Which labels' owners, made weak, would let a knot end.
ghost use Rattle.std.specs.Prelude.{◌≡◌, ◌++◌, ◌≤◌, ◌==◌, ℕ, [], All, IfOk, IsTrue, OnOk, map};
ghost use Rattle.std.specs.List.{filter, flat_map, list_any};
ghost use Rattle.owner_graph.specs.Ends.{EndsWithout, is_weakened};
ghost use Rattle.owner_graph.specs.Indices.{IsIndex};
ghost use Rattle.owner_graph.specs.Knots.{KnotsAre};
ghost use Rattle.owner_graph.specs.Labels.{at};
ghost use Rattle.owner_graph.specs.Owners.{IsAmong};
ghost use Rattle.owner_graph.specs.Rows.{row_at};
ghost use Rattle.owner_graph.specs.Ties.{is_tie};
ghost use Rattle.owner_graph.specs.Weakenings.{AreThose, AreWeakenings, Suffices, label_pair};
ghost use Rattle.owner_graph.specs.Weakenings.{labels_of, pairs, ties_in, twice};

use crate::holding::{Holding, as_index};
use crate::index::{Index, row};
use crate::one_knot::ends_without;
use crate::search::walk::Walk;
use crate::tie::is_tie;
use crate::weakening::Weakening;
use std::alloc::{AllocError, Global};

/// The most labels of a knot of which pairs are tried.
const MOST_LABELS: usize = 20;

/// Two labels, by their numbers; or one twice (own).
#[derive(Clone, Copy, Drop)]
pub struct LabelPair {
    pub first: u32,
    pub second: u32,
}

/// Adds the owners of a list that tie knots.
fn add_ties(
    kept: &[bool],
    knots: &[usize],
    handles: &[Holding],
    ties: &mut Vec<Holding>,
) -> Result<(), AllocError>
    ensures { OnOk result (ties.new.items ≡ ties.old.items ++ filter
        (is_tie kept.now knots.now) handles.now) }
{
    for handle in handles {
        if !is_tie(*handle, kept, knots) {
            continue;
        }
        ties.push(*handle)?;
    }
    Ok(())
}

/// The owners that tie a knot (own), in the order of its vertices, by what is in each vertex. It
/// takes time linear in the knot's vertices and the handles in them, and is refused only where a
/// growth of memory was.
pub fn knot_ties(
    alloc: Global,
    sources: &[Vec<Holding>],
    kept: &[bool],
    knots: &[usize],
    members: &[Holding],
) -> Result<Vec<Holding>, AllocError>
    ensures { IfOk result (λ v. v.items ≡ flat_map (λ m. filter (is_tie kept.now knots.now)
        (row_at sources.now m.from)) members.now) }
{
    let mut ties = Vec::new(alloc);
    for member in members {
        add_ties(kept, knots, row(sources, as_index(member.from)), &mut ties)?;
    }
    Ok(ties)
}

/// Whether a label is listed.
fn has_label(labels: &[u32], label: u32) -> bool
    ensures { result ≡ list_any (λ l. l == label) labels.now }
{
    labels.iter().any(|listed| *listed == label)
}

/// The labels of handles, each once.
fn labels_of(alloc: Global, handles: &[Holding]) -> Result<Vec<u32>, AllocError>
    ensures { IfOk result (λ v. v.items ≡ labels_of handles.now) }
{
    let mut labels = Vec::new(alloc);
    for handle in handles {
        if has_label(labels.as_slice(), handle.label) {
            continue;
        }
        labels.push(handle.label)?;
    }
    Ok(labels)
}

/// Each label with itself.
fn singles(alloc: Global, labels: &[u32]) -> Result<Vec<LabelPair>, AllocError>
    ensures { IfOk result (λ v. v.items ≡ map twice labels.now) }
{
    let mut singles = Vec::new(alloc);
    for label in labels {
        singles.push(LabelPair {
            first: *label,
            second: *label,
        })?;
    }
    Ok(singles)
}

/// Adds a label with each of others.
fn add_pairs(first: u32, labels: &[u32], pairs: &mut Vec<LabelPair>) -> Result<(), AllocError>
    ensures { OnOk result (pairs.new.items ≡ pairs.old.items ++ map (label_pair first) labels.now) }
{
    for label in labels {
        pairs.push(LabelPair {
            first,
            second: *label,
        })?;
    }
    Ok(())
}

/// Each label with each after it.
fn pairs(alloc: Global, labels: &[u32]) -> Result<Vec<LabelPair>, AllocError>
    ensures { IfOk result (λ v. v.items ≡ pairs labels.now) }
{
    let mut pairs = Vec::new(alloc);
    let mut left = labels;
    while let [first, rest @ ..] = left {
        add_pairs(*first, rest, &mut pairs)?;
        left = rest;
    }
    Ok(pairs)
}

/// Those of which this is so: were the owners in the knot that have one of the two labels weak, it
/// would end.
fn sufficient(
    alloc: Global,
    vertices: u32,
    handles: &[Holding],
    knots: &[usize],
    index: &Index,
    walk: &mut Walk,
    least: u32,
    pairs: &[LabelPair],
) -> Result<Vec<LabelPair>, AllocError>
    requires among { All (IsAmong vertices) handles.now }
    requires knots { KnotsAre vertices handles.now knots.now }
    requires index { IsIndex vertices handles.now knots.now index.now }
    requires least { (1 ≤ least) × (least ≤ vertices) }
    requires own { at knots.now least ≡ least }
    ensures { IfOk result (λ v. AreThose
        (Suffices vertices handles.now knots.now least) pairs.now v.items) }
{
    let mut found = Vec::new(alloc);
    for pair in pairs {
        let LabelPair { first, second } = *pair;
        let weakening = Weakening::Labelled {
            least,
            first,
            second,
        };
        let ends = ends_without(
            alloc, vertices, handles, knots, index, walk, least, weakening,
        )?;
        if !ends {
            continue;
        }
        found.push(*pair)?;
    }
    Ok(found)
}

/// The labels of a knot whose owners in it, made weak, would let it end; where no single one does,
/// the pairs that do, of at most 20 labels (own). It is refused only where a growth of memory was.
/// Conditions: the vertices of all handles are among so many, and the knot is that with this least
/// vertex.
pub(crate) fn weakenings_of(
    alloc: Global,
    vertices: u32,
    handles: &[Holding],
    knots: &[usize],
    index: &Index,
    walk: &mut Walk,
    least: u32,
    ties: &[Holding],
) -> Result<Vec<LabelPair>, AllocError>
    requires among { All (IsAmong vertices) handles.now }
    requires knots { KnotsAre vertices handles.now knots.now }
    requires index { IsIndex vertices handles.now knots.now index.now }
    requires least { (1 ≤ least) × (least ≤ vertices) }
    requires own { at knots.now least ≡ least }
    ensures { IfOk result (λ v. AreWeakenings vertices handles.now knots.now least
        (labels_of ties.now) v.items) }
{
    let labels = labels_of(alloc, ties)?;
    let ones = singles(alloc, labels.as_slice())?;
    let found = sufficient(
        alloc,
        vertices,
        handles,
        knots,
        index,
        walk,
        least,
        ones.as_slice(),
    )?;
    if !found.is_empty() {
        return Ok(found);
    }
    if labels.len() > MOST_LABELS {
        return Ok(found);
    }
    let twos = pairs(alloc, labels.as_slice())?;
    let found = sufficient(
        alloc,
        vertices,
        handles,
        knots,
        index,
        walk,
        least,
        twos.as_slice(),
    )?;
    Ok(found)
}
