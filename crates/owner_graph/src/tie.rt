//! Owners that tie knots of leaked vertices, and those of them that cut one.
ghost use Rattle.std.specs.Prelude.{◌≡◌, ◌↔◌, ◌++◌, ◌≤◌, All, IfOk, IsTrue, OnOk};
ghost use Rattle.owner_graph.specs.Circles.{IsLinked, IsOnCircle};
ghost use Rattle.owner_graph.specs.Ends.{EndsWhenCut};
ghost use Rattle.owner_graph.specs.Fed.{marked};
ghost use Rattle.owner_graph.specs.Indices.{IsIndex};
ghost use Rattle.owner_graph.specs.Knots.{KnotsAre};
ghost use Rattle.owner_graph.specs.Labels.{at};
ghost use Rattle.owner_graph.specs.Owners.{IsAmong};
ghost use Rattle.owner_graph.specs.Rings.{IsRing};
ghost use Rattle.owner_graph.specs.Stages.{IsStaged};
ghost use Rattle.owner_graph.specs.Ties.{AreCuts, IsTied, is_tie, ties, ties_by};

use crate::circles::{Circles, are_circles, find_circles, is_on_circle};
use crate::holding::{Holding, as_index};
use crate::index::Index;
use crate::knot_rings::{KnotRings, leads_from_stage, look_for_rings};
use crate::one_knot::ends_without;
use crate::rings::is_beside_one;
use crate::search::components::at;
use crate::search::walk::Walk;
use crate::weakening::Weakening;
use std::alloc::{AllocError, Global};

/// Whether a place of a list is marked; past its end none is.
pub(crate) fn marked(marks: &[bool], index: usize) -> bool
    ensures { result ≡ marked marks.now index }
{
    index < marks.len() && marks[index]
}

/// Whether a handle is an owner in a vertex that isn't kept, and on a vertex of the same knot
/// (own).
pub fn is_tie(handle: Holding, kept: &[bool], knots: &[usize]) -> bool
    ensures { result ≡ is_tie kept.now knots.now handle }
{
    let from = as_index(handle.from);
    let to = as_index(handle.to);
    handle.is_owner && from > 0 && !marked(kept, from) && at(knots, from) == at(knots, to)
}

/// Adds a handle, but on the least vertex of its knot, where it is a tie.
fn add_tie(
    handle: Holding,
    kept: &[bool],
    knots: &[usize],
    ties: &mut Vec<Holding>,
) -> Result<(), AllocError>
    requires { 1 ≤ handle.from → at knots.now handle.from ≤ 4294967295 }
    ensures { OnOk result (ties.new.items ≡ ties.old.items ++ ties_by kept.now knots.now handle) }
{
    if is_tie(handle, kept, knots) {
        let least = at(knots, as_index(handle.from));
        ties.push(Holding {
            to: least as u32,
            ..handle
        })?;
    }
    Ok(())
}

/// The owners that tie knots of vertices that aren't kept (own): each owner in such a vertex that
/// is on a vertex of the same knot, but on the least vertex of that knot, in the order of what is
/// listed. What is kept and the least vertices are those of [`crate::kept`] and [`crate::knots`].
/// It takes time linear in handles, and is refused only where a growth of memory was. Condition:
/// the vertices of all that is listed are among so many.
pub fn ties(
    alloc: Global,
    vertices: u32,
    handles: &[Holding],
    kept: &[bool],
    knots: &[usize],
) -> Result<Vec<Holding>, AllocError>
    requires among { All (IsAmong vertices) handles.now }
    requires knots { KnotsAre vertices handles.now knots.now }
    ensures ties { IfOk result (λ v. v.items ≡ ties kept.now knots.now handles.now) }
    ensures vertices { IfOk result (λ v. All (λ h. (1 ≤ h.to) × (h.to ≤ vertices)) v.items) }
    ensures among { IfOk result (λ v. All (IsAmong vertices) v.items) }
    ensures tied { IfOk result (λ v. All (IsTied knots.now) v.items) }
{
    let mut ties = Vec::new(alloc);
    for handle in handles {
        add_tie(*handle, kept, knots, &mut ties)?;
    }
    Ok(ties)
}

/// What was looked up; circles, where their check passes; and rings and stages of other knots.
#[derive(Drop)]
pub(crate) struct Lookup {
    pub(crate) index: Index,
    pub(crate) circles: Circles,
    pub(crate) are_circles: bool,
    pub(crate) knot_rings: KnotRings,
}

/// Looks up what is asked again and again, and searches for circles.
pub(crate) fn look_up(
    alloc: Global,
    vertices: u32,
    handles: &[Holding],
    knots: &[usize],
) -> Result<Lookup, AllocError>
    requires among { All (IsAmong vertices) handles.now }
    requires knots { KnotsAre vertices handles.now knots.now }
    ensures index { IfOk result (λ l. IsIndex vertices handles.now knots.now l.index) }
    ensures circles { IfOk result (λ l. IsTrue l.are_circles
        → All (IsLinked l.index.stays.items knots.now l.circles) handles.now) }
    ensures rings { IfOk result (λ l. All (IsRing vertices l.index knots.now)
        l.knot_rings.rings.items) }
    ensures stages { IfOk result (λ l. IsTrue l.knot_rings.are_stages
        → All (IsStaged l.index.stays.items knots.now l.knot_rings.stages) handles.now) }
{
    let index = Index::new(alloc, vertices, handles, knots)?;
    let stays = index.stays.as_slice();
    let circles = find_circles(alloc, vertices, handles, knots, stays)?;
    let are_circles = are_circles(handles, knots, stays, &circles);
    let knot_rings = look_for_rings(alloc, vertices, handles, knots, &index, &circles)?;
    Ok(Lookup {
        index,
        circles,
        are_circles,
        knot_rings,
    })
}

/// Whether an owner is known to be a cut.
fn is_known_cut(vertices: u32, knots: &[usize], lookup: &Lookup, tie: Holding) -> bool
    ensures { IsTrue result → IsTrue lookup.now.are_circles
        × IsOnCircle vertices knots.now lookup.now.circles tie }
{
    lookup.are_circles && is_on_circle(vertices, knots, &lookup.circles, tie)
}

/// Whether a tie is a cut: where that isn't known, by what would end.
pub(crate) fn is_cut_by(
    alloc: Global,
    vertices: u32,
    handles: &[Holding],
    knots: &[usize],
    lookup: &Lookup,
    walk: &mut Walk,
    tie: Holding,
) -> Result<bool, AllocError>
    requires among { All (IsAmong vertices) handles.now }
    requires knots { KnotsAre vertices handles.now knots.now }
    requires circles { IsTrue lookup.now.are_circles
        → All (IsLinked lookup.now.index.stays.items knots.now lookup.now.circles) handles.now }
    requires index { IsIndex vertices handles.now knots.now lookup.now.index }
    requires rings { All (IsRing vertices lookup.now.index knots.now)
        lookup.now.knot_rings.rings.items }
    requires stages { IsTrue lookup.now.knot_rings.are_stages
        → All (IsStaged lookup.now.index.stays.items knots.now lookup.now.knot_rings.stages)
        handles.now }
    requires vertex { (1 ≤ tie.to) × (tie.to ≤ vertices) }
    requires tie { IsAmong vertices tie }
    requires tied { IsTied knots.now tie }
    ensures { IfOk result (λ is. IsTrue is ↔ EndsWhenCut vertices handles.now tie.to tie) }
{
    if is_known_cut(vertices, knots, lookup, tie) {
        return Ok(true);
    }
    if leads_from_stage(&lookup.knot_rings, tie) {
        return Ok(true);
    }
    let index = &lookup.index;
    if is_beside_one(
        vertices,
        index,
        knots,
        lookup.knot_rings.rings.as_slice(),
        tie,
    ) {
        return Ok(false);
    }
    let weakening = Weakening::One { handle: tie };
    ends_without(
        alloc, vertices, handles, knots, index, walk, tie.to, weakening,
    )
}

/// Which ties are cuts, by what was looked up.
fn cuts_by(
    alloc: Global,
    vertices: u32,
    handles: &[Holding],
    knots: &[usize],
    lookup: &Lookup,
    walk: &mut Walk,
    ties: &[Holding],
) -> Result<Vec<Holding>, AllocError>
    requires among { All (IsAmong vertices) handles.now }
    requires knots { KnotsAre vertices handles.now knots.now }
    requires circles { IsTrue lookup.now.are_circles
        → All (IsLinked lookup.now.index.stays.items knots.now lookup.now.circles) handles.now }
    requires index { IsIndex vertices handles.now knots.now lookup.now.index }
    requires rings { All (IsRing vertices lookup.now.index knots.now)
        lookup.now.knot_rings.rings.items }
    requires stages { IsTrue lookup.now.knot_rings.are_stages
        → All (IsStaged lookup.now.index.stays.items knots.now lookup.now.knot_rings.stages)
        handles.now }
    requires vertices { All (λ h. (1 ≤ h.to) × (h.to ≤ vertices)) ties.now }
    requires ties { All (IsAmong vertices) ties.now }
    requires tied { All (IsTied knots.now) ties.now }
    ensures cuts { IfOk result (λ v. AreCuts vertices handles.now ties.now v.items) }
    ensures among { IfOk result (λ v. All (IsAmong vertices) v.items) }
{
    let mut cuts = Vec::new(alloc);
    for tie in ties {
        if !is_cut_by(alloc, vertices, handles, knots, lookup, walk, *tie)? {
            continue;
        }
        cuts.push(*tie)?;
    }
    Ok(cuts)
}

/// Which ties are cuts (own): by [`is_cut`], just those that, emptied or made weak, would let all
/// vertices of their knot end. They come in the order of the ties. It is refused only where a
/// growth of memory was. Conditions: the vertices of all that is listed are among so many, and so
/// are the least vertices of the ties' knots, from 1.
pub fn cuts(
    alloc: Global,
    vertices: u32,
    handles: &[Holding],
    knots: &[usize],
    ties: &[Holding],
) -> Result<Vec<Holding>, AllocError>
    requires among { All (IsAmong vertices) handles.now }
    requires knots { KnotsAre vertices handles.now knots.now }
    requires vertices { All (λ h. (1 ≤ h.to) × (h.to ≤ vertices)) ties.now }
    requires ties { All (IsAmong vertices) ties.now }
    requires tied { All (IsTied knots.now) ties.now }
    ensures cuts { IfOk result (λ v. AreCuts vertices handles.now ties.now v.items) }
    ensures among { IfOk result (λ v. All (IsAmong vertices) v.items) }
{
    let lookup = look_up(alloc, vertices, handles, knots)?;
    let mut walk = Walk::new(alloc, vertices)?;
    cuts_by(alloc, vertices, handles, knots, &lookup, &mut walk, ties)
}
