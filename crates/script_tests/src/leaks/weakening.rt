//! What is found of graphs of owners: which owners cut a knot, and which labels' owners, made weak, let it end.
ghost use Rattle.std.specs.Prelude.{◌≤◌, All};
ghost use Rattle.owner_graph.specs.Owners.{IsAmong};

use crate::same::same;
use owner_graph::{Findings, Holding};
use std::alloc::Global;
use std::process::Abort;

/// An owner with a label, in one of two vertices, on one of them.
pub(crate) fn owner(from: u32, to: u32, slot: u32, label: u32) -> Holding
    requires { (from ≤ 2) × (to ≤ 2) }
    ensures { IsAmong 2 result }
{
    Holding {
        from,
        to,
        slot,
        label,
        is_owner: true,
    }
}

/// What is found of two vertices.
fn found(alloc: Global, handles: &[Holding]) -> Option<Findings>
    requires { All (IsAmong 2) handles.now }
{
    Findings::new(alloc, 2, handles).ok()
}

/// The labels, in pairs, that let the knot of the first vertex end.
fn weakenings(alloc: Global, found: &Findings) -> Option<Vec<(u32, u32)>> {
    let mut pairs = Vec::new(alloc);
    for pair in found.weakenings.get(1)? {
        pairs.push((pair.first, pair.second)).ok()?;
    }
    Some(pairs)
}

/// Nothing keeps two vertices. Just these owners are cuts, and these pairs of labels let their knot end.
fn are(rt: &impl Abort, alloc: Global, handles: &[Holding], cuts: &[bool], pairs: &[(u32, u32)])
    requires { All (IsAmong 2) handles.now }
{
    let Some(found) = found(alloc, handles) else {
        return same(rt, false, true);
    };
    same(rt, found.kept.as_slice(), [true, false, false].as_slice());
    same(rt, found.knots.as_slice(), [0, 1, 1].as_slice());
    same(rt, found.cuts.as_slice(), cuts);
    match weakenings(alloc, &found) {
        Some(found) => same(rt, found.as_slice(), pairs),
        None => same(rt, false, true),
    }
}

/// Each of two owners cuts a circle of two, and each one's label lets it end.
#[test]
fn each_label_of_a_circle_lets_it_end(rt: HostRuntime) {
    let circle = [owner(1, 2, 0, 7), owner(2, 1, 0, 8)];
    are(&rt, rt.alloc(), &circle, &[true, true], &[(7, 7), (8, 8)]);
}

/// Two owners lead the same way, so neither is a cut; under one label both are weak at once.
#[test]
fn owners_of_one_label_are_weak_together(rt: HostRuntime) {
    let one = [owner(1, 2, 0, 7), owner(1, 2, 1, 7), owner(2, 1, 0, 8)];
    are(
        &rt,
        rt.alloc(),
        &one,
        &[false, false, true],
        &[(7, 7), (8, 8)],
    );
    let two = [owner(1, 2, 0, 7), owner(1, 2, 1, 9), owner(2, 1, 0, 8)];
    are(&rt, rt.alloc(), &two, &[false, false, true], &[(8, 8)]);
}

/// Two owners lead each way, so no single label lets the knot end, but the two of one way do.
#[test]
fn pairs_of_labels_are_told_where_no_single_one_is_enough(rt: HostRuntime) {
    let both = [
        owner(1, 2, 0, 7),
        owner(1, 2, 1, 9),
        owner(2, 1, 0, 8),
        owner(2, 1, 1, 5),
    ];
    are(&rt, rt.alloc(), &both, &[false; 4], &[(7, 9), (8, 5)]);
}

/// What is looked up of a circle of two: of each vertex, of one past the last, and of each handle.
#[test]
fn what_was_found_is_looked_up_by_numbers(rt: HostRuntime) {
    let circle = [owner(1, 2, 0, 7), owner(2, 1, 1, 8)];
    let Some(found) = found(rt.alloc(), &circle) else {
        return same(&rt, false, true);
    };
    same(
        &rt,
        [found.is_kept(0), found.is_kept(1), found.is_kept(3)],
        [true, false, false],
    );
    same(&rt, [found.stays(1), found.stays(3)], [true, false]);
    same(&rt, [found.is_cut(1), found.is_cut(2)], [true, false]);
    same(&rt, [found.has_tie(2), found.has_tie(3)], [true, false]);
    same(&rt, [found.is_least(1), found.is_least(2)], [true, false]);
    same(&rt, found.is_tie(circle[0]), true);
    let lengths = [
        found.handles_on(2).len(),
        found.handles_in(3).len(),
        found.members_of(1).len(),
        found.weakenings_of(1).len(),
    ];
    same(&rt, lengths, [1, 0, 2, 2]);
    match found.ties_of(rt.alloc(), 1) {
        Ok(ties) => same(&rt, ties.len(), 2),
        Err(_) => same(&rt, false, true),
    }
}
