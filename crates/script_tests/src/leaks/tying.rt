//! What ties a knot of owners, by the functions that the findings are made of.
ghost use Rattle.std.specs.Prelude.{◌≤◌, All};
ghost use Rattle.owner_graph.specs.Owners.{IsAmong};

use crate::leaks::weakening::owner;
use crate::same::same;
use owner_graph::{Holding, by_vertex, cuts, is_tie, knot_ties, knots, same_place, ties};
use std::alloc::{AllocError, Global};

/// Two owners in a circle.
fn circle() -> [Holding; 2]
    ensures { All (IsAmong 2) result }
{
    [owner(1, 2, 0, 7), owner(2, 1, 0, 8)]
}

/// Vertices and label of an owner.
type Place = (u32, u32, u32);

fn place_of(handle: Option<&Holding>) -> Option<Place> {
    let handle = handle?;
    Some((handle.from, handle.to, handle.label))
}

/// The ties, each on the least vertex of its knot, and how many of them are cuts.
fn tied(alloc: Global) -> Result<([bool; 2], [Option<Place>; 2], usize), AllocError> {
    let handles = circle();
    let kept = [true, false, false];
    let knots = knots(alloc, 2, &handles)?;
    let are_ties = [
        is_tie(handles[0], &kept, knots.as_slice()),
        is_tie(handles[1], &kept, knots.as_slice()),
    ];
    let ties = ties(alloc, 2, &handles, &kept, knots.as_slice())?;
    let cuts = cuts(alloc, 2, &handles, knots.as_slice(), ties.as_slice())?;
    let both = [place_of(ties.get(0)), place_of(ties.get(1))];
    Ok((are_ties, both, cuts.len()))
}

#[test]
fn each_owner_of_a_circle_ties_it(rt: HostRuntime) {
    let both = [Some((1, 1, 7)), Some((2, 1, 8))];
    same(&rt, tied(rt.alloc()), Ok(([true; 2], both, 2)));
}

/// What is on each vertex, and which of what is on the second vertex ties the knot.
fn grouped(alloc: Global) -> Result<([usize; 3], Option<Place>), AllocError> {
    let handles = circle();
    let rows = by_vertex(alloc, 2, &handles)?;
    let ties = knot_ties(
        alloc,
        rows.as_slice(),
        &[true, false, false],
        &[0, 1, 1],
        &[owner(2, 1, 0, 8)],
    )?;
    let lengths = [
        rows.get(0).map_or(9, |row| row.len()),
        rows.get(1).map_or(9, |row| row.len()),
        rows.get(2).map_or(9, |row| row.len()),
    ];
    Ok((lengths, place_of(ties.first())))
}

#[test]
fn owners_are_told_by_their_vertices(rt: HostRuntime) {
    same(&rt, grouped(rt.alloc()), Ok(([0, 1, 1], Some((1, 2, 7)))));
}

/// Two handles lie in one place where vertex and slot are the same.
#[test]
fn a_place_is_a_vertex_and_a_slot(rt: HostRuntime) {
    let first = owner(1, 2, 0, 7);
    let told = [
        same_place(first, owner(1, 1, 0, 8)),
        same_place(first, owner(1, 2, 1, 7)),
        same_place(first, owner(2, 2, 0, 7)),
    ];
    same(&rt, told, [true, false, false]);
}
