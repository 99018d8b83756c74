//! Which vertices are kept, and which keep each other, by who holds what.
use crate::same::same;
use owner_graph::{Holding, kept, knot};
use std::alloc::Global;
use std::process::Abort;

/// A handle on a vertex, in another one, and whether it is an owner.
fn handle(from: u32, slot: u32, to: u32, is_owner: bool) -> Holding {
    Holding {
        from,
        to,
        slot,
        label: 0,
        is_owner,
    }
}

/// Two objects that own each other, the second of which owns a third; and one that is owned from outside, and that the
/// third watches.
fn held() -> [Holding; 5] {
    [
        handle(0, 5, 4, true),
        handle(1, 0, 2, true),
        handle(2, 0, 1, true),
        handle(2, 1, 3, true),
        handle(3, 2, 4, false),
    ]
}

/// By vertex which are kept, where there are so many.
fn kept_of(alloc: Global, vertices: u32) -> Option<Vec<bool>> {
    kept(alloc, vertices, &held()).ok()
}

/// By vertex which tie themselves to this one.
fn knot_of(alloc: Global, vertices: u32, vertex: u32) -> Option<Vec<bool>> {
    knot(alloc, vertices, &held(), vertex).ok()
}

/// There are just these marks.
fn are(rt: &impl Abort, marks: Option<Vec<bool>>, wanted: [bool; 6]) {
    match marks {
        Some(marks) => same(rt, marks.as_slice(), wanted.as_slice()),
        None => same(rt, None, Some(wanted)),
    }
}

/// The circle is leaked with what it owns, and what is owned from outside is kept. The circle's two keep each other,
/// and the third, which owns nothing, is a knot of its own.
#[test]
fn a_circle_is_leaked_with_what_it_owns(rt: HostRuntime) {
    let kept = kept_of(rt.alloc(), 5);
    are(&rt, kept, [true, false, false, false, true, false]);
    let circle = knot_of(rt.alloc(), 5, 1);
    are(&rt, circle, [false, true, true, false, false, false]);
    let alone = knot_of(rt.alloc(), 5, 3);
    are(&rt, alone, [false, false, false, true, false, false]);
}

/// Owners are on vertices that are not among so many.
#[test]
fn vertices_outside_are_refused(rt: HostRuntime) {
    same(&rt, kept_of(rt.alloc(), 2), None);
    same(&rt, knot_of(rt.alloc(), 2, 1), None);
}
