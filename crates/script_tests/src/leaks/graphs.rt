//! What is reached in a small graph.
use crate::same::same;
use owner_graph::{Edge, Graph, GraphError};
use std::alloc::AllocError;
use std::process::Abort;

/// Just these are reached.
fn marks(rt: &impl Abort, reached: Result<Vec<bool>, AllocError>, wanted: [bool; 4]) {
    match reached {
        Ok(reached) => same(rt, reached.as_slice(), wanted.as_slice()),
        Err(why) => same(rt, Some(why), None),
    }
}

/// Of four vertices, 1 and 2 lead to each other, and 0 to 3: from 0 only 3 is reached, and from 1 only 2. There is no
/// vertex 4.
#[test]
fn a_circle_is_reached_from_within(rt: HostRuntime) {
    let edges = [
        Edge { from: 1, to: 2 },
        Edge { from: 0, to: 3 },
        Edge { from: 2, to: 1 },
    ];
    same(
        &rt,
        Graph::new(rt.alloc(), 3, &edges).err(),
        Some(GraphError::Outside),
    );
    match Graph::new(rt.alloc(), 4, &edges) {
        Ok(graph) => {
            marks(
                &rt,
                graph.reached(rt.alloc(), 0),
                [true, false, false, true],
            );
            marks(
                &rt,
                graph.reached(rt.alloc(), 1),
                [false, true, true, false],
            );
            marks(&rt, graph.reached(rt.alloc(), 4), [false; 4]);
        }
        Err(why) => same(&rt, Some(why), None),
    }
}
