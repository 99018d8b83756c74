//! A graph of owners: which vertices are kept, which keep each other, and what would end where some
//! owners are weak.
#![tactic(auto)]

mod certificates;
mod circles;
mod directed_graph;
pub mod drawing;
mod edges;
mod ends;
mod findings;
mod holding;
mod index;
mod knot_rings;
mod label_pairs;
mod labels;
mod lookups;
mod one_knot;
mod reachability;
mod rings;
mod rows;
mod search;
mod stages;
mod tie;
mod weakening;

pub use directed_graph::{Edge, Graph, GraphError};
pub use findings::Findings;
pub use holding::{Holding, same_place};
pub use index::{Index, row};
pub use label_pairs::{LabelPair, knot_ties};
pub use labels::knots;
pub use reachability::{kept, knot};
pub use rows::by_vertex;
pub use tie::{cuts, is_tie, ties};
