//! Directed graphs: which vertices are reached from one.

mod graph;
mod reached;
mod search;

pub use graph::{Edge, Graph, GraphError};
