//! Sets of vertices as rows of bits, sets of pairs as rows of such rows, and the closure of a graph.
#![tactic(auto)]

pub mod graph;
pub mod grid;
pub mod row;
