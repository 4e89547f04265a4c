//! Layer 2, nesting: the rules that a specification keeps where it is sealed, and the faults of the layer.
#![tactic(auto)]

pub mod checking;
mod cycles;
mod distinct;
mod domains;
mod drawn;
pub mod edge_graph;
mod ends;
pub mod faults;
mod forks;
mod inner;
pub mod laws;
mod loops;
mod parts;
