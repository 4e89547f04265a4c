//! Layer 3, conformance: the steps and edges of a run, checked against a sealed specification.
#![tactic(auto)]

pub mod checking;
mod derivation;
mod derived;
mod edges;
pub mod faults;
mod group_table;
mod groups;
pub mod laws;
mod links;
mod listing;
mod meetings;
mod steps;
pub mod trial;
mod trials;
