//! Skeleton schemes: whether one vertex of a specification leads to another, the question that labels leave open.
#![tactic(auto)]

mod bounds;
pub mod counted;
pub mod faults;
pub mod laws;
pub mod matrix;
pub mod scheme;
mod skeleton;
mod walk;
pub mod walker;
