//! Layer 2, nesting: sealed specifications, and the nesting of a run's copies.
#![tactic(auto)]

pub mod copies;
pub mod laws;
pub mod sealed;
pub mod sealing;
