//! The records of which files are made: a trait for all of them, their seven kinds, and tables of limited size that hold them.
#![tactic(auto)]

mod holding;
pub mod kinds;
pub mod record;
pub mod tables;
