//! Layer 1, reading: sections of records, what a specification file states, and run files read where they lie.
#![tactic(auto)]

pub mod contents;
pub mod faults;
mod framed_file;
mod framed_run;
mod framing;
mod heads;
pub mod laws;
pub mod opening;
pub mod reading;
pub mod run_file;
pub mod sections;
mod spec_file;
pub mod specification;
