//! The cases that were made, and how many there were.

use crate::outcome::Outcome;
use std::fmt;

/// What came of the line of that name; each is printed as its line of the account.
#[derive(Clone, Copy)]
pub enum Case<'a> {
    Passed {
        name: &'a str,
        expected: &'a str,
    },
    Failed {
        name: &'a str,
        expected: &'a str,
        got: Outcome,
    },
    /// The line says no outcome.
    Unended {
        name: &'a str,
    },
}

impl fmt::Display for Case<'_> {
    fn fmt<W: fmt::Write>(&self, f: &mut fmt::Formatter<W>) -> fmt::Result {
        match self {
            Case::Passed { name, expected } => write!(f, "ok    {name:<64}{expected}"),
            Case::Failed {
                name,
                expected,
                got,
            } => write!(f, "FAIL  {name}: expected {expected}, got {got}"),
            Case::Unended { name } => write!(f, "FAIL  {name}: the line has no outcome"),
        }
    }
}

/// How many cases there were, and how many of them failed.
#[derive(Clone, Copy)]
pub struct Tally {
    pub cases: u32,
    pub failed: u32,
}

impl Tally {
    pub fn new() -> Self {
        Tally {
            cases: 0,
            failed: 0,
        }
    }

    pub fn count(&mut self, case: Case) {
        self.cases = self.cases.saturating_add(1);
        if !matches!(case, Case::Passed { .. }) {
            self.failed = self.failed.saturating_add(1);
        }
    }
}

impl fmt::Display for Tally {
    fn fmt<W: fmt::Write>(&self, f: &mut fmt::Formatter<W>) -> fmt::Result {
        let Tally { cases, failed } = self;
        write!(f, "{cases} cases, {failed} failed")
    }
}
