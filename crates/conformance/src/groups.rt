ghost use Rattle.std.specs.Prelude.{◌<◌, T, ◌↔◌};
ghost use Rattle.model.specs.Runs.{First};
ghost use Rattle.conformance.specs.Groups.{Alike, NextOrLast, GroupPlace, Grouped};
ghost use Rattle.conformance.specs.Trials.{trial_run};

use crate::group_table::{Groups, Place};
use crate::trial::Trial;
use records::kinds::RunCopy;
use records::record::Record;

// The groups of a run, each copy compared with the others.
impl Trial<'_> {
    /// Whether copies `i` and `j` have one parent and one block.
    fn alike(self, i: usize, j: usize) -> bool
        ensures { T result ↔ Alike (trial_run self.entry) i j }
    {
        self.run.copy(j) == self.run.copy(i)
    }

    /// The next copy of the group of copy `q`, if there is one.
    fn next_of(self, q: usize) -> Option<usize>
        requires { q < (trial_run self).c }
        ensures { NextOrLast (trial_run self.entry) q result }
    {
        (q + 1..self.copies()).find(|&j| self.alike(q, j))
    }

    /// Whether copy `q` is the first of its group.
    fn is_first_of(self, q: usize) -> bool
        requires { q < (trial_run self).c }
        ensures { T result ↔ First (trial_run self.entry) q }
    {
        !(1..q).any(|j| self.alike(q, j))
    }

    /// The place of copy `q` in its group.
    fn place_of(self, q: usize) -> Place
        requires { q < (trial_run self).c }
        ensures { GroupPlace (trial_run self.entry) q result }
    {
        let next = match self.next_of(q) {
            Some(next) => Some(next as u16),
            None => None,
        };
        Place {
            next,
            first: self.is_first_of(q),
        }
    }

    /// The place of each copy in its group.
    pub(crate) fn groups(self) -> Groups
        ensures { Grouped (trial_run self.entry) result }
    {
        let none = Place {
            next: None,
            first: false,
        };
        let mut places = [none; RunCopy::CEILING];
        for q in 1..self.copies() {
            places[q] = self.place_of(q);
        }
        Groups { places }
    }
}
