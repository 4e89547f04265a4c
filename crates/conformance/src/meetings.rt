ghost use Rattle.model.specs.Meetings.{Meets};
ghost use Rattle.conformance.specs.Trials.{trial_run};

use crate::trial::Trial;

/// Where the chains of two copies meet: the lowest copy in both, and the child of it through which each chain comes to it, or that copy
/// itself where a chain starts there.
#[derive(Clone, Copy)]
pub(crate) struct Meeting {
    pub(crate) common: usize,
    pub(crate) left: usize,
    pub(crate) right: usize,
}

impl Trial<'_> {
    /// Where the chains of copies `i` and `j` meet. Parents have lower numbers, so of two copies the one with the higher number is not in the
    /// chain of the other: it goes up.
    pub(crate) fn meet(self, i: usize, j: usize) -> Meeting
        ensures { Meets (trial_run self.entry).parent i j result.common result.left result.right }
    {
        let mut left = i;
        let mut right = j;
        let mut x = i;
        let mut y = j;
        while x != y {
            if y < x {
                left = x;
                x = self.parent(x);
            } else {
                right = y;
                y = self.parent(y);
            }
        }
        Meeting {
            common: x,
            left,
            right,
        }
    }
}
