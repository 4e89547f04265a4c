ghost use Rattle.std.specs.Prelude.{◌≡◌, ◌<◌, T, ◌↔◌};
ghost use Rattle.model.specs.Forests.{Chain};
ghost use Rattle.model.specs.Specifications.{Edge};
ghost use Rattle.model.specs.Runs.{Alls, Lasts, Firsts, Next, Plain, Back, Derived};
ghost use Rattle.conformance.specs.Deriving.{AtEnd, ByGroup, StepsMeet, Turns, Under};
ghost use Rattle.conformance.specs.Groups.{GroupPlace};
ghost use Rattle.conformance.specs.Trials.{trial_run, trial_spec};

use crate::derivation::Derivation;
use crate::group_table::Place;
use crate::meetings::Meeting;

/// An end of a loop's group: the copy that ran first, or the one that ran last.
// An enum and no closure: so one clause can say what it is to stand at either end.
#[derive(Clone, Copy)]
enum End {
    First,
    Last,
}

impl Derivation<'_> {
    /// The place of copy `q` in its group.
    fn place(&self, q: usize) -> Place
        requires { (0 < q) × (q < (trial_run self.now.trial).c) }
        ensures { GroupPlace (trial_run self.now.trial) q result }
    {
        self.groups.places[q]
    }

    /// Whether copy `q`, if it is a loop's, stands at this end of its group.
    fn at_end(&self, which: End, q: usize) -> bool
        requires { (0 < q) × (q < (trial_run self.now.trial).c) }
        ensures { T result ↔ ((trial_spec self.now.trial).kind ((trial_run self.now.trial).block q) ≡ 2 → AtEnd (trial_run self.now.trial) which q) }
    {
        if !self.trial.is_loop(self.trial.block(q)) {
            return true;
        }
        let place = self.place(q);
        match which {
            End::First => place.first,
            End::Last => place.next.is_none(),
        }
    }

    /// Whether every loop copy in the chain of copy `i`, below copy `d`, stands at this end of its group.
    fn all_at_end(&self, which: End, i: usize, d: usize) -> bool
        requires { (Chain (trial_run self.now.trial).parent i d) × (i < (trial_run self.now.trial).c) }
        ensures { T result ↔ Alls (trial_spec self.now.trial) (trial_run self.now.trial) (AtEnd (trial_run self.now.trial) which) i d }
    {
        let mut q = i;
        while q != d {
            if !self.at_end(which, q) {
                return false;
            }
            q = self.trial.parent(q);
        }
        true
    }

    /// Whether two copies of one group lead to the meeting.
    fn by_group(&self, meeting: Meeting) -> bool
        ensures { T result ↔ ByGroup (trial_run self.now.trial) meeting.common meeting.left meeting.right }
    {
        let Meeting {
            common,
            left,
            right,
        } = meeting;
        left != common && right != common && self.trial.block(left) == self.trial.block(right)
    }

    /// Whether below copy `a` every loop copy in the chain of step `u` is the last of its group, and below copy `b` every one in the chain
    /// of step `w` the first.
    fn last_to_first(&self, u: usize, w: usize, a: usize, b: usize) -> bool
        requires { (Under (trial_run self.now.trial) u a) × (Under (trial_run self.now.trial) w b) }
        ensures { T result ↔ (Lasts (trial_spec self.now.trial) (trial_run self.now.trial) ((trial_run self.now.trial).context u) a × Firsts (trial_spec self.now.trial) (trial_run self.now.trial) ((trial_run self.now.trial).context w) b) }
    {
        self.all_at_end(End::Last, self.trial.context(u), a)
            && self.all_at_end(End::First, self.trial.context(w), b)
    }

    /// Whether the specification has an edge from the origin of step `u` to that of step `w`.
    fn has_edge(&self, u: usize, w: usize) -> bool
        ensures { T result ↔ Edge (trial_spec self.now.trial) ((trial_run self.now.trial).origin u) ((trial_run self.now.trial).origin w) }
    {
        self.edges.has(self.trial.origin(u), self.trial.origin(w))
    }

    /// Whether the edge from step `u` to step `w`, which leads from no copy of a group to another, is derived from an edge of the
    /// specification.
    fn plain(&self, u: usize, w: usize, meeting: Meeting) -> bool
        requires steps_meet { StepsMeet (trial_run self.now.trial) u w meeting }
        requires no_group { ¬ (ByGroup (trial_run self.now.trial) meeting.common meeting.left meeting.right) }
        ensures { T result ↔ Plain (trial_spec self.now.trial) (trial_run self.now.trial) u w }
    {
        self.has_edge(u, w) && self.last_to_first(u, w, meeting.common, meeting.common)
    }

    /// Whether copy `b` is the next after copy `a` in its group.
    fn is_next(&self, a: usize, b: usize) -> bool
        requires { (0 < a) × (a < (trial_run self.now.trial).c) }
        ensures { T result ↔ Next (trial_run self.now.trial) a b }
    {
        self.place(a).next.map(usize::from) == Some(b)
    }

    /// Whether copy `a` is of a loop and copy `b` the next of its group, step `u` an execution of the loop's sink and step `w` one of its
    /// source.
    fn turns(&self, u: usize, w: usize, a: usize, b: usize) -> bool
        requires { (0 < a) × (a < (trial_run self.now.trial).c) }
        ensures { T result ↔ Turns (trial_spec self.now.trial) (trial_run self.now.trial) u w a b }
    {
        let k = self.trial.block(a);
        self.trial.is_loop(k)
            && self.trial.origin(u) == self.trial.sink(k)
            && self.trial.origin(w) == self.trial.source(k)
            && self.is_next(a, b)
    }

    /// Whether the edge from step `u` to step `w`, which leads from one copy of a group to another, is derived from a loop that turned.
    fn back(&self, u: usize, w: usize, meeting: Meeting) -> bool
        requires steps_meet { StepsMeet (trial_run self.now.trial) u w meeting }
        requires of_group { ByGroup (trial_run self.now.trial) meeting.common meeting.left meeting.right }
        ensures { T result ↔ Back (trial_spec self.now.trial) (trial_run self.now.trial) u w }
    {
        self.turns(u, w, meeting.left, meeting.right)
            && self.last_to_first(u, w, meeting.left, meeting.right)
    }

    /// Whether the edge from step `u` to step `w` is derived. (Two numbers, here and below, as the model takes them.)
    pub(crate) fn derived(&self, u: usize, w: usize) -> bool
        requires { (u < (trial_run self.now.trial).v) × (w < (trial_run self.now.trial).v) }
        ensures { T result ↔ Derived (trial_spec self.now.trial) (trial_run self.now.trial) u w }
    {
        let trial = self.trial;
        let meeting = trial.meet(trial.context(u), trial.context(w));
        if self.by_group(meeting) {
            self.back(u, w, meeting)
        } else {
            self.plain(u, w, meeting)
        }
    }
}
