ghost use Rattle.std.specs.Prelude.{ℕ, ◌<◌, T, ◌↔◌, length, MatchOption};
ghost use Rattle.std.specs.Bool.{MatchBool};
ghost use Rattle.model.specs.Runs.{Derived};
ghost use Rattle.formats.specs.RunFiles.{run_edges_of};
ghost use Rattle.formats.specs.Sections.{Lowest};
ghost use Rattle.conformance.specs.Nonconforming.{AllDerived, DerivedAt, Stray, Unlisted};
ghost use Rattle.conformance.specs.Trials.{trial_run, trial_spec};

use crate::derivation::Derivation;

impl Derivation<'_> {
    /// Whether the listed edge at index `k` is not derived.
    fn is_stray(&self, k: usize) -> bool
        requires { k < length (run_edges_of self.now.trial.run.bytes.now) }
        ensures { MatchBool result (¬ (DerivedAt (trial_spec self.now.trial) (trial_run self.now.trial) (run_edges_of self.now.trial.run.bytes.now) k)) (DerivedAt (trial_spec self.now.trial) (trial_run self.now.trial) (run_edges_of self.now.trial.run.bytes.now) k) }
    {
        let edge = self.trial.run.edge(k);
        !self.derived(edge.tail as usize, edge.head as usize)
    }

    /// The lowest index of a listed edge that is not derived.
    pub(crate) fn stray(&self) -> Option<usize>
        ensures { MatchOption result (AllDerived (trial_spec self.now.trial) (trial_run self.now.trial) (run_edges_of self.now.trial.run.bytes.now)) (Lowest (Stray (trial_spec self.now.trial) (trial_run self.now.trial) (run_edges_of self.now.trial.run.bytes.now))) }
    {
        (0..self.trial.run.edges()).find(|&k| self.is_stray(k))
    }

    /// Whether a derived edge can lead from the origin of step `u` to that of step `w`. Most pairs of origins have no link, which one bit
    /// tells.
    fn has_link(&self, u: usize, w: usize) -> bool
        ensures { Derived (trial_spec self.now.trial) (trial_run self.now.trial) u w → T result }
    {
        self.links.has(self.trial.origin(u), self.trial.origin(w))
    }

    /// Whether the edge from step `u` to step `w` is derived and not listed.
    fn left_out(&self, u: usize, w: usize) -> bool
        requires { (u < (trial_run self.now.trial).v) × (w < (trial_run self.now.trial).v) }
        ensures { T result ↔ (Derived (trial_spec self.now.trial) (trial_run self.now.trial) u w × (¬ (T ((trial_run self.now.trial).listed u w)))) }
    {
        self.has_link(u, w) && self.derived(u, w) && !self.trial.listed(u, w)
    }

    /// Whether some derived edge from step `u` is not listed.
    fn leaves_out(&self, u: usize) -> bool
        requires { u < (trial_run self.now.trial).v }
        ensures { T result ↔ Unlisted (trial_spec self.now.trial) (trial_run self.now.trial) u }
    {
        (0..self.trial.steps()).any(|w| self.left_out(u, w))
    }

    /// The lowest step from which a derived edge is not listed.
    pub(crate) fn unlisted(&self) -> Option<usize>
        ensures { MatchOption result ((u : ℕ) → ¬ (Unlisted (trial_spec self.now.trial) (trial_run self.now.trial) u)) (Lowest (Unlisted (trial_spec self.now.trial) (trial_run self.now.trial))) }
    {
        (0..self.trial.steps()).find(|&u| self.leaves_out(u))
    }
}
