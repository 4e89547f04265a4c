ghost use Rattle.std.specs.Prelude.{T, ◌↔◌};
ghost use Rattle.formats.specs.RunFiles.{run_edges_of};
ghost use Rattle.conformance.specs.Listing.{Below, Stands};
ghost use Rattle.conformance.specs.Trials.{trial_run};

use crate::trial::Trial;

impl Trial<'_> {
    /// Whether the edge at index `k` comes before the edge from `u` to `w`.
    fn comes_before(self, k: usize, u: usize, w: usize) -> bool
        ensures { T result ↔ Below (run_edges_of self.entry.run.bytes.now) u w k }
    {
        let edge = self.run.edge(k);
        (edge.tail as usize, edge.head as usize) < (u, w)
    }

    /// Whether the edge from `u` to `w` stands at index `k`.
    fn stands_at(self, k: usize, u: usize, w: usize) -> bool
        ensures { T result ↔ Stands (run_edges_of self.entry.run.bytes.now) u w k }
    {
        let edge = self.run.edge(k);
        k < self.run.edges() && (edge.tail as usize, edge.head as usize) == (u, w)
    }

    /// Whether the run lists the edge from step `u` to step `w`. Edges ascend, so the place where it would stand is found by halving. (By
    /// hand, since the edges are read where they lie and are no slice.)
    pub(crate) fn listed(self, u: usize, w: usize) -> bool
        ensures { T result ↔ T ((trial_run self.entry).listed u w) }
    {
        let mut low = 0;
        let mut high = self.run.edges();
        while low < high {
            let middle = low + (high - low) / 2;
            if self.comes_before(middle, u, w) {
                low = middle + 1;
            } else {
                high = middle;
            }
        }
        self.stands_at(low, u, w)
    }
}
