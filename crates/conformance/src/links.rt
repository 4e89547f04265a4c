ghost use Rattle.conformance.specs.Links.{HasEdges, Linked};
ghost use Rattle.conformance.specs.Trials.{trial_spec};

use crate::trial::Trial;
use graphs::graph::Graph;

impl Trial<'_> {
    /// The edges of the specification, and one from the sink of each loop to its source: where no such edge joins two origins, no edge
    /// between their steps is derived.
    pub(crate) fn links(self, edges: Graph) -> Graph
        requires { HasEdges (trial_spec self) edges }
        ensures { Linked (trial_spec self.entry) result }
    {
        let mut links = edges;
        for k in 1..self.blocks() {
            if self.is_loop(k) {
                links.add(self.sink(k), self.source(k));
            }
        }
        links
    }
}
