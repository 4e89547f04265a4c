ghost use Rattle.std.specs.Prelude.{ℕ, ◌↔◌, MatchOption};
ghost use Rattle.model.specs.Specifications.{Acyclic, Edge};
ghost use Rattle.formats.specs.Sections.{Lowest};
ghost use Rattle.graphs.specs.Graphs.{Joins};
ghost use Rattle.rules.specs.Parts.{parts_spec};
ghost use Rattle.rules.specs.Unsealed.{OnCycle};

use crate::parts::Parts;
use graphs::graph::Graph;

impl Parts<'_> {
    /// The edges, as a graph.
    pub(crate) fn graph(&self) -> Graph
        ensures { (x y : ℕ) → Joins result x y ↔ Edge (parts_spec self.now) x y }
    {
        let mut graph = Graph::new();
        for edge in self.edges {
            graph.add(edge.tail as usize, edge.head as usize);
        }
        graph
    }

    /// The lowest vertex on a cycle.
    pub(crate) fn cycle(&self) -> Option<usize>
        ensures { MatchOption result (Acyclic (parts_spec self.now)) (Lowest (OnCycle (parts_spec self.now))) }
    {
        let mut graph = self.graph();
        graph.close();
        (0..self.vertices.len()).find(|&x| graph.has(x, x))
    }
}
