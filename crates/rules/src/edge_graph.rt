ghost use Rattle.std.specs.Prelude.{ℕ, ◌↔◌};
ghost use Rattle.model.specs.Specifications.{Edge};
ghost use Rattle.formats.specs.Of.{spec_of};
ghost use Rattle.graphs.specs.Graphs.{Joins};

use crate::parts::Parts;
use formats::specification::Specification;
use graphs::graph::Graph;

/// The edges of a specification, as a graph.
pub fn edge_graph(specification: &Specification) -> Graph
    ensures { (x y : ℕ) → Joins result x y ↔ Edge (spec_of specification.now) x y }
{
    let parts = Parts::from(specification);
    parts.graph()
}
