ghost use Rattle.schemes.specs.Matrices.{closed_test};

use crate::counted::Counted;
use crate::skeleton::Skeleton;
use graphs::graph::Graph;
use nesting::sealed::SealedSpecification;
use rules::edge_graph::edge_graph;

/// A scheme that closes the graph of a specification when it learns it, and answers by one bit of the closed graph.
pub type Matrix = Counted<ClosedGraph>;

/// The closed graph of a specification, and how many vertices it has.
#[derive(Drop)]
pub struct ClosedGraph {
    closed: Graph,
    vertices: usize,
}

impl Skeleton for ClosedGraph {
    ghost count = { λ s. s.vertices };

    ghost reach = { closed_test };

    fn new() -> Self {
        ClosedGraph {
            closed: Graph::new(),
            vertices: 1,
        }
    }

    fn learn(&mut self, specification: &SealedSpecification) {
        let edges = edge_graph(specification.specification());
        let mut closed = edges;
        closed.close();
        self.closed = closed;
        self.vertices = specification.specification().vertices().len();
    }

    fn vertices(&self) -> usize {
        self.vertices
    }

    /// Whether x is y, or an edge of the closed graph leads from x to y.
    fn reaches(&self, x: usize, y: usize) -> bool {
        x == y || self.closed.has(x, y)
    }
}
