ghost use Rattle.std.specs.Prelude.{◌≡◌, ℕ, ◌<◌, T, ◌↔◌, length, MatchOption};
ghost use Rattle.model.specs.Paths.{Path*};
ghost use Rattle.model.specs.Specifications.{ForkDomain, ForkEnds, KeepsForkRule};
ghost use Rattle.formats.specs.Sections.{Lowest};
ghost use Rattle.graphs.specs.Graphs.{Joins};
ghost use Rattle.graphs.specs.Rows.{Holds};
ghost use Rattle.rules.specs.Blocks.{inner_spec};
ghost use Rattle.rules.specs.Forks.{Stays, EdgesStay, Linked, EndAt, ForksAbove, ForkRow};
ghost use Rattle.rules.specs.Parts.{parts_spec};

use crate::inner::Inner;
use crate::parts::Parts;
use graphs::graph::Graph;
use graphs::row::{Row, VERTICES};
use records::kinds::BlockKind;

/// The lowest vertex of the row.
fn lowest(row: &Row) -> Option<usize>
    ensures { MatchOption result ((x : ℕ) → Holds row.now x → ⊥) (Lowest (Holds row.now)) }
{
    (0..VERTICES).find(|&x| row.has(x))
}

/// Whether every vertex of the row is in the other row.
fn within(row: &Row, other: &Row) -> bool
    ensures { T result ↔ ((x : ℕ) → Holds row.now x → Holds other.now x) }
{
    (0..VERTICES).all(|x| !row.has(x) || other.has(x))
}

/// Whether the row, where it holds `x`, holds `y` too, or `y` is `z`.
fn stays(row: &Row, x: usize, y: usize, z: usize) -> bool
    ensures { T result ↔ Stays row.now x y z }
{
    !row.has(x) || row.has(y) || y == z
}

impl Parts<'_> {
    /// The edges within the row, in both directions.
    fn links(&self, row: &Row) -> Graph
        ensures { (x y : ℕ) → Joins result x y ↔ Linked (parts_spec self.now) row.now x y }
    {
        let mut graph = Graph::new();
        for edge in self.edges {
            let tail = edge.tail as usize;
            let head = edge.head as usize;
            if row.has(tail) && row.has(head) {
                graph.add(tail, head);
                graph.add(head, tail);
            }
        }
        graph
    }

    /// Whether edges within the row, taken without direction, lead from `x` to every vertex of the row.
    fn connects(&self, row: &Row, x: usize) -> bool
        ensures { T result ↔ ((y : ℕ) → Holds row.now y → Path* (Linked (parts_spec self.now) row.now) x y) }
    {
        let mut graph = self.links(row);
        graph.close();
        (0..VERTICES).all(|y| !row.has(y) || y == x || graph.has(x, y))
    }

    /// Whether block `k` is a fork.
    fn is_fork(&self, k: usize) -> bool
        requires { k < length self.now.nests.now }
        ensures { T result ↔ ((parts_spec self.now).kind k ≡ 1) }
    {
        matches!(self.nests[k].block_kind(), Some(BlockKind::Fork))
    }

    /// Whether vertex `x` lies in the domain of block `k`, or `k` is a fork and `x` is `z`.
    fn end_at(&self, k: usize, x: usize, z: usize) -> bool
        requires { (k < length self.now.nests.now) × (x < length self.now.vertices.now) }
        ensures { T result ↔ EndAt (parts_spec self.now) k x z }
    {
        self.leads_up(self.vertices[x].home as usize, k) || self.is_fork(k) && x == z
    }

    /// Whether every fork whose domain holds vertex `x` is above block `k`.
    fn forks_above(&self, k: usize, x: usize) -> bool
        requires { (k < length self.now.nests.now) × (x < length self.now.vertices.now) }
        ensures { T result ↔ ForksAbove (parts_spec self.now) k x }
    {
        let home = self.vertices[x].home as usize;
        (1..self.nests.len()).all(|j| !self.is_fork(j)
            || !self.leads_up(home, j)
            || self.leads_up(k, j))
    }
}

impl Inner<'_> {
    /// Whether edges into the row start in it or at the block's source, and edges out of it end in it or at the block's sink.
    fn edges_stay(&self, row: &Row) -> bool
        ensures { T result ↔ EdgesStay (inner_spec self.now) self.now.number row.now }
    {
        let ends = self.ends();
        let source = ends.source as usize;
        let sink = ends.sink as usize;
        self.drawn.parts.edges.iter().all(|edge| {
            let tail = edge.tail as usize;
            let head = edge.head as usize;
            stays(row, head, tail, source) && stays(row, tail, head, sink)
        })
    }

    /// Whether the row, one of whose vertices is `x`, keeps the rule of forks in the place of the block's domain.
    fn fork_row(&self, row: &Row, x: usize) -> bool
        ensures { T result ↔ ForkRow (inner_spec self.now) self.now.number row.now self.now.drawn.heads self.now.drawn.tails x }
    {
        let ends = self.ends();
        !row.has(ends.source as usize)
            && !row.has(ends.sink as usize)
            && within(row, &self.drawn.heads)
            && within(row, &self.drawn.tails)
            && self.edges_stay(row)
            && self.drawn.parts.connects(row, x)
    }

    /// Whether the domain of the block keeps the rule of forks.
    fn fork_domain(&self) -> bool
        ensures { T result ↔ ForkDomain (inner_spec self.now) self.now.number }
    {
        let domain = self.domain();
        match lowest(&domain) {
            Some(x) => self.fork_row(&domain, x),
            None => false,
        }
    }

    /// Whether the ends of the block keep the rule of forks.
    fn fork_ends(&self) -> bool
        ensures { T result ↔ ForkEnds (inner_spec self.now) self.now.number }
    {
        let parts = &self.drawn.parts;
        let parent = self.nest().parent as usize;
        let outer = parts.ends[parent];
        let ends = self.ends();
        let source = ends.source as usize;
        let sink = ends.sink as usize;
        parts.end_at(parent, source, outer.source as usize)
            && parts.end_at(parent, sink, outer.sink as usize)
            && parts.forks_above(self.number, source)
            && parts.forks_above(self.number, sink)
    }

    /// Whether the block keeps the rule of forks.
    pub(crate) fn fork_rule(&self) -> bool
        ensures { T result ↔ KeepsForkRule (inner_spec self.now) self.now.number }
    {
        self.fork_domain() && self.fork_ends()
    }
}
