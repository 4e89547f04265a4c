ghost use Rattle.std.specs.Prelude.{ℕ, ◌<◌, T, ◌↔◌};
ghost use Rattle.model.specs.Specifications.{Edge, KeepsLoopRule};
ghost use Rattle.rules.specs.Blocks.{inner_spec};
ghost use Rattle.rules.specs.Loops.{ends_at, VertexKeeps, EdgeKeeps, LoopRow};

use crate::inner::Inner;
use graphs::row::Row;
use records::kinds::SpecEdge;

impl Inner<'_> {
    /// Whether an edge enters the row at the block's source and leaves it at the block's sink, if it does either.
    fn edge_keeps(&self, row: &Row, edge: SpecEdge) -> bool
        ensures { T result ↔ EdgeKeeps row.now (ends_at (inner_spec self.now) self.now.number) edge.tail edge.head }
    {
        let ends = self.ends();
        let starts_inside = row.has(edge.tail as usize);
        let ends_inside = row.has(edge.head as usize);
        (!ends_inside || edge.head == ends.source || starts_inside)
            && (!starts_inside || edge.tail == ends.sink || ends_inside)
    }

    /// Whether every edge enters and leaves the row as it may.
    fn edges_keep(&self, row: &Row) -> bool
        ensures { T result ↔ ((x y : ℕ) → Edge (inner_spec self.now) x y → EdgeKeeps row.now (ends_at (inner_spec self.now) self.now.number) x y) }
    {
        self.drawn
            .parts
            .edges
            .iter()
            .all(|edge| self.edge_keeps(row, *edge))
    }

    /// Whether vertex `x`, if it is in the row, has the edges that it must have.
    fn vertex_keeps(&self, row: &Row, x: usize) -> bool
        ensures { T result ↔ VertexKeeps row.now self.now.drawn.heads self.now.drawn.tails (ends_at (inner_spec self.now) self.now.number) x }
    {
        let ends = self.ends();
        !row.has(x)
            || (x == ends.source as usize || self.drawn.heads.has(x))
                && (x == ends.sink as usize || self.drawn.tails.has(x))
    }

    /// Whether every vertex of the row has the edges that it must have.
    fn vertices_keep(&self, row: &Row) -> bool
        ensures { T result ↔ ((x : ℕ) → x < (inner_spec self.now).n → VertexKeeps row.now self.now.drawn.heads self.now.drawn.tails (ends_at (inner_spec self.now) self.now.number) x) }
    {
        (0..self.drawn.parts.vertices.len()).all(|x| self.vertex_keeps(row, x))
    }

    /// Whether the row keeps the rule of loops in the place of the block's domain.
    fn loop_row(&self, row: &Row) -> bool
        ensures { T result ↔ LoopRow (inner_spec self.now) self.now.number row.now self.now.drawn.heads self.now.drawn.tails }
    {
        let ends = self.ends();
        row.has(ends.source as usize)
            && row.has(ends.sink as usize)
            && self.vertices_keep(row)
            && self.edges_keep(row)
    }

    /// Whether the block keeps the rule of loops.
    pub(crate) fn loop_rule(&self) -> bool
        ensures { T result ↔ KeepsLoopRule (inner_spec self.now) self.now.number }
    {
        let domain = self.domain();
        self.loop_row(&domain)
    }
}
