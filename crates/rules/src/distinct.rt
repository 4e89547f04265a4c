ghost use Rattle.std.specs.Prelude.{ℕ, ◌<◌, T, ◌↔◌, length};
ghost use Rattle.model.specs.Specifications.{Distinct};
ghost use Rattle.graphs.specs.Rows.{Holds};
ghost use Rattle.rules.specs.Blocks.{inner_spec};

use crate::inner::Inner;
use crate::parts::Parts;
use graphs::row::Row;

/// Whether both rows hold `x`, or neither does.
fn agree(a: &Row, b: &Row, x: usize) -> bool
    ensures { T result ↔ (Holds a.now x ↔ Holds b.now x) }
{
    a.has(x) == b.has(x)
}

impl Parts<'_> {
    /// Whether two rows hold the same vertices. (Vertex by vertex: of a row it is known what it holds, not what its words are.)
    fn same_vertices(&self, a: &Row, b: &Row) -> bool
        ensures { T result ↔ ((x : ℕ) → x < length self.now.vertices.now → (Holds a.now x ↔ Holds b.now x)) }
    {
        (0..self.vertices.len()).all(|x| agree(a, b, x))
    }
}

impl Inner<'_> {
    /// Whether the block has another kind than its parent, or another domain.
    pub(crate) fn distinct(&self) -> bool
        ensures { T result ↔ Distinct (inner_spec self.now) self.now.number }
    {
        let parts = &self.drawn.parts;
        let nest = self.nest();
        let parent = nest.parent as usize;
        // the kinds as the file numbers them: only whether they differ counts
        if nest.kind != parts.nests[parent].kind {
            return true;
        }
        let own = self.domain();
        let outer = parts.domain(parent);
        !parts.same_vertices(&own, &outer)
    }
}
