ghost use Rattle.std.specs.Prelude.{◌≡◌, ℕ, ◌<◌, T, ◌↔◌, length};
ghost use Rattle.model.specs.Forests.{Chain};
ghost use Rattle.model.specs.Specifications.{Domain};
ghost use Rattle.graphs.specs.Rows.{Holds};
ghost use Rattle.rules.specs.Blocks.{inner_spec};
ghost use Rattle.rules.specs.Parts.{parts_spec, HoldsDomain};

use crate::inner::Inner;
use crate::parts::Parts;
use graphs::row::Row;

impl Parts<'_> {
    /// Whether following parents from block `i` leads to block `j`.
    pub(crate) fn leads_up(&self, i: usize, j: usize) -> bool
        requires { i < length self.now.nests.now }
        ensures { T result ↔ Chain (parts_spec self.now).above i j }
    {
        let mut at = i;
        while at > j {
            at = self.nests[at].parent as usize;
        }
        at == j
    }

    /// The vertices in the domain of block `k`.
    pub(crate) fn domain(&self, k: usize) -> Row
        ensures { HoldsDomain (parts_spec self.now) k result }
    {
        let mut row = Row::empty();
        for (x, vertex) in self.vertices.iter().enumerate() {
            if self.leads_up(vertex.home as usize, k) {
                row.insert(x);
            }
        }
        row
    }
}

impl Inner<'_> {
    /// The vertices in the domain of the block.
    pub(crate) fn domain(&self) -> Row
        ensures { (x : ℕ) → Holds result x ↔ Domain (inner_spec self.now) self.now.number x }
    {
        self.drawn.parts.domain(self.number)
    }
}
