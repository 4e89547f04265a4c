ghost use Rattle.std.specs.Prelude.{◌≡◌, T, ◌↔◌};
ghost use Rattle.model.specs.Specifications.{HasWholeEnds};
ghost use Rattle.rules.specs.Blocks.{drawn_spec};
ghost use Rattle.rules.specs.Parts.{parts_spec, EndsFit, MissingOnly};

use crate::drawn::Drawn;
use crate::parts::Parts;
use graphs::row::Row;
use records::kinds::Ends;

/// Whether `x` is missing from the row exactly where it is `end`.
fn missing_only(row: &Row, x: usize, end: usize) -> bool
    ensures { T result ↔ MissingOnly row.now end x }
{
    row.has(x) != (x == end)
}

impl<'a> Parts<'a> {
    /// The tables with their heads and tails.
    pub(crate) fn drawn(&self) -> Drawn<'a>
        ensures { parts_spec result.parts ≡ parts_spec self.now }
    {
        let mut heads = Row::empty();
        let mut tails = Row::empty();
        for edge in self.edges {
            heads.insert(edge.head as usize);
            tails.insert(edge.tail as usize);
        }
        Drawn {
            parts: *self,
            heads,
            tails,
        }
    }
}

impl Drawn<'_> {
    /// Whether `x` may lie outside the heads and the tails as it does, where block 0 has these ends.
    fn ends_fit(&self, whole: Ends, x: usize) -> bool
        ensures { T result ↔ EndsFit self.now.heads self.now.tails whole x }
    {
        missing_only(&self.heads, x, whole.source as usize)
            && missing_only(&self.tails, x, whole.sink as usize)
    }

    /// Whether block 0 has the only vertex without an edge into it as its source, and the only one without an edge out of it as its sink.
    pub(crate) fn whole_ends(&self) -> bool
        ensures { T result ↔ HasWholeEnds (drawn_spec self.now) }
    {
        let whole = self.parts.ends[0];
        (0..self.parts.vertices.len()).all(|x| self.ends_fit(whole, x))
    }
}
