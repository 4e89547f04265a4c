ghost use Rattle.std.specs.Prelude.{◌≤◌, length};
ghost use Rattle.formats.specs.Specifications.{Sized, EdgesRanged, HomesRanged, WholeRanged, NestsRanged, EndsRanged};

use records::kinds::{Ends, Nest, SpecEdge, Vertex};

/// The four tables of a specification, lent to the checks of sealing as slices: a look at one is an index, and no call.
#[derive(Clone, Copy)]
pub struct Parts<'a> {
    pub(crate) edges: &'a [SpecEdge],
    pub(crate) vertices: &'a [Vertex],
    pub(crate) nests: &'a [Nest],
    pub(crate) ends: &'a [Ends],
    ghost few: { length vertices.now ≤ 64 },
    ghost sized: { Sized vertices.now nests.now ends.now },
    ghost edged: { EdgesRanged edges.now vertices.now },
    ghost housed: { HomesRanged vertices.now nests.now },
    ghost rooted: { WholeRanged nests.now },
    ghost nested: { NestsRanged nests.now },
    ghost ended: { EndsRanged ends.now vertices.now },
}
