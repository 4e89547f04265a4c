ghost use Rattle.formats.specs.Specifications.{Sized, EdgesRanged, HomesRanged, WholeRanged, NestsRanged, EndsRanged};
ghost use Rattle.records.specs.Tables.{kept};

use records::kinds::{Ends, Nest, SpecEdge, Vertex};
use records::record::Record;
use records::tables::Table;

/// A specification as a file states it, every number in its range; whether it is sealed is not known.
#[derive(Clone, Copy)]
pub struct Specification {
    pub(crate) edges: Table<SpecEdge, { SpecEdge::CEILING }>,
    pub(crate) vertices: Table<Vertex, { Vertex::CEILING }>,
    pub(crate) nests: Table<Nest, { Nest::CEILING }>,
    pub(crate) ends: Table<Ends, { Ends::CEILING }>,
    ghost sized: { Sized (kept vertices) (kept nests) (kept ends) },
    ghost edged: { EdgesRanged (kept edges) (kept vertices) },
    ghost housed: { HomesRanged (kept vertices) (kept nests) },
    ghost rooted: { WholeRanged (kept nests) },
    ghost nested: { NestsRanged (kept nests) },
    ghost ended: { EndsRanged (kept ends) (kept vertices) },
}
