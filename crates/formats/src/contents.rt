ghost use Rattle.std.specs.Prelude.{◌≡◌, [], ◌∷◌, slice_index_or};
ghost use Rattle.formats.specs.Specifications.{no_vertex, no_nest, no_ends};
ghost use Rattle.records.specs.Tables.{kept};

use crate::specification::Specification;
use records::kinds::{Ends, Nest, SpecEdge, Vertex};
use records::tables::Table;

impl Specification {
    /// The trivial specification: vertex 0 with tool 0, no edge, block 0.
    pub fn new() -> Self
        ensures { (kept result.edges ≡ []) × (kept result.vertices ≡ no_vertex ∷ []) × (kept result.nests ≡ no_nest ∷ []) × (kept result.ends ≡ no_ends ∷ []) }
    {
        let edges = Table::new(SpecEdge { tail: 0, head: 0 });
        let vertices = Table::only(Vertex { home: 0, tool: 0 });
        let nests = Table::only(Nest { parent: 0, kind: 0 });
        let ends = Table::only(Ends { source: 0, sink: 0 });
        Specification {
            edges,
            vertices,
            nests,
            ends,
        }
    }

    /// The edges, ascending by tail and then by head where they were read from a file.
    pub fn edges(&self) -> &[SpecEdge]
        ensures { result.now ≡ kept self.now.edges }
    {
        self.edges.as_slice()
    }

    /// The vertices, each under its number.
    pub fn vertices(&self) -> &[Vertex]
        ensures { result.now ≡ kept self.now.vertices }
    {
        self.vertices.as_slice()
    }

    /// Parent and kind of each block, under its number.
    pub fn nests(&self) -> &[Nest]
        ensures { result.now ≡ kept self.now.nests }
    {
        self.nests.as_slice()
    }

    /// Source and sink of each block, under its number.
    pub fn ends(&self) -> &[Ends]
        ensures { result.now ≡ kept self.now.ends }
    {
        self.ends.as_slice()
    }

    // What follows is total, as the functions of the model are: it cannot fail, and asks nothing of whoever calls.

    /// The vertex numbered `x`; of zeros where there is none.
    pub fn vertex(&self, x: usize) -> Vertex
        ensures { result ≡ slice_index_or (kept self.now.vertices) x no_vertex }
    {
        self.vertices.get_or(x, Vertex { home: 0, tool: 0 })
    }

    /// Parent and kind of the block numbered `k`; of zeros where there is none.
    pub fn nest(&self, k: usize) -> Nest
        ensures { result ≡ slice_index_or (kept self.now.nests) k no_nest }
    {
        self.nests.get_or(k, Nest { parent: 0, kind: 0 })
    }

    /// Source and sink of the block numbered `k`; of zeros where there is none.
    pub fn ends_of(&self, k: usize) -> Ends
        ensures { result ≡ slice_index_or (kept self.now.ends) k no_ends }
    {
        self.ends.get_or(k, Ends { source: 0, sink: 0 })
    }
}
