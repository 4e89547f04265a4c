ghost use Rattle.std.specs.Prelude.{◌≡◌, T, ◌↔◌, IfOk};
ghost use Rattle.model.specs.Specifications.{Domain, Edge};
ghost use Rattle.formats.specs.Of.{spec_of};
ghost use Rattle.records.specs.Blocks.{kind_number};
ghost use Rattle.topuivahe.specs.Listings.{Lists};
ghost use Rattle.topuivahe.specs.Meanings.{AtHome, Entered, Left, NotEntered, NotLeft, words_spec};

use formats::specification::Specification;
use records::kinds::BlockKind;
use std::alloc::{AllocError, Global};

/// A specification that there are words for, and the heap on which they are made.
#[derive(Clone, Copy)]
pub struct SpecificationWords<'a> {
    pub heap: Global,
    pub specification: &'a Specification,
}

/// What a block is.
pub fn kind_of(specification: &Specification, block: usize) -> BlockKind
    ensures { (spec_of specification.now).kind block ≡ kind_number result }
{
    specification.nest(block).block_kind().unwrap()
}

/// Whether a vertex lies in the domain of a block: its home is the block, or has it above. (For any two numbers, where the walk in the rules
/// asks that the block is there.)
pub fn in_domain(specification: &Specification, block: usize, vertex: usize) -> bool
    ensures { T result ↔ Domain (spec_of specification.now) block vertex }
{
    let mut at = specification.vertex(vertex).home as usize;
    while at > block {
        at = specification.nest(at).parent as usize;
    }
    at == block
}

/// Whether the specification has an edge from `x` to `y`.
pub fn has_edge(specification: &Specification, x: usize, y: usize) -> bool
    ensures { T result ↔ Edge (spec_of specification.now) x y }
{
    specification
        .edges()
        .iter()
        .any(|edge| edge.tail as usize == x && edge.head as usize == y)
}

/// Whether some edge leads to the vertex.
fn is_head(specification: &Specification, vertex: usize) -> bool
    ensures { T result ↔ Entered (spec_of specification.now) vertex }
{
    specification
        .edges()
        .iter()
        .any(|edge| edge.head as usize == vertex)
}

/// Whether some edge leads from the vertex.
fn is_tail(specification: &Specification, vertex: usize) -> bool
    ensures { T result ↔ Left (spec_of specification.now) vertex }
{
    specification
        .edges()
        .iter()
        .any(|edge| edge.tail as usize == vertex)
}

impl SpecificationWords<'_> {
    /// The vertices whose home is the block, ascending.
    pub fn own(self, block: usize) -> Result<Vec<usize>, AllocError>
        ensures { IfOk result (λ v. Lists (AtHome (words_spec self.entry) block) (words_spec self.entry).n v.items) }
    {
        let specification = self.specification;
        (0..specification.vertices().len())
            .filter(|&x| specification.vertex(x).home as usize == block)
            .collect(self.heap)
    }

    /// The vertices in the domain of the block, ascending.
    pub fn domain(self, block: usize) -> Result<Vec<usize>, AllocError>
        ensures { IfOk result (λ v. Lists (Domain (words_spec self.entry) block) (words_spec self.entry).n v.items) }
    {
        let specification = self.specification;
        (0..specification.vertices().len())
            .filter(|&x| in_domain(specification, block, x))
            .collect(self.heap)
    }

    /// The vertices without an incoming edge, ascending.
    pub fn entries(self) -> Result<Vec<usize>, AllocError>
        ensures { IfOk result (λ v. Lists (NotEntered (words_spec self.entry)) (words_spec self.entry).n v.items) }
    {
        let specification = self.specification;
        (0..specification.vertices().len())
            .filter(|&x| !is_head(specification, x))
            .collect(self.heap)
    }

    /// The vertices without an outgoing edge, ascending.
    pub fn exits(self) -> Result<Vec<usize>, AllocError>
        ensures { IfOk result (λ v. Lists (NotLeft (words_spec self.entry)) (words_spec self.entry).n v.items) }
    {
        let specification = self.specification;
        (0..specification.vertices().len())
            .filter(|&x| !is_tail(specification, x))
            .collect(self.heap)
    }
}
