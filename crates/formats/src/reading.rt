ghost use Rattle.std.specs.Prelude.{◌≡◌, MatchOption, MatchResult};
ghost use Rattle.formats.specs.Faults.{reading_fault};
ghost use Rattle.formats.specs.Lying.{Lies};
ghost use Rattle.formats.specs.Sections.{Lowest};
ghost use Rattle.formats.specs.SpecFiles.{n_of, m_of, b_of, edges_from, vertices_from, nests_from, ends_from, AllInside, Framed, Refused, Accepted, States, spec_bounds, spec_format};

use crate::faults::ReadingFault;
use crate::framed_file::{FramedFile, checked};
use crate::heads::{Sizes, head};
use crate::sections::Section;
use crate::spec_file::SpecFile;
use crate::specification::Specification;
use records::kinds::{Ends, Nest, SpecEdge, Vertex};
use records::record::Bounds;

/// The three sizes of a specification file.
#[derive(Clone, Copy)]
pub struct SpecSizes {
    pub vertices: u16,
    pub edges: u16,
    pub blocks: u16,
}

/// The sizes of a file, where they are within their limits and the file is as long as they say.
pub fn sizes(bytes: &[u8]) -> Result<SpecSizes, ReadingFault>
    ensures { MatchResult result (λ z. Framed bytes.now × (z.vertices ≡ n_of bytes.now) × (z.edges ≡ m_of bytes.now) × (z.blocks ≡ b_of bytes.now)) (λ e. Refused bytes.now (reading_fault e) × (¬ (Framed bytes.now))) }
{
    Ok(SpecFile::framed(bytes)?.sizes)
}

impl<'a> SpecFile<'a> {
    /// The file, where its sizes are within their limits and it is as long as they say.
    fn framed(bytes: &'a [u8]) -> Result<Self, ReadingFault>
        ensures { MatchResult result (λ x. x.bytes.now ≡ bytes.now) (λ f. Refused bytes.now (reading_fault f) × (¬ (Framed bytes.now))) }
    {
        let Sizes {
            first: vertices,
            second: edges,
            third: blocks,
        } = head::<Vertex, SpecEdge, Nest>(bytes, 2)?;
        let sizes = SpecSizes {
            vertices,
            edges,
            blocks,
        };
        Ok(SpecFile { bytes, sizes })
    }

    /// The sections, in the order in which they stand.
    fn edges(self) -> Section<'a, SpecEdge>
        ensures { Lies result self.entry.bytes.now (edges_from self.entry.bytes.now) (m_of self.entry.bytes.now) }
    {
        Section::new(self.bytes, 6, self.sizes.edges)
    }

    fn vertices(self) -> Section<'a, Vertex>
        ensures { Lies result self.entry.bytes.now (vertices_from self.entry.bytes.now) (n_of self.entry.bytes.now) }
    {
        Section::new(
            self.bytes,
            6 + 4 * self.sizes.edges as usize,
            self.sizes.vertices,
        )
    }

    fn nests(self) -> Section<'a, Nest>
        ensures { Lies result self.entry.bytes.now (nests_from self.entry.bytes.now) (b_of self.entry.bytes.now) }
    {
        Section::new(
            self.bytes,
            6 + 4 * (self.sizes.edges as usize + self.sizes.vertices as usize),
            self.sizes.blocks,
        )
    }

    fn ends(self) -> Section<'a, Ends>
        ensures { Lies result self.entry.bytes.now (ends_from self.entry.bytes.now) (b_of self.entry.bytes.now) }
    {
        Section::new(
            self.bytes,
            6 + 4
                * (self.sizes.edges as usize
                    + self.sizes.vertices as usize
                    + self.sizes.blocks as usize),
            self.sizes.blocks,
        )
    }

    /// What the numbers of the sections are held against.
    fn bounds(self) -> Bounds
        ensures { result ≡ spec_bounds self.entry.bytes.now }
    {
        Bounds {
            vertices: self.sizes.vertices,
            blocks: self.sizes.blocks,
            // no section of a specification is held against these
            copies: 0,
            steps: 0,
        }
    }

    /// The specification that the file states.
    fn specification(self) -> Specification
        requires { AllInside self.bytes.now }
        ensures { States self.entry.bytes.now result }
    {
        let edges = self.edges().table();
        let vertices = self.vertices().table();
        let nests = self.nests().table();
        let ends = self.ends().table();
        Specification {
            edges,
            vertices,
            nests,
            ends,
        }
    }
}

impl<'a> FramedFile for SpecFile<'a> {
    ghost format = { λ _. spec_format };

    ghost content = { λ file. file.bytes.now };

    ghost framed = { λ file. file.framed };

    #[tactic(auto, using(crate::proofs::Ranges::file_done))]
    fn outside(self) -> Option<usize> {
        let bounds = self.bounds();
        if let Some(at) = self.edges().outside(bounds) {
            return Some(at);
        }
        if let Some(at) = self.vertices().outside(bounds) {
            return Some(at);
        }
        if let Some(at) = self.nests().outside(bounds) {
            return Some(at);
        }
        self.ends().outside(bounds)
    }

    fn unordered(self) -> Option<usize> {
        self.edges().unordered()
    }
}

/// The specification that a file states, where none of the checks refuses it.
fn stated(bytes: &[u8]) -> Result<Specification, ReadingFault>
    ensures { MatchResult result (λ s. Accepted bytes.now × States bytes.now s) (λ f. Refused bytes.now (reading_fault f)) }
{
    let file = checked(SpecFile::framed(bytes)?)?;
    Ok(file.specification())
}

/// Reads a specification file into `place`, which a refusal leaves as it was.
pub fn read(bytes: &[u8], place: &mut Specification) -> Result<(), ReadingFault>
    ensures { MatchResult result (λ _. Accepted bytes.now × States bytes.now place.new) (λ f. Refused bytes.now (reading_fault f) × (place.new ≡ place.old)) }
{
    *place = stated(bytes)?;
    Ok(())
}
