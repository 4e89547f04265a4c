ghost use Rattle.std.specs.Prelude.{◌≡◌, MatchResult};
ghost use Rattle.formats.specs.Faults.{reading_fault};
ghost use Rattle.formats.specs.Lying.{Lies};
ghost use Rattle.formats.specs.RunFiles.{c_of, v_of, e_of, copies_from, steps_from, run_edges_from, run_bounds, run_format, RunAccepted, RunRefused};

use crate::faults::ReadingFault;
use crate::framed_file::FramedFile;
use crate::framed_run::FramedRun;
use crate::heads::{Sizes, head};
use crate::run_file::RunFile;
use crate::sections::Section;
use records::kinds::{RunCopy, RunEdge, Step};
use records::record::Bounds;

impl<'a> FramedRun<'a> {
    /// The file, where its sizes are within their limits and it is as long as they say.
    pub(crate) fn framed(bytes: &'a [u8], vertices: u16, blocks: u16) -> Result<Self, ReadingFault>
        ensures { MatchResult result (λ x. (x.bytes.now ≡ bytes.now) × (x.vertices ≡ vertices) × (x.blocks ≡ blocks)) (λ f. RunRefused vertices blocks bytes.now (reading_fault f)) }
    {
        let Sizes {
            first: copies,
            second: steps,
            third: edges,
        } = head::<RunCopy, Step, RunEdge>(bytes, 1)?;
        Ok(FramedRun {
            bytes,
            copies,
            steps,
            edges,
            vertices,
            blocks,
        })
    }

    /// The sections, in the order in which they stand.
    pub(crate) fn copies(self) -> Section<'a, RunCopy>
        ensures { Lies result self.entry.bytes.now (copies_from self.entry.bytes.now) (c_of self.entry.bytes.now) }
    {
        Section::new(self.bytes, 6, self.copies)
    }

    pub(crate) fn steps(self) -> Section<'a, Step>
        ensures { Lies result self.entry.bytes.now (steps_from self.entry.bytes.now) (v_of self.entry.bytes.now) }
    {
        Section::new(self.bytes, 6 + 4 * self.copies as usize, self.steps)
    }

    pub(crate) fn edges(self) -> Section<'a, RunEdge>
        ensures { Lies result self.entry.bytes.now (run_edges_from self.entry.bytes.now) (e_of self.entry.bytes.now) }
    {
        Section::new(
            self.bytes,
            6 + 4 * (self.copies as usize + self.steps as usize),
            self.edges,
        )
    }

    /// What the numbers of the sections are held against.
    fn bounds(self) -> Bounds
        ensures { result ≡ run_bounds self.entry.vertices self.entry.blocks self.entry.bytes.now }
    {
        Bounds {
            vertices: self.vertices,
            blocks: self.blocks,
            copies: self.copies,
            steps: self.steps,
        }
    }

    /// The file opened, where nothing is left to refuse it.
    pub(crate) fn opened(self) -> RunFile<'a>
        requires { RunAccepted self.vertices self.blocks self.bytes.now }
        ensures { (result.bytes.now ≡ self.entry.bytes.now) × (result.vertices ≡ self.entry.vertices) × (result.blocks ≡ self.entry.blocks) }
    {
        RunFile {
            bytes: self.bytes,
            copies: self.copies,
            steps: self.steps,
            edges: self.edges,
            vertices: self.vertices,
            blocks: self.blocks,
        }
    }
}

impl<'a> FramedFile for FramedRun<'a> {
    ghost format = { λ file. run_format file.vertices file.blocks };

    ghost content = { λ file. file.bytes.now };

    ghost framed = { λ file. file.framed };

    #[tactic(auto, using(crate::proofs::RunRanges::run_done))]
    fn outside(self) -> Option<usize> {
        let bounds = self.bounds();
        if let Some(at) = self.copies().outside(bounds) {
            return Some(at);
        }
        if let Some(at) = self.steps().outside(bounds) {
            return Some(at);
        }
        self.edges().outside(bounds)
    }

    fn unordered(self) -> Option<usize> {
        self.edges().unordered()
    }
}
