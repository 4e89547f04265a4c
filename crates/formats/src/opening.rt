ghost use Rattle.std.specs.Prelude.{◌≡◌, length, MatchResult, slice_index_or};
ghost use Rattle.formats.specs.Faults.{reading_fault};
ghost use Rattle.formats.specs.RunFiles.{copies_of, steps_of, run_edges_of, RunAccepted, RunRefused, trivial_run};
ghost use Rattle.formats.specs.Runs.{no_copy, no_step, no_run_edge};

use crate::faults::ReadingFault;
use crate::framed_file::checked;
use crate::framed_run::FramedRun;
use crate::run_file::RunFile;
use records::kinds::{RunCopy, RunEdge, Step};

/// Sizes 1, 1 and 0, one copy and one step, all of zeros.
const TRIVIAL: [u8; 14] = [1, 0, 1, 0, 0, 0, 0, 0, 0, 0, 0, 0, 0, 0];

impl<'a> RunFile<'a> {
    /// The trivial run, opened against one vertex and one block: copy 0, and one step with context 0 and origin 0.
    pub fn new() -> RunFile<'a>
        ensures { (result.bytes.now ≡ trivial_run) × (result.vertices ≡ 1) × (result.blocks ≡ 1) }
    {
        RunFile {
            bytes: &TRIVIAL,
            copies: 1,
            steps: 1,
            edges: 0,
            vertices: 1,
            blocks: 1,
        }
    }

    /// Opens a run file of a specification with so many vertices and blocks into `place`, which a refusal leaves as it was.
    pub fn open(
        bytes: &'a [u8],
        vertices: u16,
        blocks: u16,
        place: &mut RunFile<'a>,
    ) -> Result<(), ReadingFault>
        ensures { MatchResult result (λ _. RunAccepted vertices blocks bytes.now × (place.new.bytes.now ≡ bytes.now) × (place.new.vertices ≡ vertices) × (place.new.blocks ≡ blocks)) (λ f. RunRefused vertices blocks bytes.now (reading_fault f) × (place.new ≡ place.old)) }
    {
        let run = checked(FramedRun::framed(bytes, vertices, blocks)?)?;
        *place = run.opened();
        Ok(())
    }

    /// The same file, without what is known of its numbers.
    fn framed(self) -> FramedRun<'a>
        ensures { result.bytes.now ≡ self.entry.bytes.now }
    {
        FramedRun {
            bytes: self.bytes,
            copies: self.copies,
            steps: self.steps,
            edges: self.edges,
            vertices: self.vertices,
            blocks: self.blocks,
        }
    }

    /// How many copies the run has.
    #[tactic(auto, using(crate::proofs::Rows::section_length))]
    pub fn copies(self) -> usize
        ensures { result ≡ length (copies_of self.entry.bytes.now) }
    {
        self.copies as usize
    }

    /// How many steps it has.
    #[tactic(auto, using(crate::proofs::Rows::section_length))]
    pub fn steps(self) -> usize
        ensures { result ≡ length (steps_of self.entry.bytes.now) }
    {
        self.steps as usize
    }

    /// How many edges it lists.
    #[tactic(auto, using(crate::proofs::Rows::section_length))]
    pub fn edges(self) -> usize
        ensures { result ≡ length (run_edges_of self.entry.bytes.now) }
    {
        self.edges as usize
    }

    // What follows is total, as the functions of the model are: it cannot fail, and asks nothing of whoever calls.

    /// The copy numbered `i`; of zeros where there is none.
    pub fn copy(self, i: usize) -> RunCopy
        ensures { result ≡ slice_index_or (copies_of self.entry.bytes.now) i no_copy }
    {
        self.framed().copies().get(i)
    }

    /// The step numbered `u`; of zeros where there is none.
    pub fn step(self, u: usize) -> Step
        ensures { result ≡ slice_index_or (steps_of self.entry.bytes.now) u no_step }
    {
        self.framed().steps().get(u)
    }

    /// The edge at index `k`; of zeros where there is none.
    pub fn edge(self, k: usize) -> RunEdge
        ensures { result ≡ slice_index_or (run_edges_of self.entry.bytes.now) k no_run_edge }
    {
        self.framed().edges().get(k)
    }
}
