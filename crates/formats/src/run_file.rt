ghost use Rattle.std.specs.Prelude.{◌≡◌};
ghost use Rattle.formats.specs.RunFiles.{RunFramed, c_of, v_of, e_of, copies_of, steps_of, run_edges_of};
ghost use Rattle.formats.specs.Runs.{RootRanged, CopiesRanged, StepsRanged, RunEdgesRanged, TailsAscend, HeadsAscend};

/// A run file that was opened: its bytes, read where they lie, with sizes and length right, its edges ascending, and every number in the
/// range that a specification with so many vertices and blocks gives it.
#[derive(Clone, Copy)]
pub struct RunFile<'a> {
    pub(crate) bytes: &'a [u8],
    pub(crate) copies: u16,
    pub(crate) steps: u16,
    pub(crate) edges: u16,
    pub(crate) vertices: u16,
    pub(crate) blocks: u16,
    ghost sizes: { (copies ≡ c_of bytes.now) × (steps ≡ v_of bytes.now) × (edges ≡ e_of bytes.now) },
    ghost framed: { RunFramed bytes.now },
    ghost rooted: { RootRanged (copies_of bytes.now) },
    ghost nested: { CopiesRanged blocks (copies_of bytes.now) },
    ghost placed: { StepsRanged vertices (copies_of bytes.now) (steps_of bytes.now) },
    ghost edged: { RunEdgesRanged (steps_of bytes.now) (run_edges_of bytes.now) },
    ghost tails: { TailsAscend (run_edges_of bytes.now) },
    ghost heads: { HeadsAscend (run_edges_of bytes.now) },
}
