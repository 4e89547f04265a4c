ghost use Rattle.std.specs.Prelude.{◌≡◌};
ghost use Rattle.formats.specs.RunFiles.{RunFramed, c_of, v_of, e_of};

/// The bytes of a run file whose sizes and length are right, of a specification with so many vertices and blocks.
#[derive(Clone, Copy)]
pub(crate) struct FramedRun<'a> {
    pub(crate) bytes: &'a [u8],
    pub(crate) copies: u16,
    pub(crate) steps: u16,
    pub(crate) edges: u16,
    pub(crate) vertices: u16,
    pub(crate) blocks: u16,
    ghost sizes: { (copies ≡ c_of bytes.now) × (steps ≡ v_of bytes.now) × (edges ≡ e_of bytes.now) },
    ghost framed: { RunFramed bytes.now },
}
