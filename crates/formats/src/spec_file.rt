ghost use Rattle.std.specs.Prelude.{◌≡◌};
ghost use Rattle.formats.specs.SpecFiles.{Framed, n_of, m_of, b_of};

use crate::reading::SpecSizes;

/// The bytes of a specification file whose sizes and length are right.
#[derive(Clone, Copy)]
pub(crate) struct SpecFile<'a> {
    pub(crate) bytes: &'a [u8],
    pub(crate) sizes: SpecSizes,
    ghost stated: { (sizes.vertices ≡ n_of bytes.now) × (sizes.edges ≡ m_of bytes.now) × (sizes.blocks ≡ b_of bytes.now) },
    ghost framed: { Framed bytes.now },
}
