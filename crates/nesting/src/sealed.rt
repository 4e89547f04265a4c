ghost use Rattle.model.specs.Specifications.{Sealed};
ghost use Rattle.formats.specs.Of.{spec_of};

use formats::specification::Specification;

/// A sealed specification. Only sealing makes one, and `new`, the trivial one; it cannot be copied.
#[derive(Drop)]
pub struct SealedSpecification {
    pub(crate) specification: Specification,
    ghost sealed: { ∥ Sealed (spec_of specification) ∥₁ },
}
