ghost use Rattle.std.specs.Prelude.{◌≡◌, ℕ, ◌<◌, Bool, T, ◌↔◌};
ghost use Rattle.nesting.specs.Of.{sealed_spec_of};
ghost use Rattle.schemes.specs.Meanings.{Fresh, Reaches, tallied};

use nesting::sealed::SealedSpecification;

/// What a scheme has learnt of a specification: how many vertices there are, and which of them reach which.
pub(crate) trait Skeleton: Sized {
    ghost count: { Self → ℕ };

    ghost reach: { Self → ℕ → ℕ → Bool };

    /// The reach of the trivial specification.
    fn new() -> Self
        ensures { Fresh (tallied (count result) (reach result) 0) };

    /// The reach becomes that of the specification.
    fn learn(&mut self, specification: &SealedSpecification)
        ensures { (tally : ℕ) → Reaches (tallied (count self.new) (reach self.new) tally) (sealed_spec_of specification.now) };

    /// How many vertices there are.
    fn vertices(&self) -> usize
        ensures { result ≡ count self.now };

    /// Whether x reaches y.
    fn reaches(&self, x: usize, y: usize) -> bool
        requires { (x < count self.now) × (y < count self.now) }
        ensures { T result ↔ T (reach self.now x y) };
}
