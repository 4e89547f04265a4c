ghost use Rattle.std.specs.Prelude.{◌≡◌, MatchResult};
ghost use Rattle.nesting.specs.Of.{sealed_spec_of};
ghost use Rattle.schemes.specs.Faults.{scheme_fault};
ghost use Rattle.schemes.specs.Meanings.{Meaning, Fresh, Learnt, Questioned, IsNoVertex};

use crate::faults::SchemeFault;
use nesting::sealed::SealedSpecification;

/// A skeleton scheme: it learns a specification, and says of two of its vertices whether zero or more edges lead from the first to the
/// second. `meaning` is all that a scheme is to whoever uses it.
pub trait Scheme: Sized {
    ghost meaning: { Self → Meaning };

    /// A scheme with the reach of the trivial specification, and no question answered.
    fn new() -> Self
        ensures { Fresh (meaning result) };

    /// The reach becomes that of the specification; the tally stays.
    fn learn(&mut self, specification: &SealedSpecification)
        ensures { Learnt (meaning self.old) (sealed_spec_of specification.now) (meaning self.new) };

    /// Whether x reaches y, which is counted in the tally; a refused question leaves the scheme as it was.
    fn question(&mut self, x: usize, y: usize) -> Result<bool, SchemeFault>
        ensures { MatchResult result (λ b. Questioned (meaning self.old) x y b (meaning self.new)) (λ f. IsNoVertex (meaning self.old).count x y (scheme_fault f) × (self.new ≡ self.old)) };

    /// How many questions were answered, modulo 2^32.
    fn tally(&self) -> u32
        ensures { result ≡ (meaning self.now).tally };
}
