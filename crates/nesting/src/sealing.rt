ghost use Rattle.std.specs.Prelude.{◌≡◌, MatchResult};
ghost use Rattle.model.specs.Specifications.{Sealed};
ghost use Rattle.formats.specs.Of.{spec_of, trivial};
ghost use Rattle.formats.specs.SpecFiles.{Accepted, States};
ghost use Rattle.rules.specs.Faults.{nesting_fault};
ghost use Rattle.rules.specs.Unsealed.{Unsealed};
ghost use Rattle.nesting.specs.Unsealed.{NotSealed};

use crate::sealed::SealedSpecification;
use formats::reading::read;
use formats::specification::Specification;
use rules::checking::check;
use rules::faults::NestingFault;

impl SealedSpecification {
    /// The trivial specification, which is sealed.
    pub fn new() -> Self
        ensures { spec_of result.specification ≡ trivial }
    {
        let specification = Specification::new();
        SealedSpecification { specification }
    }

    /// What was sealed.
    pub fn specification(&self) -> &Specification
        ensures { result.now ≡ self.now.specification }
    {
        &self.specification
    }
}

/// Seals a specification into `place`, which a refusal leaves as it was.
pub fn seal(
    specification: &Specification,
    place: &mut SealedSpecification,
) -> Result<(), NestingFault>
    ensures { MatchResult result (λ _. Sealed (spec_of specification.now) × (place.new.specification ≡ specification.now)) (λ f. Unsealed (spec_of specification.now) (nesting_fault f) × (place.new ≡ place.old)) }
{
    check(specification)?;
    *place = SealedSpecification {
        specification: *specification,
    };
    Ok(())
}

/// Reads a specification file and seals what it states; a refusal of reading leaves both places as they were, and one of sealing the second.
pub fn read_and_seal(
    bytes: &[u8],
    specification: &mut Specification,
    place: &mut SealedSpecification,
) -> Result<(), NestingFault>
    ensures { MatchResult result (λ _. Accepted bytes.now × States bytes.now specification.new × Sealed (spec_of specification.new) × (place.new.specification ≡ specification.new)) (λ f. NotSealed bytes.now specification.old specification.new (nesting_fault f) × (place.new ≡ place.old)) }
{
    read(bytes, specification)?;
    seal(specification, place)
}
