ghost use Rattle.std.specs.Prelude.{◌≡◌, MatchResult};
ghost use Rattle.model.specs.Runs.{Placed, Conforms};
ghost use Rattle.nesting.specs.Copies.{Follows, Filled};
ghost use Rattle.nesting.specs.Of.{sealed_spec_of};
ghost use Rattle.conformance.specs.Deciding.{RunConforms, TurnedDown, PlaceAfter};
ghost use Rattle.conformance.specs.Faults.{conformance_fault};
ghost use Rattle.conformance.specs.Nonconforming.{Nonconforming};
ghost use Rattle.conformance.specs.Trials.{trial_run, trial_spec, Fitting};

use crate::derivation::Derivation;
use crate::faults::ConformanceFault;
use crate::trial::Trial;
use formats::run_file::RunFile;
use nesting::copies::check_copies;
use nesting::sealed::SealedSpecification;

impl Derivation<'_> {
    /// The checks of edges, in their order.
    fn check_edges(&self) -> Result<(), ConformanceFault>
        ensures { MatchResult result (λ _. Conforms (trial_spec self.now.trial) (trial_run self.now.trial)) (λ f. Nonconforming (trial_spec self.now.trial) self.now.trial.run.bytes.now (conformance_fault f)) }
    {
        if let Some(edge) = self.stray() {
            return Err(ConformanceFault::NotDerived { edge });
        }
        if let Some(step) = self.unlisted() {
            return Err(ConformanceFault::NotListed { step });
        }
        Ok(())
    }
}

impl Trial<'_> {
    /// The checks of steps, in their order.
    fn check_steps(self) -> Result<(), ConformanceFault>
        requires { (Fitting self) × ((Follows (trial_spec self) (trial_run self)) × (Filled (trial_spec self) (trial_run self))) }
        ensures { MatchResult result (λ _. Placed (trial_spec self.entry) (trial_run self.entry)) (λ f. Nonconforming (trial_spec self.entry) self.entry.run.bytes.now (conformance_fault f)) }
    {
        if let Some(step) = self.astray() {
            return Err(ConformanceFault::Astray { step });
        }
        let grid = match self.marked() {
            Ok(grid) => grid,
            Err(step) => return Err(ConformanceFault::Repeated { step }),
        };
        if let Some(copy) = self.short_of(&grid) {
            return Err(ConformanceFault::MissingStep { copy });
        }
        Ok(())
    }

    /// All checks of an opened run, in their order.
    fn check_all(self) -> Result<(), ConformanceFault>
        requires { Fitting self }
        ensures { MatchResult result (λ _. Conforms (trial_spec self.entry) (trial_run self.entry)) (λ f. Nonconforming (trial_spec self.entry) self.entry.run.bytes.now (conformance_fault f)) }
    {
        check_copies(self.specification, self.run)?;
        self.check_steps()?;
        Derivation::of(self).check_edges()
    }
}

/// Opens a run file into `place` and checks it against a sealed specification. The place holds the file as soon as it is opened, also if
/// the run then does not conform; a file that is not opened leaves it as it was.
pub fn check<'a>(
    specification: &'a SealedSpecification,
    bytes: &'a [u8],
    place: &mut RunFile<'a>,
) -> Result<(), ConformanceFault>
    ensures verdict { MatchResult result (λ _. RunConforms (sealed_spec_of specification.now) bytes.now) (λ f. TurnedDown (sealed_spec_of specification.now) bytes.now (conformance_fault f)) }
    ensures place { PlaceAfter (sealed_spec_of specification.now) bytes.now place.old place.new }
{
    let specification = specification.specification();
    let vertices = specification.vertices().len() as u16;
    let blocks = specification.nests().len() as u16;
    RunFile::open(bytes, vertices, blocks, place)?;
    let run = *place;
    Trial { specification, run }.check_all()
}
