ghost use Rattle.std.specs.Prelude.{◌≡◌};
ghost use Rattle.conformance.specs.Faults.{conformance_fault};
ghost use Rattle.conformance.specs.declared.faults.ConformanceFault.TheVariants.{Nesting};
ghost use Rattle.rules.specs.declared.faults.NestingFault.TheVariants.{Reading};

use formats::faults::{Fault, ReadingFault};
use rules::faults::NestingFault;

/// Why a run does not conform to a specification. Each variant carries its place, and a fault of nesting, or of reading within it, is
/// carried whole.
#[derive(Clone, Copy, Debug, PartialEq, Eq)]
pub enum ConformanceFault {
    Nesting(NestingFault),
    /// The origin of `step` is not at home in the block of its context; no lower step has such an origin.
    Astray { step: usize },
    /// `step` has the context and the origin of an earlier step; no lower step has.
    Repeated { step: usize },
    /// A vertex at home in the block of `copy` has no step there; no lower copy lacks one.
    MissingStep { copy: usize },
    /// The edge listed at index `edge` is not derived; every one before it is.
    NotDerived { edge: usize },
    /// A derived edge from `step` is not listed; no lower step has such an edge.
    NotListed { step: usize },
}

impl From<NestingFault> for ConformanceFault {
    ghost from_gives = { λ f r. r ≡ Nesting f };

    fn from(fault: NestingFault) -> Self {
        ConformanceFault::Nesting(fault)
    }
}

impl From<ReadingFault> for ConformanceFault {
    ghost from_gives = { λ f r. r ≡ Nesting (Reading f) };

    fn from(fault: ReadingFault) -> Self {
        ConformanceFault::Nesting(NestingFault::Reading(fault))
    }
}

/// Layer, number and place.
impl From<ConformanceFault> for Fault {
    ghost from_gives = { λ f r. r ≡ conformance_fault f };

    fn from(fault: ConformanceFault) -> Self {
        let (number, place) = match fault {
            ConformanceFault::Nesting(fault) => return fault.into(),
            ConformanceFault::Astray { step } => (13, step),
            ConformanceFault::Repeated { step } => (14, step),
            ConformanceFault::MissingStep { copy } => (15, copy),
            ConformanceFault::NotDerived { edge } => (16, edge),
            ConformanceFault::NotListed { step } => (17, step),
        };
        Fault {
            layer: 3,
            number,
            place,
        }
    }
}
