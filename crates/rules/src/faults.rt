ghost use Rattle.std.specs.Prelude.{◌≡◌};
ghost use Rattle.rules.specs.Faults.{nesting_fault};
ghost use Rattle.rules.specs.declared.faults.NestingFault.TheVariants.{Reading};

use formats::faults::{Fault, ReadingFault};

/// Why a specification is not sealed, or the copies of a run are not nested as its blocks are. Each variant carries its place, and a fault
/// of reading is carried whole.
#[derive(Clone, Copy, Debug, PartialEq, Eq)]
pub enum NestingFault {
    Reading(ReadingFault),
    /// A path leads from `vertex` back to it; no lower vertex has one.
    Cycle { vertex: usize },
    /// The source of block 0 is not the only vertex without an edge into it, or its sink not the only one without an edge out of it.
    WholeEnds,
    /// The loop `block` breaks the rule of loops.
    LoopRule { block: usize },
    /// The fork `block` breaks the rule of forks.
    ForkRule { block: usize },
    /// `block` has the kind and the domain of its parent.
    EqualDomains { block: usize },
    /// `copy` stands under a parent of the wrong block; no lower copy does.
    WrongParent { copy: usize },
    /// Some block has no copy under `copy`, and should; no lower copy lacks one.
    LacksCopy { copy: usize },
}

impl From<ReadingFault> for NestingFault {
    ghost from_gives = { λ f r. r ≡ Reading f };

    fn from(fault: ReadingFault) -> Self {
        NestingFault::Reading(fault)
    }
}

/// Layer, number and place.
impl From<NestingFault> for Fault {
    ghost from_gives = { λ f r. r ≡ nesting_fault f };

    fn from(fault: NestingFault) -> Self {
        let (number, place) = match fault {
            NestingFault::Reading(fault) => return fault.into(),
            NestingFault::Cycle { vertex } => (6, vertex),
            NestingFault::WholeEnds => (7, 0),
            NestingFault::LoopRule { block } => (8, block),
            NestingFault::ForkRule { block } => (9, block),
            NestingFault::EqualDomains { block } => (10, block),
            NestingFault::WrongParent { copy } => (11, copy),
            NestingFault::LacksCopy { copy } => (12, copy),
        };
        Fault {
            layer: 2,
            number,
            place,
        }
    }
}
