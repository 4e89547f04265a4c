ghost use Rattle.std.specs.Prelude.{◌≡◌};
ghost use Rattle.schemes.specs.Faults.{scheme_fault, which_place};

use formats::faults::Fault;

/// Which of the two that a question names.
#[derive(Clone, Copy, Debug, PartialEq, Eq)]
pub enum Which {
    First,
    Second,
}

/// Why a scheme refuses a question.
#[derive(Clone, Copy, Debug, PartialEq, Eq)]
pub enum SchemeFault {
    /// That one of the two is no vertex of the specification that was learnt; where it is the second, the first is one.
    NoVertex { which: Which },
}

/// 1 for the first, 2 for the second.
impl From<Which> for usize {
    ghost from_gives = { λ w r. r ≡ which_place w };

    fn from(which: Which) -> Self {
        match which {
            Which::First => 1,
            Which::Second => 2,
        }
    }
}

/// Layer, number and place.
impl From<SchemeFault> for Fault {
    ghost from_gives = { λ f r. r ≡ scheme_fault f };

    fn from(fault: SchemeFault) -> Self {
        match fault {
            SchemeFault::NoVertex { which } => Fault {
                layer: 4,
                number: 18,
                place: which.into(),
            },
        }
    }
}
