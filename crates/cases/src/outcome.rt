//! What comes of a file.

use formats::faults::Fault;
use std::fmt;

/// What comes of a file; each is printed as the table has it.
#[derive(Clone, Copy)]
pub enum Outcome {
    Sealed,
    Conforms,
    Refused(Fault),
}

impl fmt::Display for Outcome {
    fn fmt<W: fmt::Write>(&self, f: &mut fmt::Formatter<W>) -> fmt::Result {
        match self {
            Outcome::Sealed => f.write_str("sealed"),
            Outcome::Conforms => f.write_str("conforms"),
            Outcome::Refused(fault) => write!(
                f,
                "layer {}, number {}, place {}",
                fault.layer, fault.number, fault.place
            ),
        }
    }
}
