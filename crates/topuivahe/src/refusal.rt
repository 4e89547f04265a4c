use formats::faults::Fault;
use std::fmt;

/// A refusal: the fault, and the words for it.
#[derive(Drop)]
pub struct Refusal {
    pub fault: Fault,
    pub words: String,
}

impl fmt::Display for Refusal {
    fn fmt<W: fmt::Write>(&self, f: &mut fmt::Formatter<W>) -> fmt::Result {
        let fault = self.fault;
        let words = self.words.as_str();
        write!(f, "refused {fault}: {words}")
    }
}
