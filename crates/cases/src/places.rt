//! A caller's two places, and what a call may leave in them.

use formats::specification::Specification;
use nesting::sealed::SealedSpecification;
use nesting::sealing::read_and_seal;
use rules::faults::NestingFault;

#[derive(Drop)]
pub struct Places {
    read: Specification,
    sealed: SealedSpecification,
}

/// What the places held before a call.
#[derive(Clone, Copy)]
pub struct Before {
    read: Specification,
    sealed: Specification,
}

/// Whether two specifications have the same records.
/// Slice by slice: a specification also has places that are not taken, which do not count.
fn same(a: &Specification, b: &Specification) -> bool {
    a.edges() == b.edges()
        && a.vertices() == b.vertices()
        && a.nests() == b.nests()
        && a.ends() == b.ends()
}

impl Places {
    pub fn new() -> Self {
        Places {
            read: Specification::new(),
            sealed: SealedSpecification::new(),
        }
    }

    pub fn before(&self) -> Before {
        let sealed = *self.sealed.specification();
        Before {
            read: self.read,
            sealed,
        }
    }

    /// The specification that was sealed last.
    pub fn sealed(&self) -> &SealedSpecification {
        &self.sealed
    }

    pub fn take(&mut self, file: &[u8]) -> Result<(), NestingFault> {
        read_and_seal(file, &mut self.read, &mut self.sealed)
    }

    /// Whether the places hold what they should: both the new specification, or after a refusal what they held,
    /// but for the first after a refusal of sealing, which holds what was read.
    pub fn as_said(&self, before: &Before, answer: Result<(), NestingFault>) -> bool {
        let sealed_kept = same(&before.sealed, self.sealed.specification());
        match answer {
            Ok(()) => same(&self.read, self.sealed.specification()),
            Err(NestingFault::Reading(_)) => sealed_kept && same(&before.read, &self.read),
            Err(_) => sealed_kept,
        }
    }
}
