ghost use Rattle.schemes.specs.Walkers.{kept_count, kept_test};

use crate::counted::Counted;
use crate::skeleton::Skeleton;
use crate::walk::reached;
use formats::specification::Specification;
use nesting::sealed::SealedSpecification;

/// A scheme that keeps the specification, and walks along its edges at each question.
pub type Walker = Counted<KeptSpecification>;

/// A specification, whose edges are walked along.
#[derive(Drop)]
pub struct KeptSpecification {
    specification: Specification,
}

impl Skeleton for KeptSpecification {
    ghost count = { kept_count };

    ghost reach = { kept_test };

    fn new() -> Self {
        KeptSpecification {
            specification: Specification::new(),
        }
    }

    fn learn(&mut self, specification: &SealedSpecification) {
        let learnt = specification.specification();
        self.specification = *learnt;
    }

    fn vertices(&self) -> usize {
        self.specification.vertices().len()
    }

    fn reaches(&self, x: usize, y: usize) -> bool {
        reached(self.specification.edges(), x).has(y)
    }
}
