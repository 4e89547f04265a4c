ghost use Rattle.schemes.specs.Counted.{counted_meaning};

use crate::bounds::check_vertices;
use crate::faults::SchemeFault;
use crate::scheme::Scheme;
use crate::skeleton::Skeleton;
use nesting::sealed::SealedSpecification;

/// A scheme that answers by what it has learnt, and counts its answers.
#[derive(Drop)]
pub struct Counted<S> {
    skeleton: S,
    tally: u32,
}

impl<S: Skeleton> Scheme for Counted<S> {
    ghost meaning = { counted_meaning S.count S.reach };

    fn new() -> Self {
        Counted {
            skeleton: S::new(),
            tally: 0,
        }
    }

    fn learn(&mut self, specification: &SealedSpecification) {
        self.skeleton.learn(specification);
    }

    fn question(&mut self, x: usize, y: usize) -> Result<bool, SchemeFault> {
        check_vertices(self.skeleton.vertices(), x, y)?;
        let answer = self.skeleton.reaches(x, y);
        self.tally = self.tally.wrapping_add(1);
        Ok(answer)
    }

    fn tally(&self) -> u32 {
        self.tally
    }
}
