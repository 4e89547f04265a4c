ghost use Rattle.std.specs.Prelude.{◌≡◌, length, MatchResult};
ghost use Rattle.model.specs.Specifications.{Sealed, Acyclic, HasWholeEnds};
ghost use Rattle.formats.specs.Of.{spec_of};
ghost use Rattle.rules.specs.Blocks.{drawn_spec, inner_spec};
ghost use Rattle.rules.specs.Faults.{nesting_fault};
ghost use Rattle.rules.specs.Parts.{parts_spec};
ghost use Rattle.rules.specs.Unsealed.{KeepsRule, Passes, PassedBelow, Unsealed, UnsealedAt};

use crate::drawn::Drawn;
use crate::faults::NestingFault;
use crate::inner::Inner;
use crate::parts::Parts;
use formats::specification::Specification;
use records::kinds::BlockKind;

impl Inner<'_> {
    /// The rule of the block's kind.
    fn check_rule(&self) -> Result<(), NestingFault>
        ensures { MatchResult result (λ _. KeepsRule (inner_spec self.now) self.now.number) (λ f. UnsealedAt (inner_spec self.now) self.now.number (nesting_fault f)) }
    {
        let block = self.number;
        match self.nest().block_kind() {
            Some(BlockKind::Fork) if !self.fork_rule() => Err(NestingFault::ForkRule { block }),
            Some(BlockKind::Loop) if !self.loop_rule() => Err(NestingFault::LoopRule { block }),
            _ => Ok(()),
        }
    }

    /// The checks of the block.
    fn check(&self) -> Result<(), NestingFault>
        ensures { MatchResult result (λ _. Passes (inner_spec self.now) self.now.number) (λ f. UnsealedAt (inner_spec self.now) self.now.number (nesting_fault f)) }
    {
        self.check_rule()?;
        if !self.distinct() {
            return Err(NestingFault::EqualDomains { block: self.number });
        }
        Ok(())
    }
}

impl Drawn<'_> {
    /// The checks of the ends of block 0 and of every other block, in their order.
    fn check(&self) -> Result<(), NestingFault>
        ensures { MatchResult result (λ _. HasWholeEnds (drawn_spec self.now) × PassedBelow (drawn_spec self.now) (length self.now.parts.nests.now)) (λ f. Acyclic (drawn_spec self.now) → Unsealed (drawn_spec self.now) (nesting_fault f)) }
    {
        if !self.whole_ends() {
            return Err(NestingFault::WholeEnds);
        }
        for number in 1..self.parts.nests.len() {
            let block = Inner {
                drawn: *self,
                number,
            };
            block.check()?;
        }
        Ok(())
    }
}

impl<'a> From<&'a Specification> for Parts<'a> {
    ghost from_gives = { λ s r. parts_spec r ≡ spec_of s.now };

    fn from(specification: &'a Specification) -> Self {
        let edges = specification.edges();
        let vertices = specification.vertices();
        let nests = specification.nests();
        let ends = specification.ends();
        Parts {
            edges,
            vertices,
            nests,
            ends,
        }
    }
}

impl Parts<'_> {
    /// All checks of sealing, in their order.
    fn check(&self) -> Result<(), NestingFault>
        ensures { MatchResult result (λ _. Sealed (parts_spec self.now)) (λ f. Unsealed (parts_spec self.now) (nesting_fault f)) }
    {
        match self.cycle() {
            Some(vertex) => Err(NestingFault::Cycle { vertex }),
            None => self.drawn().check(),
        }
    }
}

/// Tries all rules of sealing on a specification, in their order.
pub fn check(specification: &Specification) -> Result<(), NestingFault>
    ensures { MatchResult result (λ _. Sealed (spec_of specification.now)) (λ f. Unsealed (spec_of specification.now) (nesting_fault f)) }
{
    let parts = Parts::from(specification);
    parts.check()
}
