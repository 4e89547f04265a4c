use crate::forms::Form;
use crate::lists::Listed;
use crate::members::{SpecificationWords, kind_of};
use crate::reading_words::ReadingWords;
use crate::refusal::Refusal;
use records::kinds::Ends;
use rules::faults::NestingFault;
use std::alloc::AllocError;

impl SpecificationWords<'_> {
    /// The refusal of the specification, which was read from these bytes, for that fault.
    pub fn refusal(self, fault: NestingFault, bytes: &[u8]) -> Result<Refusal, AllocError> {
        Ok(Refusal {
            fault: fault.into(),
            words: self.broken(fault, bytes)?,
        })
    }

    /// Which rule the specification breaks, and where, in words.
    fn broken(self, fault: NestingFault, bytes: &[u8]) -> Result<String, AllocError> {
        match fault {
            NestingFault::Reading(fault) => {
                let form = Form::Specification;
                let reading = ReadingWords { fault, form, bytes };
                format!(in self.heap; "{reading}")
            }
            NestingFault::Cycle { vertex } => self.cycle(vertex),
            NestingFault::WholeEnds => self.whole(),
            NestingFault::LoopRule { block } => self.loop_rule(block),
            NestingFault::ForkRule { block } => self.fork_rule(block),
            NestingFault::EqualDomains { block } => self.equal_domains(block),
            _ => String::from_str(self.heap, "a rule for runs is broken"),
        }
    }

    fn cycle(self, vertex: usize) -> Result<String, AllocError> {
        format!(in self.heap;
            "the edges make a cycle: vertex {vertex} is the lowest that leads back to itself, and none may"
        )
    }

    fn whole(self) -> Result<String, AllocError> {
        let Ends { source, sink } = self.specification.ends_of(0);
        let no_in = Listed(self.entries()?);
        let no_out = Listed(self.exits()?);
        let rule =
            "its source must be the only vertex without an incoming edge, and its sink the only one without an outgoing edge";
        format!(in self.heap;
            "block 0, the whole, with source {source} and sink {sink}, breaks the rule for its ends: {rule}; without an incoming edge: {no_in}; without an outgoing edge: {no_out}"
        )
    }

    /// A block in words: number, kind, ends and domain.
    fn block(self, block: usize) -> Result<String, AllocError> {
        let Ends { source, sink } = self.specification.ends_of(block);
        let kind = kind_of(self.specification, block);
        let inside = Listed(self.domain(block)?);
        format!(in self.heap;
            "block {block}, a {kind} with source {source}, sink {sink} and the domain {{{inside}}}"
        )
    }

    fn loop_rule(self, block: usize) -> Result<String, AllocError> {
        let this = self.block(block)?;
        let ends = "its domain must contain its source and its sink";
        let incoming =
            "every vertex of the domain but the source must have incoming edges, all from within the domain";
        let outgoing =
            "every vertex of the domain but the sink must have outgoing edges, all to within the domain";
        format!(in self.heap; "{this}, breaks the loop rule: {ends}; {incoming}; {outgoing}")
    }

    fn fork_rule(self, block: usize) -> Result<String, AllocError> {
        let this = self.block(block)?;
        let inside =
            "its domain must have a vertex, must contain neither its source nor its sink, and must hang together by edges within it";
        let edges =
            "every vertex of the domain must have incoming edges, all from within the domain or from the source, and outgoing edges, all to within the domain or to the sink";
        let ends =
            "the source and the sink must each lie in the parent's domain, or be shared with a parent that is a fork";
        let forks =
            "every fork whose domain contains the source or the sink must be above this block";
        format!(in self.heap; "{this}, breaks the fork rule: {inside}; {edges}; {ends}; {forks}")
    }

    fn equal_domains(self, block: usize) -> Result<String, AllocError> {
        let this = self.block(block)?;
        let parent = self.specification.nest(block).parent;
        format!(in self.heap;
            "{this}, breaks the rule of different domains: its parent, block {parent}, has the same kind and the same domain"
        )
    }
}
