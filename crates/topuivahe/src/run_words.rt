use crate::forms::Form;
use crate::lists::Listed;
use crate::members::kind_of;
use crate::picks::RunWords;
use crate::reading_words::ReadingWords;
use crate::refusal::Refusal;
use conformance::faults::ConformanceFault;
use conformance::trial::Trial;
use formats::faults::ReadingFault;
use records::kinds::{RunCopy, RunEdge, Step};
use rules::faults::NestingFault;
use std::alloc::AllocError;
use std::fmt;

/// A copy, printed in words.
#[derive(Clone, Copy)]
struct CopyWords<'a> {
    opened: Trial<'a>,
    copy: usize,
}

impl fmt::Display for CopyWords<'_> {
    fn fmt<W: fmt::Write>(&self, f: &mut fmt::Formatter<W>) -> fmt::Result {
        let CopyWords { opened, copy } = *self;
        if copy == 0 {
            return f.write_str("copy 0 (of block 0, the whole)");
        }
        let RunCopy { parent, block } = opened.run.copy(copy);
        let kind = kind_of(opened.specification, block as usize);
        let above = opened.run.copy(parent as usize).block;
        write!(
            f,
            "copy {copy} (of block {block}, {kind}; its parent is copy {parent}, of block {above})"
        )
    }
}

/// A step, printed in words.
#[derive(Clone, Copy)]
struct StepWords<'a> {
    opened: Trial<'a>,
    step: usize,
}

impl fmt::Display for StepWords<'_> {
    fn fmt<W: fmt::Write>(&self, f: &mut fmt::Formatter<W>) -> fmt::Result {
        let StepWords { opened, step } = *self;
        let Step { context, origin } = opened.run.step(step);
        let block = opened.run.copy(context as usize).block;
        write!(
            f,
            "step {step} (of vertex {origin} in copy {context}, of block {block})"
        )
    }
}

impl<'a> RunWords<'a> {
    fn copy(self, copy: usize) -> CopyWords<'a> {
        CopyWords {
            opened: self.opened,
            copy,
        }
    }

    fn step(self, step: usize) -> StepWords<'a> {
        StepWords {
            opened: self.opened,
            step,
        }
    }

    /// The refusal of the run, which was read from these bytes, for that fault.
    pub fn refusal(self, fault: ConformanceFault, bytes: &[u8]) -> Result<Refusal, AllocError> {
        Ok(Refusal {
            fault: fault.into(),
            words: self.broken(fault, bytes)?,
        })
    }

    /// Why the run does not conform, in words.
    fn broken(self, fault: ConformanceFault, bytes: &[u8]) -> Result<String, AllocError> {
        match fault {
            ConformanceFault::Nesting(fault) => match fault {
                NestingFault::Reading(fault) => self.unread(fault, bytes),
                NestingFault::WrongParent { copy } => self.wrong_parent(copy),
                NestingFault::LacksCopy { copy } => self.lacks_copy(copy),
                _ => String::from_str(self.heap, "the specification is not sealed"),
            },
            ConformanceFault::Astray { step } => self.astray(step),
            ConformanceFault::Repeated { step } => self.repeated(step),
            ConformanceFault::MissingStep { copy } => self.missing_step(copy),
            ConformanceFault::NotDerived { edge } => self.not_derived(edge),
            ConformanceFault::NotListed { step } => self.not_listed(step),
        }
    }

    fn unread(self, fault: ReadingFault, bytes: &[u8]) -> Result<String, AllocError> {
        let vertices = self.opened.specification.vertices().len();
        let blocks = self.opened.specification.nests().len();
        let form = Form::Run { vertices, blocks };
        let reading = ReadingWords { fault, form, bytes };
        format!(in self.heap; "{reading}")
    }

    fn wrong_parent(self, copy: usize) -> Result<String, AllocError> {
        let this = self.copy(copy);
        let block = self.opened.run.copy(copy).block;
        let wanted = self.opened.specification.nest(block as usize).parent;
        format!(in self.heap;
            "a copy is under a copy of the wrong block: {this} must be under a copy of block {wanted}, the parent of its block"
        )
    }

    fn lacks_copy(self, copy: usize) -> Result<String, AllocError> {
        let this = self.copy(copy);
        let lacked = Listed(self.lacked(copy)?);
        format!(in self.heap;
            "a copy has too few under it: {this} must have under it a copy of every block whose parent is its block, and there is none of block {lacked}"
        )
    }

    fn astray(self, step: usize) -> Result<String, AllocError> {
        let this = self.step(step);
        let origin = self.opened.run.step(step).origin;
        let home = self.opened.specification.vertex(origin as usize).home;
        format!(in self.heap;
            "a step is in the wrong copy: {this} must be in a copy of block {home}, the home of its vertex"
        )
    }

    fn repeated(self, step: usize) -> Result<String, AllocError> {
        let this = self.step(step);
        let twins = Listed(self.twins(step)?);
        format!(in self.heap;
            "a vertex has more than one step in a copy: {this} has the vertex and the copy of an earlier step; the steps with these two are {twins}"
        )
    }

    fn missing_step(self, copy: usize) -> Result<String, AllocError> {
        let this = self.copy(copy);
        let missed = Listed(self.missed(copy)?);
        format!(in self.heap;
            "a step is missing: {this} must have a step of every vertex at home in its block, and has none of vertex {missed}"
        )
    }

    fn not_derived(self, edge: usize) -> Result<String, AllocError> {
        let RunEdge { tail, head } = self.opened.run.edge(edge);
        let from = self.step(tail as usize);
        let to = self.step(head as usize);
        format!(in self.heap;
            "an edge is listed that should not be: edge {edge}, from {from} to {to}, follows neither from an edge of the specification nor from one round of a loop after another"
        )
    }

    fn not_listed(self, step: usize) -> Result<String, AllocError> {
        let this = self.step(step);
        let leaving = Listed(self.leaving(step)?);
        format!(in self.heap;
            "a derived edge is not listed: from {this} an edge must lead, along an edge of the specification or to the next round of a loop, that is not among the listed edges from it (edges {leaving})"
        )
    }
}
