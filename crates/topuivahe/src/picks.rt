ghost use Rattle.std.specs.Prelude.{◌≡◌, ◌<◌, T, ◌↔◌, IfOk};
ghost use Rattle.formats.specs.RunFiles.{run_of};
ghost use Rattle.conformance.specs.Nonconforming.{HasStep};
ghost use Rattle.conformance.specs.Trials.{trial_spec, trial_run};
ghost use Rattle.topuivahe.specs.Listings.{Lists};
ghost use Rattle.topuivahe.specs.Picks.{edge_count, GoesAlong, Inner, Group, StepOf, Twin, Leaves, Lacked, Missed};

use crate::members::has_edge;
use conformance::trial::Trial;
use formats::run_file::RunFile;
use nesting::copies::has_under;
use std::alloc::{AllocError, Global};

/// An opened run that there are words for, and the heap on which they are made.
#[derive(Clone, Copy)]
pub struct RunWords<'a> {
    pub heap: Global,
    pub opened: Trial<'a>,
}

/// Whether the edge at index `k` goes along an edge of the specification.
fn goes_along(opened: Trial, k: usize) -> bool
    ensures { T result ↔ GoesAlong opened.entry k }
{
    let edge = opened.run.edge(k);
    let from = opened.run.step(edge.tail as usize);
    let to = opened.run.step(edge.head as usize);
    has_edge(
        opened.specification,
        from.origin as usize,
        to.origin as usize,
    )
}

/// Whether the edge at index `k` leads from step `u`.
fn leaves(opened: Trial, u: usize, k: usize) -> bool
    ensures { T result ↔ Leaves opened.entry u k }
{
    opened.run.edge(k).tail as usize == u
}

/// Whether copy `i` has a step of vertex `x`.
fn has_step(run: RunFile, i: usize, x: usize) -> bool
    ensures { T result ↔ HasStep (run_of run.entry.bytes.now) i x }
{
    (0..run.steps()).any(|u| {
        let step = run.step(u);
        step.context as usize == i && step.origin as usize == x
    })
}

impl RunWords<'_> {
    /// The copies directly under the copy, ascending.
    pub fn inner(self, copy: usize) -> Result<Vec<usize>, AllocError>
        ensures { IfOk result (λ v. Lists (Inner self.entry.opened copy) (trial_run self.entry.opened).c v.items) }
    {
        let run = self.opened.run;
        (0..run.copies())
            .filter(|&j| j > 0 && run.copy(j).parent as usize == copy)
            .collect(self.heap)
    }

    /// The copies with the parent and the block of the copy, ascending.
    pub fn group(self, copy: usize) -> Result<Vec<usize>, AllocError>
        ensures { IfOk result (λ v. Lists (Group self.entry.opened copy) (trial_run self.entry.opened).c v.items) }
    {
        let run = self.opened.run;
        let this = run.copy(copy);
        (0..run.copies())
            .filter(|&j| j > 0 && run.copy(j) == this)
            .collect(self.heap)
    }

    /// The steps of the copy, ascending.
    pub fn steps(self, copy: usize) -> Result<Vec<usize>, AllocError>
        ensures { IfOk result (λ v. Lists (StepOf self.entry.opened copy) (trial_run self.entry.opened).v v.items) }
    {
        let run = self.opened.run;
        (0..run.steps())
            .filter(|&u| run.step(u).context as usize == copy)
            .collect(self.heap)
    }

    /// The steps with the context and the origin of the step, ascending.
    pub fn twins(self, step: usize) -> Result<Vec<usize>, AllocError>
        ensures { IfOk result (λ v. Lists (Twin self.entry.opened step) (trial_run self.entry.opened).v v.items) }
    {
        let run = self.opened.run;
        let this = run.step(step);
        (0..run.steps())
            .filter(|&u| run.step(u) == this)
            .collect(self.heap)
    }

    /// The edges along an edge of the specification, ascending.
    pub fn along(self) -> Result<Vec<usize>, AllocError>
        ensures { IfOk result (λ v. Lists (GoesAlong self.entry.opened) (edge_count self.entry.opened) v.items) }
    {
        let opened = self.opened;
        (0..opened.run.edges())
            .filter(|&k| goes_along(opened, k))
            .collect(self.heap)
    }

    /// The edges from the step, ascending.
    pub fn leaving(self, step: usize) -> Result<Vec<usize>, AllocError>
        ensures { IfOk result (λ v. Lists (Leaves self.entry.opened step) (edge_count self.entry.opened) v.items) }
    {
        let opened = self.opened;
        (0..opened.run.edges())
            .filter(|&k| leaves(opened, step, k))
            .collect(self.heap)
    }

    /// The blocks nested directly in the block of the copy that have no copy under it, ascending.
    pub fn lacked(self, copy: usize) -> Result<Vec<usize>, AllocError>
        ensures { IfOk result (λ v. Lists (Lacked self.entry.opened copy) (trial_spec self.entry.opened).b v.items) }
    {
        let Trial { specification, run } = self.opened;
        let block = run.copy(copy).block;
        (0..specification.nests().len())
            .filter(|&k| {
                k > 0 && specification.nest(k).parent == block && !has_under(run, copy, k)
            })
            .collect(self.heap)
    }

    /// The vertices at home in the block of the copy that have no step there, ascending.
    pub fn missed(self, copy: usize) -> Result<Vec<usize>, AllocError>
        ensures { IfOk result (λ v. Lists (Missed self.entry.opened copy) (trial_spec self.entry.opened).n v.items) }
    {
        let Trial { specification, run } = self.opened;
        let block = run.copy(copy).block;
        (0..specification.vertices().len())
            .filter(|&x| specification.vertex(x).home == block && !has_step(run, copy, x))
            .collect(self.heap)
    }
}
