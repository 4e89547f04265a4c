ghost use Rattle.std.specs.Prelude.{◌≡◌, ℕ, T, ◌⊎◌, ◌↔◌, MatchOption, MatchResult};
ghost use Rattle.formats.specs.Sections.{Lowest};
ghost use Rattle.graphs.specs.Grids.{Marks};
ghost use Rattle.conformance.specs.Nonconforming.{Astray, AtHome, Repeats, Once, ShortOf, Stepped};
ghost use Rattle.conformance.specs.Steps.{MarksSteps, PairFits, Unmarked};
ghost use Rattle.conformance.specs.Trials.{trial_spec, trial_run};

use crate::trial::Trial;
use graphs::grid::Grid;
use records::kinds::RunCopy;
use records::record::Record;

impl Trial<'_> {
    /// Whether the origin of step `u` is at home in the block of its context.
    fn at_home(self, u: usize) -> bool
        ensures { T result ↔ ((trial_spec self.entry).home ((trial_run self.entry).origin u) ≡ (trial_run self.entry).block ((trial_run self.entry).context u)) }
    {
        self.home(self.origin(u)) == self.block(self.context(u))
    }

    /// The lowest step whose origin is not at home in the block of its context.
    pub(crate) fn astray(self) -> Option<usize>
        ensures { MatchOption result (AtHome (trial_spec self.entry) (trial_run self.entry)) (Lowest (Astray (trial_spec self.entry) (trial_run self.entry))) }
    {
        (0..self.steps()).find(|&u| !self.at_home(u))
    }

    /// Marks the context of step `u` with its origin; whether that pair was marked before.
    fn mark(self, grid: &mut Grid<{ RunCopy::CEILING }>, u: usize) -> bool
        ensures was { T result ↔ Marks grid.old ((trial_run self.entry).context u) ((trial_run self.entry).origin u) }
        ensures marks { (i x : ℕ) → Marks grid.new i x ↔ (Marks grid.old i x ⊎ ((i ≡ (trial_run self.entry).context u) × (x ≡ (trial_run self.entry).origin u) × PairFits (trial_run self.entry) u)) }
    {
        let context = self.context(u);
        let origin = self.origin(u);
        let marked = grid.has(context, origin);
        grid.add(context, origin);
        marked
    }

    /// The grid that marks the context of each step with its origin, or the lowest step with the context and the origin of an earlier one.
    /// (A loop, since of what a closure writes as it goes through a range nothing is known after it.)
    pub(crate) fn marked(self) -> Result<Grid<{ RunCopy::CEILING }>, usize>
        requires { self.run.vertices ≡ (trial_spec self).n }
        ensures { MatchResult result (λ g. Once (trial_run self.entry) × MarksSteps (trial_run self.entry) g) (Lowest (Repeats (trial_run self.entry))) }
    {
        let mut grid = Grid::new();
        for u in 0..self.steps() {
            if self.mark(&mut grid, u) {
                return Err(u);
            }
        }
        Ok(grid)
    }

    /// Whether the grid does not mark copy `i` with some vertex at home in its block.
    fn lacks_step(self, grid: &Grid<{ RunCopy::CEILING }>, i: usize) -> bool
        ensures { T result ↔ Unmarked (trial_spec self.entry) (trial_run self.entry) grid.now i }
    {
        let block = self.block(i);
        (0..self.vertices()).any(|x| self.home(x) == block && !grid.has(i, x))
    }

    /// The lowest copy that has no step of some vertex at home in its block.
    pub(crate) fn short_of(self, grid: &Grid<{ RunCopy::CEILING }>) -> Option<usize>
        requires { MarksSteps (trial_run self) grid.now }
        ensures { MatchOption result (Stepped (trial_spec self.entry) (trial_run self.entry)) (Lowest (ShortOf (trial_spec self.entry) (trial_run self.entry))) }
    {
        (0..self.copies()).find(|&i| self.lacks_step(grid, i))
    }
}
