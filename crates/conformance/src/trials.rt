ghost use Rattle.std.specs.Prelude.{◌≡◌, T, ◌↔◌};
ghost use Rattle.conformance.specs.Trials.{trial_spec, trial_run};

use crate::trial::Trial;
use records::kinds::BlockKind;

// What the tables say, 0 where they have nothing, as in the model.
impl Trial<'_> {
    /// The parent of copy `i`.
    pub(crate) fn parent(self, i: usize) -> usize
        ensures { result ≡ (trial_run self.entry).parent i }
    {
        self.run.copy(i).parent as usize
    }

    /// The block of copy `i`.
    pub(crate) fn block(self, i: usize) -> usize
        ensures { result ≡ (trial_run self.entry).block i }
    {
        self.run.copy(i).block as usize
    }

    /// The context of step `u`.
    pub(crate) fn context(self, u: usize) -> usize
        ensures { result ≡ (trial_run self.entry).context u }
    {
        self.run.step(u).context as usize
    }

    /// The origin of step `u`.
    pub(crate) fn origin(self, u: usize) -> usize
        ensures { result ≡ (trial_run self.entry).origin u }
    {
        self.run.step(u).origin as usize
    }

    /// The home of vertex `x`.
    pub(crate) fn home(self, x: usize) -> usize
        ensures { result ≡ (trial_spec self.entry).home x }
    {
        self.specification.vertex(x).home as usize
    }

    /// The source of block `k`.
    pub(crate) fn source(self, k: usize) -> usize
        ensures { result ≡ (trial_spec self.entry).source k }
    {
        self.specification.ends_of(k).source as usize
    }

    /// The sink of block `k`.
    pub(crate) fn sink(self, k: usize) -> usize
        ensures { result ≡ (trial_spec self.entry).sink k }
    {
        self.specification.ends_of(k).sink as usize
    }

    /// Whether block `k` is a loop.
    pub(crate) fn is_loop(self, k: usize) -> bool
        ensures { T result ↔ ((trial_spec self.entry).kind k ≡ 2) }
    {
        matches!(
            self.specification.nest(k).block_kind(),
            Some(BlockKind::Loop)
        )
    }

    /// How many copies the run has.
    pub(crate) fn copies(self) -> usize
        ensures { result ≡ (trial_run self.entry).c }
    {
        self.run.copies()
    }

    /// How many steps it has.
    pub(crate) fn steps(self) -> usize
        ensures { result ≡ (trial_run self.entry).v }
    {
        self.run.steps()
    }

    /// How many vertices the specification has.
    pub(crate) fn vertices(self) -> usize
        ensures { result ≡ (trial_spec self.entry).n }
    {
        self.specification.vertices().len()
    }

    /// How many blocks it has.
    pub(crate) fn blocks(self) -> usize
        ensures { result ≡ (trial_spec self.entry).b }
    {
        self.specification.nests().len()
    }
}
