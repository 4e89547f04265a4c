ghost use Rattle.std.specs.Prelude.{◌≡◌, T, ◌≢◌, ◌↔◌, MatchBool, MatchOption, MatchResult};
ghost use Rattle.formats.specs.Of.{spec_of};
ghost use Rattle.formats.specs.RunFiles.{run_of};
ghost use Rattle.formats.specs.Sections.{Lowest};
ghost use Rattle.rules.specs.Faults.{nesting_fault};
ghost use Rattle.nesting.specs.Pairs.{copies_spec, copies_run};
ghost use Rattle.nesting.specs.Copies.{Misplaced, Follows, Under, Lacks, Full, Lacking, Filled, Misnested};

use formats::run_file::RunFile;
use formats::specification::Specification;
use rules::faults::NestingFault;

/// Whether a copy of block `k` stands directly under copy `i`. Such a copy comes after `i`.
pub fn has_under(run: RunFile, i: usize, k: usize) -> bool
    ensures { T result ↔ Under (run_of run.entry.bytes.now) i k }
{
    (i.saturating_add(1)..run.copies()).any(|j| {
        let copy = run.copy(j);
        copy.parent as usize == i && copy.block as usize == k
    })
}

/// The copies of a run, beside the specification whose blocks they are to be nested as. (A crate above has its own such pair: an `impl`
/// stands only in the crate of its type.)
#[derive(Clone, Copy)]
struct Copies<'a> {
    specification: &'a Specification,
    run: RunFile<'a>,
}

impl Copies<'_> {
    /// Whether copy `i` stands under a copy of another block than the parent of its block.
    fn is_misplaced(self, i: usize) -> bool
        ensures { T result ↔ ((copies_run self.entry).block ((copies_run self.entry).parent i) ≢ (copies_spec self.entry).above ((copies_run self.entry).block i)) }
    {
        let copy = self.run.copy(i);
        let outer = self.run.copy(copy.parent as usize);
        outer.block != self.specification.nest(copy.block as usize).parent
    }

    /// The lowest copy under a wrong parent.
    fn misplaced(self) -> Option<usize>
        ensures { MatchOption result (Follows (copies_spec self.entry) (copies_run self.entry)) (Lowest (Misplaced (copies_spec self.entry) (copies_run self.entry))) }
    {
        (0..self.run.copies()).find(|&i| self.is_misplaced(i))
    }

    /// Whether copy `i` lacks a copy of block `k` under it: the block's parent is the block of the copy, and there is none.
    fn lacks(self, i: usize, k: usize) -> bool
        ensures { MatchBool result (((copies_spec self.entry).above k ≡ (copies_run self.entry).block i) × (¬ (Under (copies_run self.entry) i k))) ((copies_spec self.entry).above k ≡ (copies_run self.entry).block i → Under (copies_run self.entry) i k) }
    {
        self.specification.nest(k).parent == self.run.copy(i).block && !has_under(self.run, i, k)
    }

    /// The lowest block of which copy `i` lacks a copy under it. No two scans find the same copy, and one that finds none ends the check,
    /// so that over all copies there is at most one scan more than there are copies.
    fn lacked(self, i: usize) -> Option<usize>
        ensures { MatchOption result (Full (copies_spec self.entry) (copies_run self.entry) i) (Lowest (Lacks (copies_spec self.entry) (copies_run self.entry) i)) }
    {
        (1..self.specification.nests().len()).find(|&k| self.lacks(i, k))
    }

    /// The lowest copy that lacks one under it. (A loop, since as a `find` over these answers it takes a sixth more time.)
    fn lacking(self) -> Option<usize>
        ensures { MatchOption result (Filled (copies_spec self.entry) (copies_run self.entry)) (Lowest (Lacking (copies_spec self.entry) (copies_run self.entry))) }
    {
        for i in 0..self.run.copies() {
            if let Some(_) = self.lacked(i) {
                return Some(i);
            }
        }
        None
    }
}

/// Whether the copies of a run are nested as the blocks of the specification are.
pub fn check_copies(specification: &Specification, run: RunFile) -> Result<(), NestingFault>
    ensures { MatchResult result (λ _. Follows (spec_of specification.now) (run_of run.entry.bytes.now) × Filled (spec_of specification.now) (run_of run.entry.bytes.now)) (λ f. Misnested (spec_of specification.now) (run_of run.entry.bytes.now) (nesting_fault f)) }
{
    let copies = Copies { specification, run };
    if let Some(copy) = copies.misplaced() {
        return Err(NestingFault::WrongParent { copy });
    }
    if let Some(copy) = copies.lacking() {
        return Err(NestingFault::LacksCopy { copy });
    }
    Ok(())
}
