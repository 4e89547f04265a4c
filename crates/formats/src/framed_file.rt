ghost use Rattle.std.specs.Prelude.{◌≡◌, ℕ, List, MatchOption, MatchResult};
ghost use Rattle.formats.specs.Faults.{reading_fault};
ghost use Rattle.formats.specs.Files.{Format, FramedOf, AcceptedOf, RefusedOf};
ghost use Rattle.formats.specs.Sections.{Ascending, Lowest, Unordered};

use crate::faults::ReadingFault;

/// A file whose sizes and length are right, of one format.
pub(crate) trait FramedFile: Copy {
    // what the format asks, and the bytes of the file; by the law `framed`, sizes and length are as it asks
    ghost format: { Self → Format };

    ghost content: { Self → List ℕ };

    /// The lowest byte position of a number outside its range, in any section.
    fn outside(self) -> Option<usize>
        ensures { MatchOption result ((format self).AllIn (content self)) (Lowest ((format self).OutAt (content self))) };

    /// The byte position of the first edge that is not above the edge before it.
    fn unordered(self) -> Option<usize>
        ensures { MatchOption result (Ascending (content self) ((format self).base (content self)) ((format self).count (content self))) (Lowest (Unordered (content self) ((format self).base (content self)) ((format self).count (content self)))) };

    ghost framed: { (x : Self) → FramedOf (format x) (content x) };
}

/// The file, where every number lies in its range and the edges ascend.
#[tactic(auto, using(crate::specs::Files::out_of_range, crate::specs::Files::out_of_order))]
pub(crate) fn checked<F: FramedFile>(file: F) -> Result<F, ReadingFault>
    ensures { MatchResult result (λ x. (x ≡ file) × AcceptedOf (F.format file) (F.content file)) (λ f. RefusedOf (F.format file) (F.content file) (reading_fault f)) }
{
    if let Some(at) = file.outside() {
        return Err(ReadingFault::Range { at });
    }
    if let Some(at) = file.unordered() {
        return Err(ReadingFault::Order { at });
    }
    Ok(file)
}
