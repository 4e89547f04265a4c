ghost use Rattle.std.specs.Prelude.{◌≡◌, ◌≤◌, length, MatchResult};
ghost use Rattle.formats.specs.Files.{HeadRefused, SizesFitOf, length_of};
ghost use Rattle.formats.specs.Words.{word};

use crate::faults::ReadingFault;
use crate::sections::{Section, word_at};
use records::record::Record;

/// The three sizes at the head of a file, in the order in which they stand, before a format names them.
#[derive(Clone, Copy)]
pub(crate) struct Sizes {
    pub(crate) first: u16,
    pub(crate) second: u16,
    pub(crate) third: u16,
}

/// The sizes of a file, where it holds them, each is within the limits of its kind of record, and the file is as long as they say: it has
/// a section for the first size, one for the second, and `thirds` for the third.
#[tactic(auto, using(crate::proofs::Refusals::first_bad, crate::proofs::Refusals::second_bad, crate::proofs::Refusals::third_bad))]
pub(crate) fn head<A: Record, B: Record, C: Record>(
    bytes: &[u8],
    thirds: u8,
) -> Result<Sizes, ReadingFault>
    ensures { MatchResult result (λ z. (6 ≤ length bytes.now) × SizesFitOf A.Record.kind B.Record.kind C.Record.kind bytes.now × (length bytes.now ≡ length_of thirds bytes.now) × (z.first ≡ word bytes.now 0) × (z.second ≡ word bytes.now 2) × (z.third ≡ word bytes.now 4)) (HeadRefused A.Record.kind B.Record.kind C.Record.kind thirds bytes.now) }
{
    if bytes.len() < 6 {
        return Err(ReadingFault::Short {
            present: bytes.len(),
        });
    }
    let first = word_at(bytes, 0);
    let second = word_at(bytes, 2);
    let third = word_at(bytes, 4);
    if !Section::<A>::may_have(first) {
        return Err(ReadingFault::Size { which: 0 });
    }
    if !Section::<B>::may_have(second) {
        return Err(ReadingFault::Size { which: 1 });
    }
    if !Section::<C>::may_have(third) {
        return Err(ReadingFault::Size { which: 2 });
    }
    let needed = 6 + 4 * (first as usize + second as usize + thirds as usize * third as usize);
    if bytes.len() != needed {
        return Err(ReadingFault::Length { needed });
    }
    Ok(Sizes {
        first,
        second,
        third,
    })
}
