ghost use Rattle.std.specs.Prelude.{◌≡◌, ◌<◌, length, slice_index_or};
ghost use Rattle.formats.specs.Specifications.{no_ends, no_nest};

use crate::drawn::Drawn;
use records::kinds::{Ends, Nest};

/// A block but the whole, with the tables that it stands in.
#[derive(Clone, Copy)]
pub struct Inner<'a> {
    pub(crate) drawn: Drawn<'a>,
    pub(crate) number: usize,
    ghost inside: { (0 < number) × (number < length drawn.parts.nests.now) },
}

impl Inner<'_> {
    /// The block's record.
    pub(crate) fn nest(&self) -> Nest
        ensures { result ≡ slice_index_or self.now.drawn.parts.nests.now self.now.number no_nest }
    {
        self.drawn.parts.nests[self.number]
    }

    /// The block's source and sink.
    pub(crate) fn ends(&self) -> Ends
        ensures { result ≡ slice_index_or self.now.drawn.parts.ends.now self.now.number no_ends }
    {
        self.drawn.parts.ends[self.number]
    }
}
