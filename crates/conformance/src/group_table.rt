use records::kinds::RunCopy;
use records::record::Record;

/// The place of a copy in its group: the next copy of the group, if there is one, and whether it is the first. (In 16 bits, as the file has
/// it: a table of 512 places is made at each check, however small the run.)
#[derive(Clone, Copy)]
pub(crate) struct Place {
    pub(crate) next: Option<u16>,
    pub(crate) first: bool,
}

/// For each copy of a run but 0 its place in its group, in fixed memory.
#[derive(Clone, Copy)]
pub(crate) struct Groups {
    pub(crate) places: [Place; RunCopy::CEILING],
}
