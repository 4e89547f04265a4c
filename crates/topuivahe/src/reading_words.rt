use crate::file::number_or_zero;
use crate::forms::{Form, Size, Spot};
use formats::faults::ReadingFault;
use std::fmt;

/// Why a file was not read, printed in words.
#[derive(Clone, Copy)]
pub struct ReadingWords<'a> {
    pub fault: ReadingFault,
    pub form: Form,
    pub bytes: &'a [u8],
}

impl fmt::Display for ReadingWords<'_> {
    fn fmt<W: fmt::Write>(&self, f: &mut fmt::Formatter<W>) -> fmt::Result {
        let length = self.bytes.len();
        match self.fault {
            ReadingFault::Short { present } => write!(
                f,
                "the file is too short to hold its own sizes: they take 6 bytes, and it has {present}"
            ),
            ReadingFault::Size { which } => self.size(f, which),
            ReadingFault::Length { needed } => write!(
                f,
                "the file's length does not fit its sizes: it has {length} bytes, and its sizes ask for {needed}"
            ),
            ReadingFault::Range { at } => match self.form.spot(self.bytes, at) {
                Some(spot) => self.range(f, spot, at),
                None => write!(f, "the number at byte {at} lies outside its range"),
            },
            ReadingFault::Order { at } => match self.form.spot(self.bytes, at) {
                Some(spot) => self.order(f, spot, at),
                None => write!(f, "the edges do not ascend: see byte {at}"),
            },
        }
    }
}

impl ReadingWords<'_> {
    fn size<W: fmt::Write>(self, f: &mut fmt::Formatter<W>, which: usize) -> fmt::Result {
        let Size { name, least, most } = self.form.size(which);
        let size = number_or_zero(self.bytes, which.saturating_mul(2));
        write!(
            f,
            "a size lies outside its limits: the file states {size} {name}, and there may be {least} to {most}"
        )
    }

    fn range<W: fmt::Write>(self, f: &mut fmt::Formatter<W>, spot: Spot, at: usize) -> fmt::Result {
        let Spot {
            name,
            record,
            count: _,
            wanted,
            limit,
        } = spot;
        let found = number_or_zero(self.bytes, at);
        write!(
            f,
            "the number at byte {at} lies outside its range: the {name} {record} is {found}, and must be {wanted}"
        )?;
        match limit {
            Some(limit) => write!(f, " {limit}"),
            None => Ok(()),
        }
    }

    /// The words for an edge, with its tail at byte `at`, that is not above the edge before it.
    fn order<W: fmt::Write>(self, f: &mut fmt::Formatter<W>, spot: Spot, at: usize) -> fmt::Result {
        let edge = spot.record;
        let before = edge.saturating_sub(1);
        let head_at = at.saturating_add(2 * spot.count as usize);
        let tail = number_or_zero(self.bytes, at);
        let head = number_or_zero(self.bytes, head_at);
        let last_tail = number_or_zero(self.bytes, at.saturating_sub(2));
        let last_head = number_or_zero(self.bytes, head_at.saturating_sub(2));
        write!(
            f,
            "the edges do not ascend by tail and then by head, each listed once: edge {edge} from {tail} to {head}, whose tail is at byte {at}, comes after edge {before} from {last_tail} to {last_head}"
        )
    }
}
