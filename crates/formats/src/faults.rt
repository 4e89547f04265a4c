ghost use Rattle.std.specs.Prelude.{◌≡◌, Some};
ghost use Rattle.formats.specs.Faults.{fault_text, reading_fault};

use std::fmt;

/// What a fault is to whoever called: the layer that found it, its number, and its place.
#[derive(Clone, Copy, Debug, PartialEq, Eq)]
pub struct Fault {
    pub layer: u8,
    pub number: u8,
    pub place: usize,
}

impl fmt::Display for Fault {
    ghost output = { λ f. Some (fault_text f) };

    fn fmt<W: fmt::Write>(&self, f: &mut fmt::Formatter<W>) -> fmt::Result {
        let Fault {
            layer,
            number,
            place,
        } = *self;
        write!(f, "layer={layer} number={number} place={place}")
    }
}

/// Why a file is not read. Each variant carries its place.
#[derive(Clone, Copy, Debug, PartialEq, Eq)]
pub enum ReadingFault {
    /// The file is too short to hold its own sizes; it has `present` bytes.
    Short { present: usize },
    /// The size numbered `which` lies outside its limits.
    Size { which: usize },
    /// The file is not as long as its sizes say, which is `needed` bytes.
    Length { needed: usize },
    /// The number at byte `at` lies outside its range.
    Range { at: usize },
    /// The edge whose tail stands at byte `at` is not above the edge before it.
    Order { at: usize },
}

/// Layer, number and place.
impl From<ReadingFault> for Fault {
    ghost from_gives = { λ f r. r ≡ reading_fault f };

    fn from(fault: ReadingFault) -> Self {
        let (number, place) = match fault {
            ReadingFault::Short { present } => (1, present),
            ReadingFault::Size { which } => (2, which),
            ReadingFault::Length { needed } => (3, needed),
            ReadingFault::Range { at } => (4, at),
            ReadingFault::Order { at } => (5, at),
        };
        Fault {
            layer: 1,
            number,
            place,
        }
    }
}
