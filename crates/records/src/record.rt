ghost use Rattle.std.specs.Prelude.{◌≡◌, ℕ, T, ◌↔◌};
ghost use Rattle.records.specs.Kinds.{Kind, Within, below, but_zero_lem};

/// What the numbers of a file are held against.
#[derive(Clone, Copy)]
pub struct Bounds {
    pub vertices: u16,
    pub blocks: u16,
    pub copies: u16,
    pub steps: u16,
}

/// The numbers from `low` up to, and without, `end`.
#[derive(Clone, Copy)]
pub struct Span {
    pub low: u32,
    pub end: u32,
}

impl Span {
    /// The numbers below `end`.
    pub const fn below(end: u32) -> Self
        ensures { result ≡ below end }
    {
        Span { low: 0, end }
    }

    /// For record 0 the number 0 alone, for any other the numbers from `low` to `end`.
    pub const fn but_zero(i: u16, low: u32, end: u32) -> Self
        ensures { result ≡ but_zero_lem i (record { low = low; end = end }) }
    {
        if i == 0 {
            Span { low: 0, end: 1 }
        } else {
            Span { low, end }
        }
    }

    /// Whether the span has the number `x`.
    pub fn holds(self, x: u16) -> bool
        ensures { T result ↔ Within self x }
    {
        self.low <= x as u32 && (x as u32) < self.end
    }
}

/// A kind of record: two numbers of a file, with names.
pub trait Record: Copy {
    /// How many records a section of this kind has at most.
    const CEILING: usize;
    /// How many it has at least.
    const FLOOR: usize;

    // `made` of two numbers is the record; `first` and `second` give them back, as the two laws say
    ghost kind: { Kind };

    ghost made: { ℕ → ℕ → Self };

    ghost first: { Self → ℕ };

    ghost second: { Self → ℕ };

    /// `FLOOR` and `CEILING`, for code that is generic in the kind. (One body for all would need two ghost constants and two laws in each.)
    fn limits() -> (usize, usize)
        ensures { result ≡ (kind.floor, kind.ceiling) };

    /// The record of two numbers.
    fn make(a: u16, b: u16) -> Self
        ensures { result ≡ made a b };

    /// The two numbers that the record is made of.
    fn numbers(&self) -> (u16, u16)
        ensures { result ≡ (first self.now, second self.now) };

    /// Where the first number of record `i` may lie.
    fn first_span(bounds: Bounds, i: u16) -> Span
        ensures { result ≡ kind.firsts bounds i };

    /// Where the second number of record `i` may lie.
    fn second_span(bounds: Bounds, i: u16) -> Span
        ensures { result ≡ kind.seconds bounds i };

    ghost firstly: { (a b : ℕ) → first (made a b) ≡ a };

    ghost secondly: { (a b : ℕ) → second (made a b) ≡ b };
}
