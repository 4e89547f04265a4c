ghost use Rattle.std.specs.Prelude.{◌≡◌, ◌+◌, ◌*◌, ◌<◌, ◌≤◌, T, ◌↔◌, length, MatchOption, slice_index_or, ⊤};
ghost use Rattle.formats.specs.Words.{word};
ghost use Rattle.records.specs.Kinds.{Fits};
ghost use Rattle.formats.specs.Sections.{first_at, second_at, NumberWithin, Inside, Outside, Lowest, Ascends, Ascending, Unordered, stated, section};
ghost use Rattle.records.specs.Tables.{kept};

use records::record::{Bounds, Record};
use records::tables::Table;
use std::alloc::AllocError;
use std::marker::PhantomData;

/// The number at byte `at`.
pub(crate) fn word_at(bytes: &[u8], at: usize) -> u16
    requires { at + 1 < length bytes.now }
    ensures { result ≡ word bytes.now at }
{
    u16::from_le_bytes([bytes[at], bytes[at + 1]])
}

/// A section of one kind of record, read where it lies: `count` records from byte `base`.
pub struct Section<'a, R> {
    bytes: &'a [u8],
    base: usize,
    count: u16,
    kind: PhantomData<R>,
    ghost inside: { base + 4 * count ≤ length bytes.now },
}

// by hand: a generic struct with a ghost field derives neither
impl<'a, R> Copy for Section<'a, R> {}

impl<'a, R> Clone for Section<'a, R> {
    ghost is_clone = { λ a b. a ≡ b };

    ghost is_infallible = { λ _. ⊤ };

    fn clone(&self) -> Result<Self, AllocError> {
        Ok(*self)
    }
}

impl<'a, R> Section<'a, R> {
    /// The section of `count` records from byte `base` on.
    pub(crate) fn new(bytes: &'a [u8], base: usize, count: u16) -> Self
        requires { base + 4 * count ≤ length bytes.now }
        ensures { (result.bytes.now ≡ bytes.now) × (result.base ≡ base) × (result.count ≡ count) }
    {
        Section {
            bytes,
            base,
            count,
            kind: PhantomData,
        }
    }

    /// The first number of record `i`.
    pub(crate) fn first(self, i: u16) -> u16
        requires { i < self.count }
        ensures { result ≡ word self.entry.bytes.now (first_at self.entry.base self.entry.count i) }
    {
        word_at(self.bytes, self.base + 2 * i as usize)
    }

    /// The second number of record `i`.
    pub(crate) fn second(self, i: u16) -> u16
        requires { i < self.count }
        ensures { result ≡ word self.entry.bytes.now (second_at self.entry.base self.entry.count i) }
    {
        word_at(
            self.bytes,
            self.base + 2 * (self.count as usize + i as usize),
        )
    }

    /// Whether record `i` is above the record before it.
    fn ascends(self, i: u16) -> bool
        requires { (0 < i) × (i < self.count) }
        ensures { T result ↔ Ascends self.entry.bytes.now self.entry.base self.entry.count i }
    {
        (self.first(i - 1), self.second(i - 1)) < (self.first(i), self.second(i))
    }

    /// The byte position of the first record that is not above the record before it.
    pub fn unordered(self) -> Option<usize>
        ensures { MatchOption result (Ascending self.entry.bytes.now self.entry.base self.entry.count) (Lowest (Unordered self.entry.bytes.now self.entry.base self.entry.count)) }
    {
        (1..self.count)
            .find(|&i| !self.ascends(i))
            .map(|i| self.base + 2 * i as usize)
    }
}

impl<'a, R: Record> Section<'a, R> {
    /// Whether a section of this kind may have `size` records.
    pub fn may_have(size: u16) -> bool
        ensures { T result ↔ Fits R.Record.kind size }
    {
        let (floor, ceiling) = R::limits();
        floor <= size as usize && size as usize <= ceiling
    }

    /// The record numbered `i`.
    pub(crate) fn at(self, i: u16) -> R
        requires { i < self.count }
        ensures { result ≡ stated R.Record.made self.entry.bytes.now self.entry.base self.entry.count i }
    {
        R::make(self.first(i), self.second(i))
    }

    /// The record numbered `i`; of zeros where there is none.
    #[tactic(auto, using(crate::proofs::Rows::section_at, crate::proofs::Rows::section_past))]
    pub(crate) fn get(self, i: usize) -> R
        ensures { result ≡ slice_index_or (section R.Record.made self.entry.bytes.now self.entry.base self.entry.count) i (R.Record.made 0 0) }
    {
        if i < self.count as usize {
            self.at(i as u16)
        } else {
            R::make(0, 0)
        }
    }

    /// Whether number `k` of the section lies in its range; all first numbers come before all second ones.
    #[tactic(auto, using(crate::proofs::Ranges::told_first, crate::proofs::Ranges::told_second))]
    fn fits(self, bounds: Bounds, k: u32) -> bool
        requires { k < 2 * self.count }
        ensures { T result ↔ NumberWithin R.Record.kind bounds self.entry.bytes.now self.entry.base self.entry.count k }
    {
        let number = word_at(self.bytes, self.base + 2 * k as usize);
        let count = self.count as u32;
        if k < count {
            R::first_span(bounds, k as u16).holds(number)
        } else {
            R::second_span(bounds, (k - count) as u16).holds(number)
        }
    }

    /// The lowest byte position of a number that lies outside its range.
    pub fn outside(self, bounds: Bounds) -> Option<usize>
        ensures { MatchOption result (Inside R.Record.kind bounds self.entry.bytes.now self.entry.base self.entry.count) (Lowest (Outside R.Record.kind bounds self.entry.bytes.now self.entry.base self.entry.count)) }
    {
        (0..2 * self.count as u32)
            .find(|&k| !self.fits(bounds, k))
            .map(|k| self.base + 2 * k as usize)
    }

    /// All records, copied to a table.
    pub(crate) fn table<const N: usize>(self) -> Table<R, N>
        requires { self.count ≤ N }
        ensures { kept result ≡ section R.Record.made self.entry.bytes.now self.entry.base self.entry.count }
    {
        let mut table = Table::new(R::make(0, 0));
        for i in 0..self.count {
            let _ = table.push(self.at(i));
        }
        table
    }
}
