ghost use Rattle.std.specs.Prelude.{◌≡◌, ◌+◌, ◌<◌, ◌≤◌, [], ◌∷◌, ◌++◌, IfErr, IsOk, OnOk, slice_index_or, ◌↔◌};
ghost use Rattle.records.specs.Tables.{kept};

use crate::tables::Table;

impl<T: Copy, const N: usize> Table<T, N> {
    /// An empty table; `filler` stands in the places not taken.
    pub fn new(filler: T) -> Self
        ensures len { result.len ≡ 0 }
        ensures items { kept result ≡ [] }
    {
        Table {
            items: [filler; N],
            len: 0,
        }
    }

    /// A table of one item, or of none where there is no room for it.
    pub fn only(item: T) -> Self
        ensures one { 0 < N → kept result ≡ item ∷ [] }
        ensures none { N ≡ 0 → kept result ≡ [] }
    {
        let mut table = Table::new(item);
        let _ = table.push(item);
        table
    }

    /// How many items the table holds.
    pub fn len(&self) -> usize
        ensures { result ≡ self.now.len }
    {
        self.len
    }

    /// One item more; where the table is full, the item comes back and nothing changes.
    pub fn push(&mut self, x: T) -> Result<(), T>
        ensures variant { IsOk result ↔ (self.old.len < N) }
        ensures taken { OnOk result ((self.new.len ≡ self.old.len + 1) × (kept self.new ≡ kept self.old ++ (x ∷ []))) }
        ensures full { IfErr result (λ y. (y ≡ x) × (self.new ≡ self.old)) }
    {
        let at = self.len;
        if at >= N {
            return Err(x);
        }
        self.items[at] = x;
        self.len = at + 1;
        Ok(())
    }

    /// The items, in the order in which they were pushed.
    pub fn as_slice(&self) -> &[T]
        ensures { result.now ≡ kept self.now }
    {
        &self.items[..self.len]
    }

    /// The item at place `i`, or `filler` where there is none.
    pub fn get_or(&self, i: usize, filler: T) -> T
        ensures { result ≡ slice_index_or (kept self.now) i filler }
    {
        self.as_slice().get(i).copied().unwrap_or(filler)
    }
}
