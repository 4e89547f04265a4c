#![tactic(auto, unfolding(crate::specs::Grids::Marks))]

ghost use Rattle.std.specs.Prelude.{◌≡◌, ℕ, ◌<◌, T, ◌⊎◌, ◌↔◌};
ghost use Rattle.graphs.specs.Grids.{Marks};
ghost use Rattle.graphs.specs.Rows.{vertices};

use crate::row::Row;

/// A set of pairs of a number below ROWS and a vertex: row i is the set of all x that are paired with i.
#[derive(Clone, Copy)]
pub struct Grid<const ROWS: usize> {
    pub(crate) rows: [Row; ROWS],
}

impl<const ROWS: usize> Grid<ROWS> {
    /// The set of no pair.
    pub fn new() -> Self
        ensures { (i x : ℕ) → Marks result i x → ⊥ }
    {
        Grid {
            rows: [Row::empty(); ROWS],
        }
    }

    /// Adds the pair of i and x; where there is no row i, or x is no vertex, nothing changes.
    pub fn add(&mut self, i: usize, x: usize)
        ensures { (a b : ℕ) → Marks self.new a b ↔ (Marks self.old a b ⊎ ((a ≡ i) × (b ≡ x) × (i < ROWS) × (x < vertices))) }
    {
        // by index: of a write through get_mut a proof learns nothing but the length
        if i < ROWS {
            self.rows[i].insert(x);
        }
    }

    /// Whether the pair of i and x is in the set.
    pub fn has(&self, i: usize, x: usize) -> bool
        ensures { T result ↔ Marks self.now i x }
    {
        self.rows.get(i).is_some_and(|row| row.has(x))
    }
}
