ghost use Rattle.std.specs.Prelude.{◌≡◌, ℕ, ◌<◌, T, ◌⊎◌, ◌↔◌};
ghost use Rattle.graphs.specs.Rows.{Holds, vertices};

use std::array;

/// How many words of 64 bits a row has: the one place in the code that fixes a row's width.
pub const WORDS: usize = 1;

/// How many vertices a row can hold, and how many rows a graph has.
pub const VERTICES: usize = 64 * WORDS;

/// A set of vertices: x is in it where bit x % 64 of word x / 64 is set.
#[derive(Clone, Copy)]
pub struct Row {
    pub(crate) words: [u64; WORDS],
}

impl Row {
    /// The set of no vertex.
    pub fn empty() -> Self
        ensures { (x : ℕ) → Holds result x → ⊥ }
    {
        Row { words: [0; WORDS] }
    }

    /// Whether x is in the set; beyond the width no number is.
    pub fn has(&self, x: usize) -> bool
        ensures { T result ↔ Holds self.now x }
    {
        self.words
            .get(x / 64)
            .is_some_and(|word| word >> (x % 64) & 1 == 1)
    }

    /// Adds x to the set; beyond the width nothing changes.
    #[tactic(auto, using(crate::proofs::Rows::marked_has), unfolding(crate::specs::Rows::Holds))]
    pub fn insert(&mut self, x: usize)
        ensures { (y : ℕ) → Holds self.new y ↔ (Holds self.old y ⊎ ((y ≡ x) × (x < vertices))) }
    {
        // by index: of a write through get_mut a proof learns nothing but the length
        if x / 64 < WORDS {
            self.words[x / 64] |= 1 << (x % 64);
        }
    }

    /// The union of two sets.
    pub fn joined(self, other: Row) -> Row
        ensures { (y : ℕ) → Holds result y ↔ (Holds self y ⊎ Holds other y) }
    {
        Row {
            words: array::from_fn(|i| self.words[i] | other.words[i]),
        }
    }
}
