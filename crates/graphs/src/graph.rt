ghost use Rattle.std.specs.Prelude.{ℕ, ◌<◌, ◌⊎◌, ◌↔◌};
ghost use Rattle.model.specs.Paths.{Path⁺};
ghost use Rattle.graphs.specs.Graphs.{Joins};
ghost use Rattle.graphs.specs.Rows.{vertices};

use crate::grid::Grid;
use crate::row::VERTICES;

/// A relation on the numbers below VERTICES: row x is the set of all y to which an edge leads from x.
pub type Graph = Grid<VERTICES>;

impl Grid<VERTICES> {
    /// The graph becomes its closure: an edge from x to y wherever one or more edges led from x to y.
    pub fn close(&mut self)
        ensures { (x y : ℕ) → Joins self.new x y ↔ Path⁺ (Joins self.old) x y }
    {
        for k in 0..VERTICES {
            self.join_through(k);
        }
    }

    /// Adds an edge from x to y wherever one led from x to k, and one from k to y.
    #[tactic(auto, unfolding(crate::specs::Grids::Marks))]
    fn join_through(&mut self, k: usize)
        requires { k < vertices }
        ensures { (x y : ℕ) → Joins self.new x y ↔ (Joins self.old x y ⊎ (Joins self.old x k × Joins self.old k y)) }
    {
        let via = self.rows[k];
        for row in self.rows.iter_mut() {
            // each row is stored, changed or not: so the loop has no branch, and takes half the time
            *row = if row.has(k) { row.joined(via) } else { *row };
        }
    }
}
