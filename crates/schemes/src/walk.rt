ghost use Rattle.std.specs.Prelude.{ℕ, ◌<◌, ◌↔◌, length};
ghost use Rattle.model.specs.Paths.{Path*};
ghost use Rattle.graphs.specs.Rows.{Holds, vertices};
ghost use Rattle.schemes.specs.Walks.{Listed, RowHolds, Passed};

use graphs::row::Row;
use records::kinds::SpecEdge;

/// One pass over the edges: where the tail of one is marked, its head is marked too. Says whether it marked a vertex.
fn pass(edges: &[SpecEdge], seen: &mut Row) -> bool
    requires { RowHolds edges.now }
    ensures { Passed edges.now seen.old seen.new result (length edges.now) }
{
    let mut marked = false;
    for edge in edges {
        let (tail, head) = (edge.tail as usize, edge.head as usize);
        if seen.has(tail) && !seen.has(head) {
            seen.insert(head);
            marked = true;
        }
    }
    marked
}

/// The vertices to which zero or more of the edges lead from x.
pub(crate) fn reached(edges: &[SpecEdge], x: usize) -> Row
    requires { (RowHolds edges.now) × (x < vertices) }
    ensures { (y : ℕ) → Holds result y ↔ Path* (Listed edges.now) x y }
{
    let mut seen = Row::empty();
    seen.insert(x);
    while pass(edges, &mut seen) {}
    seen
}
