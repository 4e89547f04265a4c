ghost use Rattle.rules.specs.Parts.{Marks, Marks-prop};

use crate::parts::Parts;
use graphs::row::Row;

/// The tables with the vertices that have an edge into them, the heads, and those that have one out of them, the tails.
#[derive(Clone, Copy)]
pub struct Drawn<'a> {
    pub(crate) parts: Parts<'a>,
    pub(crate) heads: Row,
    pub(crate) tails: Row,
    ghost into: { Marks (λ e. e.head) parts.edges.now heads } by { Marks-prop (λ e. e.head) parts.edges.now heads },
    ghost out: { Marks (λ e. e.tail) parts.edges.now tails } by { Marks-prop (λ e. e.tail) parts.edges.now tails },
}
