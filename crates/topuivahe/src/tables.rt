use crate::lists::Listed;
use crate::members::{SpecificationWords, kind_of};
use records::kinds::{BlockKind, Ends};
use std::alloc::AllocError;

/// What the account says of a block.
#[derive(Drop)]
struct BlockRow {
    kind: BlockKind,
    parent: String,
    ends: Ends,
    own: String,
    domain: String,
}

const OWN: &str = "own vertices";

/// A table, after an empty line: its head, and what `line` writes of each row, which is given with its number.
fn table<R, F: FnMut(&mut String, usize, &R) -> Result<(), AllocError>>(
    out: &mut String,
    head: &str,
    rows: &[R],
    mut line: F,
) -> Result<(), AllocError>
    requires { F.IsAlwaysCallable line }
{
    writeln!(out, "\n{head}")?;
    for (i, row) in rows.iter().enumerate() {
        line(out, i, row)?;
    }
    Ok(())
}

impl SpecificationWords<'_> {
    /// The parent's number; the whole has no parent to show.
    fn parent(self, block: usize) -> Result<String, AllocError> {
        let parent = self.specification.nest(block).parent;
        match kind_of(self.specification, block) {
            BlockKind::Whole => String::from_str(self.heap, "-"),
            _ => format!(in self.heap; "{parent}"),
        }
    }

    fn block_row(self, block: usize) -> Result<BlockRow, AllocError> {
        let own = Listed(self.own(block)?);
        let domain = Listed(self.domain(block)?);
        Ok(BlockRow {
            kind: kind_of(self.specification, block),
            parent: self.parent(block)?,
            ends: self.specification.ends_of(block),
            own: format!(in self.heap; "{own}")?,
            domain: format!(in self.heap; "{domain}")?,
        })
    }

    fn blocks_table(self, out: &mut String) -> Result<(), AllocError> {
        let rows: Vec<BlockRow> = (0..self.specification.nests().len())
            .map(|block| self.block_row(block))
            .try_collect(self.heap)?;
        let widest = rows.iter().map(|row| row.own.len()).max();
        let width = OWN.len().max(widest.unwrap_or(0));
        let head = format!(in self.heap;
            "Blocks\n  block  kind   parent  source  sink  {OWN:<width$}  whole domain"
        )?;
        table(out, head.as_str(), rows.as_slice(), |out, block, row| {
            let BlockRow {
                kind,
                parent,
                ends,
                own,
                domain,
            } = row;
            let Ends { source, sink } = ends;
            writeln!(
                out,
                "  {block:>5}  {kind:<5}  {parent:>6}  {source:>6}  {sink:>4}  {own:<width$}  {domain}"
            )
        })?;
        writeln!(
            out,
            "  own vertices: those whose home is the block\n  whole domain: those, and the own vertices of every block inside it"
        )
    }

    fn vertices_table(self, out: &mut String) -> Result<(), AllocError> {
        let head = "Vertices\n  vertex  home block  tool code";
        table(out, head, self.specification.vertices(), |out, i, vertex| {
            let home = vertex.home;
            let tool = vertex.tool;
            writeln!(out, "  {i:>6}  {home:>10}  {tool:>9}")
        })
    }

    fn edges_table(self, out: &mut String) -> Result<(), AllocError> {
        let edges = self.specification.edges();
        if edges.is_empty() {
            return writeln!(out, "\nEdges: none");
        }
        let head = "Edges\n  edge  from vertex  to vertex";
        table(out, head, edges, |out, i, edge| {
            let tail = edge.tail;
            let head = edge.head;
            writeln!(out, "  {i:>4}  {tail:>11}  {head:>9}")
        })
    }

    /// What the specification states: its blocks, its vertices and its edges.
    pub fn tables(self, out: &mut String) -> Result<(), AllocError> {
        self.blocks_table(out)?;
        self.vertices_table(out)?;
        self.edges_table(out)
    }
}
