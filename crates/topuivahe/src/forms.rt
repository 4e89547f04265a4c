use crate::file::sizes_of;
use records::kinds::{Nest, RunCopy, RunEdge, SpecEdge, Step, Vertex};
use records::record::Record;

/// What a file is read as.
#[derive(Clone, Copy)]
pub enum Form {
    Specification,
    /// A run of a specification with so many vertices and blocks.
    Run { vertices: usize, blocks: usize },
}

/// A size, with its limits.
#[derive(Clone, Copy)]
pub struct Size {
    pub name: &'static str,
    pub least: usize,
    pub most: usize,
}

/// The number that the words for what is allowed end with.
#[derive(Clone, Copy)]
enum Limit {
    Number(usize),
    /// The number of the record itself.
    Record,
}

/// The numbers of one part, which stand side by side.
#[derive(Clone, Copy)]
struct Stretch {
    /// What such a number is, up to the number of its record.
    name: &'static str,
    count: u16,
    /// What it must be in record 0, if that record has a rule of its own.
    zero: Option<&'static str>,
    /// What it must be, up to the limit if there is one.
    wanted: &'static str,
    limit: Option<Limit>,
}

/// A number of a section: what it is, the record that it belongs to, how many records the section has, and what it must be.
#[derive(Clone, Copy)]
pub struct Spot {
    pub name: &'static str,
    pub record: usize,
    pub count: u16,
    pub wanted: &'static str,
    pub limit: Option<usize>,
}

impl Stretch {
    /// A part whose numbers lie below `end`, as the words say.
    fn below(name: &'static str, count: u16, wanted: &'static str, end: usize) -> Self {
        Stretch {
            name,
            count,
            zero: None,
            wanted,
            limit: Some(Limit::Number(end)),
        }
    }

    fn spot(self, record: usize) -> Spot {
        let (wanted, limit) = match self.zero {
            Some(zero) if record == 0 => (zero, None),
            _ => (self.wanted, self.limit),
        };
        Spot {
            name: self.name,
            record,
            count: self.count,
            wanted,
            limit: limit.map(|limit| match limit {
                Limit::Number(number) => number,
                Limit::Record => record,
            }),
        }
    }
}

const WHOLE: Option<&str> = Some("0, since block 0 is the whole");

fn specification_parts(sizes: [u16; 3]) -> [Stretch; 8] {
    let [n, m, b] = sizes;
    let vertex = "a vertex, so below";
    [
        Stretch::below("tail of edge", m, vertex, n as usize),
        Stretch::below("head of edge", m, vertex, n as usize),
        Stretch::below("home of vertex", n, "a block, so below", b as usize),
        Stretch {
            name: "tool code of vertex",
            count: n,
            zero: None,
            wanted: "any number",
            limit: None,
        },
        Stretch {
            name: "parent of block",
            count: b,
            zero: WHOLE,
            wanted: "a block numbered below",
            limit: Some(Limit::Record),
        },
        Stretch {
            name: "kind of block",
            count: b,
            zero: WHOLE,
            wanted: "1 for a fork or 2 for a loop",
            limit: None,
        },
        Stretch::below("source of block", b, vertex, n as usize),
        Stretch::below("sink of block", b, vertex, n as usize),
    ]
}

const ROOT: Option<&str> = Some("0, since copy 0 is that of the whole");

fn run_parts(sizes: [u16; 3], vertices: usize, blocks: usize) -> [Stretch; 6] {
    let [c, v, e] = sizes;
    let step = "a step, so below";
    [
        Stretch {
            name: "parent of copy",
            count: c,
            zero: ROOT,
            wanted: "a copy numbered below",
            limit: Some(Limit::Record),
        },
        Stretch {
            name: "block of copy",
            count: c,
            zero: ROOT,
            wanted: "a block inside the whole, so above 0 and below",
            limit: Some(Limit::Number(blocks)),
        },
        Stretch::below("context of step", v, "a copy, so below", c as usize),
        Stretch::below("origin of step", v, "a vertex, so below", vertices),
        Stretch::below("tail of edge", e, step, v as usize),
        Stretch::below("head of edge", e, step, v as usize),
    ]
}

/// Which number the byte `at` belongs to, in a file with these parts.
fn spot_of(parts: &[Stretch], at: usize) -> Option<Spot> {
    let mut left = at.checked_sub(6)? / 2;
    parts.iter().find_map(|part| match left.checked_sub(part.count as usize) {
        Some(rest) => {
            left = rest;
            None
        }
        None => Some(part.spot(left)),
    })
}

impl Form {
    /// The size that stands in the place numbered `which`.
    pub fn size(self, which: usize) -> Size {
        let (name, (least, most)) = match (self, which) {
            (Form::Specification, 0) => ("vertices", Vertex::limits()),
            (Form::Specification, 1) => ("edges", SpecEdge::limits()),
            (Form::Specification, _) => ("blocks", Nest::limits()),
            (Form::Run { .. }, 0) => ("copies", RunCopy::limits()),
            (Form::Run { .. }, 1) => ("steps", Step::limits()),
            (Form::Run { .. }, _) => ("edges", RunEdge::limits()),
        };
        Size { name, least, most }
    }

    /// Which number the byte `at` of a file belongs to.
    pub fn spot(self, bytes: &[u8], at: usize) -> Option<Spot> {
        let sizes = sizes_of(bytes)?;
        match self {
            Form::Specification => spot_of(&specification_parts(sizes), at),
            Form::Run { vertices, blocks } => spot_of(&run_parts(sizes, vertices, blocks), at),
        }
    }
}
