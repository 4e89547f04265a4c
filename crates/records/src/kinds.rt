ghost use Rattle.std.specs.Prelude.{◌≡◌, ◌<◌, MatchOption, MatchResult, Some, refl};
ghost use Rattle.records.specs.Blocks.{kind_number, kind_word};
ghost use Rattle.records.specs.Kinds.{copy_kind, ends_kind, nest_kind, run_edge_kind, spec_edge_kind, step_kind, vertex_kind};

use crate::record::{Bounds, Record, Span};
use std::fmt;

// Each kind names the two fields of its struct, which no generic code can. `SpecEdge` and `RunEdge` are two types, so that an edge of a
// specification is not taken for one of a run.

/// An edge of a specification.
#[derive(Clone, Copy, PartialEq, Eq)]
pub struct SpecEdge {
    pub tail: u16,
    pub head: u16,
}

impl Record for SpecEdge {
    const CEILING: usize = 512;

    const FLOOR: usize = 0;

    ghost kind = { spec_edge_kind };

    ghost made = { λ a b. record { tail = a; head = b } };

    ghost first = { λ e. e.tail };

    ghost second = { λ e. e.head };

    ghost firstly = { λ a b. refl };

    ghost secondly = { λ a b. refl };

    fn limits() -> (usize, usize) {
        (SpecEdge::FLOOR, SpecEdge::CEILING)
    }

    fn make(tail: u16, head: u16) -> Self {
        SpecEdge { tail, head }
    }

    fn numbers(&self) -> (u16, u16) {
        (self.tail, self.head)
    }

    fn first_span(bounds: Bounds, _i: u16) -> Span {
        Span::below(bounds.vertices as u32)
    }

    fn second_span(bounds: Bounds, _i: u16) -> Span {
        Span::below(bounds.vertices as u32)
    }
}

/// A vertex: its home block and its tool code.
#[derive(Clone, Copy, PartialEq, Eq)]
pub struct Vertex {
    pub home: u16,
    pub tool: u16,
}

impl Record for Vertex {
    const CEILING: usize = 64;

    const FLOOR: usize = 1;

    ghost kind = { vertex_kind };

    ghost made = { λ a b. record { home = a; tool = b } };

    ghost first = { λ e. e.home };

    ghost second = { λ e. e.tool };

    ghost firstly = { λ a b. refl };

    ghost secondly = { λ a b. refl };

    fn limits() -> (usize, usize) {
        (Vertex::FLOOR, Vertex::CEILING)
    }

    fn make(home: u16, tool: u16) -> Self {
        Vertex { home, tool }
    }

    fn numbers(&self) -> (u16, u16) {
        (self.home, self.tool)
    }

    fn first_span(bounds: Bounds, _i: u16) -> Span {
        Span::below(bounds.blocks as u32)
    }

    fn second_span(_bounds: Bounds, _i: u16) -> Span {
        Span::below(65536)
    }
}

/// A block: its parent, and its kind as the file numbers it (0 the whole, 1 a fork, 2 a loop).
#[derive(Clone, Copy, PartialEq, Eq)]
pub struct Nest {
    pub parent: u16,
    pub kind: u16,
}

impl Record for Nest {
    const CEILING: usize = 32;

    const FLOOR: usize = 1;

    ghost kind = { nest_kind };

    ghost made = { λ a b. record { parent = a; kind = b } };

    ghost first = { λ e. e.parent };

    ghost second = { λ e. e.kind };

    ghost firstly = { λ a b. refl };

    ghost secondly = { λ a b. refl };

    fn limits() -> (usize, usize) {
        (Nest::FLOOR, Nest::CEILING)
    }

    fn make(parent: u16, kind: u16) -> Self {
        Nest { parent, kind }
    }

    fn numbers(&self) -> (u16, u16) {
        (self.parent, self.kind)
    }

    fn first_span(_bounds: Bounds, block: u16) -> Span {
        Span::but_zero(block, 0, block as u32)
    }

    fn second_span(_bounds: Bounds, block: u16) -> Span {
        Span::but_zero(block, 1, 3)
    }
}

/// What a block is.
#[derive(Clone, Copy, PartialEq, Eq)]
pub enum BlockKind {
    Whole,
    Fork,
    Loop,
}

impl fmt::Display for BlockKind {
    ghost output = { λ k. Some (kind_word k) };

    fn fmt<W: fmt::Write>(&self, f: &mut fmt::Formatter<W>) -> fmt::Result {
        f.pad(match self {
            BlockKind::Whole => "whole",
            BlockKind::Fork => "fork",
            BlockKind::Loop => "loop",
        })
    }
}

/// A number that no kind of block has.
#[derive(Clone, Copy, PartialEq, Eq)]
pub struct NoKind(pub u16);

impl TryFrom<u16> for BlockKind {
    type Error = NoKind;

    ghost try_from_gives = { λ n r. MatchResult r (λ k. n ≡ kind_number k) (λ e. (2 < n) × (e.0 ≡ n)) };

    fn try_from(number: u16) -> Result<Self, NoKind> {
        match number {
            0 => Ok(BlockKind::Whole),
            1 => Ok(BlockKind::Fork),
            2 => Ok(BlockKind::Loop),
            _ => Err(NoKind(number)),
        }
    }
}

impl Nest {
    /// The kind that the block's kind number means.
    pub fn block_kind(&self) -> Option<BlockKind>
        ensures { MatchOption result (2 < self.now.kind) (λ k. self.now.kind ≡ kind_number k) }
    {
        BlockKind::try_from(self.kind).ok()
    }
}

/// A block's source and sink.
#[derive(Clone, Copy, PartialEq, Eq)]
pub struct Ends {
    pub source: u16,
    pub sink: u16,
}

impl Record for Ends {
    const CEILING: usize = 32;

    const FLOOR: usize = 1;

    ghost kind = { ends_kind };

    ghost made = { λ a b. record { source = a; sink = b } };

    ghost first = { λ e. e.source };

    ghost second = { λ e. e.sink };

    ghost firstly = { λ a b. refl };

    ghost secondly = { λ a b. refl };

    fn limits() -> (usize, usize) {
        (Ends::FLOOR, Ends::CEILING)
    }

    fn make(source: u16, sink: u16) -> Self {
        Ends { source, sink }
    }

    fn numbers(&self) -> (u16, u16) {
        (self.source, self.sink)
    }

    fn first_span(bounds: Bounds, _i: u16) -> Span {
        Span::below(bounds.vertices as u32)
    }

    fn second_span(bounds: Bounds, _i: u16) -> Span {
        Span::below(bounds.vertices as u32)
    }
}

/// A copy, one execution of a block: its parent copy and its block.
#[derive(Clone, Copy, PartialEq, Eq)]
pub struct RunCopy {
    pub parent: u16,
    pub block: u16,
}

impl Record for RunCopy {
    const CEILING: usize = 512;

    const FLOOR: usize = 1;

    ghost kind = { copy_kind };

    ghost made = { λ a b. record { parent = a; block = b } };

    ghost first = { λ e. e.parent };

    ghost second = { λ e. e.block };

    ghost firstly = { λ a b. refl };

    ghost secondly = { λ a b. refl };

    fn limits() -> (usize, usize) {
        (RunCopy::FLOOR, RunCopy::CEILING)
    }

    fn make(parent: u16, block: u16) -> Self {
        RunCopy { parent, block }
    }

    fn numbers(&self) -> (u16, u16) {
        (self.parent, self.block)
    }

    fn first_span(_bounds: Bounds, copy: u16) -> Span {
        Span::but_zero(copy, 0, copy as u32)
    }

    fn second_span(bounds: Bounds, copy: u16) -> Span {
        Span::but_zero(copy, 1, bounds.blocks as u32)
    }
}

/// A step of a run: the copy that it belongs to and the vertex that it executes.
#[derive(Clone, Copy, PartialEq, Eq)]
pub struct Step {
    pub context: u16,
    pub origin: u16,
}

impl Record for Step {
    const CEILING: usize = 2048;

    const FLOOR: usize = 1;

    ghost kind = { step_kind };

    ghost made = { λ a b. record { context = a; origin = b } };

    ghost first = { λ e. e.context };

    ghost second = { λ e. e.origin };

    ghost firstly = { λ a b. refl };

    ghost secondly = { λ a b. refl };

    fn limits() -> (usize, usize) {
        (Step::FLOOR, Step::CEILING)
    }

    fn make(context: u16, origin: u16) -> Self {
        Step { context, origin }
    }

    fn numbers(&self) -> (u16, u16) {
        (self.context, self.origin)
    }

    fn first_span(bounds: Bounds, _i: u16) -> Span {
        Span::below(bounds.copies as u32)
    }

    fn second_span(bounds: Bounds, _i: u16) -> Span {
        Span::below(bounds.vertices as u32)
    }
}

/// An edge of a run.
#[derive(Clone, Copy, PartialEq, Eq)]
pub struct RunEdge {
    pub tail: u16,
    pub head: u16,
}

impl Record for RunEdge {
    const CEILING: usize = 8192;

    const FLOOR: usize = 0;

    ghost kind = { run_edge_kind };

    ghost made = { λ a b. record { tail = a; head = b } };

    ghost first = { λ e. e.tail };

    ghost second = { λ e. e.head };

    ghost firstly = { λ a b. refl };

    ghost secondly = { λ a b. refl };

    fn limits() -> (usize, usize) {
        (RunEdge::FLOOR, RunEdge::CEILING)
    }

    fn make(tail: u16, head: u16) -> Self {
        RunEdge { tail, head }
    }

    fn numbers(&self) -> (u16, u16) {
        (self.tail, self.head)
    }

    fn first_span(bounds: Bounds, _i: u16) -> Span {
        Span::below(bounds.steps as u32)
    }

    fn second_span(bounds: Bounds, _i: u16) -> Span {
        Span::below(bounds.steps as u32)
    }
}
