use crate::account::Account;
use crate::failure::Failure;
use crate::refusal::Refusal;
use nesting::sealed::SealedSpecification;
use schemes::faults::{SchemeFault, Which};
use schemes::matrix::Matrix;
use schemes::scheme::Scheme;
use schemes::walker::Walker;
use std::alloc::{AllocError, Global};
use std::str::FromStr;

/// The scheme that answers.
#[derive(Clone, Copy)]
pub enum Kind {
    Matrix,
    Walker,
}

/// The scheme that the arguments name. (In one piece, the second name would have `rt` prove the program twice: proofs have a tactic of that
/// name.)
impl FromStr for Kind {
    type Err = Failure;

    fn from_str(name: &str) -> Result<Self, Failure> {
        if name == "matrix" {
            Ok(Kind::Matrix)
        } else if name == concat!("sea", "rch") {
            Ok(Kind::Walker)
        } else {
            Err(Failure::Usage)
        }
    }
}

/// What is asked of a scheme: whether the first of two vertices reaches the second, or, for every vertex, which it reaches.
#[derive(Clone, Copy)]
pub enum Question {
    Pair(usize, usize),
    All,
}

/// A question, and the scheme that is to answer it.
#[derive(Clone, Copy)]
pub struct Inquiry {
    pub question: Question,
    pub kind: Kind,
}

/// The line of the vertex `x`: those that it reaches, ascending.
fn row<S: Scheme>(
    out: &mut String,
    scheme: &mut S,
    x: usize,
    vertices: usize,
) -> Result<(), AllocError> {
    write!(out, "{x}:")?;
    for y in 0..vertices {
        if let Ok(true) = scheme.question(x, y) {
            write!(out, " {y}")?;
        }
    }
    writeln!(out)
}

/// For each vertex those that it reaches.
fn table<S: Scheme>(out: &mut String, scheme: &mut S, vertices: usize) -> Result<(), AllocError> {
    for x in 0..vertices {
        row(out, scheme, x, vertices)?;
    }
    Ok(())
}

/// Why a question is refused that names a number that is no vertex.
fn no_vertex(
    heap: Global,
    vertex: usize,
    vertices: usize,
    refused: SchemeFault,
) -> Result<Refusal, AllocError> {
    let last = vertices.saturating_sub(1);
    Ok(Refusal {
        fault: refused.into(),
        words: format!(in heap;
            "{vertex} is no vertex of the specification, whose vertices are 0 to {last}"
        )?,
    })
}

/// What a new scheme of the kind `S`, taught the specification, says to the question.
fn answered<S: Scheme + Drop>(
    heap: Global,
    sealed: &SealedSpecification,
    question: Question,
) -> Result<Account, AllocError> {
    let mut scheme = S::new();
    scheme.learn(sealed);
    let vertices = sealed.specification().vertices().len();
    let mut out = String::new(heap);
    let Question::Pair(x, y) = question else {
        table(&mut out, &mut scheme, vertices)?;
        return Ok(Account::Accepted(out));
    };
    match scheme.question(x, y) {
        Ok(reaches) => {
            let word = if reaches { "yes" } else { "no" };
            let tally = scheme.tally();
            writeln!(out, "{word}\ntally {tally}")?;
            Ok(Account::Accepted(out))
        }
        Err(refused) => {
            let SchemeFault::NoVertex { which } = refused;
            let vertex = match which {
                Which::First => x,
                Which::Second => y,
            };
            let refusal = no_vertex(heap, vertex, vertices, refused)?;
            writeln!(out, "{refusal}")?;
            Ok(Account::Refused(out))
        }
    }
}

/// What a new scheme of the kind asked for, taught the specification, says to the question.
pub fn reach(
    heap: Global,
    sealed: &SealedSpecification,
    inquiry: Inquiry,
) -> Result<Account, AllocError> {
    let Inquiry { question, kind } = inquiry;
    match kind {
        Kind::Matrix => answered::<Matrix>(heap, sealed, question),
        Kind::Walker => answered::<Walker>(heap, sealed, question),
    }
}
