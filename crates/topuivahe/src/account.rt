use crate::file::{File, sizes_of};
use crate::members::SpecificationWords;
use crate::picks::RunWords;
use crate::refusal::Refusal;
use conformance::faults::ConformanceFault;
use rules::faults::NestingFault;
use std::alloc::AllocError;
use std::fmt;

/// The text that is printed of a file, and whether what it is of was accepted. (No `Result`: the text of a refused file is no error, and is
/// printed alike.)
#[derive(Drop)]
pub enum Account {
    Accepted(String),
    Refused(String),
}

impl Account {
    /// The account that ends, after an empty line, with the word `accepted` or with the refusal.
    fn ended(
        mut text: String,
        accepted: &str,
        refusal: Option<Refusal>,
    ) -> Result<Self, AllocError> {
        match refusal {
            None => {
                writeln!(text, "\n{accepted}")?;
                Ok(Account::Accepted(text))
            }
            Some(refusal) => {
                writeln!(text, "\n{refusal}")?;
                Ok(Account::Refused(text))
            }
        }
    }
}

/// What is known of any file: its name, its length, and its sizes if it has them, each with its label.
#[derive(Clone, Copy)]
struct Heading<'a> {
    file: File<'a>,
    labels: [&'static str; 3],
}

impl fmt::Display for Heading<'_> {
    fn fmt<W: fmt::Write>(&self, f: &mut fmt::Formatter<W>) -> fmt::Result {
        let name = self.file.name;
        let length = self.file.bytes.len();
        writeln!(f, "File      {name}\nLength    {length} bytes")?;
        match sizes_of(self.file.bytes) {
            Some(sizes) => self.sizes(f, sizes),
            None => Ok(()),
        }
    }
}

impl Heading<'_> {
    fn sizes<W: fmt::Write>(self, f: &mut fmt::Formatter<W>, sizes: [u16; 3]) -> fmt::Result {
        for (label, size) in self.labels.iter().zip(sizes) {
            writeln!(f, "{label:<8}  {size}")?;
        }
        Ok(())
    }
}

const OF_SPECIFICATION: [&str; 3] = ["Vertices", "Edges", "Blocks"];

const OF_RUN: [&str; 3] = ["Copies", "Steps", "Edges"];

/// The whole text for a specification: what is known of it, and last whether it is sealed.
pub fn report(
    words: SpecificationWords,
    file: File,
    verdict: Result<(), NestingFault>,
) -> Result<Account, AllocError> {
    let labels = OF_SPECIFICATION;
    let heading = Heading { file, labels };
    let mut out = format!(in words.heap; "{heading}")?;
    match verdict {
        Err(NestingFault::Reading(_)) => {}
        _ => words.tables(&mut out)?,
    }
    let refusal = verdict.err().map(|fault| words.refusal(fault, file.bytes));
    Account::ended(out, "sealed", refusal.transpose()?)
}

/// What is known of a run that was opened.
fn contents(out: &mut String, words: RunWords, conforms: bool) -> Result<(), AllocError> {
    writeln!(out, "\nCopies, each with its steps and the copies in it")?;
    words.tree(out)?;
    let along = words.along()?.len();
    let back = words.opened.run.edges().saturating_sub(along);
    let title = if conforms { "Edges" } else { "Edges listed" };
    writeln!(
        out,
        "\n{title}\n  {along} along an edge of the specification\n  {back} from the end of one round of a loop to the start of the next"
    )
}

/// The whole text for a run: what is known of both files, and last whether the run conforms.
pub fn run_report(
    words: RunWords,
    specification: File,
    file: File,
    verdict: Result<(), ConformanceFault>,
) -> Result<Account, AllocError> {
    let above = Heading {
        file: specification,
        labels: OF_SPECIFICATION,
    };
    let labels = OF_RUN;
    let heading = Heading { file, labels };
    let mut out = format!(in words.heap; "Specification\n{above}\nRun\n{heading}")?;
    match verdict {
        Err(ConformanceFault::Nesting(NestingFault::Reading(_))) => {}
        _ => contents(&mut out, words, verdict.is_ok())?,
    }
    let refusal = verdict.err().map(|fault| words.refusal(fault, file.bytes));
    Account::ended(out, "conforms", refusal.transpose()?)
}
