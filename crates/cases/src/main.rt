//! Reads and seals each specification file of a table, checks each run file of it, and holds what comes of it to what the table says.
//!
//! A line of the table is `NAME | SPECIFICATION | OUTCOME`, or `NAME | SPECIFICATION | RUN | OUTCOME`; the files are given by their
//! numbers, and `same` in the place of a specification is the one that was sealed last. A line without `|` is a heading.
#![tactic(auto)]

mod case;
mod file;
mod outcome;
mod places;
mod runs;

use crate::case::{Case, Tally};
use crate::file::file_of;
use crate::outcome::Outcome;
use crate::places::Places;
use crate::runs::as_said;
use anyhow::anyhow;
use conformance::checking::check;
use formats::run_file::RunFile;
use nesting::sealed::SealedSpecification;
use std::alloc::Global;

/// What came of a call, and whether the places are as they should be after it; a failed case tells the one whatever the other is.
#[derive(Clone, Copy)]
struct Trial {
    outcome: Outcome,
    kept: bool,
}

/// What comes of a specification file.
fn sealed(heap: Global, places: &mut Places, numbers: &str) -> anyhow::Result<Trial> {
    let file = file_of(heap, numbers)?;
    let before = places.before();
    let answer = places.take(file.as_slice());
    let outcome = match answer {
        Ok(()) => Outcome::Sealed,
        Err(refusal) => Outcome::Refused(refusal.into()),
    };
    Ok(Trial {
        outcome,
        kept: places.as_said(&before, answer),
    })
}

/// What comes of a run file, checked against a sealed specification.
fn conforms<'a>(
    heap: Global,
    specification: &'a SealedSpecification,
    file: &'a [u8],
) -> anyhow::Result<Trial> {
    let mut place = RunFile::new();
    let answer = check(specification, file, &mut place);
    let outcome = match answer {
        Ok(()) => Outcome::Conforms,
        Err(refusal) => Outcome::Refused(refusal.into()),
    };
    Ok(Trial {
        outcome,
        kept: as_said(heap, place, file, answer)?,
    })
}

/// What comes of the files of a line, of a specification or of a specification and a run; a specification that is refused takes no run.
fn came_of(heap: Global, places: &mut Places, files: &str) -> anyhow::Result<Trial> {
    let Some((specification, run)) = files.split_once('|') else {
        return sealed(heap, places, files);
    };
    if specification.trim() != "same" {
        let trial = sealed(heap, places, specification)?;
        if let Outcome::Refused(_) = trial.outcome {
            return Ok(trial);
        }
    }
    let file = file_of(heap, run)?;
    conforms(heap, places.sealed(), file.as_slice())
}

/// The case of a line, made.
fn case_of<'a>(
    heap: Global,
    places: &mut Places,
    name: &'a str,
    rest: &'a str,
) -> anyhow::Result<Case<'a>> {
    let Some((files, expected)) = rest.rsplit_once('|') else {
        return Ok(Case::Unended { name });
    };
    let name = name.trim();
    let expected = expected.trim();
    let trial = came_of(heap, places, files)?;
    let got = trial.outcome;
    if trial.kept && got.to_string(heap)?.as_str() == expected {
        Ok(Case::Passed { name, expected })
    } else {
        Ok(Case::Failed {
            name,
            expected,
            got,
        })
    }
}

fn run(rt: &HostRuntime) -> anyhow::Result<Tally> {
    let heap = rt.alloc();
    let mut places = Places::new();
    let mut tally = Tally::new();
    for line in rt.lines(heap) {
        let line = line?;
        let Some((name, rest)) = line.as_str().split_once('|') else {
            rt.println(line.as_str())?;
            continue;
        };
        let case = case_of(heap, &mut places, name, rest)?;
        tally.count(case);
        rt.println(case)?;
    }
    Ok(tally)
}

fn main(rt: HostRuntime) -> anyhow::Result<()> {
    let tally = run(&rt)?;
    rt.println(tally)?;
    if tally.failed > 0 {
        return Err(anyhow!("a case failed"));
    }
    Ok(())
}
