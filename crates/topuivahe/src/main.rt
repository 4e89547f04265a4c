//! `topuivahe check SPEC` reads a specification file, seals what it states, and prints an account of it;
//! `topuivahe check SPEC RUN` checks the run in a second file against it, and prints an account of both;
//! `topuivahe reach SPEC` tells which vertices lead to which.
#![tactic(auto)]

mod account;
mod failure;
mod file;
mod forms;
mod lists;
mod members;
mod picks;
mod reach;
mod reading_words;
mod refusal;
mod run_words;
mod sealing_words;
mod tables;
mod tree;

use crate::account::{Account, report, run_report};
use crate::failure::Failure;
use crate::file::File;
use crate::members::SpecificationWords;
use crate::picks::RunWords;
use crate::reach::{Inquiry, Kind, Question, reach};
use conformance::checking::check as check_conforms;
use conformance::trial::Trial;
use formats::run_file::RunFile;
use formats::specification::Specification;
use nesting::sealed::SealedSpecification;
use nesting::sealing::read_and_seal;
use rules::faults::NestingFault;
use std::alloc::AllocError;
use std::process::ExitCode;
use std::{env, fs};

/// What the arguments ask.
#[derive(Clone, Copy)]
enum Asked<'a> {
    /// To check a specification, and a run if there is one.
    Check {
        specification: &'a str,
        run: Option<&'a str>,
    },
    /// Which vertices of a specification reach which.
    Reach {
        specification: &'a str,
        inquiry: Inquiry,
    },
}

fn pair(x: &str, y: &str) -> Option<Question> {
    Some(Question::Pair(x.parse().ok()?, y.parse().ok()?))
}

/// The question and the scheme that up to four words ask for; an empty word is the same as none.
fn reach_asked(words: [&str; 4]) -> Option<Inquiry> {
    let (question, kind) = match words {
        ["", "", "", ""] => (Question::All, Kind::Matrix),
        ["--scheme", name, "", ""] => (Question::All, name.parse().ok()?),
        [x, y, "", ""] => (pair(x, y)?, Kind::Matrix),
        [x, y, "--scheme", name] => (pair(x, y)?, name.parse().ok()?),
        _ => return None,
    };
    Some(Inquiry { question, kind })
}

/// The argument at place `i`, or an empty word where there is none.
fn word(arguments: &[String], i: usize) -> &str {
    arguments.get(i).map_or("", |argument| argument.as_str())
}

/// What the arguments ask, or nothing where they are not as the usage text says.
fn what_is_asked(arguments: &[String]) -> Option<Asked<'_>> {
    let [command, specification, rest @ ..] = arguments else {
        return None;
    };
    let specification = specification.as_str();
    match (command.as_str(), rest) {
        ("check", []) => Some(Asked::Check {
            specification,
            run: None,
        }),
        ("check", [run]) => Some(Asked::Check {
            specification,
            run: Some(run.as_str()),
        }),
        ("reach", _) if rest.len() <= 4 => {
            let words = [word(rest, 0), word(rest, 1), word(rest, 2), word(rest, 3)];
            Some(Asked::Reach {
                specification,
                inquiry: reach_asked(words)?,
            })
        }
        _ => None,
    }
}

/// The arguments, without the name of the program.
fn arguments(rt: &HostRuntime) -> Result<Vec<String>, Failure> {
    Ok(env::args(rt)?.skip(1).collect(rt.alloc())?)
}

fn usage(rt: &HostRuntime) -> Result<(), Failure> {
    // the name of the second scheme in two pieces, for the reason given at `Kind`
    rt.eprintln(concat!(
        "usage: topuivahe check FILE\n",
        "Reads the workflow specification in FILE, seals it and prints an account of it.\n",
        "The last line is 'sealed', or begins 'refused' and says which rule is broken, and where.\n",
        "The status is 0 if the specification is sealed, and 1 otherwise.\n\n",
        "usage: topuivahe check SPEC RUN\n",
        "Checks that the run in the file RUN conforms to the specification in SPEC, and prints an account of both.\n",
        "The last line is 'conforms', or begins 'refused' and says which rule is broken, and where.\n",
        "The status is 0 if the run conforms, and 1 otherwise.\n\n",
        "usage: topuivahe reach SPEC [X Y] [--scheme matrix|sea",
        "rch]\n",
        "Says whether zero or more edges lead from vertex X to vertex Y, and how many questions were answered; without X and Y, for\n",
        "each vertex those to which edges lead from it. The scheme that answers is the matrix if none is named.\n",
        "The status is 0 if the specification is sealed and all was answered, and 1 otherwise."
    ))?;
    Err(Failure::Usage)
}

fn bytes_of(rt: &HostRuntime, name: &str) -> Result<Vec<u8>, Failure> {
    match fs::read(rt, name) {
        Ok(bytes) => Ok(bytes),
        Err(error) => {
            eprintln!(rt; "topuivahe: cannot read {name}: {error}")?;
            Err(Failure::Unread)
        }
    }
}

/// Prints an account of the file `name`.
fn printed(
    rt: &HostRuntime,
    name: &str,
    account: Result<Account, AllocError>,
) -> Result<(), Failure> {
    match account {
        Ok(Account::Accepted(text)) => {
            rt.print(text)?;
            Ok(())
        }
        Ok(Account::Refused(text)) => {
            rt.print(text)?;
            Err(Failure::Refused)
        }
        Err(_) => {
            eprintln!(rt; "topuivahe: no memory for the account of {name}")?;
            Err(Failure::Memory)
        }
    }
}

/// Checks a run against a sealed specification, which stands in the file `specification`.
fn check_run(
    rt: &HostRuntime,
    specification: File,
    sealed: &SealedSpecification,
    name: &str,
) -> Result<(), Failure> {
    let bytes = bytes_of(rt, name)?;
    let bytes = bytes.as_slice();
    let mut run = RunFile::new();
    let verdict = check_conforms(sealed, bytes, &mut run);
    let words = RunWords {
        heap: rt.alloc(),
        opened: Trial {
            specification: sealed.specification(),
            run,
        },
    };
    let account = run_report(words, specification, File { name, bytes }, verdict);
    printed(rt, name, account)
}

fn check(rt: &HostRuntime, name: &str, run: Option<&str>) -> Result<(), Failure> {
    let bytes = bytes_of(rt, name)?;
    let bytes = bytes.as_slice();
    let file = File { name, bytes };
    let mut specification = Specification::new();
    let mut sealed = SealedSpecification::new();
    let verdict = read_and_seal(bytes, &mut specification, &mut sealed);
    match (verdict, run) {
        (Ok(()), Some(run)) => check_run(rt, file, &sealed, run),
        _ => {
            let words = SpecificationWords {
                heap: rt.alloc(),
                specification: &specification,
            };
            printed(rt, name, report(words, file, verdict))
        }
    }
}

/// The account of a specification that is not sealed: the line that says why.
fn not_sealed(
    words: SpecificationWords,
    bytes: &[u8],
    fault: NestingFault,
) -> Result<Account, AllocError> {
    let refusal = words.refusal(fault, bytes)?;
    Ok(Account::Refused(format!(in words.heap; "{refusal}\n")?))
}

fn tell_reach(rt: &HostRuntime, name: &str, inquiry: Inquiry) -> Result<(), Failure> {
    let bytes = bytes_of(rt, name)?;
    let bytes = bytes.as_slice();
    let mut specification = Specification::new();
    let mut sealed = SealedSpecification::new();
    match read_and_seal(bytes, &mut specification, &mut sealed) {
        Ok(()) => {
            let account = reach(rt.alloc(), &sealed, inquiry)?;
            printed(rt, name, Ok(account))
        }
        Err(fault) => {
            let words = SpecificationWords {
                heap: rt.alloc(),
                specification: &specification,
            };
            printed(rt, name, not_sealed(words, bytes, fault))
        }
    }
}

/// Does what the arguments ask.
fn answer(rt: &HostRuntime) -> Result<(), Failure> {
    let Ok(arguments) = arguments(rt) else {
        return usage(rt);
    };
    match what_is_asked(arguments.as_slice()) {
        Some(Asked::Check { specification, run }) => check(rt, specification, run),
        Some(
            Asked::Reach {
                specification,
                inquiry,
            },
        ) => tell_reach(rt, specification, inquiry),
        None => usage(rt),
    }
}

/// Ends with status 1 on a failure. What there is to say of one was written when it came, so nothing is added here.
fn main(rt: HostRuntime) -> ExitCode {
    match answer(&rt) {
        Ok(()) => ExitCode::SUCCESS,
        Err(_) => ExitCode::FAILURE,
    }
}
