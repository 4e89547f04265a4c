//! A caller's place for a run, and what a call may leave in it.

use crate::file::push_number;
use conformance::faults::ConformanceFault;
use formats::run_file::RunFile;
use rules::faults::NestingFault;
use std::alloc::Global;

/// One number of each of `count` records.
fn push_numbers<F: Fn(usize) -> u16>(
    file: &mut Vec<u8>,
    count: usize,
    number: F,
) -> anyhow::Result<()>
    requires { F.IsAlwaysCallable number }
{
    for i in 0..count {
        push_number(file, number(i))?;
    }
    Ok(())
}

/// The file that states the run.
fn stated(heap: Global, run: RunFile) -> anyhow::Result<Vec<u8>> {
    let mut file = Vec::new(heap);
    for size in [run.copies(), run.steps(), run.edges()] {
        push_number(&mut file, u16::try_from(size)?)?;
    }
    push_numbers(&mut file, run.copies(), |i| run.copy(i).parent)?;
    push_numbers(&mut file, run.copies(), |i| run.copy(i).block)?;
    push_numbers(&mut file, run.steps(), |u| run.step(u).context)?;
    push_numbers(&mut file, run.steps(), |u| run.step(u).origin)?;
    push_numbers(&mut file, run.edges(), |k| run.edge(k).tail)?;
    push_numbers(&mut file, run.edges(), |k| run.edge(k).head)?;
    Ok(file)
}

/// Whether the place, which held the trivial run, holds what it should: after a refusal of reading that run still, and else the run in
/// the file.
pub fn as_said(
    heap: Global,
    place: RunFile,
    file: &[u8],
    answer: Result<(), ConformanceFault>,
) -> anyhow::Result<bool> {
    let found = stated(heap, place)?;
    if let Err(ConformanceFault::Nesting(NestingFault::Reading(_))) = answer {
        Ok(found == stated(heap, RunFile::new())?)
    } else {
        Ok(found.as_slice() == file)
    }
}
