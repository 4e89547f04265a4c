use crate::members::kind_of;
use crate::picks::RunWords;
use records::kinds::BlockKind;
use std::alloc::AllocError;

/// A copy that is still to be shown, and how far to the right.
#[derive(Clone, Copy)]
struct Branch {
    copy: usize,
    indent: usize,
}

impl RunWords<'_> {
    /// Which round of a loop a copy of a block of that kind is; nothing for a copy of any other kind.
    fn round(self, kind: BlockKind, copy: usize) -> Result<String, AllocError> {
        let BlockKind::Loop = kind else {
            return Ok(String::new(self.heap));
        };
        let group = self.group(copy)?;
        let all = group.len();
        let round = group.iter().filter(|other| **other <= copy).count();
        format!(in self.heap; ", round {round} of {all}")
    }

    /// A copy with its steps.
    fn branch(self, out: &mut String, branch: Branch) -> Result<(), AllocError> {
        let Branch { copy, indent } = branch;
        let block = self.opened.run.copy(copy).block;
        let kind = kind_of(self.opened.specification, block as usize);
        let round = self.round(kind, copy)?;
        let pad = "";
        writeln!(
            out,
            "{pad:indent$}copy {copy}: block {block}, {kind}{round}"
        )?;
        for step in self.steps(copy)?.iter() {
            let origin = self.opened.run.step(*step).origin;
            let tool = self.opened.specification.vertex(origin as usize).tool;
            writeln!(
                out,
                "{pad:indent$}  step {step}: vertex {origin}, tool code {tool}"
            )?;
        }
        Ok(())
    }

    /// The copies as a tree: each with its steps, and under it the copies inside it. (A list of those that wait, and not a recursion: each
    /// copy is shown once, so their number bounds the loop.)
    pub fn tree(self, out: &mut String) -> Result<(), AllocError> {
        let mut waiting = Vec::new(self.heap);
        waiting.push(Branch { copy: 0, indent: 2 })?;
        for _ in 0..self.opened.run.copies() {
            let Some(branch) = waiting.pop() else {
                break;
            };
            self.branch(out, branch)?;
            let indent = branch.indent.saturating_add(2);
            for inner in self.inner(branch.copy)?.iter().rev() {
                waiting.push(Branch {
                    copy: *inner,
                    indent,
                })?;
            }
        }
        Ok(())
    }
}
