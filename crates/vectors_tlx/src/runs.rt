// Long lists, written as runs: how many times, and which entry. `FFFF 0041 0001 001B` is 65,535 times 41, and then 1B.
ghost use Rattle.std.specs.Prelude.{◌≤◌, vec_len, IfOk};

use crate::LONGEST;
use lines::answer::Word;
use lines::fields::word_list;
use std::alloc::{AllocError, Global};
use std::fmt;

// The octets that are written as runs, at most so many.
pub(crate) fn octets_in_runs(alloc: Global, text: &[u8], most: usize) -> Result<Vec<u8>, AllocError>
    ensures { IfOk result (λ v. vec_len v ≤ most) }
{
    let runs = word_list(alloc, text, 64)?;
    let mut octets = Vec::new(alloc);
    for run in runs.chunks_exact(2) {
        let end = octets.len().saturating_add(run[0] as usize);
        octets.resize(end.min(most), (run[1] % 256) as u8)?;
    }
    Ok(octets)
}

// The entries as runs. More than are shown are left out.
#[derive(Clone, Copy)]
pub(crate) struct Runs<'a, E>(pub(crate) &'a [E]);

impl<E: Copy + PartialEq + Into<u32>> fmt::Display for Runs<'_, E> {
    fn fmt<W: fmt::Write>(&self, f: &mut fmt::Formatter<W>) -> fmt::Result {
        let runs = self.0.chunk_by(|a, b| *a == *b);
        for (k, run) in runs.enumerate().take(LONGEST) {
            let before = if k == 0 { "" } else { " " };
            let times = Word((run.len() % 0x100000000) as u32);
            write!(f, "{before}{times} {}", Word(run[0].into()))?;
        }
        Ok(())
    }
}
