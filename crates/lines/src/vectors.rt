// The vectors of a file, run line after line: a heading, then a line each, with the answer expected from the heading's field
// `answer` on.
ghost use Rattle.std.specs.Prelude.{◌≡◌, ◌+◌, ◌%◌, ◌^◌};
ghost use Rattle.std.specs.Bool.{OnFalse, OnTrue};

use crate::fields::{rest, split};
use crate::files::read_file;
use std::alloc::AllocError;
use std::io;
use std::rt::Files;

// How many lines were answered right and wrong. No file has so many lines that a count wraps.
#[derive(Clone, Copy, Default)]
pub struct Tally {
    pub right: usize,
    pub wrong: usize,
}

impl Tally {
    pub fn count(&mut self, is_right: bool)
        ensures right { OnTrue is_right (self.new ≡ record self.old { right = (self.old.right + 1) % 2 ^ 64 }) }
        ensures wrong { OnFalse is_right (self.new ≡ record self.old { wrong = (self.old.wrong + 1) % 2 ^ 64 }) }
    {
        if is_right {
            self.right = self.right.wrapping_add(1);
        } else {
            self.wrong = self.wrong.wrapping_add(1);
        }
    }
}

// Which field of the heading is `answer`.
fn answer_in(heading: &[u8]) -> usize {
    split(heading, b',')
        .position(|field| field == b"answer".as_slice())
        .unwrap_or(heading.len())
}

fn say_wrong(rt: &impl Print, line: &[u8], ours: &[u8]) -> io::Result<()> {
    rt.write_all(line)?;
    print!(rt; "; ours ")?;
    rt.write_all(ours)?;
    println!(rt; "")
}

// Runs the vectors of the file, and prints how many there are and how many are answered wrong. The first ten of these are shown.
// What an answer has past `longest` octets is cut.
pub fn run_file<R, F>(rt: &R, name: &str, longest: usize, answer: F) -> io::Result<()>
where
    R: Files + Print + Eprint + AllocGlobal,
    F: Fn(&[u8]) -> Result<String, AllocError>,
    requires { F.IsAlwaysCallable answer }
{
    let text = read_file(rt, name)?;
    let mut lines = split(&text, b'\n');
    let answer_at = answer_in(lines.next().unwrap_or_default());
    let mut tally = Tally::default();
    for line in lines {
        let text = answer(line)?;
        let ours = text.as_bytes().get(..longest).unwrap_or(text.as_bytes());
        let is_right = ours == rest(line, answer_at);
        if !is_right && tally.wrong < 10 {
            say_wrong(rt, line, ours)?;
        }
        tally.count(is_right);
    }
    let vectors = tally.right.wrapping_add(tally.wrong);
    let wrong = tally.wrong;
    println!(rt; "{name}: {vectors} vectors, {wrong} wrong")
}
