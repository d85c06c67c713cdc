// Runs the vectors of data/ through `serial`, and prints for each file how many there are, how many are answered wrong,
// and the first few of these in full. The vectors are made from a model of the documents, never from our code.
//
// A file has a heading and a line a vector, with commas between: where a page starts, the calls, and the outcome of each. A page starts
// with the form that it is made fresh with, and then making fresh is the first outcome; or, in carry.csv and respelled.csv, with the
// fields of a carry. A call is its piece, the room that is lent, and 1 if the page ends; `;` stands between calls. An outcome is the five
// numbers of the answer and how many words were handed out; these words; and the carry that the call leaves, with `/` between the three and
// `;` behind. Its `held` goes up to the last entry that is not 0. The first number of an answer that is expected is in decimal, everything
// else in hex.
// In an outcome of ours `?` stands where an entry that should be left alone is not, within the room or past it.
#![tactic(auto)]

mod calls;

use calls::{answer_carried, answer_fresh};
use lines::room::room;
use lines::vectors::run_file;
use std::io;

const FRESH: [&str; 14] = [
    "cut_1.csv",
    "cut_2.csv",
    "cut_3.csv",
    "octet_1.csv",
    "octet_2.csv",
    "octet_3.csv",
    "fault_1.csv",
    "fault_2.csv",
    "fault_3.csv",
    "room_1.csv",
    "room_2.csv",
    "room_3.csv",
    "upper.csv",
    "form.csv",
];

// What an answer has past so many octets is cut.
const LONGEST: usize = 16384;

fn main(rt: HostRuntime) -> io::Result<()> {
    let alloc = rt.alloc();
    // what stands in the room before a call
    let words = room::<u32>(alloc, 256)?;
    let words = words.as_slice();
    for name in FRESH {
        run_file(&rt, name, LONGEST, |line| answer_fresh(alloc, words, line))?;
    }
    for name in ["carry.csv", "respelled.csv"] {
        run_file(
            &rt,
            name,
            LONGEST,
            |line| answer_carried(alloc, words, line),
        )?;
    }
    Ok(())
}
