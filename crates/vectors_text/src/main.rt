// Runs the vectors of data/ through `text`, and prints for each file how many there are, how many are answered wrong,
// and the first few of these in full. The vectors are made from a model of the documents, never from our code.
//
// A file has a heading and a line a vector, with commas between: the form, octets or words, the room that is lent, the numbers of the
// answer (the first in decimal), and the entries that it puts. The numbers are four where words are written, and five of a reading or a
// conversion. A conversion has two forms, with a space between. Where one element is read into words, its place goes before the room. Where
// one is read by itself, its place stands for the room, and its answer is `00E9 > 02 00`, its words, the place after it, and 01 if it was
// not canonical; `!03 00 01`, a refusal's number in decimal, place and count; or `.`, none is left. Everything else is in hex.
// In an answer of ours `?` stands where an entry that should be left alone is not, within the room or past it.
//
// Two files have texts that the GNU C library decoded, with what it gave (`peers`): their answers are compared with ours up to the
// differences that docs/PEERS.md lists.
#![tactic(auto)]

mod calls;
mod peers;

use calls::{answer_converting, answer_element, answer_one, answer_reading, answer_writing};
use lines::room::room;
use lines::vectors::run_file;
use peers::compare_file;
use std::io;

const CONVERTED: [&str; 6] = [
    "convert_1.csv",
    "convert_2.csv",
    "convert_3.csv",
    "respelled_1.csv",
    "respelled_2.csv",
    "respelled_3.csv",
];

// What an answer has past so many octets is cut.
const LONGEST: usize = 8192;

fn main(rt: HostRuntime) -> io::Result<()> {
    let alloc = rt.alloc();
    // what stands in the rooms before a call
    let words = room::<u32>(alloc, 512)?;
    let words = words.as_slice();
    let octets = room::<u8>(alloc, 1024)?;
    let octets = octets.as_slice();
    for name in ["read_1.csv", "read_2.csv", "read_3.csv"] {
        run_file(
            &rt,
            name,
            LONGEST,
            |line| answer_reading(alloc, words, line),
        )?;
    }
    for name in ["write_1.csv", "write_2.csv", "write_3.csv"] {
        run_file(
            &rt,
            name,
            LONGEST,
            |line| answer_writing(alloc, octets, line),
        )?;
    }
    for name in CONVERTED {
        run_file(
            &rt,
            name,
            LONGEST,
            |line| answer_converting(alloc, octets, line),
        )?;
    }
    run_file(&rt, "element.csv", LONGEST, |line| {
        answer_element(alloc, line)
    })?;
    run_file(
        &rt,
        "into.csv",
        LONGEST,
        |line| answer_one(alloc, words, line),
    )?;
    compare_file(&rt, "glibc_1.csv", 1)?;
    compare_file(&rt, "glibc_3.csv", 3)
}
