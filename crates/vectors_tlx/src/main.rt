// Runs the vectors of data/ through `tlx`, and prints for each file how many there are, how many are answered wrong,
// and the first few of these in full. The vectors are made from a model of the documents, never from our code.
//
// A file has a heading and a line a vector, with commas between.
// Reading: the case, the room that is lent, the five numbers of the answer and the page beside them, and the words that it puts.
// One page: the case, the page's number, and the five numbers of its answer, or `.`, no such page.
// The header: the case, and its form and how many pages, or `!13`, a refusal's number.
// Writing: the form, the lengths, the page octets, the room, the four numbers of the answer, and the case that it puts.
// The number of an answer is in decimal, and everything else in hex. Lists of long cases are written as runs (`runs`).
// In an answer of ours `?` stands where an entry that should be left alone is not, within the room or past it.
#![tactic(auto)]

mod calls;
mod runs;

use calls::{MOST, answer_header, answer_page, answer_reading, answer_writing};
use lines::room::room;
use lines::vectors::run_file;
use std::io;

// What an answer has past so many octets is cut.
const LONGEST: usize = 8192;

fn main(rt: HostRuntime) -> io::Result<()> {
    let alloc = rt.alloc();
    // what stands in the rooms before a call
    let words = room::<u32>(alloc, MOST)?;
    let words = words.as_slice();
    let octets = room::<u8>(alloc, MOST)?;
    let octets = octets.as_slice();
    let read = |line: &[u8]| answer_reading(alloc, words, false, line);
    let page = |line: &[u8]| answer_page(alloc, false, line);
    let header = |line: &[u8]| answer_header(alloc, false, line);
    let write = |line: &[u8]| answer_writing(alloc, octets, false, line);
    run_file(&rt, "read_1.csv", LONGEST, read)?;
    run_file(&rt, "read_2.csv", LONGEST, read)?;
    run_file(&rt, "read_3.csv", LONGEST, read)?;
    run_file(&rt, "page_1.csv", LONGEST, page)?;
    run_file(&rt, "page_2.csv", LONGEST, page)?;
    run_file(&rt, "page_3.csv", LONGEST, page)?;
    run_file(&rt, "read_respelled.csv", LONGEST, read)?;
    run_file(&rt, "page_respelled.csv", LONGEST, page)?;
    run_file(&rt, "header.csv", LONGEST, header)?;
    run_file(&rt, "write_1.csv", LONGEST, write)?;
    run_file(&rt, "write_2.csv", LONGEST, write)?;
    run_file(&rt, "write_3.csv", LONGEST, write)?;
    run_file(&rt, "write_refused.csv", LONGEST, write)?;
    run_file(&rt, "long_read.csv", LONGEST, |line| {
        answer_reading(alloc, words, true, line)
    })?;
    run_file(&rt, "long_page.csv", LONGEST, |line| {
        answer_page(alloc, true, line)
    })?;
    run_file(&rt, "long_write.csv", LONGEST, |line| {
        answer_writing(alloc, octets, true, line)
    })
}
