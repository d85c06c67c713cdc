// Lists each stored case, as the program tlx_list lists the one on standard input.
// The cases and what is to be printed are made from a model of the documents, never from our code.
#![tactic(auto)]

use std::rt::Files;
use std::{fs, io};

const ACCEPTED: [&str; 4] = ["example", "no-pages", "256-empty-pages", "three-pages"];

// A fault in a page.
const PAGES_REFUSED: [&str; 9] = [
    "refused-1",
    "refused-2",
    "refused-3",
    "refused-4",
    "refused-5",
    "refused-6",
    "refused-7",
    "refused-8",
    "refused-on-page-2",
];

// A fault in the header or the table.
const CASES_REFUSED: [&str; 7] = [
    "refused-11",
    "refused-13-mark",
    "refused-13-short",
    "refused-13-empty",
    "refused-14",
    "refused-15-size",
    "refused-15-pages",
];

// The longest input, and one octet more.
const LONGEST: [&str; 2] = ["octets-65536", "octets-65537"];

// A file that cannot be opened is said to standard error, and the next one comes.
fn list_file<R: Files + Print + Eprint>(rt: &R, name: &str) -> io::Result<()> {
    println!(rt; "{name}")?;
    match fs::open(rt, name) {
        Ok(mut file) => listing::list_from(rt, &mut file),
        Err(error) => eprintln!(rt; "{name}: {error}"),
    }
}

fn list_files<R: Files + Print + Eprint>(rt: &R, names: &[&str]) -> io::Result<()> {
    for name in names {
        list_file(rt, name)?;
    }
    Ok(())
}

fn main(rt: HostRuntime) -> io::Result<()> {
    list_files(&rt, &ACCEPTED)?;
    list_files(&rt, &PAGES_REFUSED)?;
    list_files(&rt, &CASES_REFUSED)?;
    list_files(&rt, &LONGEST)
}
