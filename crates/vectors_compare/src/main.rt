// Runs the vectors of data/ through `compare`, and prints for each file how many there are, how many are answered wrong,
// and the first few of these in full. The vectors are made from a model of the documents, never from our code.
//
// A file has a heading and a line a vector, with commas between: the form, the two texts, the eleven numbers of the answer, and the octets
// of the part that is handed back. The first of the numbers is in decimal, everything else in hex.
#![tactic(auto)]

use lines::answer::{Numbers, Octets, Place};
use lines::fields::{field, number_at, octet_list};
use lines::vectors::run_file;
use std::alloc::{AllocError, Global};
use std::{fmt, io};

const FILES: [&str; 23] = [
    "respelt_1.csv",
    "respelt_2.csv",
    "respelt_3.csv",
    "changed_1.csv",
    "changed_2.csv",
    "changed_3.csv",
    "ends_1.csv",
    "ends_2.csv",
    "ends_3.csv",
    "near_1.csv",
    "near_2.csv",
    "near_3.csv",
    "refused_1.csv",
    "refused_2.csv",
    "refused_3.csv",
    "damaged_1.csv",
    "damaged_2.csv",
    "damaged_3.csv",
    "joined_1.csv",
    "joined_2.csv",
    "joined_3.csv",
    "upper.csv",
    "form.csv",
];

// What an answer has past so many octets is cut.
const LONGEST: usize = 1024;

// The eleven numbers.
#[derive(Clone, Copy)]
struct Compared(compare::Comparison);

impl fmt::Display for Compared {
    fn fmt<W: fmt::Write>(&self, f: &mut fmt::Formatter<W>) -> fmt::Result {
        let compare::Comparison {
            answer,
            text,
            same,
            first_place,
            second_place,
            otherwise,
            tail_text,
            tail_place,
        } = self.0;
        write!(f, "{} {} {} ", Numbers(answer), Place(text), Place(same))?;
        write!(f, "{} {} ", Place(first_place), Place(second_place))?;
        write!(
            f,
            "{} {} {}",
            Place(otherwise),
            Place(tail_text),
            Place(tail_place)
        )
    }
}

// The eleven numbers, and the octets of the part, which is of the one text or of the other.
fn answer(alloc: Global, line: &[u8]) -> Result<String, AllocError> {
    let form = number_at(line, 0);
    let first = octet_list(alloc, field(line, 1), 256)?;
    let second = octet_list(alloc, field(line, 2), 256)?;
    let numbers = Compared(compare::compared(form, &first, &second));
    let part = Octets(compare::compare(form, &first, &second));
    format!(in alloc; "{numbers},{part}")
}

fn main(rt: HostRuntime) -> io::Result<()> {
    let alloc = rt.alloc();
    for name in FILES {
        run_file(&rt, name, LONGEST, |line| answer(alloc, line))?;
    }
    Ok(())
}
