// Runs the vectors of data/ through the crates of one element, and prints for each file how many there are, how many are answered wrong,
// and the first few of these in full. The vectors are made from a model of the documents, never from our code.
//
// A file has a heading and a line a vector: octets or words, a place, and the answer there, with commas between. An answer is
// `00E9 > 02`, an element's words and the place after it; `!03 00 01`, a refusal's number in decimal, place and count; or `.`,
// none is left. Where octets are read, 00 follows the place if they are the element's canonical spelling, and 01 if they are not.
// Where words are asked, the element's spelling in each form follows, `-` where the form does not hold it.
// In an answer of ours `?` stands after what is not put as it should be: in number, with room for just it, with too little room,
// or with the entries around it left alone.
#![tactic(auto)]

mod rooms;
mod spelt;
mod words;

use element_reading::Step;
use element_words::Meant;
use lines::answer::{Canonical, Place, Refusal};
use lines::fields::{field, octets_in, size_at, words_in};
use lines::room::fill;
use lines::vectors::run_file;
use sorts::Form;
use spelt::put_spelling;
use std::alloc::{AllocError, Global};
use std::io;
use words::put_element;

// What stands in the rooms before a call: more entries than any element has.
#[derive(Clone, Copy)]
struct Before<'a> {
    words: &'a [u32; 16],
    octets: &'a [u8; 64],
}

// What stands at the place of the octets.
fn answer_reading(
    alloc: Global,
    before: Before<'_>,
    form: Form,
    line: &[u8],
) -> Result<String, AllocError> {
    let mut octets = [0; 64];
    let n = octets_in(field(line, 0), &mut octets);
    let mut out = String::with_capacity(alloc, LONGEST)?;
    match element_reading::element_at(form, &octets[..n], size_at(line, 1)) {
        Step::Element(e, next, canonical) => {
            put_element(alloc, before.words, &mut out, e)?;
            write!(out, "> {} {}", Place(next), Canonical(canonical))?;
        }
        Step::Refused {
            number,
            place,
            count,
        } => {
            let refusal = Refusal {
                number,
                place,
                count,
            };
            write!(out, "{refusal}")?;
        }
        Step::End => write!(out, ".")?,
    }
    Ok(out)
}

// What the words at the place are, and its spelling in each form. 01: number 10 has the place of its first word, and no count.
fn answer_words(alloc: Global, before: Before<'_>, line: &[u8]) -> Result<String, AllocError> {
    let mut words = [0; 16];
    let n = words_in(field(line, 0), &mut words);
    let place = size_at(line, 1);
    let mut out = String::with_capacity(alloc, LONGEST)?;
    match element_words::element_of(&words[..n], place) {
        Meant::Element(e, next) => {
            put_element(alloc, before.words, &mut out, e)?;
            write!(out, "> {}", Place(next))?;
            for form in [Form::Eight, Form::Seven, Form::Basic] {
                put_spelling(before.octets, &mut out, form, e)?;
            }
        }
        Meant::NoElement => {
            let refusal = Refusal {
                number: 10,
                place,
                count: 0,
            };
            write!(out, "{refusal}")?;
        }
        Meant::End => write!(out, ".")?,
    }
    Ok(out)
}

// What an answer has past so many octets is cut.
const LONGEST: usize = 256;

const READ: [(&str, Form); 10] = [
    ("read_1.csv", Form::Eight),
    ("read_2.csv", Form::Seven),
    ("read_3.csv", Form::Basic),
    ("sequences.csv", Form::Basic),
    ("spelt_sequences.csv", Form::Basic),
    ("points.csv", Form::Basic),
    ("upper_points.csv", Form::Basic),
    ("mixed_points.csv", Form::Basic),
    ("upper_sequences.csv", Form::Basic),
    ("mixed_sequences.csv", Form::Basic),
];

fn main(rt: HostRuntime) -> io::Result<()> {
    let alloc = rt.alloc();
    let mut words = [0; 16];
    fill(&mut words);
    let mut octets = [0; 64];
    fill(&mut octets);
    let before = Before {
        words: &words,
        octets: &octets,
    };
    for (name, form) in READ {
        run_file(
            &rt,
            name,
            LONGEST,
            |line| answer_reading(alloc, before, form, line),
        )?;
    }
    for name in ["characters.csv", "words.csv"] {
        run_file(&rt, name, LONGEST, |line| answer_words(alloc, before, line))?;
    }
    Ok(())
}
