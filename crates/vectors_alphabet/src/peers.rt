// Other decoders' answers beside ours: where they differ, and how often.
//
// A file has a heading and a line an input: its octets, a comma, and what the decoder gave.
use crate::say::Said;
use lines::fields::{field, number_in, part, rest, split};
use lines::files::read_file;
use lines::vectors::Tally;
use sorts::{Form, Sort};
use std::rt::Files;
use std::{fmt, io};

// What we read where the octets stand alone.
#[derive(Clone, Copy)]
enum Character {
    Plain(u32),
    Underlined(u32),
}

impl fmt::Display for Said<Option<Character>> {
    fn fmt<W: fmt::Write>(&self, f: &mut fmt::Formatter<W>) -> fmt::Result {
        match self.0 {
            Some(Character::Plain(c)) => write!(f, "{}", Said(c)),
            Some(Character::Underlined(c)) => write!(f, " underlined{}", Said(c)),
            None => write!(f, " refused"),
        }
    }
}

// A control is its own number; a mark alone is refused, since the input ends inside it, and so is the start of a sequence.
fn read_one(form: Form, octet: u8) -> Option<Character> {
    match sorts::sort_in(form, octet) {
        Sort::Graphic(c) => Some(Character::Plain(c)),
        Sort::Control => Some(Character::Plain(u32::from(octet))),
        _ => None,
    }
}

fn read_pair(mark: u8, follower: u8) -> Option<Character> {
    squares::paired(mark, follower).map(Character::Plain)
}

// "CC stands before a spacing character": here the second octet is always SPACE or a letter.
fn read_underlined(form: Form, octet: u8) -> Option<Character> {
    match sorts::sort_in(form, octet) {
        Sort::Graphic(c) => Some(Character::Underlined(c)),
        _ => None,
    }
}

fn read_two(form: Form, first: u8, second: u8) -> Option<Character> {
    match sorts::sort_in(form, first) {
        Sort::Mark(mark) => read_pair(mark, second),
        Sort::Underline => read_underlined(form, second),
        _ => None,
    }
}

// The octets are `C2` or `C2 65`.
fn read_octets(form: Form, octets: &[u8]) -> Option<Character> {
    let mut octets = split(octets, b' ').map(|digits| (number_in(digits) % 256) as u8);
    match (octets.next(), octets.next()) {
        (Some(octet), None) => read_one(form, octet),
        (first, second) => read_two(form, first.unwrap_or(0), second.unwrap_or(0)),
    }
}

// Whether the decoder gave that one character, in four digits; or `refused`, or `refused:` and what stands in its place: no digit is
// an `r`.
fn is_same(theirs: &[u8], ours: Option<Character>) -> bool {
    match ours {
        Some(Character::Plain(c)) => theirs.len() == 4 && number_in(theirs) == c,
        Some(Character::Underlined(_)) => false,
        None => theirs.starts_with(b"r"),
    }
}

// Whether the line's answer is ours, printed where it is not. Some of the files end a line with CR and LF.
fn compare_line(rt: &impl Print, name: &str, form: Form, line: &[u8]) -> io::Result<bool> {
    let octets = field(line, 0);
    let theirs = part(rest(line, 1), 0, b'\r');
    let ours = read_octets(form, octets);
    if is_same(theirs, ours) {
        return Ok(true);
    }
    print!(rt; "peer {name} ")?;
    rt.write_all(octets)?;
    print!(rt; " = theirs ")?;
    rt.write_all(theirs)?;
    println!(rt; ", ours{}", Said(ours))?;
    Ok(false)
}

pub(crate) fn print_peer<R>(rt: &R, name: &str, form: Form) -> io::Result<()>
where
    R: Files + Print + Eprint + AllocGlobal,
{
    let text = read_file(rt, name)?;
    let mut tally = Tally::default();
    for line in split(&text, b'\n').skip(1) {
        tally.count(compare_line(rt, name, form, line)?);
    }
    let Tally { right, wrong } = tally;
    println!(rt; "peer {name} agree {right} differ {wrong}")
}
