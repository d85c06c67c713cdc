// Whole texts that the GNU C library decoded, beside what `text` reads. They may differ as docs/PEERS.md lists it, and not otherwise.
//
// A file has a heading and a line a text, in hex: its octets, the code points that the C library gave, and how many octets it took,
// which are fewer than there are where it refused the code that comes next.
use lines::fields::{field, octet_list, size_at, split, word_list};
use lines::files::read_file;
use std::alloc::{AllocError, Global};
use std::io;
use std::rt::Files;

// The later ones are worse.
#[derive(Clone, Copy, PartialEq, Eq, PartialOrd, Ord)]
enum Verdict {
    // word for word
    Same,
    // but for characters that are listed
    Listed,
    // up to a code that is listed as refused by the C library
    Stopped,
    Otherwise,
}

// The word of what the C library gave: its code point, or a control's word.
fn word_of(theirs: u32) -> u32 {
    match theirs {
        0x00..=0x1F => 0x2000000 + theirs,
        0x7F..=0x9F => 0x2000000 + theirs,
        _ => theirs,
    }
}

// A character that the C library reads otherwise: E2 as Eth, and D0 as the em dash.
fn is_listed(form: u32, ours: u32, theirs: u32) -> bool {
    match ours {
        0x0110 => theirs == 0x00D0,
        0x2015 => form == 1 && theirs == 0x2014,
        _ => false,
    }
}

// A code that it refuses: form 3's 23 and 24, the grave, the circumflex and the tilde before SPACE, and the acute before g.
fn is_refused(form: u32, first: u8, second: u8) -> bool {
    match first {
        0x23..=0x24 => form == 3,
        0xC1 => second == b' ',
        0xC2 => second == b'g',
        0xC3..=0xC4 => second == b' ',
        _ => false,
    }
}

fn compare_word(form: u32, ours: u32, theirs: u32) -> Verdict {
    if ours == word_of(theirs) {
        Verdict::Same
    } else if is_listed(form, ours, theirs) {
        Verdict::Listed
    } else {
        Verdict::Otherwise
    }
}

fn compare_words(form: u32, ours: &[u32], theirs: &[u32]) -> Verdict {
    if ours.len() != theirs.len() {
        return Verdict::Otherwise;
    }
    let verdicts = ours
        .iter()
        .zip(theirs)
        .map(|(ours, theirs)| compare_word(form, *ours, *theirs));
    verdicts.max().unwrap_or(Verdict::Same)
}

fn compare_reading(form: u32, octets: &[u8], theirs: &[u32]) -> Verdict {
    let mut words = [0; 256];
    let answer = text::read(form, octets, &mut words).answer;
    match words.get(..answer.count) {
        Some(ours) if answer.number == 0 => compare_words(form, ours, theirs),
        _ => Verdict::Otherwise,
    }
}

fn is_accepted(form: u32, octets: &[u8]) -> bool {
    let mut words = [0; 256];
    text::read(form, octets, &mut words).answer.number == 0
}

// The C library refused what the rest begins with: that has to be listed, and we have to accept all of the octets.
fn compare_stopped(form: u32, octets: &[u8], rest: &[u8], before: Verdict) -> Verdict {
    let first = rest.first().copied().unwrap_or(0);
    let second = rest.get(1).copied().unwrap_or(0);
    if before != Verdict::Otherwise
        && is_refused(form, first, second)
        && is_accepted(form, octets)
    {
        Verdict::Stopped
    } else {
        Verdict::Otherwise
    }
}

fn compare_taken(form: u32, octets: &[u8], taken: usize, theirs: &[u32]) -> Verdict {
    let Some((read, rest)) = octets.split_at_checked(taken) else {
        return Verdict::Otherwise;
    };
    let verdict = compare_reading(form, read, theirs);
    if rest.is_empty() {
        return verdict;
    }
    compare_stopped(form, octets, rest, verdict)
}

fn compare_line(alloc: Global, form: u32, line: &[u8]) -> Result<Verdict, AllocError> {
    let octets = octet_list(alloc, field(line, 0), 256)?;
    let theirs = word_list(alloc, field(line, 1), 256)?;
    Ok(compare_taken(form, &octets, size_at(line, 2), &theirs))
}

pub(crate) fn compare_file<R>(rt: &R, name: &str, form: u32) -> io::Result<()>
where
    R: Files + Print + Eprint + AllocGlobal,
{
    let text = read_file(rt, name)?;
    // how many texts of each verdict
    let mut counts = [0usize; 4];
    for line in split(&text, b'\n').skip(1) {
        let verdict = compare_line(rt.alloc(), form, line)?;
        if verdict == Verdict::Otherwise {
            print!(rt; "{name}: otherwise: ")?;
            rt.write_all(line)?;
            println!(rt; "")?;
        }
        // No file has so many texts that a count wraps.
        let count = &mut counts[verdict as usize];
        *count = count.wrapping_add(1);
    }
    let [same, listed, stopped, otherwise] = counts;
    let texts = split(&text, b'\n').skip(1).count();
    print!(rt; "{name}: {texts} texts, {same} the same, {listed} but for listed characters, ")?;
    println!(rt; "{stopped} up to a code listed as refused, {otherwise} otherwise")
}
