// The listing of a TLX case, as document 01 shows it: a line for the case and a line a page, or the one line of a refusal.
//
// What is printed comes from the proved functions of `tlx`; the printing itself is tested.
#![tactic(auto)]

use lines::files::read_full;
use std::io;
use std::io::Read;
use tlx::{CaseAnswer, Header};

// 01: "refused N page P element E place L count C in decimal".
fn say_refused(rt: &impl Print, refused: CaseAnswer) -> io::Result<()> {
    let CaseAnswer { answer, page, .. } = refused;
    println!(rt;
        "refused {} page {page} element {} place {} count {}",
        answer.number, answer.element, answer.place, answer.count
    )
}

fn say_page(rt: &impl Print, case: &[u8], page: usize) -> io::Result<()> {
    let Some(a) = tlx::page_elements(case, page) else {
        return Ok(());
    };
    let elements = a.answer.element;
    println!(rt; "page {page} elements {elements}")
}

fn say_pages(rt: &impl Print, case: &[u8]) -> io::Result<()> {
    let Ok(Header { form, pages }) = tlx::header_of(case) else {
        return Ok(());
    };
    println!(rt; "TLX {form} pages {pages}")?;
    for page in 0..pages {
        say_page(rt, case, page)?;
    }
    Ok(())
}

// The room is for the words of the largest case: `tlx` proves that no octet gives more than one, so 9 is never answered.
fn list_case(rt: &impl Print, case: &[u8]) -> io::Result<()> {
    let mut words = [0; 65536];
    let answer = tlx::read_case(case, &mut words);
    if answer.answer.number != 0 {
        return say_refused(rt, answer);
    }
    say_pages(rt, case)
}

// Lists the case that the reader has: 01, "at most 65,536 octets"; "longer input is the one line `too long`".
pub fn list_from<R: Read>(rt: &impl Print, reader: &mut R) -> io::Result<()> {
    // room for the longest input, and for one octet more
    let mut octets = [0; 65537];
    let n = read_full(reader, &mut octets)?;
    if 65536 < n {
        return println!(rt; "too long");
    }
    list_case(rt, &octets[..n])
}
