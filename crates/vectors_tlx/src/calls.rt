// The functions of `tlx`, called with a part of a larger room, and what they answer as text. Of that room they are given what stands in it
// before a call. The lists of a long case are runs.
ghost use Rattle.std.specs.Prelude.{◌≤◌, vec_len, IfOk};

use crate::LONGEST;
use crate::runs::{Runs, octets_in_runs};
use lines::answer::{Number, Numbers, Place, Reading, unasked, written};
use lines::fields::{field, number_at, octet_list, size_at, words_in};
use lines::room::{Entry, Put, keeps};
use std::alloc::{AllocError, Global};
use tlx::{CaseAnswer, Header};

// More octets than any case has, and room for more entries than any call puts.
pub(crate) const MOST: usize = 70000;

// The octets of a list.
fn octets_of(alloc: Global, is_long: bool, text: &[u8]) -> Result<Vec<u8>, AllocError>
    ensures { IfOk result (λ v. vec_len v ≤ 70000) }
{
    if is_long {
        octets_in_runs(alloc, text, MOST)
    } else {
        octet_list(alloc, text, MOST)
    }
}

// The first `count` entries; then `?` where there are fewer, or where one after them is not as it was before the call. Of a list that is cut
// what is cut anyhow is left out.
fn put_text<E: Entry + Into<u32>>(
    out: &mut String,
    is_long: bool,
    room: &[E],
    count: usize,
) -> Result<(), AllocError> {
    match room.get(..count) {
        Some(entries) if is_long => {
            let mark = if keeps(room, count) { "" } else { "?" };
            write!(out, "{}{mark}", Runs(entries))
        }
        Some(_) => {
            let count = count.min(LONGEST);
            write!(out, "{}", Put { room, count })
        }
        None => write!(out, "?"),
    }
}

// The case's answer: five numbers, and the page; and the words that it puts.
pub(crate) fn answer_reading(
    alloc: Global,
    before: &[u32],
    is_long: bool,
    line: &[u8],
) -> Result<String, AllocError> {
    let case = octets_of(alloc, is_long, field(line, 0))?;
    let mut words = Vec::from_slice(alloc, before)?;
    let answered = match words.as_mut_slice().get_mut(..size_at(line, 1)) {
        Some(lent) => tlx::read_case(&case, lent),
        None => CaseAnswer {
            answer: unasked(),
            respelled: 0,
            page: 0,
        },
    };
    let CaseAnswer {
        answer,
        respelled,
        page,
    } = answered;
    let mut out = format!(in alloc; "{} {} {},", Numbers(answer), Place(respelled), Place(page))?;
    put_text(&mut out, is_long, &words, written(answer))?;
    Ok(out)
}

// The page's answer.
pub(crate) fn answer_page(alloc: Global, is_long: bool, line: &[u8]) -> Result<String, AllocError> {
    let case = octets_of(alloc, is_long, field(line, 0))?;
    match tlx::page_elements(&case, size_at(line, 1)) {
        Some(answer) => format!(in alloc; "{}", Reading(answer)),
        None => String::from_str(alloc, "."),
    }
}

// What header and table say.
pub(crate) fn answer_header(
    alloc: Global,
    is_long: bool,
    line: &[u8],
) -> Result<String, AllocError> {
    let case = octets_of(alloc, is_long, field(line, 0))?;
    match tlx::header_of(&case) {
        Err(fault) => format!(in alloc; "!{}", Number(fault.number())),
        Ok(Header { form, pages }) => {
            format!(in alloc; "{} {}", Place(form as usize), Place(pages))
        }
    }
}

// The answer of the parts, and the case that it puts.
pub(crate) fn answer_writing(
    alloc: Global,
    before: &[u8],
    is_long: bool,
    line: &[u8],
) -> Result<String, AllocError> {
    let form = number_at(line, 0);
    let mut lengths = [0; 320];
    let n = words_in(field(line, 1), &mut lengths);
    let octets = octets_of(alloc, is_long, field(line, 2))?;
    let mut case = Vec::from_slice(alloc, before)?;
    let answer = match case.as_mut_slice().get_mut(..size_at(line, 3)) {
        Some(lent) => tlx::write_case(form, &lengths[..n], &octets, lent),
        None => unasked(),
    };
    let mut out = format!(in alloc; "{},", Numbers(answer))?;
    put_text(&mut out, is_long, &case, written(answer))?;
    Ok(out)
}
