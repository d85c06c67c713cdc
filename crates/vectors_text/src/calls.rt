// The functions of `text`, called with a part of a larger room, and what they answer as text. Of that room they are given what stands in it
// before a call.
use element_reading::Step;
use lines::answer::{Canonical, Numbers, Place, Reading, Refusal, unasked, written};
use lines::fields::{field, nth_part, number_at, number_in, octet_list, size_at, word_list};
use lines::room::{Entry, Put, room};
use run::ReadAnswer;
use std::alloc::{AllocError, Global};

// The answer to a reading or a conversion that the program has no room for.
fn unread() -> ReadAnswer {
    run::reading_of(unasked(), 0)
}

// The five numbers, and what is put.
fn said<E: Entry>(alloc: Global, reading: ReadAnswer, room: &[E]) -> Result<String, AllocError> {
    let count = written(reading.answer);
    format!(in alloc; "{},{}", Reading(reading), Put { room, count })
}

// The text's answer, and the words that it puts.
pub(crate) fn answer_reading(
    alloc: Global,
    before: &[u32],
    line: &[u8],
) -> Result<String, AllocError> {
    let form = number_at(line, 0);
    let octets = octet_list(alloc, field(line, 1), 512)?;
    let mut words = Vec::from_slice(alloc, before)?;
    let reading = match words.as_mut_slice().get_mut(..size_at(line, 2)) {
        Some(lent) => text::read(form, &octets, lent),
        None => unread(),
    };
    said(alloc, reading, &words)
}

// One element's answer, and the words that it puts.
pub(crate) fn answer_one(alloc: Global, before: &[u32], line: &[u8]) -> Result<String, AllocError> {
    let form = number_at(line, 0);
    let octets = octet_list(alloc, field(line, 1), 512)?;
    let at = size_at(line, 2);
    let mut words = Vec::from_slice(alloc, before)?;
    let reading = match words.as_mut_slice().get_mut(..size_at(line, 3)) {
        Some(lent) => text::read_one(form, &octets, at, lent),
        None => unread(),
    };
    said(alloc, reading, &words)
}

// The words' answer, and the octets that it puts.
pub(crate) fn answer_writing(
    alloc: Global,
    before: &[u8],
    line: &[u8],
) -> Result<String, AllocError> {
    let form = number_at(line, 0);
    let words = word_list(alloc, field(line, 1), 512)?;
    let mut octets = Vec::from_slice(alloc, before)?;
    let answer = match octets.as_mut_slice().get_mut(..size_at(line, 2)) {
        Some(lent) => text::write(form, &words, lent),
        None => unasked(),
    };
    let count = written(answer);
    let room = octets.as_slice();
    format!(in alloc; "{},{}", Numbers(answer), Put { room, count })
}

// The conversion's answer, and the octets that it puts. The two forms stand as `1 3`.
pub(crate) fn answer_converting(
    alloc: Global,
    before: &[u8],
    line: &[u8],
) -> Result<String, AllocError> {
    let source = number_in(nth_part(field(line, 0), b' ', 0));
    let target = number_in(nth_part(field(line, 0), b' ', 1));
    let octets = octet_list(alloc, field(line, 1), 512)?;
    let mut converted = Vec::from_slice(alloc, before)?;
    let reading = match converted.as_mut_slice().get_mut(..size_at(line, 2)) {
        Some(lent) => text::convert(source, target, &octets, lent),
        None => unread(),
    };
    said(alloc, reading, &converted)
}

// What stands at the place of the text: the element's words, the place after it, and whether it was canonical.
pub(crate) fn answer_element(alloc: Global, line: &[u8]) -> Result<String, AllocError> {
    let octets = octet_list(alloc, field(line, 1), 512)?;
    match text::read_element(number_at(line, 0), &octets, size_at(line, 2)) {
        Step::Element(e, next, canonical) => {
            let mut words = room(alloc, 16)?;
            let count = element_words::put_words(e, &mut words, 0);
            let room = words.as_slice();
            let words = Put { room, count };
            format!(in alloc; "{words} > {} {}", Place(next), Canonical(canonical))
        }
        Step::Refused {
            number,
            place,
            count,
        } => {
            let refusal = Refusal {
                number,
                place,
                count,
            };
            refusal.to_string(alloc)
        }
        Step::End => String::from_str(alloc, "."),
    }
}
