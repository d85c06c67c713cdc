// The functions of `serial`, called as a line says, with a part of a larger room, and what they answer as text. Of that room they are given
// what stands in it before a call.
use crate::LONGEST;
use lines::answer::{Numbers, Octets, Place, unasked};
use lines::fields::{field, nth_part, number_at, number_in, octet_list, octets_in, size_at, split};
use lines::room::Put;
use run::Answer;
use serial::{Carry, Fed};
use std::alloc::{AllocError, Global};
use std::fmt;

// Up to the last octet that is not 0.
fn before_zeros(held: &[u8; 39]) -> &[u8] {
    match held.iter().rposition(|octet| *octet != 0) {
        Some(last) => &held[..=last],
        None => &[],
    }
}

// The carry's numbers, and its `held` up to the last entry that is not 0.
#[derive(Clone, Copy)]
struct Carried(Carry);

impl fmt::Display for Carried {
    fn fmt<W: fmt::Write>(&self, f: &mut fmt::Formatter<W>) -> fmt::Result {
        let Carry {
            answer,
            respelled,
            holds,
            form,
            stopped,
            held,
        } = self.0;
        let form = Place(form as usize);
        let stopped = Place(stopped as usize);
        write!(f, "{} {} ", Numbers(answer), Place(respelled))?;
        write!(
            f,
            "{} {form} {stopped} {}",
            Place(holds),
            Octets(before_zeros(&held))
        )
    }
}

// The outcome of a call: the numbers, the words that it handed out, and the carry that it leaves.
#[derive(Clone, Copy)]
struct Outcome<'a> {
    fed: Fed,
    words: &'a [u32],
}

impl fmt::Display for Outcome<'_> {
    fn fmt<W: fmt::Write>(&self, f: &mut fmt::Formatter<W>) -> fmt::Result {
        let Fed {
            carry,
            answer,
            respelled,
            handed,
        } = self.fed;
        let words = Put {
            room: self.words,
            count: handed,
        };
        write!(f, "{} {} ", Numbers(answer), Place(respelled))?;
        write!(f, "{}/{words}/{};", Place(handed), Carried(carry))
    }
}

// The carry whose fields a line begins with.
fn carry_in(line: &[u8]) -> Carry {
    let mut held = [0; 39];
    octets_in(field(line, 0), &mut held);
    Carry {
        answer: Answer {
            number: size_at(line, 1),
            element: size_at(line, 2),
            place: size_at(line, 3),
            count: size_at(line, 4),
        },
        respelled: size_at(line, 5),
        holds: size_at(line, 6),
        form: number_at(line, 7),
        stopped: number_at(line, 8),
        held,
    }
}

// One call: piece, room, and whether the page ends. Its outcome is put, and the carry that it leaves is answered.
fn put_call(
    alloc: Global,
    before: &[u32],
    out: &mut String,
    carry: Carry,
    call: &[u8],
) -> Result<Carry, AllocError> {
    let piece = octet_list(alloc, nth_part(call, b' ', 0), 256)?;
    let size = number_in(nth_part(call, b' ', 1)) as usize;
    let ended = number_in(nth_part(call, b' ', 2)) != 0;
    let mut words = Vec::from_slice(alloc, before)?;
    let fed = match words.as_mut_slice().get_mut(..size) {
        Some(lent) => carry.feed(&piece, ended, lent),
        None => Fed {
            carry,
            answer: unasked(),
            respelled: 0,
            handed: 0,
        },
    };
    let words = words.as_slice();
    write!(out, "{}", Outcome { fed, words })?;
    Ok(fed.carry)
}

// The calls one after another, each on the carry that the one before it left. Once the answer is cut, none that is left shows.
fn put_calls(
    alloc: Global,
    before: &[u32],
    out: &mut String,
    mut carry: Carry,
    calls: &[u8],
) -> Result<(), AllocError> {
    for call in split(calls, b';') {
        if LONGEST <= out.len() {
            break;
        }
        carry = put_call(alloc, before, out, carry, call)?;
    }
    Ok(())
}

// From the form that the page is made fresh with: making fresh is the first outcome.
pub(crate) fn answer_fresh(
    alloc: Global,
    before: &[u32],
    line: &[u8],
) -> Result<String, AllocError> {
    let fed = Carry::fresh(number_at(line, 0));
    let mut out = format!(in alloc; "{}", Outcome { fed, words: &[] })?;
    put_calls(alloc, before, &mut out, fed.carry, field(line, 1))?;
    Ok(out)
}

// From the fields of a carry.
pub(crate) fn answer_carried(
    alloc: Global,
    before: &[u32],
    line: &[u8],
) -> Result<String, AllocError> {
    let mut out = String::new(alloc);
    put_calls(alloc, before, &mut out, carry_in(line), field(line, 9))?;
    Ok(out)
}
