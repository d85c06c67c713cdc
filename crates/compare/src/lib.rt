// What changed between two texts of one form (document 02, No. 4).
#![tactic(auto)]

ghost use Rattle.std.specs.Prelude.{◌≡◌, ◌↔◌, ◌+◌, ◌≤◌, IsTrue, IsSomeAnd, length, take, drop};
ghost use Rattle.compare.specs.WhatChanged.{refused_by, differ_at};
ghost use Rattle.compare.specs.Comparing.{shared_of, told_by, compared_in};
ghost use Rattle.compare.specs.Walking.{Stands, SizeOf, ReadThrough, shared_here, shared_in};
ghost use Rattle.compare.specs.Promises.{ComparedPromise, ComparePromise};

use element_reading::Step;
use lent_tables::Reader;
use run::Answer;
use sorts::Form;

// What comparing two texts says.
#[repr(C)]
#[derive(Clone, Copy)]
pub struct Comparison {
    // compared: 0, and the element at which the meanings first differ, or the number of elements; refused: the four numbers of that text
    pub answer: Answer,
    // refused: which text it was, 1 or 2; else, and where the form is refused, 0
    pub text: usize,
    // 1 where both mean the same, else 0
    pub same: usize,
    // the octet place in each where the meanings first differ; where they do not, each text's length; 0 on a refusal
    pub first_place: usize,
    pub second_place: usize,
    // of texts that mean the same, the number of elements spelled otherwise
    pub otherwise: usize,
    // the part that is handed back: of text 1 or 2, from this place to its end
    pub tail_text: usize,
    pub tail_place: usize,
}

// How far two texts mean the same: so many elements, so many octets of each, so many elements spelled otherwise.
#[derive(Clone, Copy)]
pub struct Shared {
    pub elements: usize,
    pub first: usize,
    pub second: usize,
    pub otherwise: usize,
}

impl Shared {
    // No element at all.
    const NOTHING: Shared = Shared {
        elements: 0,
        first: 0,
        second: 0,
        otherwise: 0,
    };

    // One element that the same octets spell in both, so many.
    fn alike(size: usize) -> Shared
        ensures { result ≡ shared_of 1 size size 0 }
    {
        Shared {
            elements: 1,
            first: size,
            second: size,
            otherwise: 0,
        }
    }
}

// Whether so many octets, from a place of each text on, are the same.
fn same_octets(first: &[u8], i: usize, second: &[u8], j: usize, size: usize) -> bool
    requires { (i + size ≤ length first.now) × (j ≤ length second.now) }
    ensures { IsTrue result ↔ (take size (drop i first.now) ≡ take size (drop j second.now)) }
{
    size <= second.len() - j && first[i..i + size] == second[j..j + size]
}

// How many octets the element at a place has: one of a spacing character, two of a mark and its follower, by what the octet is by itself; any
// other is read.
fn size_at(reader: &Reader, text: &[u8], at: usize) -> Option<usize>
    requires { Stands reader.now (drop at text.now) }
    ensures { IsSomeAnd result (SizeOf reader.now (drop at text.now)) }
{
    let code = reader.code(text[at]);
    if code < lent_tables::NO_CHARACTER {
        return Some(1);
    }
    if code < lent_tables::NEITHER {
        return Some(2);
    }
    let Step::Element(_, next, _) = element_reading::element_at(reader.form(), text, at) else {
        return None;
    };
    Some(next - at)
}

// What both texts share at a place of each: one element, or nothing where the two that stand there differ. Of an element that the same
// octets spell in both only the size is asked for, and of a spacing character not even that.
fn shared_at(reader: &Reader, first: &[u8], i: usize, second: &[u8], j: usize) -> Option<Shared>
    requires { Stands reader.now (drop i first.now) × Stands reader.now (drop j second.now) }
    ensures { result ≡ shared_here reader.now (drop i first.now) (drop j second.now) }
{
    let octet = first[i];
    if octet == second[j] && reader.code(octet) < lent_tables::NO_CHARACTER {
        return Some(Shared::alike(1));
    }
    let size = size_at(reader, first, i)?;
    if same_octets(first, i, second, j, size) {
        return Some(Shared::alike(size));
    }
    let Step::Element(a, next, _) = element_reading::element_at(reader.form(), first, i) else {
        return None;
    };
    let Step::Element(b, after, _) = element_reading::element_at(reader.form(), second, j) else {
        return None;
    };
    if a != b {
        return None;
    }
    Some(Shared {
        elements: 1,
        first: next - i,
        second: after - j,
        otherwise: 1,
    })
}

// The walk over two accepted texts, up to where their meanings part or one of them ends.
fn walk(reader: &Reader, first: &[u8], second: &[u8]) -> Shared
    requires { ReadThrough reader.now first.now × ReadThrough reader.now second.now }
    ensures { result ≡ shared_in reader.now first.now second.now }
{
    let mut shared = Shared::NOTHING;
    while shared.first < first.len() && shared.second < second.len() {
        let Some(more) = shared_at(reader, first, shared.first, second, shared.second) else {
            break;
        };
        shared.elements += more.elements;
        shared.first += more.first;
        shared.second += more.second;
        shared.otherwise += more.otherwise;
    }
    shared
}

// What is said of two texts that differ behind what they share; the part that is handed back is of a text, from a place on.
fn differ_at(shared: Shared, text: usize, place: usize) -> Comparison
    ensures { result ≡ differ_at shared.elements shared.first shared.second text place }
{
    Comparison {
        answer: Answer {
            element: shared.elements,
            ..run::bare_answer(0)
        },
        text: 0,
        same: 0,
        first_place: shared.first,
        second_place: shared.second,
        otherwise: 0,
        tail_text: text,
        tail_place: place,
    }
}

// A text is refused, or the form: nothing is shared. 02: "on a refusal, it is the first's empty end".
fn refused_by(answer: Answer, text: usize, end: usize) -> Comparison
    ensures { result ≡ refused_by answer text end }
{
    Comparison {
        answer,
        text,
        ..differ_at(Shared::NOTHING, 1, end)
    }
}

// What two accepted texts of these lengths come to, by what they share. 02: "hand back the surplus tail of whichever text goes on .. if they
// differ before either ends, the first text's part": wherever the first goes on, it is the first's.
fn told(shared: Shared, first: usize, second: usize) -> Comparison
    ensures { result ≡ told_by shared first second }
{
    if shared.first < first {
        return differ_at(shared, 1, shared.first);
    }
    if shared.second < second {
        return differ_at(shared, 2, shared.second);
    }
    Comparison {
        same: 1,
        otherwise: shared.otherwise,
        ..differ_at(shared, 1, shared.first)
    }
}

// Two texts within the limit: both are read through, and then walked over together. 02: "the first text's reading refusal, then the
// second's".
fn compared_in(form: Form, first: &[u8], second: &[u8]) -> Comparison
    ensures { result ≡ compared_in form first.now second.now }
{
    let a = text_loops::measure_front(form, first).answer;
    if a.number != 0 {
        return refused_by(a, 1, first.len());
    }
    let b = text_loops::measure_front(form, second).answer;
    if b.number != 0 {
        return refused_by(b, 2, first.len());
    }
    let shared = walk(&Reader::of_form(form), first, second);
    told(shared, first.len(), second.len())
}

// What changed between two texts of one form, in numbers. In order: 11, 12 of the first, 12 of the second, the first's reading refusal,
// the second's.
pub fn compared(form: u32, first: &[u8], second: &[u8]) -> Comparison
    ensures { ComparedPromise form first.now second.now result }
{
    let Ok(f) = Form::try_from(form) else {
        return refused_by(run::bare_answer(11), 0, first.len());
    };
    if text_reading::LIMIT < first.len() {
        return refused_by(run::bare_answer(12), 1, first.len());
    }
    if text_reading::LIMIT < second.len() {
        return refused_by(run::bare_answer(12), 2, first.len());
    }
    compared_in(f, first, second)
}

// What changed between two texts of one form, as a part of one of them. 02: "the surplus tail of whichever text goes on"; "If both mean the
// same, or on a refusal, it is the first's empty end; if they differ before either ends, the first text's part from the differing element."
pub fn compare<'a>(form: u32, first: &'a [u8], second: &'a [u8]) -> &'a [u8]
    ensures { ComparePromise form first.entry second.entry result.now result.ref_ptr }
{
    let c = compared(form, first, second);
    let at = c.tail_place;
    if c.tail_text == 2 {
        return &second[at..];
    }
    &first[at..]
}
