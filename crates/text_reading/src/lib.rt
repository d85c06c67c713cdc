// A whole text: measured, and read; one element of it.
#![tactic(auto)]

ghost use Rattle.text_reading.specs.Promises.{MeasurePromise, ReadPromise, ReadElementPromise, ReadOnePromise};

use element_reading::Step;
use run::{Answer, ReadAnswer};
use sorts::Form;

// 12: "input over 1,048,576 entries".
pub const LIMIT: usize = 1048576;

// What a whole text comes to, read with room enough: 11, 12, reading, or its elements and how many words they are. As many words as the text
// has octets are room enough.
pub fn measure(form: u32, text: &[u8]) -> ReadAnswer
    ensures { MeasurePromise form text.now result }
{
    let Ok(f) = Form::try_from(form) else {
        return run::reading_of(run::bare_answer(11), 0);
    };
    if LIMIT < text.len() {
        return run::reading_of(run::bare_answer(12), 0);
    }
    let m = text_loops::measure_front(f, text);
    run::reading_of(m.answer, m.respelled)
}

// Reads a whole text. 01's order of refusals: 11, 12, reading, 9.
pub fn read(form: u32, text: &[u8], words: &mut [u32]) -> ReadAnswer
    ensures { ReadPromise form text.now words.old result words.new }
{
    let Ok(f) = Form::try_from(form) else {
        return run::reading_of(run::bare_answer(11), 0);
    };
    if LIMIT < text.len() {
        return run::reading_of(run::bare_answer(12), 0);
    }
    let m = text_loops::read_front(f, text, words, 0, true);
    if m.answer.number != 0 {
        return run::reading_of(m.answer, 0);
    }
    if words.len() < m.words {
        return run::reading_of(run::short_room(m.words), 0);
    }
    run::reading_of(m.answer, m.respelled)
}

// Reads one element. In order: 11, 12, none left, then the element or its refusal.
pub fn read_element(form: u32, text: &[u8], at: usize) -> Step
    ensures { ReadElementPromise form text.now at result }
{
    let Ok(f) = Form::try_from(form) else {
        return Step::Refused {
            number: 11,
            place: 0,
            count: 0,
        };
    };
    if LIMIT < text.len() {
        return Step::Refused {
            number: 12,
            place: 0,
            count: 0,
        };
    }
    element_reading::element_at(f, text, at)
}

// Reads one element into the words lent: 0, 1, the place after it, its words, and whether it was respelled; 0 in all where none is left. In
// order: 11, 12, its refusal, 9.
pub fn read_one(form: u32, text: &[u8], at: usize, words: &mut [u32]) -> ReadAnswer
    ensures { ReadOnePromise form text.now at words.old result words.new }
{
    let step = read_element(form, text, at);
    let Step::Element(e, next, canonical) = step else {
        return run::reading_of(text_loops::step_answer(step, 0), 0);
    };
    let size = element_words::words_in(e);
    if words.len() < size {
        return run::reading_of(run::short_room(size), 0);
    }
    element_words::put_words(e, words, 0);
    let answer = Answer {
        number: 0,
        element: 1,
        place: next,
        count: size,
    };
    run::reading_of(answer, canonical_tests::not_canonical(canonical))
}
