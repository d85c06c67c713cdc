// An element left open, and the piece that goes on with it.
#![tactic(auto)]

ghost use Rattle.std.specs.Prelude.{◌≡◌, ◌++◌, ◌+◌, ◌<◌, length, drop};
ghost use Rattle.run.specs.Head.{refused};
ghost use Rattle.element_reading.specs.ElementHead.{head_in};
ghost use Rattle.open_elements.specs.OpenElements.{nothing_read};
ghost use Rattle.open_elements.specs.Steps.{Gathered, FrontOf, behind_one};
ghost use Rattle.open_elements.specs.Promises.{IsOpenPromise, GatherPromise, ReadOnPromise};

use element_reading::Step;
use run::Answer;
use sorts::Form;
use text_loops::Measured;

// Whether the octets that wait are none, or the beginning of an element.
#[tactic(auto, using(crate::proofs::Waiting::none_open, crate::proofs::Waiting::is_open_at))]
pub fn is_open(form: Form, waiting: &[u8]) -> bool
    ensures { IsOpenPromise form waiting.now result }
{
    if waiting.is_empty() {
        return true;
    }
    match element_reading::element_at(form, waiting, 0) {
        Step::Element(..) => false,
        Step::Refused { number, .. } => number == 4,
        Step::End => true,
    }
}

// The octets from a place on; none past their end.
fn octets_from(octets: &[u8], from: usize) -> &[u8]
    ensures { result.now ≡ drop from octets.now }
{
    &octets[from.min(octets.len())..]
}

// Copies octets as far as there is room; how many they are. Mostly there are none, and a copy of none would cost a call.
fn copy(octets: &[u8], into: &mut [u8]) -> usize
    ensures { Gathered octets.now 0 into.old result into.new }
{
    if octets.is_empty() {
        return 0;
    }
    let size = octets.len().min(into.len());
    into[..size].copy_from_slice(&octets[..size]);
    size
}

// Copies the octets that wait and then the piece, from a place of both on, as far as there is room; how many they are.
pub fn gather(waiting: &[u8], piece: &[u8], from: usize, into: &mut [u8]) -> usize
    ensures { GatherPromise waiting.now piece.now from into.old result into.new }
{
    let size = copy(octets_from(waiting, from), into);
    let rest = octets_from(piece, from.saturating_sub(waiting.len()));
    size + copy(rest, &mut into[size..])
}

// An answer behind one element of `next` octets; accepted, of `count` words.
fn behind_one(a: Answer, next: usize, count: usize) -> Answer
    requires element_fits { a.element + 1 < 0x10000000000000000 }
    requires places_fit { (a.place + next < 0x10000000000000000) × (a.count + next < 0x10000000000000000) }
    ensures { result ≡ behind_one a next count }
{
    Answer {
        number: a.number,
        element: a.element + 1,
        place: a.place + next,
        count: if a.number == 0 { count } else { a.count + next },
    }
}

// An answer where nothing was read.
fn nothing_read(answer: Answer) -> Measured
    ensures { result ≡ nothing_read answer }
{
    Measured {
        answer,
        words: 0,
        respelled: 0,
    }
}

// The octets that wait and the piece, read up to their end or first fault: the element that they open goes through an array of its own, the
// rest is read where it lies.
fn read_open(form: Form, waiting: &[u8], piece: &[u8], words: &mut [u32]) -> Measured
    requires { head_in form waiting.now ≡ refused 4 (length waiting.now) }
    ensures { FrontOf form (waiting.now ++ piece.now) words.old result words.new }
{
    let mut first = [0; 40];
    let size = gather(waiting, piece, 0, &mut first);
    let step = element_reading::element_at(form, &first[..size], 0);
    let Step::Element(e, next, canonical) = step else {
        return nothing_read(text_loops::step_answer(step, 0));
    };
    let at = next - waiting.len();
    let w = element_words::words_in(e);
    let rest = text_loops::read_front(form, &piece[at..], words, w, false);
    let count = w + rest.words;
    if count <= words.len() {
        element_words::put_words(e, words, 0);
    }
    Measured {
        answer: behind_one(rest.answer, next, count),
        words: count,
        respelled: canonical_tests::not_canonical(canonical) + rest.respelled,
    }
}

// The octets that wait and the piece, read as one text up to their end or first fault, and the words where they fit. Where no octet waits
// the piece is read where it lies; where those that wait are no open element, 11.
pub fn read_on(form: Form, waiting: &[u8], piece: &[u8], words: &mut [u32]) -> Measured
    ensures { ReadOnPromise form waiting.now piece.now words.old result words.new }
{
    if waiting.is_empty() {
        return text_loops::read_front(form, piece, words, 0, false);
    }
    if is_open(form, waiting) {
        return read_open(form, waiting, piece, words);
    }
    nothing_read(run::bare_answer(11))
}
