// A text up to its end or its first fault: the loops that go through it.
#![tactic(auto)]

ghost use Rattle.std.specs.Prelude.{◌≡◌, ◌+◌, ◌≤◌, ◌<◌, length, drop, IfSome};
ghost use Rattle.run.specs.Answers.{written_of, RoomFor};
ghost use Rattle.run.specs.Put.{Put};
ghost use Rattle.squares.specs.Squares.{square_table};
ghost use Rattle.lent_tables.specs.CodeTables.{code_table};
ghost use Rattle.element_words.specs.Words.{words_of};
ghost use Rattle.text_loops.specs.RunsAndPairs.{spacing_words, pair_word};
ghost use Rattle.text_loops.specs.Fronts.{read_in, measured, is_wanted, ReadInto, short};
ghost use Rattle.text_loops.specs.LawWords.{CharacterStands};
ghost use Rattle.text_loops.specs.Promises.{StepAnswerPromise, MeasureFrontPromise, ReadFrontPromise};

use element_reading::Step;
use lent_tables::Reader;
use run::Answer;
use sorts::{Form, Sort};

// What was read of a text, up to its end or its first fault.
#[derive(Clone, Copy)]
pub struct Measured {
    // as with room enough; its place is how far it came
    pub answer: Answer,
    // how many words the elements up to there have
    pub words: usize,
    // how many of these elements did not stand in their canonical spelling
    pub respelled: usize,
}

// A text of fewer octets is read in one pass: a second one would cost more than the array that it is read into.
const SHORT: usize = 12;

// From here on no form has an octet for the character of a pair: the pair is its canonical spelling. Below stands what no pair spells, and
// the characters of ASCII, which are read as elements.
pub const PAIRS_FROM: u32 = 0x80;

// 01: "the text reader puts its own count there": a step's answer, after n elements.
pub fn step_answer(step: Step, n: usize) -> Answer
    ensures { StepAnswerPromise step n result }
{
    match step {
        Step::Element(e, next, _) => Answer {
            number: 0,
            element: n,
            place: next,
            count: element_words::words_in(e),
        },
        Step::Refused {
            number,
            place,
            count,
        } => Answer {
            number,
            element: n,
            place,
            count,
        },
        Step::End => Answer {
            number: 0,
            element: n,
            place: 0,
            count: 0,
        },
    }
}

// How many octets stand before the first that is no spacing character by itself.
fn run_within(reader: &Reader, octets: &[u8]) -> usize
    ensures inside { result ≤ length octets.now }
    ensures counted { result ≡ length (spacing_words (code_table reader.now) (length octets.now) octets.now) }
{
    for i in 0..octets.len() {
        if lent_tables::NO_CHARACTER <= reader.code(octets[i]) {
            return i;
        }
    }
    octets.len()
}

// The same of sixteen octets, or of what is left of the text: a loop of known length, so that the compiler unrolls it.
fn spacing_run(reader: &Reader, text: &[u8], at: usize) -> usize
    requires { at ≤ length text.now }
    ensures inside { at + result ≤ length text.now }
    ensures counted { result ≡ length (spacing_words (code_table reader.now) 16 (drop at text.now)) }
{
    let left = &text[at..];
    if left.len() < 16 {
        return run_within(reader, left);
    }
    run_within(reader, &left[..16])
}

// Writes what `run_within` counts: each octet's character, from `o` on.
fn put_within(reader: &Reader, octets: &[u8], words: &mut [u32], o: usize) -> usize
    requires { o + length (spacing_words (code_table reader.now) (length octets.now) octets.now) ≤ length words.old }
    ensures inside { result ≤ length octets.now }
    ensures counted { result ≡ length (spacing_words (code_table reader.now) (length octets.now) octets.now) }
    ensures put { Put words.old o (spacing_words (code_table reader.now) (length octets.now) octets.now) words.new (o + result) }
{
    for i in 0..octets.len() {
        let w = reader.code(octets[i]);
        if lent_tables::NO_CHARACTER <= w {
            return i;
        }
        words[o + i] = w;
    }
    octets.len()
}

// Writes what `spacing_run` counts.
fn put_run(reader: &Reader, text: &[u8], at: usize, words: &mut [u32], o: usize) -> usize
    requires inside { at ≤ length text.now }
    requires room { o + length (spacing_words (code_table reader.now) 16 (drop at text.now)) ≤ length words.old }
    ensures within { at + result ≤ length text.now }
    ensures counted { result ≡ length (spacing_words (code_table reader.now) 16 (drop at text.now)) }
    ensures put { Put words.old o (spacing_words (code_table reader.now) 16 (drop at text.now)) words.new (o + result) }
{
    let left = &text[at..];
    if left.len() < 16 {
        return put_within(reader, left, words, o);
    }
    put_within(reader, &left[..16], words, o)
}

// The character of the pair at a place, a mark and its listed follower: 0 where there is none.
fn pair_at(reader: &Reader, text: &[u8], at: usize) -> u32
    requires { at ≤ length text.now }
    ensures { result ≡ pair_word (code_table reader.now) square_table (drop at text.now) }
{
    if text.len() - at < 2 {
        return 0;
    }
    reader.pair(reader.code(text[at]), text[at + 1])
}

// The first pass of reading: how far it comes, as with room enough. Spacing characters go by the run and pairs by the reader's tables; what
// is neither is read as an element.
fn measure_by_tables(reader: &Reader, text: &[u8]) -> Measured
    ensures { result ≡ measured reader.now text.now }
{
    let mut at = 0;
    let mut n = 0;
    let mut count = 0;
    let mut respelled = 0;
    while at < text.len() {
        let k = spacing_run(reader, text, at);
        at += k;
        n += k;
        count += k;
        if k < 16 && at < text.len() {
            let x = pair_at(reader, text, at);
            if PAIRS_FROM <= x {
                at += 2;
                n += 1;
                count += 1;
            } else {
                let step = element_reading::element_at(reader.form(), text, at);
                let Step::Element(e, next, canonical) = step else {
                    return Measured {
                        answer: step_answer(step, n),
                        words: count,
                        respelled,
                    };
                };
                n += 1;
                count += element_words::words_in(e);
                respelled += canonical_tests::not_canonical(canonical);
                at = next;
            }
        }
    }
    Measured {
        answer: Answer {
            number: 0,
            element: n,
            place: at,
            count,
        },
        words: count,
        respelled,
    }
}

// The second pass of reading, where the text is accepted and there is room.
fn fill_by_tables(reader: &Reader, text: &[u8], words: &mut [u32])
    requires { RoomFor words_of (length words.old) (read_in reader.now text.now) }
    ensures { words.new ≡ written_of words_of words.old (read_in reader.now text.now) }
{
    let mut at = 0;
    let mut o = 0;
    while at < text.len() {
        let k = put_run(reader, text, at, words, o);
        at += k;
        o += k;
        if k < 16 && at < text.len() {
            let x = pair_at(reader, text, at);
            if x != 0 {
                words[o] = x;
                at += 2;
                o += 1;
            } else {
                let step = element_reading::element_at(reader.form(), text, at);
                let Step::Element(e, next, _) = step else {
                    return;
                };
                o = element_words::put_words(e, words, o);
                at = next;
            }
        }
    }
}

// A character that is an element, how many octets it has, and whether they are its canonical spelling.
#[derive(Clone, Copy)]
struct Character {
    code: u32,
    size: usize,
    canonical: bool,
}

// The character at a place, where it is known without the element's answer: by the reader's tables a spacing character or a pair that stands
// in its canonical spelling, and by its sort any other spacing character.
fn character_at(reader: &Reader, text: &[u8], at: usize) -> Option<Character>
    requires { at < length text.now }
    ensures { IfSome result (CharacterStands reader.now text.now at) }
{
    let octet = text[at];
    let code = reader.code(octet);
    if code < lent_tables::NO_CHARACTER {
        return Some(Character {
            code,
            size: 1,
            canonical: true,
        });
    }
    if code < lent_tables::NEITHER {
        let pair = pair_at(reader, text, at);
        if PAIRS_FROM <= pair {
            return Some(Character {
                code: pair,
                size: 2,
                canonical: true,
            });
        }
        return None;
    }
    let Sort::Graphic(spacing) = sorts::sort_in(reader.form(), octet) else {
        return None;
    };
    Some(Character {
        code: spacing,
        size: 1,
        canonical: canonical_tests::word_is_canonical(reader.form(), spacing, octet, 1),
    })
}

// Reads a text in one pass, into a buffer that has an entry for each octet: how far it comes, and the words up to there.
fn read_once(reader: &Reader, text: &[u8], into: &mut [u32]) -> Measured
    requires { length text.now ≤ length into.old }
    ensures { ReadInto reader.now text.now into.old result into.new }
{
    let mut at = 0;
    let mut elements = 0;
    let mut o = 0;
    let mut respelled = 0;
    while at < text.len() {
        if let Some(x) = character_at(reader, text, at) {
            into[o] = x.code;
            at += x.size;
            elements += 1;
            o += 1;
            respelled += canonical_tests::not_canonical(x.canonical);
        } else {
            let step = element_reading::element_at(reader.form(), text, at);
            let Step::Element(e, next, canonical) = step else {
                return Measured {
                    answer: step_answer(step, elements),
                    words: o,
                    respelled,
                };
            };
            o = element_words::put_words(e, into, o);
            at = next;
            elements += 1;
            respelled += canonical_tests::not_canonical(canonical);
        }
    }
    Measured {
        answer: Answer {
            number: 0,
            element: elements,
            place: at,
            count: o,
        },
        words: o,
        respelled,
    }
}

// How far a text is read, as with room enough, and how many words its elements up to there have.
pub fn measure_front(form: Form, text: &[u8]) -> Measured
    ensures { MeasureFrontPromise form text.now result }
{
    let reader = Reader::of_form(form);
    if text.len() < SHORT {
        let mut first = [0; SHORT];
        return read_once(&reader, text, &mut first);
    }
    measure_by_tables(&reader, text)
}

// Whether what was measured is asked for, and a buffer of `room` entries holds its words from `o` on.
fn is_wanted(m: Measured, room: usize, o: usize, whole: bool) -> bool
    ensures { result ≡ is_wanted m room o whole }
{
    o <= room && m.words <= room - o && (!whole || m.answer.number == 0)
}

// Copies words, from `o` on.
fn put_first(first: &[u32], words: &mut [u32], o: usize)
    requires { o + length first.now ≤ length words.old }
    ensures { Put words.old o first.now words.new (o + length first.now) }
{
    for i in 0..first.len() {
        words[o + i] = first[i];
    }
}

// Reads a short text: straight into the buffer, where that has room for a word of each octet and no whole text is wanted; else through an
// array of its own.
fn read_short(reader: &Reader, text: &[u8], words: &mut [u32], o: usize, whole: bool) -> Measured
    requires { length text.now ≤ short }
    ensures { ReadFrontPromise reader.now text.now words.old o whole result words.new }
{
    if !whole && o <= words.len() && text.len() <= words.len() - o {
        return read_once(reader, text, &mut words[o..]);
    }
    let mut first = [0; SHORT];
    let m = read_once(reader, text, &mut first);
    if is_wanted(m, words.len(), o, whole) {
        put_first(&first[..m.words], words, o);
    }
    m
}

// Reads a text in two passes by the tables of its form.
fn read_long(reader: &Reader, text: &[u8], words: &mut [u32], o: usize, whole: bool) -> Measured
    ensures { ReadFrontPromise reader.now text.now words.old o whole result words.new }
{
    let m = measure_by_tables(reader, text);
    if is_wanted(m, words.len(), o, whole) {
        fill_by_tables(reader, &text[..m.answer.place], &mut words[o..]);
    }
    m
}

// Reads a text up to its end or its first fault: how far it came, and the words up to there, from `o` on, where all of them fit. Where only
// a whole text is wanted, a refusal writes nothing.
pub fn read_front(form: Form, text: &[u8], words: &mut [u32], o: usize, whole: bool) -> Measured
    ensures { ReadFrontPromise form text.now words.old o whole result words.new }
{
    let reader = Reader::of_form(form);
    if text.len() < SHORT {
        return read_short(&reader, text, words, o, whole);
    }
    read_long(&reader, text, words, o, whole)
}
