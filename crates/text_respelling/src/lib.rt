// A text respelt in a form: by runs of what the forms' tables read and spell, and between them element by element.
#![tactic(auto)]

ghost use Rattle.std.specs.Prelude.{◌≡◌, ◌*◌, ◌≤◌, ◌<◌, length, drop};
ghost use Rattle.run.specs.Head.{outcome};
ghost use Rattle.run.specs.Answers.{carrying, written_of, roomy_answer, RoomFor, same};
ghost use Rattle.run.specs.Loops.{Filled};
ghost use Rattle.run.specs.Speller.{spelt_by};
ghost use Rattle.squares.specs.Squares.{square_table};
ghost use Rattle.lent_tables.specs.CodeTables.{code_table};
ghost use Rattle.element_reading.specs.ElementHead.{head_in};
ghost use Rattle.element_spelling.specs.ElementOctets.{spell_element};
ghost use Rattle.text_loops.specs.Fronts.{respelled_before};
ghost use Rattle.text_reading.specs.ReadingNumbers.{limit};
ghost use Rattle.text_respelling.specs.Parts.{character_in, CountedRespelt, reading_first};
ghost use Rattle.text_respelling.specs.Promises.{RespellPromise};

use element_reading::Step;
use lent_tables::Reader;
use run::{Answer, ReadAnswer};
use sorts::Form;
use spelling_tables::Speller;
use text_writing::Gone;

// The character at a place, as the reader's tables read it, and how many octets it has.
#[derive(Clone, Copy)]
pub struct Character {
    pub code: u32,
    pub size: usize,
}

// How far a run of a text goes: what `Gone` says, and the elements that it passes.
#[derive(Clone, Copy)]
pub struct Counts {
    pub entries: usize,
    pub elements: usize,
    pub octets: usize,
}

// The character at a place: a spacing one by itself, or a mark's with its follower; none where such a pair may not be canonical. So what is
// found here stands in its canonical spelling.
fn character_at(reader: &Reader, text: &[u8], at: usize) -> Option<Character>
    requires { at < length text.now }
    ensures { result ≡ character_in (code_table reader.now) square_table (drop at text.now) }
{
    let code = reader.code(text[at]);
    if code < lent_tables::NO_CHARACTER {
        return Some(Character { code, size: 1 });
    }
    if text.len() - at < 2 {
        return None;
    }
    let paired = reader.pair(code, text[at + 1]);
    if paired < text_loops::PAIRS_FROM {
        return None;
    }
    Some(Character {
        code: paired,
        size: 2,
    })
}

// The characters below U+0180 that a text begins with, as far as the reader reads and the speller spells them, counted: each is canonical.
fn count_characters(reader: &Reader, speller: &Speller, text: &[u8]) -> Counts
    requires { length text.now ≤ limit }
    ensures inside { result.entries ≤ length text.now }
    ensures few { result.elements ≤ result.entries }
    ensures short { result.octets ≤ 34 * result.entries }
    ensures counted { CountedRespelt reader.now speller.now text.now result.entries result.elements result.octets 0 }
{
    let mut at = 0;
    let mut elements = 0;
    let mut octets = 0;
    while at < text.len() {
        let Some(x) = character_at(reader, text, at) else {
            break;
        };
        let size = spelling_tables::packed_size(speller.low(x.code));
        if size == 0 {
            break;
        }
        at += x.size;
        elements += 1;
        octets += size;
    }
    Counts {
        entries: at,
        elements,
        octets,
    }
}

// The same, written.
fn put_characters(reader: &Reader, speller: &Speller, text: &[u8], out: &mut [u8]) -> Gone
    requires { RoomFor same (length out.old) (outcome (spelt_by (spell_element speller.now) (head_in reader.now)) text.now) }
    ensures inside { result.entries ≤ length text.now }
    ensures within { result.octets ≤ length out.old }
    ensures filled { Filled (spelt_by (spell_element speller.now) (head_in reader.now)) same 34 text.now out.old result.entries result.octets out.new }
{
    let mut at = 0;
    let mut o = 0;
    while at < text.len() {
        let Some(x) = character_at(reader, text, at) else {
            break;
        };
        let p = speller.low(x.code);
        if p == 0 {
            break;
        }
        o = spelling_tables::put_packed(p, out, o);
        at += x.size;
    }
    Gone {
        entries: at,
        octets: o,
    }
}

// The first pass of converting, which reads and measures at once: the answer as with room enough, with its fifth number. What ends a run is
// a character above U+017F, or what no table reads and spells: only of the latter is it asked whether it is canonical in the source's form.
fn measure_convert(reader: &Reader, speller: &Speller, text: &[u8]) -> ReadAnswer
    requires { length text.now ≤ limit }
    ensures { result ≡ carrying (roomy_answer same (length text.now) (outcome (spelt_by (spell_element speller.now) (head_in reader.now)) text.now)) (respelled_before reader.now text.now) }
{
    let mut at = 0;
    let mut n = 0;
    let mut count = 0;
    let mut respelled = 0;
    while at < text.len() {
        let run = count_characters(reader, speller, &text[at..]);
        at += run.entries;
        n += run.elements;
        count += run.octets;
        if text.len() <= at {
            break;
        }
        if let Some(x) = character_at(reader, text, at) {
            let p = speller.packed(x.code);
            if p != 0 {
                at += x.size;
                n += 1;
                count += spelling_tables::packed_size(p);
                continue;
            }
        }
        let step = element_reading::element_at(reader.form(), text, at); // read, and counted, in the source's form
        let Step::Element(e, next, canonical) = step else {
            return run::reading_of(text_loops::step_answer(step, n), 0);
        };
        let size = element_spelling::spelt_size(speller.form(), e);
        if size == 0 {
            return run::reading_of(text_writing::not_held(n, at), 0);
        }
        at = next;
        n += 1;
        count += size;
        respelled += canonical_tests::not_canonical(canonical);
    }
    let answer = Answer {
        number: 0,
        element: n,
        place: at,
        count,
    };
    run::reading_of(answer, respelled)
}

// The second pass of converting, where the target holds each element and there is room.
fn fill_convert(reader: &Reader, speller: &Speller, text: &[u8], out: &mut [u8])
    requires { RoomFor same (length out.old) (outcome (spelt_by (spell_element speller.now) (head_in reader.now)) text.now) }
    ensures { out.new ≡ written_of same out.old (outcome (spelt_by (spell_element speller.now) (head_in reader.now)) text.now) }
{
    let mut at = 0;
    let mut o = 0;
    while at < text.len() {
        let run = put_characters(reader, speller, &text[at..], &mut out[o..]);
        at += run.entries;
        o += run.octets;
        if text.len() <= at {
            break;
        }
        if let Some(x) = character_at(reader, text, at) {
            let p = speller.packed(x.code);
            if p != 0 {
                o = spelling_tables::put_packed(p, out, o);
                at += x.size;
                continue;
            }
        }
        let Step::Element(e, next, _) = element_reading::element_at(reader.form(), text, at) else {
            return;
        };
        o = element_spelling::put_spelling(speller.form(), e, out, o);
        at = next;
    }
}

// Of a conversion that the first pass refused: the reading's refusal comes before 10. What follows the element that the target does not
// hold is read only here.
#[tactic(auto, using(crate::proofs::ReadingFirst::refused_first))]
fn reading_first(source: Form, text: &[u8], refused: Answer) -> Answer
    ensures { result ≡ reading_first source text.now refused }
{
    let read = text_loops::measure_front(source, text);
    if read.answer.number != 0 {
        return read.answer;
    }
    refused
}

// Converts a text from one form to another, or within one: measured first, and then filled in. 01's order of refusals: 12, reading, 10, 9.
// 02: an accepted conversion carries how many of its elements were "not canonical in the source form".
pub fn respell(source: Form, target: Form, text: &[u8], out: &mut [u8]) -> ReadAnswer
    ensures { RespellPromise source target text.now out.old result out.new }
{
    if text_reading::LIMIT < text.len() {
        return run::reading_of(run::bare_answer(12), 0);
    }
    let reader = Reader::of_form(source);
    let speller = Speller::of_form(target);
    let m = measure_convert(&reader, &speller, text);
    if m.answer.number != 0 {
        return run::reading_of(reading_first(source, text, m.answer), 0);
    }
    if out.len() < m.answer.count {
        return run::reading_of(run::short_room(m.answer.count), 0);
    }
    fill_convert(&reader, &speller, text, out);
    m
}
