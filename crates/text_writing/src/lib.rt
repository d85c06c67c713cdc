// Words written as a text: by runs of what the form's table spells, and between them element by element.
#![tactic(auto)]

ghost use Rattle.std.specs.Prelude.{◌≡◌, ◌*◌, ◌≤◌, length};
ghost use Rattle.run.specs.Head.{outcome};
ghost use Rattle.run.specs.Answers.{written_of, roomy_answer, RoomFor, same};
ghost use Rattle.run.specs.Loops.{Counted, Filled};
ghost use Rattle.element_spelling.specs.ElementOctets.{spell_head};
ghost use Rattle.text_reading.specs.ReadingNumbers.{limit};
ghost use Rattle.text_writing.specs.Promises.{NotHeldPromise, WriteInPromise};

use element_words::Meant;
use run::Answer;
use sorts::Form;
use spelling_tables::Speller;

// How far a run goes that tables spell: the entries that it passes, words or octets, and the octets that they are spelt with.
#[derive(Clone, Copy)]
pub struct Gone {
    pub entries: usize,
    pub octets: usize,
}

// 10, at the words or the element that the form does not hold, after n elements.
pub fn not_held(n: usize, at: usize) -> Answer
    ensures { NotHeldPromise n at result }
{
    Answer {
        number: 10,
        element: n,
        place: at,
        count: 0,
    }
}

// The characters below U+0180 that a list of words begins with, as far as the speller spells them, counted.
fn count_words(speller: &Speller, words: &[u32]) -> Gone
    requires { length words.now ≤ limit }
    ensures inside { result.entries ≤ length words.now }
    ensures short { result.octets ≤ 34 * result.entries }
    ensures counted { Counted (spell_head speller.now) same 34 words.now result.entries result.entries result.octets }
{
    let mut octets = 0;
    for i in 0..words.len() {
        let size = spelling_tables::packed_size(speller.low(words[i]));
        if size == 0 {
            return Gone { entries: i, octets };
        }
        octets += size;
    }
    Gone {
        entries: words.len(),
        octets,
    }
}

// The same, written.
fn put_words(speller: &Speller, words: &[u32], text: &mut [u8]) -> Gone
    requires { RoomFor same (length text.old) (outcome (spell_head speller.now) words.now) }
    ensures inside { result.entries ≤ length words.now }
    ensures within { result.octets ≤ length text.old }
    ensures filled { Filled (spell_head speller.now) same 34 words.now text.old result.entries result.octets text.new }
{
    let mut octets = 0;
    for i in 0..words.len() {
        let p = speller.low(words[i]);
        if p == 0 {
            return Gone { entries: i, octets };
        }
        octets = spelling_tables::put_packed(p, text, octets);
    }
    Gone {
        entries: words.len(),
        octets,
    }
}

// The first pass of writing: the answer as with room enough. What ends a run is a character above U+017F, or what no table spells.
fn measure_write(speller: &Speller, words: &[u32]) -> Answer
    requires { length words.now ≤ limit }
    ensures { result ≡ roomy_answer same (length words.now) (outcome (spell_head speller.now) words.now) }
{
    let mut at = 0;
    let mut n = 0;
    let mut count = 0;
    while at < words.len() {
        let run = count_words(speller, &words[at..]);
        at += run.entries;
        n += run.entries;
        count += run.octets;
        if at < words.len() {
            let p = speller.packed(words[at]);
            if p != 0 {
                at += 1;
                n += 1;
                count += spelling_tables::packed_size(p);
            } else {
                let Meant::Element(e, next) = element_words::element_of(words, at) else {
                    return not_held(n, at);
                };
                let size = element_spelling::spelt_size(speller.form(), e);
                if size == 0 {
                    return not_held(n, at);
                }
                at = next;
                n += 1;
                count += size;
            }
        }
    }
    Answer {
        number: 0,
        element: n,
        place: at,
        count,
    }
}

// The second pass of writing, where the words are accepted and there is room.
fn fill_write(speller: &Speller, words: &[u32], text: &mut [u8])
    requires { RoomFor same (length text.old) (outcome (spell_head speller.now) words.now) }
    ensures { text.new ≡ written_of same text.old (outcome (spell_head speller.now) words.now) }
{
    let mut at = 0;
    let mut o = 0;
    while at < words.len() {
        let run = put_words(speller, &words[at..], &mut text[o..]);
        at += run.entries;
        o += run.octets;
        if at < words.len() {
            let p = speller.packed(words[at]);
            if p != 0 {
                o = spelling_tables::put_packed(p, text, o);
                at += 1;
            } else {
                let Meant::Element(e, next) = element_words::element_of(words, at) else {
                    return;
                };
                o = element_spelling::put_spelling(speller.form(), e, text, o);
                at = next;
            }
        }
    }
}

// Writes a list of words in a form: measured first, and then filled in. 01's order of refusals: 12, 10, 9.
pub fn write_in(form: Form, words: &[u32], text: &mut [u8]) -> Answer
    ensures { WriteInPromise form words.now text.old result text.new }
{
    if text_reading::LIMIT < words.len() {
        return run::bare_answer(12);
    }
    let speller = Speller::of_form(form);
    let m = measure_write(&speller, words);
    if m.number != 0 {
        return m;
    }
    if text.len() < m.count {
        return run::short_room(m.count);
    }
    fill_write(&speller, words, text);
    m
}
