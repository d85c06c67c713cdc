// One element, spelt in a form.
#![tactic(auto)]

ghost use Rattle.std.specs.Prelude.{◌≡◌, ◌+◌, ◌≤◌, [], length, MatchOption};
ghost use Rattle.run.specs.Put.{Put, what_fits};
ghost use Rattle.spelling.specs.CanonicalSpelling.{octets_of};
ghost use Rattle.element_spelling.specs.ElementOctets.{spell_word, spell_sequence_words, SpeltAs};
ghost use Rattle.element_spelling.specs.ElementOctets.{word_spelling, is_underlined};
ghost use Rattle.element_spelling.specs.Promises.{SpeltSizePromise, PutSpellingPromise};

use element_words::Element;
use sequence_spelling::Sequence;
use sorts::{Form, Sort};
use spelling::Spelling;

// A control's word is below this one, as a control is one octet.
const PAST_CONTROLS: u32 = element_words::CONTROLS_FROM + 0x100;

// What a word is spelt as, but for the CC of an underlined one: a character, an underlined character, a control.
fn word_spelling(form: Form, w: u32) -> Option<Spelling>
    ensures { result ≡ word_spelling form w }
{
    if w < element_words::UNDERLINED_FROM {
        return spelling::spell_in(form, w);
    }
    if w < element_words::CONTROLS_FROM {
        if sorts::sort_in(form, sorts::CC) == Sort::Underline {
            return spelling::spell_in(form, w - element_words::UNDERLINED_FROM);
        }
        return None;
    }
    if w < PAST_CONTROLS {
        let o = (w - element_words::CONTROLS_FROM) as u8;
        if sorts::sort_in(form, o) == Sort::Control {
            return Some(Spelling::One(o));
        }
        return None;
    }
    None
}

// 01: "plus 2^24 if underlined".
fn is_underlined(w: u32) -> bool
    ensures { result ≡ is_underlined w }
{
    (element_words::UNDERLINED_FROM..element_words::CONTROLS_FROM).contains(&w)
}

fn octets_in(x: Spelling) -> usize
    ensures { result ≡ length (octets_of x) }
{
    match x {
        Spelling::One(_) => 1,
        Spelling::Shifted(_) => 2,
        Spelling::Pair(_, _) => 2,
        Spelling::ShiftedPair(_, _) => 3,
    }
}

// How many octets one word is spelt with; 01: "after CC if underlined".
fn word_size(form: Form, w: u32) -> usize
    ensures { result ≡ length (spell_word form w) }
{
    let Some(x) = word_spelling(form, w) else {
        return 0;
    };
    let n = octets_in(x);
    if is_underlined(w) {
        return n + 1;
    }
    n
}

fn put_octets(x: Spelling, out: &mut [u8], at: usize) -> usize
    requires { at + length (octets_of x) ≤ length out.old }
    ensures { Put out.old at (octets_of x) out.new result }
{
    match x {
        Spelling::One(o) => run::put(out, at, o),
        Spelling::Shifted(o) => {
            let i = run::put(out, at, sorts::SS2);
            run::put(out, i, o)
        }
        Spelling::Pair(m, l) => {
            let i = run::put(out, at, m);
            run::put(out, i, l)
        }
        Spelling::ShiftedPair(m, l) => {
            let i = run::put(out, at, sorts::SS2);
            let j = run::put(out, i, m);
            run::put(out, j, l)
        }
    }
}

// One word, where there is room for all of its octets.
fn put_word(form: Form, w: u32, out: &mut [u8], at: usize) -> usize
    ensures { Put out.old at (what_fits out.old at (spell_word form w)) out.new result }
{
    let Some(x) = word_spelling(form, w) else {
        return at;
    };
    let n = octets_in(x);
    if out.len() < at {
        return at;
    }
    let room = out.len() - at;
    if is_underlined(w) {
        if room < n + 1 {
            return at;
        }
        let i = run::put(out, at, sorts::CC);
        return put_octets(x, out, i);
    }
    if room < n {
        return at;
    }
    put_octets(x, out, at)
}

// The sequence of a head word and its values, where the form has sequences and they are one.
fn sequence_in(form: Form, head: u32, values: &[u32]) -> Option<Sequence<'_>>
    ensures { MatchOption result (spell_sequence_words form head values.now ≡ []) (SpeltAs form head values.now) }
{
    if sorts::sort_in(form, sorts::CSI) != Sort::SequenceStart
        || !element_words::is_sequence(head, values)
    {
        return None;
    }
    let middle = (head - element_words::SEQUENCES_FROM) / 0x10000;
    let last = head / 0x100 % 0x100;
    Some(Sequence {
        middle: middle as u8,
        last: last as u8,
        values,
    })
}

#[tactic(auto, unfolding(sequence_spelling::specs::SequenceOctets::size_of))]
fn sequence_words_size(form: Form, head: u32, values: &[u32]) -> usize
    ensures { result ≡ length (spell_sequence_words form head values.now) }
{
    match sequence_in(form, head, values) {
        Some(sequence) => sequence.size(),
        None => 0,
    }
}

#[tactic(auto, unfolding(sequence_spelling::specs::SequenceOctets::put_sequence))]
fn put_sequence_words(form: Form, head: u32, values: &[u32], out: &mut [u8], at: usize) -> usize
    ensures { Put out.old at
        (what_fits out.old at (spell_sequence_words form head values.now)) out.new result }
{
    match sequence_in(form, head, values) {
        Some(sequence) => sequence.put(out, at),
        None => at,
    }
}

// How many octets an element's words are spelt with in a form; 0 where they are no element that it holds.
#[tactic(auto, unfolding(crate::specs::ElementOctets::spell_element))]
pub fn spelt_size(form: Form, e: Element) -> usize
    ensures { SpeltSizePromise form e result }
{
    match e {
        Element::One(w) => word_size(form, w),
        Element::Sequence {
            head,
            count,
            values,
        } => { sequence_words_size(form, head, &values[..element_words::kept(count)]) }
    }
}

// Writes the spelling of an element's words at `at` and answers the place after it; where they are no element that the form holds or the
// room is short, it does nothing and answers `at`.
#[tactic(auto, unfolding(crate::specs::ElementOctets::spell_element))]
pub fn put_spelling(form: Form, e: Element, out: &mut [u8], at: usize) -> usize
    ensures { PutSpellingPromise form e out.old at result out.new }
{
    match e {
        Element::One(w) => put_word(form, w, out, at),
        Element::Sequence {
            head,
            count,
            values,
        } => { put_sequence_words(form, head, &values[..element_words::kept(count)], out, at) }
    }
}
