// One element, read at a place of a text in a form.
#![tactic(auto)]

ghost use Rattle.std.specs.Prelude.{◌≡◌, ℕ, ◌+◌, ◌-◌, ◌*◌, ◌≤◌, ◌<◌, length, drop};
ghost use Rattle.sorts.specs.declared.Sort.TheVariants.{Graphic};
ghost use Rattle.sequence_reading.specs.SequenceHead.{sequence_head};
ghost use Rattle.element_words.specs.Words.{sequences_from, graphic_word};
ghost use Rattle.element_reading.specs.declared.Step.TheVariants.{Refused as Stopped};
ghost use Rattle.element_reading.specs.ElementHead.{high_or, follower_head, second_head, as_element};
ghost use Rattle.element_reading.specs.StepTests.{step_by};
ghost use Rattle.element_reading.specs.Promises.{ElementAtPromise};

use element_words::Element;
use sequence_reading::Reading;
use sorts::{Form, Sort};

// What stands at a place.
#[derive(Clone, Copy)]
pub enum Step {
    // the element, the place after it, and whether it stood in its form's canonical spelling
    Element(Element, usize, bool),
    // why it is refused, the place of its first entry, and the deciding octet's
    Refused {
        number: usize,
        place: usize,
        count: usize,
    },
    // none is left
    End,
}

// 01: "Graphic: its code point, plus 2^24 if underlined."
fn graphic_word(under: bool, c: u32) -> u32
    requires { c < 0x10000 }
    ensures { result ≡ graphic_word under c }
{
    if under {
        element_words::UNDERLINED_FROM + c
    } else {
        c
    }
}

// The element at `place` is refused with a number; `count` is the deciding octet's place.
fn refused_at(number: usize, place: usize, count: usize) -> Step
    ensures { result ≡ Stopped number place count }
{
    Step::Refused {
        number,
        place,
        count,
    }
}

// 01: "at one octet 5 goes first"; else the number of what may not stand there.
fn high_or(sort: Sort, number: usize) -> usize
    ensures { result ≡ high_or number sort }
{
    match sort {
        Sort::Refused(5) => 5,
        _ => number,
    }
}

// What follows a mark: the follower stands at `i` of the element that begins at `at`.
fn follower_step(form: Form, mark: u8, under: bool, text: &[u8], at: usize, i: usize) -> Step
    requires { (at ≤ i) × (i ≤ length text.now) }
    ensures { result ≡ step_by form text.now at (follower_head form mark under (i - at) (drop i text.now)) }
{
    if text.len() <= i {
        return refused_at(4, at, i);
    }
    let l = text[i];
    let Some(c) = squares::paired(mark, l) else {
        return refused_at(high_or(sorts::sort_in(form, l), 3), at, i);
    };
    let word = graphic_word(under, c);
    Step::Element(
        Element::One(word),
        i + 1,
        canonical_tests::word_is_canonical(form, word, l, i + 1 - at),
    )
}

// What follows the SS2 or CC at `at`, by what `sort_of` says of the octet there; what may not follow is refused with a number.
// 01: SS2 stands "before the supplementary octet only; the letter of a pair follows bare".
// 01: "CC stands before a spacing character, or before a mark with its follower."
fn second_step<F: Fn(u8) -> Sort>(
    form: Form,
    sort_of: F,
    under: bool,
    number: usize,
    text: &[u8],
    at: usize,
) -> Step
    requires room { at < length text.now }
    requires callable { F.IsAlwaysCallable sort_of }
    requires small { (o c : ℕ) → F.post sort_of o (Graphic c) → c < 0x10000 }
    ensures { (sort : ℕ → Sort) → ((o : ℕ) (s : Sort) → F.post sort_of o s → s ≡ sort o)
        → result ≡ step_by form text.now at (second_head form under number sort (drop (at + 1) text.now)) }
{
    let i = at + 1;
    if text.len() <= i {
        return refused_at(4, at, i);
    }
    let o = text[i];
    let sort = sort_of(o);
    match sort {
        Sort::Graphic(c) => {
            let word = graphic_word(under, c);
            Step::Element(
                Element::One(word),
                at + 2,
                canonical_tests::word_is_canonical(form, word, o, 2),
            )
        }
        Sort::Mark(m) => follower_step(form, m, under, text, at, at + 2),
        _ => refused_at(high_or(sort, number), at, i),
    }
}

// 01: "Sequence: 2^26 + 65536 x intermediate (0 if none) + 256 x final + number of values".
fn head_word(middle: u8, last: u8, count: usize) -> u32
    requires { count ≤ 8 }
    ensures { result ≡ sequences_from + 0x10000 * middle + 0x100 * last + count }
{
    element_words::SEQUENCES_FROM
        + 0x10000 * u32::from(middle)
        + 0x100 * u32::from(last)
        + count as u32
}

// The control sequence at `at`.
fn sequence_step(text: &[u8], at: usize) -> Step
    ensures { (f : Form) → result ≡ step_by f text.now at (as_element (sequence_head (drop at text.now))) }
{
    match sequence_reading::read_sequence(text, at) {
        Reading::Whole {
            middle,
            last,
            count,
            values,
            next,
        } => Step::Element(
            Element::Sequence {
                head: head_word(middle, last, count),
                count,
                values,
            },
            next,
            canonical_tests::sequence_is_canonical(&text[at..next]),
        ),
        Reading::Refused { number, deciding } => refused_at(number, at, deciding),
        Reading::End => Step::End,
    }
}

// Reads the element at a place. 01: "Each element read answers with the element and the place after it, or with its refusal .. Asked at or
// past the end of the text, it answers that none is left."
pub fn element_at(form: Form, text: &[u8], at: usize) -> Step
    ensures { ElementAtPromise form text.now at result }
{
    if text.len() <= at {
        return Step::End;
    }
    let o = text[at];
    let sort = sorts::sort_in(form, o);
    match sort {
        Sort::Graphic(c) => Step::Element(
            Element::One(c),
            at + 1,
            canonical_tests::word_is_canonical(form, c, o, 1),
        ),
        Sort::Mark(m) => follower_step(form, m, false, text, at, at + 1),
        Sort::Underline => second_step(
            form,
            |octet| sorts::sort_in(form, octet),
            true,
            3,
            text,
            at,
        ),
        Sort::Shift => second_step(
            form,
            |octet| sorts::sort_shifted(form, octet),
            false,
            1,
            text,
            at,
        ),
        Sort::Control => {
            let word = element_words::CONTROLS_FROM + u32::from(o);
            Step::Element(
                Element::One(word),
                at + 1,
                canonical_tests::word_is_canonical(form, word, o, 1),
            )
        }
        Sort::SequenceStart => sequence_step(text, at),
        Sort::Refused(n) => refused_at(n, at, at),
    }
}
