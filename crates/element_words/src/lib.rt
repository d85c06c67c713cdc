// An element, and its words both ways.
#![tactic(auto)]

ghost use Rattle.std.specs.Prelude.{◌≡◌, ◌∷◌, [], ◌+◌, ◌≤◌, ◌<◌, length, get_or, take};
ghost use Rattle.run.specs.Put.{Put};
ghost use Rattle.sequence_reading.specs.EightValues.{values_of};
ghost use Rattle.element_words.specs.Words.{words_of};
ghost use Rattle.element_words.specs.Promises.{IsSequencePromise, ElementOfPromise, KeptPromise, WordsInPromise, PutWordsPromise};

use sequence_spelling::Sequence;

// From where on the words of each kind stand. 01: "Graphic: its code point, plus 2^24 if underlined. Control: 2^25 + octet. Sequence:
// 2^26 + ..".
pub const UNDERLINED_FROM: u32 = 0x1000000;

pub const CONTROLS_FROM: u32 = 0x2000000;

pub const SEQUENCES_FROM: u32 = 0x4000000;

// An element, known by its words.
#[derive(Clone, Copy, PartialEq, Eq)]
pub enum Element {
    // a graphic or a control
    One(u32),
    // a control sequence: its head word, how many values, and these, with zeros behind
    Sequence {
        head: u32,
        count: usize,
        values: [u32; 8],
    },
}

// What the words at a place are.
#[derive(Clone, Copy, PartialEq, Eq)]
pub enum Meant {
    // an element, and the place after its words
    Element(Element, usize),
    // no element, or one that is cut off: number 10, at the first of its words
    NoElement,
    // none is left
    End,
}

// Whether a head word and values are a sequence: one that can be, and its own head word.
pub fn is_sequence(head: u32, values: &[u32]) -> bool
    ensures { IsSequencePromise head values.now result }
{
    if head < SEQUENCES_FROM {
        return false;
    }
    let middle = (head - SEQUENCES_FROM) / 0x10000;
    if 0x2F < middle {
        return false;
    }
    let last = head / 0x100 % 0x100;
    let sequence = Sequence {
        middle: middle as u8,
        last: last as u8,
        values,
    };
    sequence.size() != 0 && (head % 0x100) as usize == values.len()
}

// The first eight values, then zeros.
fn values_of(values: &[u32]) -> [u32; 8]
    ensures { result ≡ values_of values.now }
{
    let n = kept(values.len());
    let mut eight = [0; 8];
    eight[..n].copy_from_slice(&values[..n]);
    eight
}

// The element that the words at a place are. 01: number 10 for "words that are no element or are cut off".
pub fn element_of(words: &[u32], at: usize) -> Meant
    ensures { ElementOfPromise words.now at result }
{
    if words.len() <= at {
        return Meant::End;
    }
    let w = words[at];
    if w < SEQUENCES_FROM {
        return Meant::Element(Element::One(w), at + 1);
    }
    let first = at + 1;
    let n = (w % 0x100) as usize;
    if words.len() - first < n {
        return Meant::NoElement;
    }
    let end = first + n;
    let values = &words[first..end];
    if is_sequence(w, values) {
        return Meant::Element(
            Element::Sequence {
                head: w,
                count: n,
                values: values_of(values),
            },
            end,
        );
    }
    Meant::NoElement
}

// How many of its eight a sequence's values are.
pub fn kept(count: usize) -> usize
    ensures { KeptPromise count result }
{
    count.min(8)
}

// How many words an element has.
pub fn words_in(e: Element) -> usize
    ensures { WordsInPromise e result }
{
    match e {
        Element::One(_) => 1,
        Element::Sequence { count, .. } => 1 + kept(count),
    }
}

// One word, and the place after it.
fn put_one(words: &mut [u32], at: usize, w: u32) -> usize
    requires { at < length words.old }
    ensures { Put words.old at (w ∷ []) words.new result }
{
    words[at] = w;
    at + 1
}

fn put_values(values: &[u32; 8], n: usize, words: &mut [u32], at: usize) -> usize
    requires { (n ≤ 8) × (at + n ≤ length words.old) }
    ensures { Put words.old at (take n values.now) words.new result }
{
    for k in 0..n {
        words[at + k] = sequence_reading::value_at(values, k);
    }
    at + n
}

fn put_all(e: Element, words: &mut [u32], at: usize) -> usize
    requires { at + length (words_of e) ≤ length words.old }
    ensures { Put words.old at (words_of e) words.new result }
{
    match e {
        Element::One(w) => put_one(words, at, w),
        Element::Sequence {
            head,
            count,
            values,
        } => {
            let i = put_one(words, at, head);
            put_values(&values, kept(count), words, i)
        }
    }
}

// Writes an element's words at `at` and answers the place after them; where the room is short, it does nothing and answers `at`.
pub fn put_words(e: Element, words: &mut [u32], at: usize) -> usize
    ensures { PutWordsPromise e words.old at result words.new }
{
    let size = words_in(e);
    if words.len() < at || words.len() - at < size {
        return at;
    }
    put_all(e, words, at)
}
