// One control sequence of form 3, read at a place.
#![tactic(auto)]

ghost use Rattle.std.specs.Prelude.{◌≡◌, ◌≢◌, ◌<◌, ◌≤◌, MatchResult};
ghost use Rattle.sequence_reading.specs.SequenceHead.{Fair, digit_step, value_step, middle_step, step_of};
ghost use Rattle.sequence_reading.specs.Promises.{KindOfPromise, ValueAtPromise, ReadSequencePromise};

// What an octet is inside a sequence, and what it means there.
#[derive(Clone, Copy, PartialEq, Eq)]
pub enum Kind {
    Digit(u8),
    Separator,
    Middle(u8),
    Final(u8),
    Other,
}

// How far a sequence is read: the value that is open, how many are closed before it, the intermediate (0 if none), and the octets taken,
// 9B counted.
#[derive(Clone, Copy, PartialEq, Eq)]
pub struct Scan {
    pub current: u32,
    pub closed: usize,
    pub middle: u8,
    pub taken: usize,
}

// What one octet does that is not refused: it is taken; it closes a value; it is the final.
#[derive(Clone, Copy, PartialEq, Eq)]
pub enum Next {
    More(Scan),
    Value(Scan),
    Last(u8),
}

// What stands at a place: a whole sequence, its values with zeros behind, and the place after it; a refusal (4, 6, 7, 8) with its deciding
// octet; nothing, at or past the end.
#[derive(Clone, Copy, PartialEq, Eq)]
pub enum Reading {
    Whole {
        middle: u8,
        last: u8,
        count: usize,
        values: [u32; 8],
        next: usize,
    },
    Refused {
        number: usize,
        deciding: usize,
    },
    End,
}

// 01: "parameter octets (30 to 39, 3B), at most one intermediate (20 to 2F), one final (40 to 7E)". 02, No. 6: A1 to FE "count as 21 to 7E
// for every rule of 01".
pub fn kind_of(b: u8) -> Kind
    ensures { KindOfPromise b result }
{
    match b {
        0x30..=0x39 => Kind::Digit(b - 0x30),
        0xB0..=0xB9 => Kind::Digit(b - 0xB0),
        0x3B => Kind::Separator,
        0xBB => Kind::Separator,
        0x20..=0x2F => Kind::Middle(b),
        0xA1..=0xAF => Kind::Middle(b - 0x80),
        0x40..=0x7E => Kind::Final(b),
        0xC0..=0xFE => Kind::Final(b - 0x80),
        _ => Kind::Other,
    }
}

// 01: "at one octet 5 goes first, then 6, 7, 8". 6 after an intermediate, where only a final is allowed.
fn not_late(s: Scan) -> Result<(), usize>
    ensures { MatchResult result (λ u. s.middle ≡ 0) (λ n. (s.middle ≢ 0) × (n ≡ 6)) }
{
    if s.middle == 0 { Ok(()) } else { Err(6) }
}

// 01: "40 octets in all, 9B counted", so 39 before the final.
const BEFORE_FINAL: usize = 39;

// 8: "the 40th octet of a sequence isn't its final".
fn not_full(s: Scan) -> Result<(), usize>
    ensures { MatchResult result (λ u. s.taken < 39) (λ n. (39 ≤ s.taken) × (n ≡ 8)) }
{
    if s.taken < BEFORE_FINAL {
        Ok(())
    } else {
        Err(8)
    }
}

// 7: "the digit that passes 999".
#[tactic(auto, unfolding(crate::specs::SequenceHead::digit_step))]
fn digit_step(s: Scan, d: u8) -> Result<Next, usize>
    requires { Fair s }
    ensures { result ≡ digit_step s d }
{
    not_late(s)?;
    let current = s.current * 10 + u32::from(d);
    if 999 < current {
        return Err(7);
    }
    not_full(s)?; // of a digit
    Ok(Next::More(Scan {
        current,
        taken: s.taken + 1,
        ..s
    }))
}

// 7: "the 3B that opens a ninth value".
#[tactic(auto, unfolding(crate::specs::SequenceHead::value_step))]
fn value_step(s: Scan) -> Result<Next, usize>
    requires { Fair s }
    ensures { result ≡ value_step s }
{
    not_late(s)?;
    if 7 <= s.closed {
        return Err(7);
    }
    not_full(s)?;
    Ok(Next::Value(Scan {
        current: 0,
        closed: s.closed + 1,
        taken: s.taken + 1,
        ..s
    }))
}

// 01: "at most one intermediate".
#[tactic(auto, unfolding(crate::specs::SequenceHead::middle_step))]
fn middle_step(s: Scan, i: u8) -> Result<Next, usize>
    requires { Fair s }
    ensures { result ≡ middle_step s i }
{
    not_late(s)?;
    not_full(s)?;
    Ok(Next::More(Scan {
        middle: i,
        taken: s.taken + 1,
        ..s
    }))
}

// A final is taken anywhere; what is no octet of a sequence is 6.
#[tactic(auto, unfolding(crate::specs::SequenceHead::step_of))]
fn step(s: Scan, b: u8) -> Result<Next, usize>
    requires { Fair s }
    ensures { result ≡ step_of s b }
{
    match kind_of(b) {
        Kind::Digit(d) => digit_step(s, d),
        Kind::Separator => value_step(s),
        Kind::Middle(i) => middle_step(s, i),
        Kind::Final(f) => Ok(Next::Last(f)),
        Kind::Other => Err(6),
    }
}

// The value at an index; past the eight it is 0.
pub fn value_at(values: &[u32; 8], k: usize) -> u32
    ensures { ValueAtPromise values.now k result }
{
    values.get(k).copied().unwrap_or(0)
}

// Reads the sequence at `at`. A place where no 9B stands is refused at once; 01: "Asked at or past the end of the text, it answers that
// none is left."
pub fn read_sequence(text: &[u8], at: usize) -> Reading
    ensures { ReadSequencePromise text.now at result }
{
    if text.len() <= at {
        return Reading::End;
    }
    if text[at] != sorts::CSI {
        return Reading::Refused {
            number: 6,
            deciding: at,
        };
    }
    let mut values = [0; 8];
    let mut s = Scan {
        current: 0,
        closed: 0,
        middle: 0,
        taken: 1,
    };
    for i in at + 1..text.len() {
        let next = match step(s, text[i]) {
            Ok(next) => next,
            Err(number) => {
                return Reading::Refused {
                    number,
                    deciding: i,
                };
            }
        };
        match next {
            Next::More(t) => {
                s = t;
            }
            Next::Value(t) => {
                values[s.closed] = s.current;
                s = t;
            }
            Next::Last(last) => {
                values[s.closed] = s.current;
                return Reading::Whole {
                    middle: s.middle,
                    last,
                    count: s.closed + 1,
                    values,
                    next: i + 1,
                };
            }
        }
    }
    // 01: "input ends inside an element", and its count is the input length.
    Reading::Refused {
        number: 4,
        deciding: text.len(),
    }
}
