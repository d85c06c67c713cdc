// One control sequence of form 3, spelt.
#![tactic(auto)]

ghost use Rattle.std.specs.Prelude.{◌≡◌, ◌+◌, ◌%◌, ◌≤◌, ◌↔◌, length, slice_index, EachIndex, IsTrue};
ghost use Rattle.run.specs.Put.{Put};
ghost use Rattle.sequence_spelling.specs.SequenceOctets.{digits_of, spell_rest, spell_middle, spell_sequence};
ghost use Rattle.sequence_spelling.specs.SequenceOctets.{is_fine};
ghost use Rattle.sequence_spelling.specs.Said.{said};
ghost use Rattle.sequence_spelling.specs.Promises.{SequenceSizePromise, PutSequencePromise};

// A sequence as it is to be spelt: its intermediate (0 if none), its final, its values.
#[derive(Clone, Copy)]
pub struct Sequence<'a> {
    pub middle: u8,
    pub last: u8,
    pub values: &'a [u32],
}

fn are_small(values: &[u32]) -> bool
    ensures { IsTrue result ↔ EachIndex values.now (λ k. slice_index values.now k ≤ 999) }
{
    values.iter().all(|&v| v <= 999)
}

// How many digits a value has; 0 has none.
fn value_size(v: u32) -> usize
    ensures { result ≡ length (digits_of v) }
{
    match v {
        0 => 0,
        1..=9 => 1,
        10..=99 => 2,
        _ => 3,
    }
}

// The size of all values, with one octet before each: the 9B before the first, a 3B before every other.
fn values_size(values: &[u32]) -> usize
    requires { length values.now ≤ 8 }
    ensures { result ≡ length (spell_rest values.now) }
{
    let mut n = 0;
    for &v in values {
        n += 1 + value_size(v);
    }
    n
}

// The octet of a number's last digit.
fn digit(v: u32) -> u8
    ensures { result ≡ 0x30 + v % 10 }
{
    0x30 + (v % 10) as u8
}

// 01: "Values have no leading zeros, 0 is the empty sub-string".
fn put_value(out: &mut [u8], at: usize, v: u32) -> usize
    requires { at + length (digits_of v) ≤ length out.old }
    ensures { Put out.old at (digits_of v) out.new result }
{
    if v < 1 {
        return at;
    }
    if v < 10 {
        return run::put(out, at, digit(v));
    }
    if v < 100 {
        let i = run::put(out, at, digit(v / 10));
        return run::put(out, i, digit(v));
    }
    let i = run::put(out, at, digit(v / 100));
    let j = run::put(out, i, digit(v / 10));
    run::put(out, j, digit(v))
}

// Each value after the first, behind its 3B; 01: "the number of values is kept".
fn put_rest(out: &mut [u8], at: usize, rest: &[u32]) -> usize
    requires { at + length (spell_rest rest.now) ≤ length out.old }
    ensures { Put out.old at (spell_rest rest.now) out.new result }
{
    let mut i = at;
    for &v in rest {
        i = run::put(out, i, 0x3B);
        i = put_value(out, i, v);
    }
    i
}

// The intermediate, where there is one.
fn put_middle(out: &mut [u8], at: usize, middle: u8) -> usize
    requires { at + length (spell_middle middle) ≤ length out.old }
    ensures { Put out.old at (spell_middle middle) out.new result }
{
    if middle == 0 {
        return at;
    }
    run::put(out, at, middle)
}

impl Sequence<'_> {
    // Whether it can be one. 01: an intermediate of 20 to 2F or none, a final of 40 to 7E, "at most 8 values, each at most 999", and "always
    // one value at least".
    fn is_fine(self) -> bool
        ensures { result ≡ is_fine (said self.entry) }
    {
        matches!(self.middle, 0 | 0x20..=0x2F)
            && matches!(self.last, 0x40..=0x7E)
            && matches!(self.values.len(), 1..=8)
            && are_small(self.values)
    }

    // How many octets it is spelt with; 0 where it cannot be one.
    pub fn size(self) -> usize
        ensures { SequenceSizePromise self.entry.middle self.entry.last self.entry.values.now result }
    {
        if !self.is_fine() {
            return 0;
        }
        let n = values_size(self.values) + 1;
        if self.middle == 0 { n } else { n + 1 }
    }

    // The whole spelling, where there is a value and room for it.
    fn put_whole(self, out: &mut [u8], at: usize) -> usize
        requires some_value { 1 ≤ length self.values.now }
        requires room { at + length (spell_sequence (said self)) ≤ length out.old }
        ensures { Put out.old at (spell_sequence (said self.entry)) out.new result }
    {
        let a = run::put(out, at, sorts::CSI);
        let b = put_value(out, a, self.values[0]);
        let c = put_rest(out, b, &self.values[1..]);
        let d = put_middle(out, c, self.middle);
        run::put(out, d, self.last)
    }

    // Spells it at `at` of `out` and answers the place after it; where it cannot be one or the room is short, it does nothing and answers
    // `at`.
    pub fn put(self, out: &mut [u8], at: usize) -> usize
        ensures { PutSequencePromise self.entry.middle self.entry.last self.entry.values.now out.old at result out.new }
    {
        let size = self.size();
        if size == 0 || out.len() < at || out.len() - at < size {
            return at;
        }
        self.put_whole(out, at)
    }
}
