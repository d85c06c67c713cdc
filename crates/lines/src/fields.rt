// The parts of a text, the fields of a line among them, and the hexadecimal digits in them.
ghost use Rattle.std.specs.Prelude.{◌-◌, ◌≡◌, ◌<◌, ◌≤◌, ◌^◌, length, vec_len, IfOk, IfSome};
ghost use Rattle.io.specs.Counts.{IsPrefixLen};
ghost use Rattle.std.specs.Iterator.{at_most};

use std::alloc::{AllocError, Global};

// The parts of a text, one after another: each goes up to the next `end`, or to the end of the text.
#[derive(Clone, Copy)]
pub struct Parts<'a> {
    pub rest: &'a [u8],
    pub end: u8,
}

pub fn split(text: &[u8], end: u8) -> Parts<'_>
    ensures of { result.rest.now ≡ text.now }
    ensures up_to { result.end ≡ end }
{
    Parts { rest: text, end }
}

impl<'a> Iterator for Parts<'a> {
    type Item = &'a [u8];

    // What it gives, and what is left, is no longer than what was left before.
    ghost next_gives = { λ s part t. (length t.rest.now ≤ length s.rest.now) × IfSome part (λ x. length x.now ≤ length s.rest.now) };

    ghost remaining = { λ s. at_most (length s.rest.now) };

    fn next(&mut self) -> Option<&'a [u8]> {
        let end = self.end;
        let text = self.rest;
        if text.is_empty() {
            return None;
        }
        let Some(at) = text.iter().position(|octet| *octet == end) else {
            self.rest = &[];
            return Some(text);
        };
        self.rest = &text[at + 1..];
        Some(&text[..at])
    }
}

// The parts that are left after the first `k`.
fn after(text: &[u8], end: u8, k: usize) -> Parts<'_>
    ensures { length result.rest.now ≤ length text.now }
{
    let mut parts = split(text, end);
    for _ in 0..k {
        parts.next();
    }
    parts
}

// What stands after the first `k` commas. Past the end of the line nothing does.
pub fn rest(line: &[u8], k: usize) -> &[u8]
    ensures { length result.now ≤ length line.now }
{
    after(line, b',', k).rest
}

// What stands from `at` on, up to the next `end` or the end of the text. Past the end of the text nothing does.
pub fn part(text: &[u8], at: usize, end: u8) -> &[u8]
    ensures { length result.now ≤ length text.now - at }
{
    let text = text.get(at..).unwrap_or_default();
    split(text, end).next().unwrap_or_default()
}

// What stands between the first `k` ends and the next one. Past the last there is nothing.
pub fn nth_part(text: &[u8], end: u8, k: usize) -> &[u8]
    ensures { length result.now ≤ length text.now }
{
    after(text, end, k).next().unwrap_or_default()
}

pub fn field(line: &[u8], k: usize) -> &[u8]
    ensures { length result.now ≤ length line.now }
{
    nth_part(line, b',', k)
}

// No other digit counts: small letters stand for 0 too.
fn value_of(digit: u8) -> u32
    ensures { result < 16 }
{
    match digit {
        b'0'..=b'9' => u32::from(digit - b'0'),
        b'A'..=b'F' => u32::from(digit - b'A' + 10),
        _ => 0,
    }
}

// The number that the digits give. The last eight count.
pub fn number_in(text: &[u8]) -> u32
    ensures { result < 16 ^ length text.now }
{
    let mut n = 0;
    for digit in text {
        n = n << 4 | value_of(*digit);
    }
    n
}

// The octet that two digits give.
fn octet_of(pair: &[u8]) -> u8 {
    (number_in(pair) % 0x100) as u8
}

pub fn number_at(line: &[u8], k: usize) -> u32
    ensures { length line.now ≡ 0 → result ≡ 0 }
{
    number_in(field(line, k))
}

pub fn size_at(line: &[u8], k: usize) -> usize
    ensures none { length line.now ≡ 0 → result ≡ 0 }
    ensures word { result < 2 ^ 32 }
{
    number_at(line, k) as usize
}

// Puts the octets that are written as `C265`, and answers how many there are, as far as there is room.
pub fn octets_in(text: &[u8], out: &mut [u8]) -> usize
    ensures { IsPrefixLen result out.new }
{
    let n = out.len().min(text.len() / 2);
    for (place, pair) in out.iter_mut().zip(text.chunks_exact(2)) {
        *place = octet_of(pair);
    }
    n
}

// Puts the words that are written as `04006D01 0004`, and answers how many there are, as far as there is room.
pub fn words_in(text: &[u8], out: &mut [u32]) -> usize
    ensures { IsPrefixLen result out.new }
{
    let mut words = split(text, b' ');
    for n in 0..out.len() {
        let Some(word) = words.next() else {
            return n;
        };
        out[n] = number_in(word);
    }
    out.len()
}

// The octets that are written so, at most so many.
pub fn octet_list(alloc: Global, text: &[u8], most: usize) -> Result<Vec<u8>, AllocError>
    ensures { IfOk result (λ v. vec_len v ≤ most) }
{
    text.chunks_exact(2).take(most).map(octet_of).collect(alloc)
}

// The words that are written so, at most so many.
pub fn word_list(alloc: Global, text: &[u8], most: usize) -> Result<Vec<u32>, AllocError>
    ensures { IfOk result (λ v. vec_len v ≤ most) }
{
    split(text, b' ').take(most).map(number_in).collect(alloc)
}
