// A TLX case written from its parts (document 01, "The TLX case"); the pages are not read.
#![tactic(auto)]

ghost use Rattle.std.specs.Prelude.{◌≡◌, true, ◌+◌, ◌*◌, ◌≤◌, ◌<◌, length, sum, nat_le, IsTrue};
ghost use Rattle.std.specs.List.{list_all};
ghost use Rattle.run.specs.Answers.{given};
ghost use Rattle.run.specs.Put.{Put};
ghost use Rattle.case_table.specs.Layout.{big16, header};
ghost use Rattle.case_writing.specs.FromParts.{none_over, fitting};
ghost use Rattle.case_writing.specs.Promises.{WriteCasePromise};

use run::Answer;
use sorts::Form;

// 01: "a length is over 65,535": none is.
fn are_short(lengths: &[u32]) -> bool
    ensures { result ≡ list_all (λ n. nat_le n 65535) lengths.now }
{
    lengths.iter().all(|&length| length <= 65535)
}

// The lengths, added up.
fn total_of(lengths: &[u32]) -> usize
    requires { length lengths.now ≤ 256 }
    ensures { result ≡ sum lengths.now }
{
    lengths.iter().map(|&length| length as usize).sum()
}

// 01: 15 "if there are over 256 pages, a length is over 65,535 or the lengths don't add up to the page octets".
fn is_fitting(lengths: &[u32], size: usize) -> bool
    ensures test { result ≡ fitting lengths.now size }
    ensures few { IsTrue result → length lengths.now ≤ 256 }
    ensures short { IsTrue result → none_over 0xFFFF lengths.now ≡ true }
    ensures small { IsTrue result → size ≤ 16776960 }
{
    if 256 < lengths.len() {
        return false;
    }
    are_short(lengths) && total_of(lengths) == size
}

// 01: "big-endian 16-bit".
fn put_number(out: &mut [u8], at: usize, n: u32) -> usize
    requires { (at + 2 ≤ length out.old) × (n < 0x10000) }
    ensures { Put out.old at (big16 n) out.new result }
{
    put_all(&(n as u16).to_be_bytes(), out, at)
}

// The octets as they are.
fn put_all(octets: &[u8], out: &mut [u8], at: usize) -> usize
    requires { at + length octets.now ≤ length out.old }
    ensures { Put out.old at octets.now out.new result }
{
    for i in 0..octets.len() {
        out[at + i] = octets[i];
    }
    at + octets.len()
}

// The mark, the version, the form and how many pages.
fn put_header(form: u32, pages: usize, out: &mut [u8]) -> usize
    requires { (form ≤ 3) × (pages ≤ 256) × (8 ≤ length out.old) }
    ensures { Put out.old 0 (header 1 form pages) out.new result }
{
    let i = put_all(b"TLX", out, 0);
    let j = put_number(out, i, 1);
    let k = run::put(out, j, form as u8);
    put_number(out, k, pages as u32)
}

// 01: "one big-endian 16-bit length a page".
fn put_table(lengths: &[u32], out: &mut [u8], at: usize) -> usize
    requires { (at + 2 * length lengths.now ≤ length out.old) × (none_over 0xFFFF lengths.now ≡ true) }
    ensures { Put out.old at (given big16 lengths.now) out.new result }
{
    let mut next = at;
    for &length in lengths {
        next = put_number(out, next, length);
    }
    next
}

// Writes a case from its parts; the pages are not read. 01's order of refusals: 11, 15, 9.
pub fn write_case(form: u32, lengths: &[u32], octets: &[u8], case: &mut [u8]) -> Answer
    ensures { WriteCasePromise form lengths.now octets.now case.old result case.new }
{
    let Ok(_) = Form::try_from(form) else {
        return run::bare_answer(11);
    };
    if !is_fitting(lengths, octets.len()) {
        return run::bare_answer(15);
    }
    let size = 8 + 2 * lengths.len() + octets.len();
    if case.len() < size {
        return run::short_room(size);
    }
    let i = put_header(form, lengths.len(), case);
    let j = put_table(lengths, case, i);
    put_all(octets, case, j);
    Answer {
        number: 0,
        element: 0,
        place: octets.len(),
        count: size,
    }
}
