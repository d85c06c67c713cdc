// The library for C: each function under its plain name, as include/oakentwirl.h declares it, over the proved function that does the work.
#![tactic(auto)]

ghost use Rattle.std.specs.Prelude.{not, eqb};
ghost use Rattle.text_reading.specs.Promises.{ReadPromise, ReadOnePromise};
ghost use Rattle.text.specs.Promises.{WritePromise, ConvertPromise};
ghost use Rattle.compare.specs.Promises.{ComparedPromise};
ghost use Rattle.serial.specs.Promises.{FreshPromise, FeedPromise};
ghost use Rattle.tlx.specs.Promises.{ReadCasePromise};
ghost use Rattle.case_writing.specs.Promises.{WriteCasePromise};

use compare::Comparison;
use run::{Answer, ReadAnswer};
use serial::{Carry, Fed};
use tlx::CaseAnswer;

// Reads a whole text.
#[unsafe(no_mangle)]
pub extern "C" fn oak_read(form: u32, text: &[u8], words: &mut [u32]) -> ReadAnswer
    ensures { ReadPromise form text.now words.old result words.new }
{
    text::read(form, text, words)
}

// Reads one element at a place of a text.
#[unsafe(no_mangle)]
pub extern "C" fn oak_element(form: u32, text: &[u8], at: usize, words: &mut [u32]) -> ReadAnswer
    ensures { ReadOnePromise form text.now at words.old result words.new }
{
    text::read_one(form, text, at, words)
}

// Writes a list of words.
#[unsafe(no_mangle)]
pub extern "C" fn oak_write(form: u32, words: &[u32], text: &mut [u8]) -> Answer
    ensures { WritePromise form words.now text.old result text.new }
{
    text::write(form, words, text)
}

// Converts a whole text from one form to another.
#[unsafe(no_mangle)]
pub extern "C" fn oak_convert(source: u32, target: u32, text: &[u8], out: &mut [u8]) -> ReadAnswer
    ensures { ConvertPromise source target text.now out.old result out.new }
{
    text::convert(source, target, text, out)
}

// Says what changed between two texts of one form.
#[unsafe(no_mangle)]
pub extern "C" fn oak_compare(form: u32, first: &[u8], second: &[u8]) -> Comparison
    ensures { ComparedPromise form first.now second.now result }
{
    compare::compared(form, first, second)
}

// A fresh carry of a form, for a page off the serial lead.
#[unsafe(no_mangle)]
pub extern "C" fn oak_fresh(form: u32) -> Fed
    ensures { FreshPromise form result }
{
    Carry::fresh(form)
}

// Takes the next piece of a page; `ended` is 0 where more comes.
#[unsafe(no_mangle)]
pub extern "C" fn oak_feed(carry: Carry, piece: &[u8], ended: u32, words: &mut [u32]) -> Fed
    ensures { FeedPromise carry piece.now (not (eqb ended 0)) words.old result words.new }
{
    carry.feed(piece, ended != 0, words)
}

// Reads a TLX case.
#[unsafe(no_mangle)]
pub extern "C" fn oak_case_read(case: &[u8], words: &mut [u32]) -> CaseAnswer
    ensures { ReadCasePromise case.now words.old result words.new }
{
    tlx::read_case(case, words)
}

// Writes a TLX case from its parts.
#[unsafe(no_mangle)]
pub extern "C" fn oak_case_write(
    form: u32,
    lengths: &[u32],
    octets: &[u8],
    case: &mut [u8],
) -> Answer
    ensures { WriteCasePromise form lengths.now octets.now case.old result case.new }
{
    tlx::write_case(form, lengths, octets, case)
}
