// A whole text: written from words, and converted to a form; and what `text_reading` reads.
#![tactic(auto)]

ghost use Rattle.text.specs.Promises.{WritePromise, ConvertPromise};

use run::{Answer, ReadAnswer};
use sorts::Form;
pub use text_reading::{measure, read, read_element, read_one};

// Writes a list of words. 01's order of refusals: 11, 12, 10, 9.
pub fn write(form: u32, words: &[u32], text: &mut [u8]) -> Answer
    ensures { WritePromise form words.now text.old result text.new }
{
    let Ok(f) = Form::try_from(form) else {
        return run::bare_answer(11);
    };
    text_writing::write_in(f, words, text)
}

// Converts a whole text. 01's order of refusals: 11 (source, then target), 12, reading, 10, 9.
pub fn convert(source: u32, target: u32, text: &[u8], out: &mut [u8]) -> ReadAnswer
    ensures { ConvertPromise source target text.now out.old result out.new }
{
    let Ok(f) = Form::try_from(source) else {
        return run::reading_of(run::bare_answer(11), 0);
    };
    let Ok(g) = Form::try_from(target) else {
        return run::reading_of(run::bare_answer(11), 0);
    };
    text_respelling::respell(f, g, text, out)
}
