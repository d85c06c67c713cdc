// What a writer of whole texts looks into: the canonical spelling of each character in a form, as one number.
#![tactic(auto)]

mod basic;
mod eight;
mod seven;

ghost use Rattle.std.specs.Prelude.{◌≡◌};
ghost use Rattle.sorts.specs.declared.Form.{Form};
ghost use Rattle.spelling_tables.specs.PackedSpellings.{slot_of, spelling_table};
ghost use Rattle.spelling_tables.specs.Promises.{SpellingTablePromise, PackedInPromise, LowInPromise, PackedSizePromise};
ghost use Rattle.spelling_tables.specs.Promises.{PutPackedPromise, OfFormPromise, FormPromise, PackedPromise, LowPromise};

use sorts::Form;
use std::marker::Model;

// The table of a form's packed spellings.
pub fn spelling_table(form: Form) -> &'static [u32; 430]
    ensures { SpellingTablePromise form result.now }
{
    match form {
        Form::Eight => &eight::SPELLINGS,
        Form::Seven => &seven::SPELLINGS,
        Form::Basic => &basic::SPELLINGS,
    }
}

// The place of a character in such a table. The characters of the forms lie below U+0180, but for those of six short ranges; any other has
// the place of U+0000, which no form spells.
fn slot_of(c: u32) -> usize
    ensures { result ≡ slot_of c }
{
    if c < 0x0180 {
        return c as usize;
    }
    match c {
        0x02C7..=0x02DD => (c - 0x02C7 + 384) as usize,
        0x2015..=0x201D => (c - 0x2015 + 407) as usize,
        0x2122..=0x2126 => (c - 0x2122 + 416) as usize,
        0x215B..=0x215E => (c - 0x215B + 421) as usize,
        0x2190..=0x2193 => (c - 0x2190 + 425) as usize,
        0x266A => 429,
        _ => 0,
    }
}

// The packed spelling of a character, by a lent table: 0 where the form lacks it.
pub fn packed_in(table: &[u32; 430], c: u32) -> u32
    ensures { PackedInPromise table.now c result }
{
    table[slot_of(c)]
}

// The same of a character below U+0180, as nearly all are: 0 of any other, which `packed_in` looks for.
pub fn low_in(table: &[u32; 430], c: u32) -> u32
    ensures { LowInPromise table.now c result }
{
    if 0x017F < c {
        return 0;
    }
    table[c as usize]
}

// From here on a packed spelling has two octets, and three. One octet stands below; 0 is no spelling.
pub const TWO_OCTETS: u32 = 0x2000000;

pub const THREE_OCTETS: u32 = 0x3000000;

// How many octets a packed spelling has.
pub fn packed_size(p: u32) -> usize
    ensures { PackedSizePromise p result }
{
    (p / 0x1000000) as usize
}

// Writes the octets of a packed spelling from a place on, where there is room for all of them, and answers the place behind; where the room
// is short, it does nothing and answers `at`. The room for three octets is reckoned where it is asked for, as few have three: a caller's loop
// has then only the other two limits to keep.
pub fn put_packed(p: u32, out: &mut [u8], at: usize) -> usize
    ensures { PutPackedPromise p out.old at result out.new }
{
    let last = (p % 0x100) as u8;
    if p < TWO_OCTETS {
        if out.len() <= at {
            return at;
        }
        out[at] = last;
        return at + 1;
    }
    let before = (p / 0x100 % 0x100) as u8;
    if p < THREE_OCTETS {
        if out.len().saturating_sub(1) <= at {
            return at;
        }
        out[at] = before;
        out[at + 1] = last;
        return at + 2;
    }
    if out.len() <= at || out.len() - at < 3 {
        return at;
    }
    out[at] = (p / 0x10000 % 0x100) as u8;
    out[at + 1] = before;
    out[at + 2] = last;
    at + 3
}

// What spells the characters of a form: the form, with its table at hand. In a clause it is the form.
#[derive(Drop)]
pub struct Speller {
    form: Form,
    table: &'static [u32; 430],
}

impl Model for Speller {
    ghost Value = { Form };

    ghost view = { λ s. s.form };

    ghost invariant = { λ s. s.table.now ≡ spelling_table s.form };
}

impl Speller {
    pub fn of_form(form: Form) -> Speller
        ensures { OfFormPromise form result }
    {
        Speller {
            form,
            table: spelling_table(form),
        }
    }

    pub fn form(&self) -> Form
        ensures { FormPromise self.now result }
    {
        self.form
    }

    // The packed spelling of a character: 0 where the form lacks it.
    pub fn packed(&self, c: u32) -> u32
        ensures { PackedPromise self.now c result }
    {
        packed_in(self.table, c)
    }

    // The same of a character below U+0180: 0 of any other, which `packed` looks for.
    pub fn low(&self, c: u32) -> u32
        ensures { LowPromise self.now c result }
    {
        low_in(self.table, c)
    }
}
