// The forms of document 01, and what an octet begins in each.
#![tactic(auto)]

mod pages;
mod supplementary;

ghost use Rattle.std.specs.Prelude.{◌≡◌};
ghost use Rattle.sorts.specs.Promises.{FormOfPromise, SortInPromise, SortShiftedPromise, FindSpacingPromise};
ghost use Rattle.sorts.specs.Sorts.{sort_in, shifted_in, entry, upper_at, spacing_of, spacing_page};

// The forms of text: T51String in eight bits and in seven, basic T.61.
#[derive(Clone, Copy, Debug, PartialEq, Eq)]
pub enum Form {
    Eight,
    Seven,
    Basic,
}

// Octets that an element may begin with and that those who read and spell one know by name: SS2, the underline, what begins a control
// sequence.
pub const SS2: u8 = 0x19;

pub const CC: u8 = 0xCC;

pub const CSI: u8 = 0x9B;

// A number that is no form's. 01: 11, "form not 1 to 3".
#[derive(Clone, Copy, Debug, PartialEq, Eq)]
pub struct UnknownForm;

// What an octet begins.
#[derive(Clone, Copy, Debug, PartialEq, Eq)]
pub enum Sort {
    // a spacing character
    Graphic(u32),
    // a mark, as its octet in the eight-bit forms
    Mark(u8),
    Underline,
    // SS2
    Shift,
    Control,
    SequenceStart,
    // 1, 2 or 5
    Refused(usize),
}

// The form of a number.
impl TryFrom<u32> for Form {
    type Error = UnknownForm;

    ghost try_from_gives = { FormOfPromise };

    fn try_from(number: u32) -> Result<Form, UnknownForm> {
        match number {
            1 => Ok(Form::Eight),
            2 => Ok(Form::Seven),
            3 => Ok(Form::Basic),
            _ => Err(UnknownForm),
        }
    }
}

// An entry of a table of characters, of which 0 is none.
fn graphic(x: u32) -> Sort
    ensures { result ≡ entry x }
{
    if x == 0 {
        return Sort::Refused(1);
    }
    Sort::Graphic(x)
}

// An entry of the table of the supplementary set, counted from A0: 0 where there is no spacing character.
fn upper_at(i: usize) -> u32
    ensures { result ≡ upper_at i }
{
    if 96 <= i {
        return 0;
    }
    u32::from(supplementary::SUPPLEMENTARY[i])
}

// The spacing character of a supplementary octet.
fn spacing(octet: u8) -> Sort
    ensures { result ≡ spacing_of octet }
{
    if octet < 0xA0 {
        return Sort::Refused(1);
    }
    graphic(upper_at((octet - 0xA0) as usize))
}

fn sort_eight(octet: u8) -> Sort
    ensures { result ≡ sort_in Form.Eight octet }
{
    match octet {
        0x0A | 0x0D => Sort::Control,
        0x0E..=0x0F | 0x1B | 0x1D => Sort::Refused(2),
        0x19 => Sort::Refused(2), // SS2 in form 2 alone
        0x20..=0x7E => Sort::Graphic(octet as u32),
        0xA0..=0xBF => spacing(octet),
        0xC1..=0xC8 | 0xCA..=0xCB | 0xCD..=0xCF => Sort::Mark(octet),
        0xD0..=0xFF => spacing(octet),
        _ => Sort::Refused(1),
    }
}

fn sort_seven(octet: u8) -> Sort
    ensures { result ≡ sort_in Form.Seven octet }
{
    match octet {
        0x0A | 0x0D => Sort::Control,
        0x0E..=0x0F | 0x1B | 0x1D => Sort::Refused(2),
        0x19 => Sort::Shift,
        0x20..=0x7E => Sort::Graphic(octet as u32),
        0x80..=0xFF => Sort::Refused(5),
        _ => Sort::Refused(1),
    }
}

fn sort_basic(octet: u8) -> Sort
    ensures { result ≡ sort_in Form.Basic octet }
{
    match octet {
        0x08 | 0x0A | 0x0C..=0x0D | 0x1A | 0x8B..=0x8C => Sort::Control,
        0x0E..=0x0F | 0x19 | 0x1B | 0x1D => Sort::Refused(2),
        0x24 => Sort::Graphic(0x00A4),
        0x5C | 0x5E | 0x60 | 0x7B | 0x7D => Sort::Refused(1),
        0x20..=0x23 => Sort::Graphic(octet as u32),
        0x25..=0x5B => Sort::Graphic(octet as u32),
        0x5D | 0x5F | 0x7C => Sort::Graphic(octet as u32),
        0x61..=0x7A => Sort::Graphic(octet as u32),
        0x9B => Sort::SequenceStart,
        0xA4 => Sort::Graphic(0x0024),
        0xA6 => Sort::Graphic(0x0023),
        0xA1..=0xA3 => spacing(octet),
        0xA5 => spacing(octet),
        0xA7..=0xA8 => spacing(octet),
        0xAB => spacing(octet),
        0xB0..=0xB8 => spacing(octet),
        0xBB..=0xBF => spacing(octet),
        0xC1..=0xC8 | 0xCA..=0xCB | 0xCD..=0xCF => Sort::Mark(octet),
        0xCC => Sort::Underline,
        0xE0..=0xE4 => spacing(octet),
        0xE6..=0xFE => spacing(octet),
        _ => Sort::Refused(1),
    }
}

// What an octet begins in a form.
pub fn sort_in(form: Form, octet: u8) -> Sort
    ensures { SortInPromise form octet result }
{
    match form {
        Form::Eight => sort_eight(octet),
        Form::Seven => sort_seven(octet),
        Form::Basic => sort_basic(octet),
    }
}

fn shifted_seven(octet: u8) -> Sort
    ensures { result ≡ shifted_in Form.Seven octet }
{
    match octet {
        0x20..=0x3F => spacing(octet + 0x80),
        0x41..=0x48 => Sort::Mark(octet + 0x80),
        0x4A..=0x4B => Sort::Mark(octet + 0x80),
        0x4D..=0x4F => Sort::Mark(octet + 0x80),
        0x50..=0x7F => spacing(octet + 0x80),
        0x80..=0xFF => Sort::Refused(5),
        _ => Sort::Refused(1),
    }
}

// What the octet after SS2 is in a form: nothing in one that has no SS2.
pub fn sort_shifted(form: Form, octet: u8) -> Sort
    ensures { SortShiftedPromise form octet result }
{
    match form {
        Form::Eight => Sort::Refused(1),
        Form::Seven => shifted_seven(octet),
        Form::Basic => Sort::Refused(1),
    }
}

// The supplementary octets of the 32 characters from 32 times a page's number on: 0 where there is none.
fn spacing_page(page: u32) -> &'static [u8; 32]
    ensures { result.now ≡ spacing_page page }
{
    match page {
        0x005 => &pages::FROM_00A0,
        0x006 => &pages::FROM_00C0,
        0x007 => &pages::FROM_00E0,
        0x008 => &pages::FROM_0100,
        0x009 => &pages::FROM_0120,
        0x00A => &pages::FROM_0140,
        0x00B => &pages::FROM_0160,
        0x100 => &pages::FROM_2000,
        0x109 => &pages::FROM_2120,
        0x10A => &pages::FROM_2140,
        0x10C => &pages::FROM_2180,
        0x133 => &pages::FROM_2660,
        _ => &[0; 32],
    }
}

// The supplementary octet of a character, looked up in its page.
pub fn find_spacing(c: u32) -> Option<u8>
    ensures { FindSpacingPromise c result }
{
    let page = spacing_page(c / 32);
    let octet = page[(c % 32) as usize];
    if octet == 0 {
        return None;
    }
    Some(octet)
}
