// The canonical spelling of a character in each form of document 01.
#![tactic(auto)]

ghost use Rattle.std.specs.Prelude.{◌≡◌};
ghost use Rattle.spelling.specs.SpellingGiven.{itself, primary_octet, spell_spacing, spell_pair};
ghost use Rattle.spelling.specs.Promises.{SpellInPromise};

use sorts::Form;

// The canonical spelling of a character.
#[derive(Clone, Copy, Debug, PartialEq, Eq)]
pub enum Spelling {
    One(u8),
    // an octet after SS2
    Shifted(u8),
    // a mark and its follower
    Pair(u8, u8),
    // SS2, then a mark and its follower
    ShiftedPair(u8, u8),
}

// 01: "20 to 7E as ASCII": the octet of a character that is its own.
fn ascii_itself(c: u32) -> Option<u8>
    ensures { result ≡ itself c }
{
    match c {
        0x20..=0x7E => Some(c as u8),
        _ => None,
    }
}

// 01: "Form 3: the same without 5C, 5E, 60, 7B, 7D, 7E". It writes the number sign A6 and the dollar sign A4.
fn primary_basic(c: u32) -> Option<u8>
    ensures { result ≡ primary_octet Form.Basic c }
{
    match c {
        0x23 => Some(0xA6),
        0x24 => Some(0xA4),
        0x20..=0x22 => Some(c as u8),
        0x25..=0x5B => Some(c as u8),
        0x5D => Some(0x5D),
        0x5F => Some(0x5F),
        0x61..=0x7A => Some(c as u8),
        0x7C => Some(0x7C),
        _ => None,
    }
}

// The octet of a character that is not among the supplementary ones of forms 1 and 2.
fn primary_octet(form: Form, c: u32) -> Option<u8>
    ensures { result ≡ primary_octet form c }
{
    match form {
        Form::Eight => ascii_itself(c),
        Form::Seven => ascii_itself(c),
        Form::Basic => primary_basic(c),
    }
}

// 01: form 3 has "A1 to A8, AB, B0 to B8, BB to BF, E0 to E4, E6 to FE", and writes the currency sign A8.
fn spacing_basic(octet: u8) -> Option<Spelling>
    ensures { result ≡ spell_spacing Form.Basic octet }
{
    match octet {
        0xA8 => Some(Spelling::One(0xA8)),
        0xA1..=0xA7 | 0xAB | 0xB0..=0xB8 | 0xBB..=0xBF | 0xE0..=0xE4 | 0xE6..=0xFE => Some(
            Spelling::One(octet),
        ),
        _ => None,
    }
}

// 01: form 2 uses the low seven bits after SS2.
fn spell_spacing(form: Form, octet: u8) -> Option<Spelling>
    ensures { result ≡ spell_spacing form octet }
{
    match form {
        Form::Eight => Some(Spelling::One(octet)),
        Form::Seven => Some(Spelling::Shifted(octet % 0x80)),
        Form::Basic => spacing_basic(octet),
    }
}

// 01: form 2 writes SS2 "before the supplementary octet only; the letter of a pair follows bare".
fn spell_pair(form: Form, mark: u8, follower: u8) -> Spelling
    ensures { result ≡ spell_pair form mark follower }
{
    match form {
        Form::Eight => Spelling::Pair(mark, follower),
        Form::Seven => Spelling::ShiftedPair(mark % 0x80, follower),
        Form::Basic => Spelling::Pair(mark, follower),
    }
}

// The canonical spelling of a character in a form: "One octet where the form has one, else the pair."
pub fn spell_in(form: Form, c: u32) -> Option<Spelling>
    ensures { SpellInPromise form c result }
{
    if let Some(o) = primary_octet(form, c) {
        return Some(Spelling::One(o));
    }
    if let Some(o) = sorts::find_spacing(c) {
        return spell_spacing(form, o);
    }
    let (mark, follower) = squares::find_pair(c)?;
    Some(spell_pair(form, mark, follower))
}
