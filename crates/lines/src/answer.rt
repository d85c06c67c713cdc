// Answers, and answers as text: each type is printed as the lines of the vectors have it.
ghost use Rattle.std.specs.Prelude.{◌≡◌, ◌+◌, ◌≤◌, length, true};
ghost use Rattle.lines.specs.Ascii.{all_ascii};

use run::{Answer, ReadAnswer};
use std::fmt;
use std::fmt::Display;

// The answer to a vector that the program has no room for.
pub fn unasked() -> Answer {
    Answer {
        number: 99,
        element: 0,
        place: 0,
        count: 0,
    }
}

// How many entries are written: none by a refusal.
pub fn written(answer: Answer) -> usize {
    if answer.number == 0 { answer.count } else { 0 }
}

// The digits of each octet, one after another.
static DIGITS: &str = "000102030405060708090A0B0C0D0E0F101112131415161718191A1B1C1D1E1F\
    202122232425262728292A2B2C2D2E2F303132333435363738393A3B3C3D3E3F\
    404142434445464748494A4B4C4D4E4F505152535455565758595A5B5C5D5E5F\
    606162636465666768696A6B6C6D6E6F707172737475767778797A7B7C7D7E7F\
    808182838485868788898A8B8C8D8E8F909192939495969798999A9B9C9D9E9F\
    A0A1A2A3A4A5A6A7A8A9AAABACADAEAFB0B1B2B3B4B5B6B7B8B9BABBBCBDBEBF\
    C0C1C2C3C4C5C6C7C8C9CACBCCCDCECFD0D1D2D3D4D5D6D7D8D9DADBDCDDDEDF\
    E0E1E2E3E4E5E6E7E8E9EAEBECEDEEEFF0F1F2F3F4F5F6F7F8F9FAFBFCFDFEFF";

// The two digits from a place on.
fn two_digits(digits: &str, at: usize) -> &str
    requires ascii { all_ascii digits.now ≡ true }
    requires within { at + 2 ≤ length digits.now }
{
    &digits[at..at + 2]
}

fn write_octet<W: fmt::Write>(f: &mut fmt::Formatter<W>, octet: u32) -> fmt::Result {
    f.write_str(two_digits(DIGITS, (octet % 0x100) as usize * 2))
}

// The last four digits.
fn write_four<W: fmt::Write>(f: &mut fmt::Formatter<W>, number: u32) -> fmt::Result {
    write_octet(f, number / 0x100)?;
    write_octet(f, number)
}

fn write_eight<W: fmt::Write>(f: &mut fmt::Formatter<W>, number: u32) -> fmt::Result {
    write_four(f, number / 0x10000)?;
    write_four(f, number)
}

// In four digits, or in eight where four do not hold it.
#[derive(Clone, Copy)]
pub struct Word(pub u32);

impl fmt::Display for Word {
    fn fmt<W: fmt::Write>(&self, f: &mut fmt::Formatter<W>) -> fmt::Result {
        let word = self.0;
        if word < 0x10000 {
            write_four(f, word)
        } else {
            write_eight(f, word)
        }
    }
}

// In two digits, or in four where two do not hold it, or in sixteen.
#[derive(Clone, Copy)]
pub struct Place(pub usize);

impl fmt::Display for Place {
    fn fmt<W: fmt::Write>(&self, f: &mut fmt::Formatter<W>) -> fmt::Result {
        let place = self.0;
        match place {
            0..=0xFF => write_octet(f, place as u32),
            0x100..=0xFFFF => write_four(f, place as u32),
            _ => {
                write_eight(f, (place / 0x100000000) as u32)?;
                write_eight(f, (place % 0x100000000) as u32)
            }
        }
    }
}

// In two decimal digits, or `**` where two do not hold it.
#[derive(Clone, Copy)]
pub struct Number(pub usize);

impl fmt::Display for Number {
    fn fmt<W: fmt::Write>(&self, f: &mut fmt::Formatter<W>) -> fmt::Result {
        let number = self.0;
        if 100 <= number {
            f.write_str("**")
        } else {
            write_octet(f, (number / 10 * 16 + number % 10) as u32)
        }
    }
}

// The four numbers.
#[derive(Clone, Copy)]
pub struct Numbers(pub Answer);

impl fmt::Display for Numbers {
    fn fmt<W: fmt::Write>(&self, f: &mut fmt::Formatter<W>) -> fmt::Result {
        let Answer {
            number,
            element,
            place,
            count,
        } = self.0;
        write!(f, "{} {} ", Number(number), Place(element))?;
        write!(f, "{} {}", Place(place), Place(count))
    }
}

// The five numbers of a reading or a conversion.
#[derive(Clone, Copy)]
pub struct Reading(pub ReadAnswer);

impl fmt::Display for Reading {
    fn fmt<W: fmt::Write>(&self, f: &mut fmt::Formatter<W>) -> fmt::Result {
        let ReadAnswer { answer, respelled } = self.0;
        write!(f, "{} {}", Numbers(answer), Place(respelled))
    }
}

// A refusal of one element: its number, place and count.
#[derive(Clone, Copy)]
pub struct Refusal {
    pub number: usize,
    pub place: usize,
    pub count: usize,
}

impl fmt::Display for Refusal {
    fn fmt<W: fmt::Write>(&self, f: &mut fmt::Formatter<W>) -> fmt::Result {
        let Refusal {
            number,
            place,
            count,
        } = *self;
        write!(f, "!{} {} {}", Number(number), Place(place), Place(count))
    }
}

// 00, or 01 where the element was not canonical.
#[derive(Clone, Copy)]
pub struct Canonical(pub bool);

impl fmt::Display for Canonical {
    fn fmt<W: fmt::Write>(&self, f: &mut fmt::Formatter<W>) -> fmt::Result {
        f.write_str(if self.0 { "00" } else { "01" })
    }
}

// The octets as `C265`.
#[derive(Clone, Copy)]
pub struct Octets<'a>(pub &'a [u8]);

impl fmt::Display for Octets<'_> {
    fn fmt<W: fmt::Write>(&self, f: &mut fmt::Formatter<W>) -> fmt::Result {
        for octet in self.0 {
            write_octet(f, u32::from(*octet))?;
        }
        Ok(())
    }
}

// The words as `04006D01 0004`.
#[derive(Clone, Copy)]
pub struct Words<'a>(pub &'a [u32]);

impl fmt::Display for Words<'_> {
    fn fmt<W: fmt::Write>(&self, f: &mut fmt::Formatter<W>) -> fmt::Result {
        for (k, word) in self.0.iter().enumerate() {
            if k != 0 {
                f.write_str(" ")?;
            }
            Word(*word).fmt(f)?;
        }
        Ok(())
    }
}
