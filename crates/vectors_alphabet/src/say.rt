// The pieces that are printed. Each starts with a space.
use lines::answer::Word;
use sorts::{Form, Sort};
use spelling::Spelling;
use std::fmt;

#[derive(Clone, Copy)]
pub(crate) struct Said<T>(pub(crate) T);

// An octet.
impl fmt::Display for Said<u8> {
    fn fmt<W: fmt::Write>(&self, f: &mut fmt::Formatter<W>) -> fmt::Result {
        let octet = self.0;
        write!(f, " {octet:02X}")
    }
}

// A code point.
impl fmt::Display for Said<u32> {
    fn fmt<W: fmt::Write>(&self, f: &mut fmt::Formatter<W>) -> fmt::Result {
        write!(f, " {}", Word(self.0))
    }
}

impl fmt::Display for Said<Form> {
    fn fmt<W: fmt::Write>(&self, f: &mut fmt::Formatter<W>) -> fmt::Result {
        match self.0 {
            Form::Eight => write!(f, " 1"),
            Form::Seven => write!(f, " 2"),
            Form::Basic => write!(f, " 3"),
        }
    }
}

impl fmt::Display for Said<Sort> {
    fn fmt<W: fmt::Write>(&self, f: &mut fmt::Formatter<W>) -> fmt::Result {
        match self.0 {
            Sort::Graphic(c) => write!(f, " graphic{}", Said(c)),
            Sort::Mark(mark) => write!(f, " mark{}", Said(mark)),
            Sort::Underline => write!(f, " underline"),
            Sort::Shift => write!(f, " shift"),
            Sort::Control => write!(f, " control"),
            Sort::SequenceStart => write!(f, " sequence"),
            Sort::Refused(number) => write!(f, " refused {number}"),
        }
    }
}

// 3: "what follows a mark isn't its listed follower".
impl fmt::Display for Said<Option<u32>> {
    fn fmt<W: fmt::Write>(&self, f: &mut fmt::Formatter<W>) -> fmt::Result {
        match self.0 {
            Some(c) => write!(f, "{}", Said(c)),
            None => write!(f, " refused 3"),
        }
    }
}

impl fmt::Display for Said<Option<Spelling>> {
    fn fmt<W: fmt::Write>(&self, f: &mut fmt::Formatter<W>) -> fmt::Result {
        match self.0 {
            Some(Spelling::One(octet)) => write!(f, "{}", Said(octet)),
            Some(Spelling::Shifted(octet)) => write!(f, " 19{}", Said(octet)),
            Some(Spelling::Pair(mark, letter)) => write!(f, "{}{}", Said(mark), Said(letter)),
            Some(Spelling::ShiftedPair(mark, letter)) => {
                write!(f, " 19{}{}", Said(mark), Said(letter))
            }
            None => write!(f, " unspelt"),
        }
    }
}
