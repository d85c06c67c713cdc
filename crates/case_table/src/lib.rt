// The header and the table of a TLX case (document 01, "The TLX case"): what they say, asked before any page is read.
#![tactic(auto)]

ghost use Rattle.std.specs.Prelude.{◌≡◌, ◌<◌, get_or};
ghost use Rattle.case_table.specs.Layout.{mark};
ghost use Rattle.case_table.specs.Check.{begins};
ghost use Rattle.case_table.specs.Grammar.{Octets};
ghost use Rattle.case_table.specs.Promises.{NumberPromise, NumberAtPromise, TotalOfPromise, HeaderInPromise, HeaderOfPromise};

use sorts::Form;
use std::error::Error;
use std::fmt;

// What the header of a case says, where header and table are right.
#[derive(Clone, Copy)]
pub struct Header {
    // the form's number
    pub form: u32,
    // how many pages
    pub pages: usize,
}

// Why header or table is refused.
#[derive(Clone, Copy, Debug, PartialEq, Eq)]
pub enum HeaderFault {
    // "case under 8 octets, or wrong mark"
    NoCase,
    // "case version not 1"
    OtherVersion,
    // "form not 1 to 3"
    NoForm,
    // "over 256 pages, or size wrong"
    WrongSize,
}

impl HeaderFault {
    // 01's number of it.
    pub fn number(self) -> usize
        ensures { NumberPromise self result }
    {
        match self {
            HeaderFault::NoCase => 13,
            HeaderFault::OtherVersion => 14,
            HeaderFault::NoForm => 11,
            HeaderFault::WrongSize => 15,
        }
    }
}

// What it is, in 01's words.
impl fmt::Display for HeaderFault {
    ghost use Rattle.std.specs.Prelude.{Some};
    ghost use Rattle.case_table.specs.HeaderNumbers.{fault_text};

    ghost output = { λ fault. Some (fault_text fault) };

    fn fmt<W: fmt::Write>(&self, f: &mut fmt::Formatter<W>) -> fmt::Result {
        match self {
            HeaderFault::NoCase => write!(f, "case under 8 octets, or wrong mark"),
            HeaderFault::OtherVersion => write!(f, "case version not 1"),
            HeaderFault::NoForm => write!(f, "form not 1 to 3"),
            HeaderFault::WrongSize => write!(f, "over 256 pages, or size wrong"),
        }
    }
}

impl Error for HeaderFault {}

// The octet at a place; 0 where there is none.
fn octet_at(octets: &[u8], at: usize) -> u8
    ensures { (result ≡ get_or octets.now at 0) × (result < 0x100) }
{
    octets.get(at).copied().unwrap_or(0)
}

// 01: "big-endian 16-bit": the number in the two octets from a place on; an octet that is not there says 0.
pub fn number_at(octets: &[u8], at: usize) -> usize
    ensures { NumberAtPromise octets.now at result }
{
    if octets.len() <= at {
        return 0;
    }
    let high = octet_at(octets, at);
    let low = octet_at(octets, at + 1);
    u16::from_be_bytes([high, low]) as usize
}

// 01: "Octets 54 4C 58".
fn is_marked(header: &[u8]) -> bool
    ensures { result ≡ begins mark header.now }
{
    header.starts_with(b"TLX")
}

// The first lengths of a table, added up; 0 of more pages than a case may have.
pub fn total_of(table: &[u8], n: usize) -> usize
    ensures { TotalOfPromise table.now n result }
{
    if 256 < n {
        return 0;
    }
    let mut sum = 0;
    for i in 0..n {
        sum += number_at(table, 2 * i);
    }
    sum
}

// What header and table say of a case of so many octets. 01's order of refusals: 13, 14, 11, 15.
pub fn header_in(header: &[u8], table: &[u8], size: usize) -> Result<Header, HeaderFault>
    ensures { HeaderInPromise header.now table.now size result }
{
    if size < 8 || !is_marked(header) {
        return Err(HeaderFault::NoCase);
    }
    if number_at(header, 3) != 1 {
        return Err(HeaderFault::OtherVersion);
    }
    let form = octet_at(header, 5) as u32;
    let Ok(_) = Form::try_from(form) else {
        return Err(HeaderFault::NoForm);
    };
    let pages = number_at(header, 6);
    if 256 < pages || size != 8 + 2 * pages + total_of(table, pages) {
        return Err(HeaderFault::WrongSize);
    }
    Ok(Header { form, pages })
}

// The same of a whole case, cut into its parts.
pub fn header_of(case: &[u8]) -> Result<Header, HeaderFault>
    ensures { HeaderOfPromise case.now result }
{
    if case.len() < 8 {
        return Err(HeaderFault::NoCase);
    }
    header_in(&case[..8], &case[8..], case.len())
}
