// The TLX case: its pages, read one by one (document 01, "The TLX case"). What `case_table` and `case_writing` have for a user is handed on.
#![tactic(auto)]

ghost use Rattle.std.specs.Prelude.{◌≡◌, ◌+◌, ◌*◌, ◌≤◌, ◌<◌, length, Ok, Err, MatchResult};
ghost use Rattle.element_words.specs.Words.{words_of};
ghost use Rattle.run.specs.Answers.{RoomFor};
ghost use Rattle.case_table.specs.Check.{header_of};
ghost use Rattle.case_table.specs.Grammar.{Octets};
ghost use Rattle.case_table.specs.PagePlaces.{total_before, PartOf};
ghost use Rattle.tlx.specs.CaseReading.{outcome_of, read_case, case_measured, case_respelled, carrying_case, read_case_reading, read_case_words};
ghost use Rattle.tlx.specs.CaseReadingNumbers.{beside};
ghost use Rattle.tlx.specs.Promises.{PageElementsPromise, ReadCasePromise};

pub use case_table::{Header, HeaderFault, header_of};
pub use case_writing::write_case;
use run::{Answer, ReadAnswer};

// The four numbers of an answer, the fifth, and the page beside them (0 in any answer that is not a page's refusal).
#[repr(C)]
#[derive(Clone, Copy)]
pub struct CaseAnswer {
    pub answer: Answer,
    // accepted: how many elements, of all pages, did not stand in their canonical spelling; refused: 0
    pub respelled: usize,
    pub page: usize,
}

impl CaseAnswer {
    // A refusal and the page beside it.
    fn beside(page: usize, answer: Answer) -> CaseAnswer
        ensures { result ≡ beside page answer }
    {
        CaseAnswer {
            answer,
            respelled: 0,
            page,
        }
    }
}

// The pages of a case whose header and table are right.
#[derive(Clone, Copy)]
struct CasePages<'a> {
    case: &'a [u8],
    header: Header,
    ghost right: { header_of case.now ≡ Ok header },
    ghost few: { header.pages ≤ 256 },
    ghost inside: { 8 + 2 * header.pages ≤ length case.now },
}

impl<'a> CasePages<'a> {
    // The pages of a case, or why its header or table is refused.
    fn of(case: &'a [u8]) -> Result<CasePages<'a>, HeaderFault>
        ensures octets { Octets case.now }
        ensures said { MatchResult result (λ pages. pages.case.now ≡ case.now) (λ fault. header_of case.now ≡ Err fault) }
    {
        let header = case_table::header_of(case)?;
        Ok(CasePages { case, header })
    }

    // Where a page starts: behind header, table and the pages before it.
    fn start_of(self, page: usize) -> usize
        requires { page ≤ self.header.pages }
        ensures { result ≡ 8 + 2 * self.entry.header.pages + total_before self.entry.case.now page }
    {
        8 + 2 * self.header.pages + case_table::total_of(&self.case[8..], page)
    }

    // 01: "Every page is read by itself from where it starts in the case": the part of the case that a page is.
    fn part(self, page: usize, start: usize) -> &'a [u8]
        requires inside { page < self.header.pages }
        requires begins { start ≡ 8 + 2 * self.header.pages + total_before self.case.now page }
        ensures { PartOf self.entry.case.now page start result.now }
    {
        let end = start + case_table::number_at(self.case, 8 + 2 * page);
        &self.case[start..end]
    }
}

// One page's answer, as with room enough; where header or table is refused, that refusal. `None` where no page of the case has the number.
pub fn page_elements(case: &[u8], page: usize) -> Option<ReadAnswer>
    ensures { PageElementsPromise case.now page result }
{
    match CasePages::of(case) {
        Err(fault) => Some(run::reading_of(run::bare_answer(fault.number()), 0)),
        Ok(pages) => {
            if pages.header.pages <= page {
                return None;
            }
            let part = pages.part(page, pages.start_of(page));
            Some(text_reading::measure(pages.header.form, part))
        }
    }
}

// The first pass of reading the pages: the answer as with room enough.
fn measure_pages(pages: CasePages) -> CaseAnswer
    ensures { result ≡ carrying_case (case_measured (length pages.entry.case.now) (read_case pages.entry.case.now)) (case_respelled pages.entry.case.now) }
{
    let mut start = pages.start_of(0);
    let mut n = 0;
    let mut count = 0;
    let mut respelled = 0;
    for page in 0..pages.header.pages {
        let part = pages.part(page, start);
        let m = text_reading::measure(pages.header.form, part);
        let alone = m.answer;
        if alone.number != 0 {
            return CaseAnswer::beside(page, alone);
        }
        n += alone.element;
        count += alone.count;
        respelled += m.respelled;
        start += part.len();
    }
    let answer = Answer {
        number: 0,
        element: n,
        place: start,
        count,
    };
    CaseAnswer {
        answer,
        respelled,
        page: 0,
    }
}

// The second pass, where every page is accepted and there is room.
fn fill_pages(pages: CasePages, words: &mut [u32])
    requires { RoomFor words_of (length words.old) (outcome_of (read_case pages.case.now)) }
    ensures { words.new ≡ read_case_words pages.entry.case.now words.old }
{
    let mut start = pages.start_of(0);
    let mut next = 0;
    for page in 0..pages.header.pages {
        let part = pages.part(page, start);
        let a = text_reading::read(pages.header.form, part, &mut words[next..]);
        next += a.answer.count;
        start += part.len();
    }
}

// Reads the pages of a case whose header and table are right: measured first, and then filled in.
fn read_pages(pages: CasePages, words: &mut [u32]) -> CaseAnswer
    ensures { (result ≡ read_case_reading pages.entry.case.now (length words.old)) × (words.new ≡ read_case_words pages.entry.case.now words.old) }
{
    let a = measure_pages(pages);
    let numbers = a.answer;
    if numbers.number != 0 {
        return a;
    }
    let count = numbers.count;
    if words.len() < count {
        return CaseAnswer::beside(0, run::short_room(count));
    }
    fill_pages(pages, words);
    a
}

// Reads a case. 01's order of refusals: 13, 14, 11, 15, the pages from the first, 9.
pub fn read_case(case: &[u8], words: &mut [u32]) -> CaseAnswer
    ensures { ReadCasePromise case.now words.old result words.new }
{
    match CasePages::of(case) {
        Err(fault) => CaseAnswer::beside(0, run::bare_answer(fault.number())),
        Ok(pages) => read_pages(pages, words),
    }
}
