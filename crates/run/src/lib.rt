// The four numbers that every answer carries (document 01, "The numbers an answer carries"), and a reading's fifth; writing an octet.
#![tactic(auto)]

ghost use Rattle.run.specs.Promises.{BareAnswerPromise, ShortRoomPromise, ReadingOfPromise, PutPromise};

#[repr(C)]
#[derive(Clone, Copy)]
pub struct Answer {
    // 0: accepted; else why it is refused
    pub number: usize,
    // accepted: how many elements; refused: how many stand before the refused one
    pub element: usize,
    // accepted: the input's length; refused: the place of the refused element's first entry
    pub place: usize,
    // accepted: entries written; 1 to 8: the deciding octet's place; 9: the room needed
    pub count: usize,
}

// The four numbers of a reading or a conversion, and the fifth (document 02, No. 5).
#[repr(C)]
#[derive(Clone, Copy)]
pub struct ReadAnswer {
    pub answer: Answer,
    // accepted: how many elements did not stand in their canonical spelling; refused: 0
    pub respelled: usize,
}

// A refusal that carries no place.
pub fn bare_answer(number: usize) -> Answer
    ensures { BareAnswerPromise number result }
{
    Answer {
        number,
        element: 0,
        place: 0,
        count: 0,
    }
}

// 9: "lent room is short", with the room needed.
pub fn short_room(needed: usize) -> Answer
    ensures { ShortRoomPromise needed result }
{
    Answer {
        number: 9,
        element: 0,
        place: 0,
        count: needed,
    }
}

// An answer with its fifth number. 02: it "is 0 on a refusal".
pub fn reading_of(answer: Answer, respelled: usize) -> ReadAnswer
    ensures { ReadingOfPromise answer respelled result }
{
    if answer.number != 0 {
        return ReadAnswer {
            answer,
            respelled: 0,
        };
    }
    ReadAnswer { answer, respelled }
}

// Writes one octet where there is room for it; the place behind what was written.
pub fn put(out: &mut [u8], at: usize, octet: u8) -> usize
    ensures { PutPromise out.old at octet result out.new }
{
    if at < out.len() {
        out[at] = octet;
        return at + 1;
    }
    at
}
