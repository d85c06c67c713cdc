// A page off the serial lead, in pieces: the carry between them, and the reader that takes them (document 02, No. 1).
#![tactic(auto)]

ghost use Rattle.std.specs.Prelude.{◌≡◌, ◌+◌, ◌≤◌, length, true};
ghost use Rattle.text_reading.specs.ReadingNumbers.{limit};
ghost use Rattle.serial.specs.Feeding.{could_go, could_end, could_stop, handed_by, kept_by, stopped_by, stops_page, fed_in, words_in};
ghost use Rattle.serial.specs.Promises.{FreshPromise, FeedPromise};

use run::Answer;
use sorts::Form;

// What goes from one call to the next. Every value of it gets an answer, also one that nobody made by `fresh`.
#[repr(C)]
#[derive(Clone, Copy)]
pub struct Carry {
    // since fresh: 0, elements, octets taken, words; of a page that ended or was refused, the answer that is repeated
    pub answer: Answer,
    // since fresh: how many elements did not stand in their canonical spelling; of a page that ended, the number that is repeated
    pub respelled: usize,
    // how many octets of an unfinished element wait
    pub holds: usize,
    // the form's number; 0 before the carry has one
    pub form: u32,
    // 1 where the page ended or was refused, else 0
    pub stopped: u32,
    // the octets that wait, and then zeros
    pub held: [u8; 39],
}

// A call's answer: the carry for the next one, the four numbers, the fifth, and how many words were handed out.
#[repr(C)]
#[derive(Clone, Copy)]
pub struct Fed {
    pub carry: Carry,
    pub answer: Answer,
    // accepted: as the carry has it; refused: 0
    pub respelled: usize,
    pub handed: usize,
}

impl Carry {
    // 02: "A fresh carry holds no octets and has read no elements." It has no form yet.
    pub const FRESH: Carry = Carry {
        answer: Answer {
            number: 0,
            element: 0,
            place: 0,
            count: 0,
        },
        respelled: 0,
        holds: 0,
        form: 0,
        stopped: 0,
        held: [0; 39],
    };

    // A fresh carry of a form. 02: "11 when made fresh".
    pub fn fresh(form: u32) -> Fed
        ensures { FreshPromise form result }
    {
        let Ok(_) = Form::try_from(form) else {
            return Carry::FRESH.kept(run::bare_answer(11));
        };
        let carry = Carry {
            form,
            ..Carry::FRESH
        };
        carry.kept(run::bare_answer(0))
    }

    // Takes the next piece of the page; `ended` where it is the last. In order: 11, the repeated answer, 12, 9, the reading's refusal.
    pub fn feed(self, piece: &[u8], ended: bool, words: &mut [u32]) -> Fed
        ensures { FeedPromise self piece.now ended words.old result words.new }
    {
        let Ok(form) = Form::try_from(self.form) else {
            return self.kept(run::bare_answer(11));
        };
        if self.stopped != 0 {
            if self.could_stop() {
                return self.handed(0);
            }
            return self.kept(run::bare_answer(11));
        }
        if !self.could_go(form) {
            return self.kept(run::bare_answer(11));
        }
        let so_far = self.answer;
        if text_reading::LIMIT - so_far.place < piece.len() {
            return self.stop(run::bare_answer(12), 0, 0);
        }
        self.feed_in(form, piece, ended, words)
    }

    // The answer that the carry has, where so many words are handed out. With none, it is the answer of a page that ended or was refused,
    // again.
    fn handed(self, handed: usize) -> Fed
        ensures { result ≡ handed_by self handed }
    {
        Fed {
            carry: self,
            answer: self.answer,
            respelled: self.respelled,
            handed,
        }
    }

    // An answer that hands out nothing and leaves the carry as it was: a refusal, or what a fresh page answers.
    fn kept(self, answer: Answer) -> Fed
        ensures { result ≡ kept_by self answer }
    {
        Fed {
            answer,
            respelled: 0,
            ..self.handed(0)
        }
    }

    // 02: "Any other refusal, or the final answer, is repeated with nothing handed out until made fresh."
    fn stop(&self, answer: Answer, respelled: usize, handed: usize) -> Fed
        ensures { result ≡ stopped_by self.now.form answer respelled handed }
    {
        let carry = Carry {
            answer,
            respelled,
            form: self.form,
            stopped: 1,
            ..Carry::FRESH
        };
        carry.handed(handed)
    }

    // Whether this carry, of a page that goes on, is read on: its fields keep the bounds that feeding leaves.
    fn could_go(&self, form: Form) -> bool
        ensures { result ≡ could_go form self.now }
    {
        let a = self.answer;
        a.number == 0
            && self.respelled <= a.element
            && self.holds <= 39
            && a.place <= text_reading::LIMIT
            && self.holds <= a.place
            && a.element <= a.place - self.holds
            && a.count <= a.place - self.holds
            && open_elements::is_open(form, &self.held[..self.holds])
    }

    // Whether this carry, of a page that ended or was refused, repeats its answer.
    fn could_stop(&self) -> bool
        ensures { result ≡ could_stop self.now }
    {
        let a = self.answer;
        let most = if a.number == 0 { a.element } else { 0 };
        self.stopped == 1 && self.holds == 0 && self.respelled <= most && could_end(a)
    }

    // Reads a piece that is within the limit, of a page that goes on.
    fn feed_in(&self, form: Form, piece: &[u8], ended: bool, words: &mut [u32]) -> Fed
        requires goes { could_go form self.now ≡ true }
        requires within { self.now.answer.place + length piece.now ≤ limit }
        ensures { (result ≡ fed_in form self.now piece.now ended (length words.old)) × (words.new ≡ words_in form self.now piece.now words.old) }
    {
        let waiting = &self.held[..self.holds];
        let m = open_elements::read_on(form, waiting, piece, words);
        if words.len() < m.words {
            return self.kept(run::short_room(m.words));
        }
        let so_far = self.answer;
        let read = m.answer;
        if stops(read.number, ended) {
            let before = so_far.place - self.holds;
            let fault = Answer {
                number: read.number,
                element: so_far.element + read.element,
                place: before + read.place,
                count: before + read.count,
            };
            return self.stop(fault, 0, m.words);
        }
        let answer = Answer {
            number: 0,
            element: so_far.element + read.element,
            place: so_far.place + piece.len(),
            count: so_far.count + m.words,
        };
        let respelled = self.respelled + m.respelled;
        if ended {
            return self.stop(answer, respelled, m.words);
        }
        let mut held = [0; 39];
        let holds = open_elements::gather(waiting, piece, read.place, &mut held);
        let carry = Carry {
            answer,
            respelled,
            holds,
            form: self.form,
            stopped: 0,
            held,
        };
        carry.handed(m.words)
    }
}

// Whether a page can have ended with this answer.
fn could_end(a: Answer) -> bool
    ensures { result ≡ could_end a }
{
    match a.number {
        0 => a.element <= a.place && a.place <= text_reading::LIMIT && a.count <= a.place,
        1..=8 => a.element <= a.place && a.place <= a.count && a.count <= text_reading::LIMIT,
        12 => a.element == 0 && a.place == 0 && a.count == 0,
        _ => false,
    }
}

// Whether a refusal stops the page: 4 does so at its end alone, since before it the element waits for the next piece.
fn stops(number: usize, ended: bool) -> bool
    ensures { result ≡ stops_page number ended }
{
    match number {
        0 => false,
        4 => ended,
        _ => true,
    }
}
