// An element's spelling as text.
use crate::rooms::{Writer, entries_put, holds, uses_rooms};
use element_words::Element;
use lines::answer::Octets;
use sorts::Form;
use std::alloc::AllocError;

#[derive(Clone, Copy)]
struct Spelling {
    form: Form,
    element: Element,
}

impl Writer for Spelling {
    type Entry = u8;

    fn put(&self, room: &mut [u8], at: usize) -> usize {
        element_spelling::put_spelling(self.form, self.element, room, at)
    }
}

// A space, and the octets that are put, or `-` for none; then `?` where there are more or fewer, or a room is not used as it should be.
pub(crate) fn put_spelling(
    before: &[u8; 64],
    out: &mut String,
    form: Form,
    element: Element,
) -> Result<(), AllocError> {
    let spelling = Spelling { form, element };
    let mut room = *before;
    let end = spelling.put(&mut room, 1);
    let octets = entries_put(&room, element_spelling::spelt_size(form, element));
    if octets.is_empty() {
        write!(out, " -")?;
    } else {
        write!(out, " {}", Octets(octets))?;
    }
    let mut other = *before;
    if !holds(before, &room, end, octets) || !uses_rooms(&spelling, before, &mut other, octets) {
        write!(out, "?")?;
    }
    Ok(())
}
