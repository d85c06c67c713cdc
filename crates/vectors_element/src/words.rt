// An element's parts as text, and whether the words that `put_words` puts are these parts.
use crate::rooms::{Writer, holds, uses_rooms};
use element_words::Element;
use lines::answer::Word;
use std::alloc::{AllocError, Global};
use std::iter;

#[derive(Clone, Copy)]
struct Words(Element);

impl Writer for Words {
    type Entry = u32;

    fn put(&self, room: &mut [u32], at: usize) -> usize {
        element_words::put_words(self.0, room, at)
    }
}

// The word, or the head and the values.
fn words_of(alloc: Global, e: Element) -> Result<Vec<u32>, AllocError> {
    match e {
        Element::One(word) => iter::once(word).collect(alloc),
        Element::Sequence {
            head,
            count,
            values,
        } => iter::once(head)
            .chain(values.iter().copied().take(count))
            .collect(alloc),
    }
}

// "zeros past the number of values", which is no more than eight.
fn has_zeros_past(e: Element) -> bool {
    match e {
        Element::One(_) => true,
        Element::Sequence { count, values, .. } => {
            count <= values.len() && values.iter().skip(count).all(|value| *value == 0)
        }
    }
}

// Whether they are the words that are put, and so many, and a room is used as it should be.
fn is_put(before: &[u32; 16], e: Element, words: &[u32]) -> bool {
    let mut room = *before;
    let end = Words(e).put(&mut room, 1);
    let is_whole = element_words::words_in(e) == words.len() && has_zeros_past(e);
    let holds_them = holds(before, &room, end, words);
    is_whole && holds_them && uses_rooms(&Words(e), before, &mut room, words)
}

// The words, a space after each; then `?` where the element's words are others.
pub(crate) fn put_element(
    alloc: Global,
    before: &[u32; 16],
    out: &mut String,
    e: Element,
) -> Result<(), AllocError> {
    let words = words_of(alloc, e)?;
    for word in words.iter() {
        write!(out, "{} ", Word(*word))?;
    }
    if !is_put(before, e, &words) {
        write!(out, "?")?;
    }
    Ok(())
}
