// The lent rooms: what they are filled with before a call, and what stands in them after it.
ghost use Rattle.std.specs.Prelude.{◌≡◌, ◌≤◌, ◌+◌, ◌%◌, ℕ, length, slice_get, true, vec_len, IfOk, IfSome, IsTrue};

use crate::answer::{Octets, Words};
use std::alloc::{AllocError, Global};
use std::fmt;
use std::fmt::Display;

// What a room has: octets or words.
pub trait Entry: Copy + PartialEq {
    // What `before` gives.
    ghost stands: { ℕ → Self };

    // What stands at a place before a call: nothing that a call puts.
    fn before(place: usize) -> Self
        ensures { result ≡ stands place };

    // The entries as text.
    fn list<W: fmt::Write>(entries: &[Self], f: &mut fmt::Formatter<W>) -> fmt::Result;
}

// 80 to 8A, which no form has.
impl Entry for u8 {
    ghost stands = { λ place. 0x80 + place % 11 };

    fn before(place: usize) -> u8 {
        0x80 + (place % 11) as u8
    }

    fn list<W: fmt::Write>(entries: &[u8], f: &mut fmt::Formatter<W>) -> fmt::Result {
        Octets(entries).fmt(f)
    }
}

// In no element, and another at each place.
impl Entry for u32 {
    ghost stands = { λ place. 0xF0000000 + place % 0x10000 };

    fn before(place: usize) -> u32 {
        0xF0000000 + (place % 0x10000) as u32
    }

    fn list<W: fmt::Write>(entries: &[u32], f: &mut fmt::Formatter<W>) -> fmt::Result {
        Words(entries).fmt(f)
    }
}

// Puts at each place what stands there before a call.
pub fn fill<E: Entry>(room: &mut [E])
    ensures length { length room.new ≡ length room.old }
    ensures stands { (k : ℕ) → IfSome (slice_get room.new k) (λ e. e ≡ E.stands k) }
{
    for place in 0..room.len() {
        room[place] = E::before(place);
    }
}

pub fn room<E: Entry>(alloc: Global, size: usize) -> Result<Vec<E>, AllocError>
    ensures size { IfOk result (λ v. vec_len v ≡ size) }
    ensures stands { IfOk result (λ v. (k : ℕ) → IfSome (slice_get v.items k) (λ e. e ≡ E.stands k)) }
{
    let mut room = Vec::new(alloc);
    room.resize(size, E::before(0))?;
    fill(&mut room);
    Ok(room)
}

// Whether the entries from `from` on are those from before the call.
pub fn keeps<E: Entry>(room: &[E], from: usize) -> bool
    ensures past_end { length room.now ≤ from → IsTrue result }
    ensures kept { IsTrue result → ((k : ℕ) → IfSome (slice_get room.now (from + k)) (λ e. E.eq e (E.stands (from + k)) ≡ true)) }
{
    for place in from..room.len() {
        if room[place] != E::before(place) {
            return false;
        }
    }
    true
}

// The first `count` entries; then `?` where there are fewer, or where one after them is not as it was before the call.
#[derive(Clone, Copy)]
pub struct Put<'a, E> {
    pub room: &'a [E],
    pub count: usize,
}

impl<E: Entry> fmt::Display for Put<'_, E> {
    fn fmt<W: fmt::Write>(&self, f: &mut fmt::Formatter<W>) -> fmt::Result {
        let room = self.room;
        let Some(entries) = room.get(..self.count) else {
            return f.write_str("?");
        };
        E::list(entries, f)?;
        if !keeps(room, self.count) {
            f.write_str("?")?;
        }
        Ok(())
    }
}
