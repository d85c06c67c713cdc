// Whether what puts an element's entries at a place of a room uses the room as it should. What stands in the room before a call is lent.
ghost use Rattle.std.specs.Prelude.{◌≡◌, length};

// What puts an element's entries: its words, or its octets in a form.
pub(crate) trait Writer {
    type Entry: Copy + PartialEq;

    fn put(&self, room: &mut [Self::Entry], at: usize) -> usize;
}

// The first `count` entries from entry 1 on.
pub(crate) fn entries_put<E>(room: &[E], count: usize) -> &[E] {
    let entries = room.get(1..).unwrap_or_default();
    entries.get(..count).unwrap_or(entries)
}

// All entries are looked at, whatever the first is: so many are compared at once.
fn is_same<E: Copy + PartialEq>(ours: &[E], theirs: &[E]) -> bool {
    if ours.len() != theirs.len() {
        return false;
    }
    let mut same = true;
    for place in 0..ours.len() {
        same &= ours[place] == theirs[place];
    }
    same
}

// Whether just these stand from entry 1 on, where the writer ended at `end`, and the other entries are as before.
pub(crate) fn holds<E: Copy + PartialEq>(
    before: &[E],
    room: &[E],
    end: usize,
    wanted: &[E],
) -> bool {
    match (room.split_at_checked(end), before.split_at_checked(end)) {
        (Some(([first, put @ ..], after)), Some(([first_before, ..], after_before))) => {
            *first == *first_before && is_same(put, wanted) && is_same(after, after_before)
        }
        _ => false,
    }
}

// At that place of so many entries nothing is put.
fn refuses<W: Writer>(
    writer: &W,
    before: &[W::Entry],
    room: &mut [W::Entry],
    size: usize,
    at: usize,
) -> bool
    requires { length room.old ≡ length before.now }
{
    room.copy_from_slice(before);
    match room.get_mut(..size) {
        Some(lent) => writer.put(lent, at) == at && is_same(room, before),
        None => false,
    }
}

// From entry 1 of so many on just these are put.
fn puts<W: Writer>(
    writer: &W,
    before: &[W::Entry],
    room: &mut [W::Entry],
    size: usize,
    wanted: &[W::Entry],
) -> bool
    requires { length room.old ≡ length before.now }
{
    room.copy_from_slice(before);
    match room.get_mut(..size) {
        Some(lent) => {
            let end = writer.put(lent, 1);
            holds(before, room, end, wanted)
        }
        None => false,
    }
}

// Just these are put where there is room for them alone; none with one entry too few, or where the place is far past the room.
pub(crate) fn uses_rooms<W: Writer>(
    writer: &W,
    before: &[W::Entry],
    room: &mut [W::Entry],
    wanted: &[W::Entry],
) -> bool
    requires { length room.old ≡ length before.now }
{
    let size = wanted.len();
    puts(writer, before, room, size.saturating_add(1), wanted)
        && (size == 0 || refuses(writer, before, room, size, 1))
        && refuses(writer, before, room, before.len(), usize::MAX)
}
