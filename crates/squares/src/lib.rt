// The squares of the documents: a mark and its follower, and the character of both.
#![tactic(auto)]

mod pages;
mod table;

ghost use Rattle.std.specs.Prelude.{◌≡◌};
ghost use Rattle.squares.specs.Squares.{row_of, pair_page, pair_from};
ghost use Rattle.squares.specs.Promises.{ColumnOfPromise, SquareTablePromise, SquareInPromise, PairedPromise, FindPairPromise};

// The row of a mark, or 13 where the octet is no mark.
fn row_of(mark: u8) -> usize
    ensures { result ≡ row_of mark }
{
    match mark {
        0xC1..=0xC8 => (mark - 0xC1) as usize,
        0xCA..=0xCB => (mark - 0xC2) as usize,
        0xCD..=0xCF => (mark - 0xC3) as usize,
        _ => 13,
    }
}

// The column of a follower, or 53 where the octet is none.
pub fn column_of(follower: u8) -> usize
    ensures { ColumnOfPromise follower result }
{
    match follower {
        0x41..=0x5A => (follower - 0x41) as usize,
        0x61..=0x7A => (follower - 0x47) as usize,
        0x20 => 52,
        _ => 53,
    }
}

// The table of squares.
pub fn square_table() -> &'static [[u16; 53]; 13]
    ensures { SquareTablePromise result.now }
{
    &table::SQUARES
}

// An entry of a lent table of squares: 0 where the square is empty, or past the table.
pub fn square_in(table: &[[u16; 53]; 13], row: usize, column: usize) -> u32
    ensures { SquareInPromise table.now row column result }
{
    if 13 <= row {
        return 0;
    }
    if 53 <= column {
        return 0;
    }
    u32::from(table[row][column])
}

// The character of a mark, as its octet in the eight-bit forms, and a follower.
pub fn paired(mark: u8, follower: u8) -> Option<u32>
    ensures { PairedPromise mark follower result }
{
    let x = square_in(&table::SQUARES, row_of(mark), column_of(follower));
    if x == 0 {
        return None;
    }
    Some(x)
}

// The pairs of the 32 characters from 32 times a page's number on, each as one number: 0x100 times its mark, and its follower; 0 where
// there is none.
fn pair_page(page: u32) -> &'static [u16; 32]
    ensures { result.now ≡ pair_page page }
{
    match page {
        0x02 => &pages::FROM_0040,
        0x03 => &pages::FROM_0060,
        0x05 => &pages::FROM_00A0,
        0x06 => &pages::FROM_00C0,
        0x07 => &pages::FROM_00E0,
        0x08 => &pages::FROM_0100,
        0x09 => &pages::FROM_0120,
        0x0A => &pages::FROM_0140,
        0x0B => &pages::FROM_0160,
        0x16 => &pages::FROM_02C0,
        _ => &[0; 32],
    }
}

// A pair from its number.
fn pair_from(number: u16) -> Option<(u8, u8)>
    ensures { result ≡ pair_from number }
{
    if number == 0 {
        return None;
    }
    let [mark, follower] = number.to_be_bytes();
    Some((mark, follower))
}

// The mark and the follower of a character, looked up in its page.
pub fn find_pair(c: u32) -> Option<(u8, u8)>
    ensures { FindPairPromise c result }
{
    let page = pair_page(c / 32);
    pair_from(page[(c % 32) as usize])
}
