// What a reader of whole texts looks into: what each octet of a form is by itself, and the squares.
#![tactic(auto)]

mod codes;

ghost use Rattle.std.specs.Prelude.{◌≡◌};
ghost use Rattle.sorts.specs.declared.Form.{Form};
ghost use Rattle.squares.specs.Squares.{square_table};
ghost use Rattle.lent_tables.specs.CodeTables.{code_table};
ghost use Rattle.lent_tables.specs.Promises.{CodeTablePromise, CodeInPromise, PairedInPromise};
ghost use Rattle.lent_tables.specs.Promises.{OfFormPromise, FormPromise, CodePromise, PairPromise};

use sorts::Form;
use std::marker::Model;

// What an octet is by itself, as one number: the code point of a spacing character whose canonical spelling it is; from here on a mark's
// row, and 13 where it is neither.
pub const NO_CHARACTER: u32 = 0x8000;

// From here on the octet is neither such a spacing character nor a mark: 23 and 24 of form 3 are among these.
pub const NEITHER: u32 = NO_CHARACTER + 13;

// The table of what each octet of a form is by itself.
pub fn code_table(form: Form) -> &'static [u16; 256]
    ensures { CodeTablePromise form result.now }
{
    match form {
        Form::Eight => &codes::EIGHT,
        Form::Seven => &codes::SEVEN,
        Form::Basic => &codes::BASIC,
    }
}

// What an octet is by itself, by a lent table.
pub fn code_in(table: &[u16; 256], octet: u8) -> u32
    ensures { CodeInPromise table.now octet result }
{
    u32::from(table[octet as usize])
}

// The character of a mark, as `code_in` gave it, and a follower, by a lent table: 0 where there is none.
pub fn paired_in(table: &[[u16; 53]; 13], code: u32, follower: u8) -> u32
    ensures { PairedInPromise table.now code follower result }
{
    if code < NO_CHARACTER {
        return 0;
    }
    squares::square_in(
        table,
        code as usize - NO_CHARACTER as usize,
        squares::column_of(follower),
    )
}

// What reads the texts of a form: the form, with its tables at hand. In a clause it is the form.
#[derive(Drop)]
pub struct Reader {
    form: Form,
    codes: &'static [u16; 256],
    squares: &'static [[u16; 53]; 13],
}

impl Model for Reader {
    ghost Value = { Form };

    ghost view = { λ r. r.form };

    ghost invariant = { λ r. (r.codes.now ≡ code_table r.form) × (r.squares.now ≡ square_table) };
}

impl Reader {
    pub fn of_form(form: Form) -> Reader
        ensures { OfFormPromise form result }
    {
        Reader {
            form,
            codes: code_table(form),
            squares: squares::square_table(),
        }
    }

    pub fn form(&self) -> Form
        ensures { FormPromise self.now result }
    {
        self.form
    }

    // What an octet of the form is by itself.
    pub fn code(&self, octet: u8) -> u32
        ensures { CodePromise self.now octet result }
    {
        code_in(self.codes, octet)
    }

    // The character of a mark, as `code` gave it, and a follower: 0 where there is none.
    pub fn pair(&self, code: u32, follower: u8) -> u32
        ensures { PairPromise self.now code follower result }
    {
        paired_in(self.squares, code, follower)
    }
}
