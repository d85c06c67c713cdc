// Prints what the alphabets answer, a line an answer, for the gate to hold against the file `stdout`,
// which is made from a model of the documents and from other decoders' answers, never from our code.
#![tactic(auto)]

mod peers;
mod say;

use peers::print_peer;
use say::Said;
use sorts::{Form, Sort};
use spelling::Spelling;
use std::io;

const FORMS: [Form; 3] = [Form::Eight, Form::Seven, Form::Basic];

const FOLLOWERS: [u8; 53] = *b" ABCDEFGHIJKLMNOPQRSTUVWXYZabcdefghijklmnopqrstuvwxyz";

fn print_form(rt: &impl Print, number: u32) -> io::Result<()> {
    match Form::try_from(number) {
        Ok(form) => println!(rt; "form {number} ={}", Said(form)),
        Err(_) => println!(rt; "form {number} = nothing"),
    }
}

fn print_sorts<SortOf: Fn(u8) -> Sort>(
    rt: &impl Print,
    word: &str,
    form: Form,
    sort_of: SortOf,
) -> io::Result<()>
    requires { SortOf.IsAlwaysCallable sort_of }
{
    for octet in 0..=0xFFu8 {
        let sort = Said(sort_of(octet));
        println!(rt; "{word}{}{} ={sort}", Said(form), Said(octet))?;
    }
    Ok(())
}

// What the first octet is, where it is no mark: then it begins no pair.
fn print_paired(rt: &impl Print, first: Sort, follower: u8) -> io::Result<()> {
    match first {
        Sort::Mark(mark) => println!(rt; "{}", Said(squares::paired(mark, follower))),
        _ => println!(rt; "{}", Said(first)),
    }
}

// The octets before a follower, C0 to CF: form 2 has them as 40 to 4F after SS2.
fn print_pairs(rt: &impl Print, form: Form) -> io::Result<()> {
    for row in 0..16u8 {
        for follower in FOLLOWERS {
            print!(rt; "pair{}", Said(form))?;
            let sort = if let Form::Seven = form {
                print!(rt; " 19{}", Said(0x40 + row))?;
                sorts::sort_shifted(form, 0x40 + row)
            } else {
                print!(rt; "{}", Said(0xC0 + row))?;
                sorts::sort_in(form, 0xC0 + row)
            };
            print!(rt; "{} =", Said(follower))?;
            print_paired(rt, sort, follower)?;
        }
    }
    Ok(())
}

fn print_spelling(rt: &impl Print, form: Form, c: u32, x: Option<Spelling>) -> io::Result<()> {
    println!(rt; "spell{}{} ={}", Said(form), Said(c), Said(x))
}

// Most code points have no spelling, and then there is no line.
fn print_spellings(rt: &impl Print, form: Form) -> io::Result<()> {
    for c in 0..0x3000 {
        let spelling = spelling::spell_in(form, c);
        if spelling.is_some() {
            print_spelling(rt, form, c, spelling)?;
        }
    }
    Ok(())
}

// Past the last code point: no form spells them.
fn print_unspelt(rt: &impl Print, form: Form) -> io::Result<()> {
    for c in [0x110000, 0xFFFFFFFF] {
        print_spelling(rt, form, c, spelling::spell_in(form, c))?;
    }
    Ok(())
}

fn main(rt: HostRuntime) -> io::Result<()> {
    for number in [0, 1, 2, 3, 4, 257, 4294967295] {
        print_form(&rt, number)?;
    }
    for form in FORMS {
        print_sorts(&rt, "sort", form, |octet| sorts::sort_in(form, octet))?;
    }
    for form in FORMS {
        print_sorts(
            &rt,
            "shifted",
            form,
            |octet| sorts::sort_shifted(form, octet),
        )?;
    }
    for form in FORMS {
        print_pairs(&rt, form)?;
    }
    for form in FORMS {
        print_spellings(&rt, form)?;
    }
    for form in FORMS {
        print_unspelt(&rt, form)?;
    }
    print_peer(&rt, "glibc_T61.csv", Form::Basic)?;
    print_peer(&rt, "glibc_ISO6937.csv", Form::Eight)?;
    print_peer(&rt, "glibc_ISO6937-2.csv", Form::Eight)?;
    print_peer(&rt, "wireshark_T61.csv", Form::Basic)?;
    print_peer(&rt, "openldap_T61.csv", Form::Basic)?;
    print_peer(&rt, "zvbi_teletext_G2.csv", Form::Eight)
}
