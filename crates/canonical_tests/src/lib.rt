// Whether the octets that were read of an element are its canonical spelling (document 01, "Canonical spelling"; document 02, No. 5).
#![tactic(auto)]

ghost use Rattle.canonical_tests.specs.Promises.{WordIsCanonicalPromise, SequenceIsCanonicalPromise, NotCanonicalPromise};

use sorts::Form;

// Of an element of one word: by the word, the last of its octets, and how many they are. 01: "One octet where the form has one, else the
// pair": in forms 1 and 2 each character of ASCII has one. "Form 3 writes the number sign A6 and the currency sign A8", and not 23 and 24.
pub fn word_is_canonical(form: Form, word: u32, last: u8, size: usize) -> bool
    ensures { WordIsCanonicalPromise form word last size result }
{
    match form {
        Form::Basic => last != 0x23 && last != 0x24,
        _ => 0x80 <= word || size == 1,
    }
}

// Of a control sequence, by its octets: behind 9B each is of the lower half, and no value begins with the digit 0, behind 9B or behind a
// 3B. 02, No. 6: "Canonical spelling uses the lower half"; 01: "Values have no leading zeros, 0 is the empty sub-string".
pub fn sequence_is_canonical(octets: &[u8]) -> bool
    ensures { SequenceIsCanonicalPromise octets.now result }
{
    let [_, behind @ ..] = octets else {
        return true;
    };
    let mut begins = true; // whether a value begins here
    for &o in behind {
        if 0x80 <= o || (begins && o == 0x30) {
            return false;
        }
        begins = o == 0x3B;
    }
    true
}

// What an element adds to the number of those that are not canonical.
pub fn not_canonical(canonical: bool) -> usize
    ensures { NotCanonicalPromise canonical result }
{
    usize::from(!canonical)
}
