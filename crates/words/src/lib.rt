// Words, compared without regard to the case of ASCII letters.
#![tactic(auto)]

ghost use Rattle.std.specs.Prelude.{◌≡◌};
ghost use Rattle.words.specs.Words.{upper, same_byte, same_word, starts_word};

// A lower-case ASCII letter as upper case, any other byte as it is.
pub fn to_upper(b: u8) -> u8
    ensures { result ≡ upper b }
{
    b.to_ascii_uppercase()
}

// How far a lower-case ASCII letter stands above its upper case.
const CASE_GAP: u8 = b'a' - b'A';

// Whether two bytes are the same but for the case of an ASCII letter. Most that are the same are so without a look at their case. Of a name's letter, which
// the compiler knows, one test is left: `to_upper(a) == b` in the last place would leave two.
fn same_byte(a: u8, b: u8) -> bool
    ensures { result ≡ same_byte a b }
{
    let raised = to_upper(b);
    a == b || a == raised || (a.is_ascii_lowercase() && a - CASE_GAP == raised)
}

// Whether `w` begins with `name`; no byte after the first that differs is read.
pub fn starts_with_word(w: &[u8], name: &[u8]) -> bool
    ensures { result ≡ starts_word w.now name.now }
{
    if w.len() < name.len() {
        return false;
    }
    // A chain over pairs would do, but of `.skip(1)` in it the check can't tell what is wrong (must-fail/first_byte_passed).
    for i in 0..name.len() {
        if !same_byte(w[i], name[i]) {
            return false;
        }
    }
    true
}

// Whether `w` is `name`.
pub fn same_word(w: &[u8], name: &[u8]) -> bool
    ensures { result ≡ same_word w.now name.now }
{
    w.len() == name.len() && starts_with_word(w, name)
}
