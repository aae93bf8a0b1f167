// Where a number goes wrong: the first byte at which no number's text can go on, or the end where more was needed. Only a refusal looks for
// it, so what is already known to be no lexeme is gone through once more, part by part.
#![tactic(auto)]

ghost use Rattle.std.specs.Prelude.{◌≡◌, ◌+◌, ◌≤◌, length};
ghost use Rattle.scan.specs.Front.{rest};
ghost use Rattle.bad_numbers.specs.Openings.{opens_decimal, opens_word, longest, goes_wrong};

use scan::{after_point, after_sign, digits_end, is_digit};
use words::starts_with_word;

// Whether one of the words begins with `w`.
pub fn opens_word(w: &[u8]) -> bool
    ensures { result ≡ opens_word w.now }
{
    starts_with_word(b"inf", w) | starts_with_word(b"infinity", w) | starts_with_word(b"nan", w)
}

// Where what stands at `at` can be no word any more. A word has eight letters at most, so the loop is short.
fn word_end(w: &[u8], at: usize) -> usize
    requires { at ≤ length w.now }
    ensures { result ≡ at + longest opens_word (rest w.now at) }
{
    for end in at..w.len() {
        if !opens_word(&w[at..end + 1]) {
            return end;
        }
    }
    w.len()
}

// Where what stands at `at` can be no decimal any more.
fn decimal_end(w: &[u8], at: usize) -> usize
    requires { at ≤ length w.now }
    ensures { result ≡ at + longest opens_decimal (rest w.now at) }
{
    let whole = digits_end(w, at);
    let point = after_point(w, whole);
    let fraction = digits_end(w, point);
    let has_digit = (at < whole) | (point < fraction);
    if !has_digit {
        return fraction;
    }
    if w.len() <= fraction {
        return fraction;
    }
    let b = w[fraction];
    if (b == b'e') | (b == b'E') {
        let behind = fraction + 1;
        let sign = after_sign(w, behind);
        return digits_end(w, sign);
    }
    fraction
}

// How many bytes of `w` a number's text can begin with: behind them stands the byte to look at, or the end.
pub fn wrong_at(w: &[u8]) -> usize
    ensures { result ≡ goes_wrong w.now }
{
    let at = after_sign(w, 0);
    if w.len() <= at {
        return at;
    }
    let b = w[at];
    if is_digit(b) | (b == b'.') {
        return decimal_end(w, at);
    }
    word_end(w, at)
}
