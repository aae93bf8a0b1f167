// Number texts: what the Rust leaves to `f64`'s `FromStr`, recognised in one pass.
#![tactic(auto)]

ghost use Rattle.std.specs.Prelude.{◌≡◌, ◌≤◌, length};
ghost use Rattle.lists.specs.Lists.{every};
ghost use Rattle.scan.specs.Bytes.{is_digit};
ghost use Rattle.scan.specs.Runs.{first_not};
ghost use Rattle.number.specs.Lexeme.{is_named, is_digits, is_exponent, is_decimal, is_plain, is_lexeme, up_to_stop, from_here};

use scan::{after_point, after_sign, digits_end, is_digit, is_stop, token_end};
use words::same_word;

// Whether a number's text is good, and the place of the blank, mark or end at which it stops.
// Kept (1): the place counts where the text isn't good, too: `token::read_number` reads on from it behind a bad number.
#[derive(Clone, Copy)]
pub struct Lexeme {
    pub good: bool,
    pub end: usize,
}

// Whether `w` is one of the words for what no digits can say.
fn is_named(w: &[u8]) -> bool
    ensures { result ≡ is_named w.now }
{
    same_word(w, b"inf") | same_word(w, b"infinity") | same_word(w, b"nan")
}

// One or more digits from `at` on, and then a stop.
fn read_digits(text: &[u8], at: usize) -> Lexeme
    ensures { result ≡ from_here is_digits text.now at }
{
    let digits = digits_end(text, at);
    let end = token_end(text, digits);
    Lexeme {
        good: (at < digits) & (end <= digits),
        end,
    }
}

// A stop at `at`, or an exponent and then a stop.
fn read_exponent(text: &[u8], at: usize) -> Lexeme
    ensures { result ≡ from_here is_exponent text.now at }
{
    if text.len() <= at {
        return Lexeme {
            good: true,
            end: text.len(),
        };
    }
    let b = text[at];
    if is_stop(b) {
        return Lexeme {
            good: true,
            end: at,
        };
    }
    if (b == b'e') | (b == b'E') {
        return read_digits(text, after_sign(text, at + 1));
    }
    Lexeme {
        good: false,
        end: token_end(text, at),
    }
}

// A decimal without a sign from `at` on, and then a stop.
fn read_decimal(text: &[u8], at: usize) -> Lexeme
    ensures { result ≡ from_here is_decimal text.now at }
{
    let whole = digits_end(text, at);
    let point = after_point(text, whole);
    let fraction = digits_end(text, point);
    let rest = read_exponent(text, fraction);
    let has_digit = (at < whole) | (point < fraction);
    Lexeme {
        good: has_digit & rest.good,
        end: rest.end,
    }
}

// The text from `from` up to the next stop: whether it is a lexeme, and where that stop is.
pub fn read_lexeme(text: &[u8], from: usize) -> Lexeme
    ensures { result ≡ up_to_stop is_lexeme text.now from }
{
    let at = after_sign(text, from);
    if text.len() <= at {
        return Lexeme {
            good: false,
            end: text.len(),
        };
    }
    let b = text[at];
    if is_digit(b) | (b == b'.') {
        return read_decimal(text, at);
    }
    let end = token_end(text, at);
    Lexeme {
        good: is_named(&text[at..end]),
        end,
    }
}

// How many digits behind a point are told at once.
const FOUR: usize = 4;

// Whether all bytes are digits, without a branch for each: it is asked of a few at a time.
pub fn are_digits(few: &[u8]) -> bool
    ensures { result ≡ every is_digit few.now }
{
    let mut all = true;
    for b in few {
        all = all & is_digit(*b);
    }
    all
}

// The place past the digits from `at` on that can be told four at a time.
fn past_fours(w: &[u8], at: usize) -> usize
    requires { at ≤ length w.now }
    ensures { first_not is_digit w.now result ≡ first_not is_digit w.now at }
{
    // From here on no four has room.
    let fours_end = w.len().saturating_sub(FOUR - 1);
    let mut end = at;
    // Kept (3): by `as_chunks` a number's check takes 5 instructions more with up to three places, and 10 more with others, of 73 and of 79 and more.
    while end < fours_end {
        if !are_digits(&w[end..end + FOUR]) {
            return end;
        }
        end += FOUR;
    }
    end
}

// Whether `w` is a lexeme by its digits alone: one that has no exponent and is no word. Who looks at many texts asks this first: it asks less than
// `is_lexeme`.
pub fn is_plain(w: &[u8]) -> bool
    ensures { result ≡ is_plain w.now }
{
    // Many numbers are one digit.
    if w.len() == 1 {
        return is_digit(w[0]);
    }
    let first = after_sign(w, 0);
    let whole = digits_end(w, first);
    if w.len() <= whole {
        return first < whole;
    }
    // A point, with digits up to the end behind it, and one digit at least.
    w[whole] == b'.' && first + 1 < w.len() && w.len() <= digits_end(w, past_fours(w, whole + 1))
}

// Whether `w` is a number's text.
pub fn is_lexeme(w: &[u8]) -> bool
    ensures { result ≡ is_lexeme w.now }
{
    let lexeme = read_lexeme(w, 0);
    lexeme.good & (w.len() <= lexeme.end)
}
