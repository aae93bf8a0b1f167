// The number fields of a stored tree: whether each holds a number's text, and nothing follows the last. A text of at most sixteen bytes is told by one
// look at sixteen bytes, whatever stands behind it, so that the compiler can take all of them at once.
#![tactic(auto)]

ghost use Rattle.std.specs.Prelude.{◌≡◌, true, ◌+◌, ◌≤◌, length, take, drop};
ghost use Rattle.number.specs.Lexeme.{is_lexeme, is_plain};
ghost use Rattle.stored_numbers.specs.Weights.{weight, weigh, sign_width, twos_then_none};
ghost use Rattle.stored_numbers.specs.Looks.{numbers_seen};

use fields::HEAD;
use number::is_lexeme;
use refusals::FAULTY_FIELD;
use scan::{is_digit, is_sign};
use stored_form::{NUMBER_TAG, Refusal, Seen};

// How many bytes are looked at.
const WINDOW: usize = 16;

const TWO_WINDOWS: usize = 32;

// The most that a byte weighs, for each byte of a window; and then nothing, as often. It is laid out once and lent: made anew for each number, it would be
// read before it is all written, and the processor would wait for that.
const LIMITS: [u8; TWO_WINDOWS] =
    *b"\x02\x02\x02\x02\x02\x02\x02\x02\x02\x02\x02\x02\x02\x02\x02\x02\0\0\0\0\0\0\0\0\0\0\0\0\0\0\0\0";

// A digit weighs nothing, a point 1, and any other byte 2: texts of digits and at most one point are those that weigh 1 or less.
fn weight_of(b: u8) -> u8
    ensures { result ≡ weight b }
{
    if is_digit(b) {
        0
    } else if b == b'.' {
        1
    } else {
        2
    }
}

// What the `len` bytes from `from` on weigh together. All sixteen are looked at, but those behind them weigh nothing: the limits, begun so far before their
// middle, have as many twos as there are bytes to weigh.
fn weight_in(text: &[u8], from: usize, len: usize, limits: &[u8; TWO_WINDOWS]) -> u8
    requires { (len ≤ 16) × (from + 16 ≤ length text.now) × (limits.now ≡ twos_then_none) }
    ensures { result ≡ weigh (take len (drop from text.now)) }
{
    let mut sum: u8 = 0;
    for i in 0..WINDOW {
        let limit = limits[WINDOW - len + i];
        sum += weight_of(text[from + i]).min(limit);
    }
    sum
}

// How many bytes a sign takes, if this is one.
fn sign_width(b: u8) -> usize
    ensures { result ≡ sign_width b }
{
    is_sign(b) as usize
}

// Whether the first `len` bytes of a text are told to be digits with at most one point, and perhaps a sign. Of those that aren't told some are too.
fn is_told_plain(text: &[u8], len: usize, limits: &[u8; TWO_WINDOWS]) -> bool
    requires { limits.now ≡ twos_then_none }
    ensures { result ≡ true → is_plain (take len text.now) ≡ true }
{
    if text.len() <= WINDOW {
        return false;
    }
    if len == 1 {
        return is_digit(text[0]);
    }
    if len == 0 {
        return false;
    }
    let from = sign_width(text[0]);
    let left = len - from;
    if WINDOW < left {
        return false;
    }
    let weight = weight_in(text, from, left, limits) as usize;
    (weight <= 1) & (weight < left)
}

// Whether the first `len` bytes of a text are a number's text. Where there are fewer, all of them are meant.
fn front_is_lexeme(text: &[u8], len: usize, limits: &[u8; TWO_WINDOWS]) -> bool
    requires { limits.now ≡ twos_then_none }
    ensures { result ≡ is_lexeme (take len text.now) }
{
    if is_told_plain(text, len, limits) {
        return true;
    }
    if text.len() < len {
        return is_lexeme(text);
    }
    is_lexeme(&text[0..len])
}

// The `count` number fields from `first` on, after which nothing may follow: whether each is a lexeme.
pub fn look_at_numbers(bytes: &[u8], first: usize, count: usize) -> Result<Seen, Refusal>
    ensures { result ≡ numbers_seen bytes.now first count }
{
    let limits = LIMITS;
    let mut good = true;
    let mut at = first;
    for _ in 0..count {
        let Some(end) = fields::field_at(bytes, at, NUMBER_TAG) else {
            return Err(Refusal {
                number: FAULTY_FIELD,
                place: at,
            });
        };
        let start = at + HEAD;
        good &= front_is_lexeme(&bytes[start..], end - start, &limits);
        at = end;
    }
    if at < bytes.len() {
        return Err(Refusal {
            number: FAULTY_FIELD,
            place: at,
        });
    }
    Ok(Seen {
        well: good,
        end: at,
    })
}
