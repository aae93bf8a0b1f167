// The exact value of a number's text in units of a ten-millionth, rounded down and up. A plain text is passed over once, as nearly all are; any other is given up
// where it isn't plain and passed over once more. Of digits that no u64 holds any more it is only kept how many they are and whether one of them isn't 0.
#![tactic(auto)]

ghost use Rattle.std.specs.Prelude.{◌≡◌, not, ◌||◌, ◌+◌, ◌-◌, ◌*◌, ◌/◌, ◌%◌, ◌^◌, ◌≤◌, ◌<◌, min, eqb, length};
ghost use Rattle.lists.specs.Lists.{every};
ghost use Rattle.scan.specs.Bytes.{is_digit};
ghost use Rattle.scan.specs.Front.{rest, part};
ghost use Rattle.rounding.specs.Rounding.{size_limit};
ghost use Rattle.scan.specs.Runs.{first_not};
ghost use Rattle.decimal.specs.Decimal.{leading, value_of};
ghost use Rattle.decimal.specs.Reckon.{reckoned};
ghost use Rattle.decimal.specs.Code.{tail_of, number_of, fraction_of, Keeps, exponent_of, held, size, size_of, TellsPlain, TellsSize};

use number::are_digits;
use rounding::{NoSides, SIZE_LIMIT, Sides};
use scan::{after_point, after_sign, is_digit};

// How many digits after the point make a unit.
const UNIT_PLACES: usize = 7;

const UNITS_IN_ONE: u64 = 10000000;

// What seven zeros come to if each is taken for its byte, 48.
const SEVEN_NOUGHTS: u64 = 53333328;

// A written exponent up to this size is taken.
const EXPONENT_LIMIT: usize = 9999;

// What an exponent's size is held at: one above the limit.
const EXPONENT_HELD: usize = 10000;

// What a size in units is held at: one above the limit.
const SIZE_HELD: u64 = 100000000000000001;

// So many digits before the point stay below the limit when they are scaled.
const FEW_DIGITS: usize = 10;

// Digits: what the first of them say, how many follow that are not kept, whether one of those isn't 0, and where they end.
// Kept (1): whether something is left over counts beside every value, here and in a size: there is no case without one.
#[derive(Clone, Copy)]
struct Kept {
    value: u64,
    dropped: usize,
    rest: bool,
    end: usize,
}

// A size: whole units, and whether something is left over.
#[derive(Drop)]
struct Size {
    whole: u64,
    rest: bool,
}

// A few digits: what they say, and where they end.
#[derive(Drop)]
struct Run {
    value: u64,
    end: usize,
}

// An exponent's digits: what they say, held at EXPONENT_HELD, and where they end.
#[derive(Drop)]
struct Held {
    size: usize,
    end: usize,
}

// An exponent: whether it lowers the number, and its size, held at EXPONENT_HELD.
#[derive(Drop)]
struct Exponent {
    lowers: bool,
    size: usize,
}

// A plain number: its sign and its size.
#[derive(Drop)]
struct Plain {
    minus: bool,
    size: Size,
}

// Where a window of at most `most` bytes from `from` on ends.
fn window_end(len: usize, from: usize, most: usize) -> usize
    requires { (from ≤ len) × (most ≤ 10) }
    ensures { result ≡ from + min most (len - from) }
{
    if len - from < most { len } else { from + most }
}

// The digits from `from` on, of which none from `to` on is looked at.
fn read_few(w: &[u8], from: usize, to: usize) -> Run
    requires { (from ≤ to) × (to ≤ from + 10) × (to ≤ length w.now) }
    ensures value { result.value ≡ value_of (leading is_digit (part w.now from to)) }
    ensures end { result.end ≡ from + length (leading is_digit (part w.now from to)) }
{
    let mut value: u64 = 0;
    for i in from..to {
        let b = w[i];
        if !is_digit(b) {
            return Run { value, end: i };
        }
        value = value * 10 + ((b - b'0') as u64);
    }
    Run { value, end: to }
}

// Whether all that is left of a text is digits: told four at a time, and then one at a time.
fn all_digits(w: &[u8], from: usize) -> bool
    requires { from ≤ length w.now }
    ensures { result ≡ every is_digit (rest w.now from) }
{
    let len = w.len();
    let mut i = from;
    // Kept (3): `w[from..].iter().all(..)` alone, one at a time, takes 10.1 instructions a byte where this takes 8.2, at numbers with thirty places.
    while 4 <= len - i {
        if !are_digits(&w[i..i + 4]) {
            return false;
        }
        i += 4;
    }
    w[i..].iter().all(|b| is_digit(*b))
}

// What is left of a text that should be digits: whether one of them isn't 0, or none where not all are digits. The first that isn't 0 mostly is the first of
// all, and of those behind it only whether they are digits counts.
fn read_tail(w: &[u8], from: usize) -> Option<bool>
    requires { from ≤ length w.now }
    ensures { result ≡ tail_of (rest w.now from) }
{
    for i in from..w.len() {
        if w[i] != b'0' {
            return if all_digits(w, i) { Some(true) } else { None };
        }
    }
    Some(false)
}

// A value times as many tens as make `places` up to UNIT_PLACES.
fn to_unit(value: u64, places: usize) -> u64
    requires { (places ≤ 7) × (value < 10 ^ places) }
    ensures { (result ≡ value * 10 ^ (7 - places)) × (result < 10 ^ 7) }
{
    value * 10u64.pow((UNIT_PLACES - places) as u32)
}

// What seven digits say, without a test for each: none where not all are digits.
fn read_seven(seven: &[u8]) -> Option<u64>
    requires { length seven.now ≡ 7 }
    ensures { result ≡ number_of seven.now }
{
    let mut all = true;
    let mut raw: u64 = 0;
    for b in seven {
        all = all & is_digit(*b);
        raw = raw * 10 + (*b as u64);
    }
    if all { Some(raw - SEVEN_NOUGHTS) } else { None }
}

// The digits after a point, all that is left of a text, where there are seven or more; none where not all are digits.
fn read_long_fraction(w: &[u8], first: usize) -> Option<Size>
    requires { first + 7 ≤ length w.now }
    ensures { result ≡ fraction_of (rest w.now first) }
{
    let behind = first + UNIT_PLACES;
    let whole = read_seven(&w[first..behind])?;
    let rest = read_tail(w, behind)?;
    Some(Size { whole, rest })
}

// The digits after a point, all that is left of a text: what they come to in units, or none where not all are digits.
fn read_fraction(w: &[u8], first: usize) -> Option<Size>
    requires { first ≤ length w.now }
    ensures { result ≡ fraction_of (rest w.now first) }
{
    let len = w.len();
    if UNIT_PLACES <= len - first {
        return read_long_fraction(w, first);
    }
    let few = read_few(w, first, len);
    if few.end < len {
        return None;
    }
    Some(Size {
        whole: to_unit(few.value, few.end - first),
        rest: false,
    })
}

// A text of digits with at most one point and perhaps a sign, and at most ten digits before the point: by far the most are. It is told in one pass, or not at
// all.
fn read_plain(w: &[u8]) -> Option<Plain>
    ensures { TellsPlain w.now result }
{
    let len = w.len();
    let from = after_sign(w, 0);
    if len <= from {
        return None;
    }
    let minus = w[0] == b'-';
    let whole = read_few(w, from, window_end(len, from, FEW_DIGITS));
    let at = whole.end;
    let units = whole.value * UNITS_IN_ONE;
    if len <= at {
        let size = Size {
            whole: units,
            rest: false,
        };
        return Some(Plain { minus, size });
    }
    if (w[at] != b'.') | (len - from == 1) {
        return None;
    }
    let fraction = read_fraction(w, at + 1)?;
    let size = Size {
        whole: units + fraction.whole,
        rest: fraction.rest,
    };
    Some(Plain { minus, size })
}

// The digits from `before.end` on, where no more are kept: how many they are, and whether one of them isn't 0.
fn drop_digits(w: &[u8], before: Kept) -> Kept
    requires { (size_limit ≤ before.value) × (before.value < 10 * size_limit) × (before.dropped ≤ before.end) × (before.end ≤ length w.now) }
    ensures { Keeps w.now before result }
{
    let mut k = before;
    for b in &w[before.end..] {
        if !is_digit(*b) {
            break;
        }
        k.rest = k.rest | (*b != b'0');
        k.dropped += 1;
        k.end += 1;
    }
    k
}

// The digits from `before.end` on, after those that are kept already: they are kept as long as the number that they say is below the limit.
fn keep_digits(w: &[u8], before: Kept) -> Kept
    requires { (before.value < 10 * size_limit) × (before.dropped ≤ before.end) × (before.end ≤ length w.now) }
    ensures { Keeps w.now before result }
{
    let mut k = before;
    for b in &w[before.end..] {
        if SIZE_LIMIT <= k.value {
            return drop_digits(w, k);
        }
        if !is_digit(*b) {
            break;
        }
        k.value = k.value * 10 + ((*b - b'0') as u64);
        k.end += 1;
    }
    k
}

// The number that the digits from `from` on say, held at EXPONENT_HELD.
fn held_number(w: &[u8], from: usize) -> Held
    requires { from ≤ length w.now }
    ensures size { result.size ≡ min (value_of (leading is_digit (rest w.now from))) 10000 }
    ensures end { result.end ≡ first_not is_digit w.now from }
{
    let mut size: usize = 0;
    for i in from..w.len() {
        let b = w[i];
        if !is_digit(b) {
            return Held { size, end: i };
        }
        size = (size * 10 + ((b - b'0') as usize)).min(EXPONENT_HELD);
    }
    Held { size, end: w.len() }
}

// The exponent at `at`, which ends the text, or 0 where the text ends before it; none where something else stands there.
fn read_exponent(w: &[u8], at: usize) -> Option<Exponent>
    ensures { result ≡ exponent_of (rest w.now at) }
{
    if w.len() <= at {
        return Some(Exponent {
            lowers: false,
            size: 0,
        });
    }
    let b = w[at];
    let is_e = (b == b'e') | (b == b'E');
    if !is_e {
        return None;
    }
    let sign = at + 1;
    let lowers = (sign < w.len()) && (w[sign] == b'-');
    let first = after_sign(w, sign);
    let digits = held_number(w, first);
    if (first < digits.end) & (w.len() <= digits.end) {
        Some(Exponent {
            lowers,
            size: digits.size,
        })
    } else {
        None
    }
}

// A value times so many tens, held at SIZE_HELD.
fn raised(value: u64, tens: usize) -> u64
    requires { value < 10 * size_limit }
    ensures { result ≡ min (value * 10 ^ tens) held }
{
    let mut x = value;
    for _ in 0..tens {
        if (x == 0) | (SIZE_HELD <= x) {
            break;
        }
        x *= 10;
    }
    x.min(SIZE_HELD)
}

// A value divided by so many tens, and whether something is left over, or was before.
fn lowered(value: u64, tens: usize, left: bool) -> Size
    ensures { result ≡ size (value / 10 ^ tens) (left || not (eqb (value % 10 ^ tens) 0)) }
{
    let mut whole = value;
    let mut rest = left;
    for _ in 0..tens {
        if whole == 0 {
            break;
        }
        rest = rest | (whole % 10 != 0);
        whole /= 10;
    }
    Size { whole, rest }
}

// What kept digits come to in units, with so many tens above the line and so many below it.
fn size_of(k: Kept, above: usize, below: usize) -> Size
    requires { k.value < 10 * size_limit }
    ensures { result ≡ size_of k above below }
{
    if below <= above {
        return Size {
            whole: raised(k.value, above - below),
            rest: k.rest,
        };
    }
    lowered(k.value, below - above, k.rest)
}

// The size of a decimal in units, held at SIZE_HELD, from its first digit or its point on: whether it is one is told on the same way.
fn decimal_size(w: &[u8], from: usize) -> Result<Size, NoSides>
    requires { from ≤ length w.now }
    ensures { TellsSize (rest w.now from) result }
{
    let whole = keep_digits(
        w,
        Kept {
            value: 0,
            dropped: 0,
            rest: false,
            end: from,
        },
    );
    let first = after_point(w, whole.end);
    let all = keep_digits(
        w,
        Kept {
            value: whole.value,
            dropped: whole.dropped,
            rest: whole.rest,
            end: first,
        },
    );
    let Some(exponent) = read_exponent(w, all.end) else {
        return Err(NoSides::NoNumber);
    };
    let has_digit = (from < whole.end) | (first < all.end);
    if !has_digit {
        return Err(NoSides::NoNumber);
    }
    if EXPONENT_LIMIT < exponent.size {
        return Err(NoSides::Beyond);
    }
    let above = all.dropped + UNIT_PLACES;
    let below = all.end - first;
    Ok(if exponent.lowers {
        size_of(all, above, below + exponent.size)
    } else {
        size_of(all, above + exponent.size, below)
    })
}

// Any text that isn't told at once: a word, by its first byte behind the sign, or a decimal.
fn reckon_any(w: &[u8]) -> Result<Sides, NoSides>
    ensures { result ≡ reckoned w.now }
{
    let from = after_sign(w, 0);
    if w.len() <= from {
        return Err(NoSides::NoNumber);
    }
    let b = w[from];
    if !(is_digit(b) | (b == b'.')) {
        return Err(if number::is_lexeme(w) {
            NoSides::Named
        } else {
            NoSides::NoNumber
        });
    }
    let minus = w[0] == b'-';
    let size = decimal_size(w, from)?;
    rounding::round(minus, size.whole, size.rest)
}

// What any bytes come to as a number's text in units.
pub fn reckon(w: &[u8]) -> Result<Sides, NoSides>
    ensures { result ≡ reckoned w.now }
{
    match read_plain(w) {
        Some(plain) => rounding::round(plain.minus, plain.size.whole, plain.size.rest),
        None => reckon_any(w),
    }
}
