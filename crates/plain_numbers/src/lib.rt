// Plain numbers, as most are: digits, perhaps behind a minus and with a point among them, and a stop right behind them.
// They are read here without a token for each; whatever else stands there is left to the tokens.
#![tactic(auto)]

ghost use Rattle.std.specs.Prelude.{◌≡◌};
ghost use Rattle.scan.specs.Runs.{after_one_at};
ghost use Rattle.plain_numbers.specs.Plain.{is_minus, fraction_end, decimal_end, plain_at};

use scan::{after_blank, after_one, digits_end, is_stop};

// Where a plain number ends, and the place to read on from.
#[derive(Clone, Copy)]
pub struct Plain {
    pub end: usize,
    pub next: usize,
}

// The place past a minus at `at`, or `at`.
fn after_minus(text: &[u8], at: usize) -> usize
    ensures { result ≡ after_one_at is_minus text.now at }
{
    after_one(text, at, |b| b == b'-')
}

// Where the point at `at` and the digits behind it end, or `at` where no point stands.
fn fraction_end(text: &[u8], at: usize) -> usize
    ensures { result ≡ fraction_end text.now at }
{
    if text.len() <= at {
        return at;
    }
    if text[at] == b'.' {
        digits_end(text, at + 1)
    } else {
        at
    }
}

// Where the digits that stand at `at` end, with a minus in front and a point among them; none where no digit stands there.
// A plus is no part of them: it is dropped, and the text of such a number starts behind it.
fn decimal_end(text: &[u8], at: usize) -> Option<usize>
    ensures { result ≡ decimal_end text.now at }
{
    let first = after_minus(text, at);
    let whole = digits_end(text, first);
    if whole <= first {
        return None;
    }
    Some(fraction_end(text, whole))
}

// The plain number at `at`, if one stands there.
pub fn plain_number(text: &[u8], at: usize) -> Option<Plain>
    ensures { result ≡ plain_at text.now at }
{
    let end = decimal_end(text, at)?;
    if text.len() <= end {
        return None;
    }
    let b = text[end];
    // Most numbers have a space or a comma behind them.
    if b == b' ' {
        return Some(Plain { end, next: end + 1 });
    }
    if b == b',' {
        return Some(Plain { end, next: end });
    }
    if is_stop(b) {
        return Some(Plain {
            end,
            next: after_blank(text, end),
        });
    }
    None
}
