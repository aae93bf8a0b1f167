// What was expected where a number goes wrong: for the words that a refusal is told with.
#![tactic(auto)]

mod expectations;

ghost use Rattle.std.specs.Prelude.{◌≡◌};
ghost use Rattle.expected.specs.Expectations.{expectation_number, told_number};
ghost use Rattle.expected.specs.Expected.{expected_after, run_start, expected_at, expected_of};

use bad_numbers::opens_word;
pub use expectations::{Expectation, NO_EXPECTATION};
use number::is_lexeme;
use refusals::{NOTHING_AFTER_PLUS, NUMBER_GOES_WRONG};
use scan::{after_plus, after_sign, is_stop};

// What can stand behind `x`, with which a number's text begins.
pub fn expected_after(x: &[u8]) -> Expectation
    ensures { expectation_number result ≡ expected_after x.now }
{
    if is_lexeme(x) {
        return Expectation::NothingMore;
    }
    let at = after_sign(x, 0);
    if x.len() <= at {
        return Expectation::NumberOrWord;
    }
    if opens_word(&x[at..]) {
        return Expectation::RestOfWord;
    }
    let last = x[x.len() - 1];
    if (last == b'e') | (last == b'E') {
        Expectation::DigitOrSign
    } else {
        Expectation::ADigit
    }
}

// Where the run of inner bytes begins that ends before `place`.
fn run_start(text: &[u8], place: usize) -> usize
    ensures { result ≡ run_start text.now place }
{
    if text.len() < place {
        return place;
    }
    for i in (0..place).rev() {
        if is_stop(text[i]) {
            return i + 1;
        }
    }
    0
}

// What was expected of the number that goes wrong at `place`: a token begins behind a stop, so the place is enough to find it again.
pub fn expected_at(text: &[u8], place: usize) -> Expectation
    ensures { expectation_number result ≡ expected_at text.now place }
{
    let start = after_plus(text, run_start(text, place));
    if place <= start {
        return Expectation::NumberOrWord;
    }
    expected_after(&text[start..place])
}

// What was expected where a text was refused with `number` at `place`; `None` where nothing is told of it.
pub fn expected_of(text: &[u8], number: u32, place: usize) -> Option<Expectation>
    ensures { told_number result ≡ expected_of text.now number place }
{
    match number {
        NOTHING_AFTER_PLUS => Some(Expectation::NumberOrWord),
        NUMBER_GOES_WRONG => Some(expected_at(text, place)),
        _ => None,
    }
}

// The number of what was expected, as the tables and C have it: 0 where nothing is told.
pub fn number_of(expected: Option<Expectation>) -> u32
    ensures { result ≡ told_number expected }
{
    match expected {
        Some(expectation) => expectation.number(),
        None => NO_EXPECTATION,
    }
}
