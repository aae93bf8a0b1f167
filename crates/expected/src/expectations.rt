// What was expected where a number goes wrong, made by tools/refusals from crates/expected/words.txt:
// `specs/Expectations` has the words for each.
ghost use Rattle.std.specs.Prelude.{◌≡◌};
ghost use Rattle.expected.specs.Expectations.{expectation_number};

#[derive(Clone, Copy, PartialEq, Eq)]
pub enum Expectation {
    NothingMore,
    ADigit,
    DigitOrSign,
    NumberOrWord,
    RestOfWord,
}

// The number where nothing was expected.
pub const NO_EXPECTATION: u32 = 0;

impl Expectation {
    // Its number in the tables, from 1 on.
    pub fn number(self) -> u32
        ensures { result ≡ expectation_number self }
    {
        match self {
            Expectation::NothingMore => 1,
            Expectation::ADigit => 2,
            Expectation::DigitOrSign => 3,
            Expectation::NumberOrWord => 4,
            Expectation::RestOfWord => 5,
        }
    }
}
