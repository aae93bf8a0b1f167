// Sizes in units with their sign, rounded down and up.
#![tactic(auto)]

ghost use Rattle.std.specs.Prelude.{◌≡◌, ◌+◌, ◌≤◌, pos, neg_ℤ};
ghost use Rattle.rounding.specs.Rounding.{size_limit, outward, sides, low_of, high_of, is_over, rounded};

// A size up to so many units is taken.
pub const SIZE_LIMIT: u64 = 100000000000000000;

// The whole units next to a number: the highest that isn't above it, and the lowest that isn't below it.
#[derive(Clone, Copy, PartialEq, Eq)]
pub struct Sides {
    pub low: i64,
    pub high: i64,
}

// Why a number's text has no sides: it is a word, which no digits say; it is a decimal beyond the limits; or it is no number's text.
#[derive(Clone, Copy, PartialEq, Eq)]
pub enum NoSides {
    Named,
    Beyond,
    NoNumber,
}

fn outward_of(whole: u64, left: bool) -> u64
    requires { whole ≤ size_limit }
    ensures { (result ≡ outward whole left) × (result ≤ size_limit + 1) }
{
    if left { whole + 1 } else { whole }
}

fn positive(n: u64) -> i64
    requires { n ≤ size_limit + 1 }
    ensures { result ≡ pos n }
{
    n as i64
}

fn negative(n: u64) -> i64
    requires { n ≤ size_limit + 1 }
    ensures { result ≡ neg_ℤ (pos n) }
{
    -(n as i64)
}

// The low side is rounded down and the high one up.
fn sides_of(minus: bool, whole: u64, left: bool) -> Sides
    requires { whole ≤ size_limit }
    ensures { result ≡ sides (low_of minus whole left) (high_of minus whole left) }
{
    let far = outward_of(whole, left);
    if minus {
        let low = negative(far);
        let high = negative(whole);
        return Sides { low, high };
    }
    let low = positive(whole);
    let high = positive(far);
    Sides { low, high }
}

fn is_over(whole: u64, left: bool) -> bool
    ensures { result ≡ is_over whole left }
{
    if left {
        SIZE_LIMIT <= whole
    } else {
        SIZE_LIMIT < whole
    }
}

// The sides of a size of so many whole units, and whether something is left over; or it is beyond the limit.
pub fn round(minus: bool, whole: u64, left: bool) -> Result<Sides, NoSides>
    ensures { result ≡ rounded minus whole left }
{
    if is_over(whole, left) {
        return Err(NoSides::Beyond);
    }
    Ok(sides_of(minus, whole, left))
}
