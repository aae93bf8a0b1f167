// Signed numbers: a minus where they are negative, and their size.
ghost use Rattle.std.specs.Prelude.{◌≡◌, ◌∷◌, [], ◌%◌, nat_abs};
ghost use Rattle.io.specs.Digits.{hex_digit_ascii};
ghost use Rattle.printing.specs.Printing.{Prints};
ghost use Rattle.signed_lines.specs.Signed.{sign, signed, spaced_signed, fraction, units, spaced_units};

use printing::Out;

// How many units a whole has.
const UNITS: usize = 10_000_000;

const TEN: usize = 10;

// A number without its sign.
pub fn size_of(number: i64) -> usize
    ensures { result ≡ nat_abs number }
{
    number.unsigned_abs() as usize
}

// A minus, if the number is negative.
fn put_sign(out: &mut Out, number: i64)
    ensures { Prints (sign number) out.old out.new }
{
    if number < 0 {
        out.put(b"-");
    }
}

// Puts a signed number: `-25`.
pub fn put_signed(out: &mut Out, number: i64)
    ensures { Prints (signed number) out.old out.new }
{
    put_sign(out, number);
    out.put_number(size_of(number));
}

// Puts a space, and then a signed number.
pub fn put_spaced_signed(out: &mut Out, number: i64)
    ensures { Prints (spaced_signed number) out.old out.new }
{
    out.put(b" ");
    put_signed(out, number);
}

// The last digit of a number.
fn digit(number: usize) -> u8
    ensures { result ≡ hex_digit_ascii (number % 10) }
{
    b'0' + ((number % TEN) as u8)
}

// A point, and the last seven digits of a size.
fn put_fraction(out: &mut Out, size: usize)
    ensures { Prints (fraction size ∷ []) out.old out.new }
{
    let six = size / TEN;
    let five = six / TEN;
    let four = five / TEN;
    let three = four / TEN;
    let two = three / TEN;
    let one = two / TEN;
    let places = [
        b'.',
        digit(one),
        digit(two),
        digit(three),
        digit(four),
        digit(five),
        digit(six),
        digit(size),
    ];
    out.put(&places);
}

// Puts units, of which there are ten million in a whole, as a decimal with seven places: -25000000 of them are `-2.5000000`.
pub fn put_units(out: &mut Out, number: i64)
    ensures { Prints (units number) out.old out.new }
{
    let size = size_of(number);
    put_sign(out, number);
    out.put_number(size / UNITS);
    put_fraction(out, size);
}

// Puts a space, and then units.
pub fn put_spaced_units(out: &mut Out, number: i64)
    ensures { Prints (spaced_units number) out.old out.new }
{
    out.put(b" ");
    put_units(out, number);
}
