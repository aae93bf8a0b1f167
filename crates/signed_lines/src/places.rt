// The places of a table of signed numbers.
ghost use Rattle.std.specs.Prelude.{◌≡◌, pos, get_or};
ghost use Rattle.printing.specs.Printing.{Prints};
ghost use Rattle.signed_lines.specs.Places.{each_signed, signed_left};

use crate::numbers::put_spaced_signed;
use printing::Out;

// The number at a place, 0 where there is none.
pub fn number_at(table: &[i64], at: usize) -> i64
    ensures { result ≡ get_or table.now at (pos 0) }
{
    table.get(at).copied().unwrap_or(0)
}

// Puts the first places of a table, each after a space.
pub fn put_signed_places(out: &mut Out, table: &[i64], used: usize)
    ensures { Prints (each_signed table.now used) out.old out.new }
{
    let places = &table[..used.min(table.len())];
    for n in places {
        put_spaced_signed(out, *n);
    }
}

// How many places from `from` on aren't zero.
pub fn signed_left(table: &[i64], from: usize) -> usize
    ensures { result ≡ signed_left table.now from }
{
    let rest = &table[from.min(table.len())..];
    rest.iter().filter(|n| **n != 0).count()
}
