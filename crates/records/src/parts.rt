// The parts of a record, given what follows its count.
ghost use Rattle.std.specs.Prelude.{◌≡◌, ◌<◌, ◌^◌, drop};
ghost use Rattle.console.specs.Console.{u32_at};
ghost use Rattle.records.specs.Records.{has_text_at};

use console::{U32_BYTES, u32_at};

// A record with a longer text, or with more stored bytes, is too large.
const MAX_TEXT: usize = 131_072;

// One that asks for a longer output is too large.
pub const MAX_OUTPUT: usize = 262_144;

// Where the fields of a record stand behind its letter, and what follows them.
pub const FIRST: usize = 1;

pub const SECOND: usize = FIRST + U32_BYTES;

pub const THIRD: usize = SECOND + U32_BYTES;

// The number that stands at a place, 0 where it isn't there whole.
pub fn field(bytes: &[u8], at: usize) -> usize
    ensures value { result ≡ u32_at bytes.now at }
    ensures upper_bound { result < 2 ^ 32 }
{
    u32_at(bytes, at) as usize
}

// What stands from a place on: nothing where it lies past the end.
pub fn behind(bytes: &[u8], at: usize) -> &[u8]
    ensures { result.now ≡ drop at bytes.now }
{
    &bytes[at.min(bytes.len())..]
}

// Whether a text that isn't too long stands from a place on.
pub fn has_text(bytes: &[u8], at: usize) -> bool
    ensures { result ≡ has_text_at bytes.now at }
{
    if bytes.len() < at {
        return false;
    }
    bytes.len() - at <= MAX_TEXT
}
