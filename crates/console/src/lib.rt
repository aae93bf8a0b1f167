// What the programs have in common: their input limit, their rooms, standard input, the line of a refusal, and the
// numbers of records.
#![tactic(auto)]

ghost use Rattle.std.specs.Prelude.{◌≡◌, length};
ghost use Rattle.io.specs.Counts.{IsPrefixLen};
ghost use Rattle.printing.specs.Printing.{Prints};
ghost use Rattle.console.specs.Console.{is_over_input, room_for_nodes, room_for_numbers, counts_line, refusal_line, too_long_line, u32_at};

use printing::{Out, STDIN_FILENO};
use refusals::TEXT_TOO_LONG;
use store::{NODE_WIDTH, NUMBER_WIDTH};

// The most bytes that a program reads as a text. It stays where it is when the library's limit moves.
pub const INPUT_LIMIT: usize = 65_535;

// One byte more: what lies behind it is left unread.
pub const INPUT_BYTES: usize = INPUT_LIMIT + 1;

pub const NODE_ROWS: usize = 1_024;

pub const NUMBER_ROWS: usize = 4_096;

pub const NODE_PLACES: usize = NODE_ROWS * NODE_WIDTH;

pub const NUMBER_PLACES: usize = NUMBER_ROWS * NUMBER_WIDTH;

// The rooms are those of the definitions: whoever takes the constants has this contract for them.
pub fn node_rows() -> usize
    ensures { result ≡ room_for_nodes }
{
    NODE_ROWS
}

pub fn number_rows() -> usize
    ensures { result ≡ room_for_numbers }
{
    NUMBER_ROWS
}

// Whether a text is longer than a program reads.
pub fn is_over(text: &[u8]) -> bool
    ensures { result ≡ is_over_input (length text.now) }
{
    INPUT_LIMIT < text.len()
}

// Reads standard input until it ends or the buffer is full, and answers how many bytes it has.
pub fn read_input(input: &mut [u8; INPUT_BYTES]) -> usize
    ensures { IsPrefixLen result input.new }
{
    io::read_full(STDIN_FILENO, input)
}

// Puts a name, two numbers, each after a space, and what ends the line.
pub fn put_line(out: &mut Out, name: &[u8], first: usize, second: usize, end: &[u8])
    ensures { Prints (counts_line name.now first second end.now) out.old out.new }
{
    out.put(name);
    out.put_spaced(first);
    out.put_spaced(second);
    out.put(end);
}

// Puts a refusal's number and place, as `refused 13 8`, and what ends the line.
pub fn put_refusal(out: &mut Out, number: u32, place: usize, end: &[u8])
    ensures { Prints (refusal_line number place end.now) out.old out.new }
{
    put_line(out, b"refused", number as usize, place, end);
}

// Puts the line of a text that is longer than a program reads.
pub fn put_too_long(out: &mut Out)
    ensures { Prints too_long_line out.old out.new }
{
    put_refusal(out, TEXT_TOO_LONG, INPUT_LIMIT, b"\n");
}

// How many bytes a number of a record has.
pub const U32_BYTES: usize = 4;

// The u32 that stands at a place, its lowest byte first; 0 where it isn't there whole.
pub fn u32_at(bytes: &[u8], at: usize) -> u32
    ensures { result ≡ u32_at bytes.now at }
{
    if bytes.len() < U32_BYTES {
        return 0;
    }
    if bytes.len() - U32_BYTES < at {
        return 0;
    }
    u32::from_le_bytes([bytes[at], bytes[at + 1], bytes[at + 2], bytes[at + 3]])
}
