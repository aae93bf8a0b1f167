// The messages of the refusals, and what was expected where a number goes wrong.
#![tactic(auto)]

mod expected_lines;
mod message_lines;

ghost use Rattle.std.specs.Prelude.{[], ◌∷◌};
ghost use Rattle.printing.specs.Printing.{Prints};
ghost use Rattle.line_places.specs.Lines.{numbered_line};
ghost use Rattle.messages.specs.Messages.{message_lines};
ghost use Rattle.messages.specs.ExpectedLines.{expected_lines};
ghost use Rattle.messages.specs.Complaint.{told_line, complaint};

use expected_lines::EXPECTED_LINES;
use line_places::line_at;
use message_lines::MESSAGE_LINES;
use printing::{Out, STDERR_FILENO};

// A message with all that stands before it is shorter.
const LINE_BYTES: usize = 1_024;

// Puts the line with an index, and its end.
fn put_line_at(out: &mut Out, lines: &[u8], number: usize)
    ensures { Prints (numbered_line lines.now number ∷ []) out.old out.new }
{
    let start = line_at(lines, number);
    let rest = &lines[start..];
    let end = line_at(rest, 1);
    out.put(&rest[0..end]);
}

// Puts the message of a refusal, and the line's end.
pub fn put_message(out: &mut Out, number: u32)
    ensures { Prints (numbered_line message_lines number ∷ []) out.old out.new }
{
    put_line_at(out, &MESSAGE_LINES, number as usize);
}

// Puts the message of a number that goes wrong with what was expected there (the crate `expected`), and the line's end.
// Kept (1): what was expected comes as a number, of which any is taken: a type of five or six values would ask more of callers of this and of the three functions
// below, which the README names, and `told_line` has a line for a number past the last too (specs/Examples).
pub fn put_expected(out: &mut Out, expected: u32)
    ensures { Prints (numbered_line expected_lines expected ∷ []) out.old out.new }
{
    put_line_at(out, &EXPECTED_LINES, expected as usize);
}

// Puts the message of a refusal with what was expected at its place, where that isn't 0, and the line's end.
pub fn put_told(out: &mut Out, number: u32, expected: u32)
    ensures { Prints (told_line number expected ∷ []) out.old out.new }
{
    if expected == 0 {
        put_message(out, number);
    } else {
        put_expected(out, expected);
    }
}

// Puts the line that tells of a refusal: the program's name, number, place and message, with what was expected there.
pub fn put_complaint(out: &mut Out, program: &[u8], number: u32, place: usize, expected: u32)
    ensures { Prints (complaint program.now number place expected) out.old out.new }
{
    out.put(program);
    out.put(b": refused ");
    out.put_number(number as usize);
    out.put(b" at byte ");
    out.put_number(place);
    out.put(b": ");
    put_told(out, number, expected);
}

// Tells of a refusal on standard error.
pub fn complain(program: &[u8], number: u32, place: usize, expected: u32) {
    let mut line = [0u8; LINE_BYTES];
    let mut out = Out::new(&mut line);
    put_complaint(&mut out, program, number, place, expected);
    let end = out.at.min(out.bytes.len());
    io::write_all(STDERR_FILENO, &out.bytes[0..end]);
}
