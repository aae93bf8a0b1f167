// Prints the tokens of the texts on standard input by each function of the token reader. A record is one of the program
// `replay`, of its letter `t`: a u32 (little-endian, as every number here) with the count of the bytes that follow it, and
// those bytes: the letter, a place and a count as u32 each, and the text. So many tokens are printed from that place on, once for each
// way to come by them, a line each. By the contract of `step_by` the lines of a record have the same tokens.
//
// A record that is cut or of another letter is answered `bad record`.
#![tactic(auto)]

mod ways;

ghost use Rattle.std.specs.Prelude.{◌≤◌, ◌<◌, length};

use console::{U32_BYTES, u32_at};
use printing::{Out, STDIN_FILENO};
use shown_tokens::put_found;
use token::Found;
use tokenizer::Cursor;
use ways::{Look, Way, step_by};

// What lies behind it is left unread.
const INPUT_BYTES: usize = 1_048_576;

const OUT_BYTES: usize = 65_536;

// Where the parts of a record stand, behind its count.
const LETTER: usize = U32_BYTES;

const PLACE: usize = LETTER + 1;

const COUNT: usize = PLACE + U32_BYTES;

const TEXT: usize = COUNT + U32_BYTES;

// The u32 that stands at a place, as a count or a place.
fn field(bytes: &[u8], at: usize) -> usize {
    u32_at(bytes, at) as usize
}

// What was found, behind a space.
fn put_spaced(out: &mut Out, found: Found) {
    out.put(b" ");
    put_found(out, found);
}

// So many tokens from a place on, each behind a space.
fn put_tokens(out: &mut Out, text: &[u8], place: usize, count: usize, way: Way) {
    let mut cursor = Cursor::new(place);
    for i in 0..count {
        let step = step_by(way, text, cursor, place, i);
        put_spaced(out, step.found);
        cursor = step.next;
    }
}

// The line of one way, behind its name.
fn put_line(out: &mut Out, record: &[u8], name: &[u8], way: Way) {
    let from = TEXT.min(record.len());
    let place = field(record, PLACE);
    let count = field(record, COUNT);
    out.put(name);
    put_tokens(out, &record[from..], place, count, way);
    out.put(b"\n");
}

// By a reader that is lent.
fn put_lent(out: &mut Out, record: &[u8]) {
    put_line(out, record, b"next:", Way::Next);
    put_line(out, record, b"peek:", Way::Peek(Look::First));
    put_line(out, record, b"peek again:", Way::Peek(Look::Second));
    put_line(out, record, b"next after peeks:", Way::Peek(Look::Taken));
}

// By a reader that is passed by value.
fn put_by_value(out: &mut Out, record: &[u8]) {
    put_line(out, record, b"take:", Way::Take);
    put_line(out, record, b"look:", Way::Look(Look::First));
    put_line(out, record, b"look again:", Way::Look(Look::Second));
    put_line(out, record, b"take after looks:", Way::Look(Look::Taken));
}

// The lines of a record that has an answer.
fn put_lines(out: &mut Out, record: &[u8]) {
    put_lent(out, record);
    put_by_value(out, record);
    put_line(out, record, b"nth:", Way::Nth);
}

// Whether a record is there whole and of the right letter.
fn is_good(record: &[u8]) -> bool {
    if record.len() < TEXT {
        return false;
    }
    (record.len() - U32_BYTES == field(record, 0)) & (record[LETTER] == b't')
}

fn put_record(out: &mut Out, record: &[u8]) {
    if is_good(record) {
        put_lines(out, record);
    } else {
        out.put(b"bad record\n");
    }
}

// The end of the record that begins at a place, or of the input where the record is cut.
fn record_end(input: &[u8], from: usize) -> usize
    requires { from < length input.now }
    ensures upper_bound { result ≤ length input.now }
    ensures lower_bound { from < result }
{
    let left = input.len() - from;
    if left < U32_BYTES {
        return input.len();
    }
    let count = field(input, from);
    if left - U32_BYTES < count {
        return input.len();
    }
    from + U32_BYTES + count
}

fn put_records(out: &mut Out, input: &[u8]) {
    // Kept (3): each turn goes on by as many bytes as its record has, so there is no range to count.
    let mut from = 0;
    while from < input.len() {
        let end = record_end(input, from);
        put_record(out, &input[from..end]);
        from = end;
    }
}

// The buffers come as arrays, whose types tell their lengths: lent as slices, the proof of `main` would have to count them out.
fn run(input: &mut [u8; INPUT_BYTES], bytes: &mut [u8; OUT_BYTES]) {
    let count = io::read_full(STDIN_FILENO, input);
    let mut out = Out::new(bytes);
    put_records(&mut out, &input[..count]);
    out.flush();
}

fn main() {
    let mut input = [0u8; INPUT_BYTES];
    let mut bytes = [0u8; OUT_BYTES];
    run(&mut input, &mut bytes);
}
