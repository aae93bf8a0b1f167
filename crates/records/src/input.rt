// Standard input, read through a buffer that holds at least one whole record.
ghost use Rattle.std.specs.Prelude.{◌≡◌, ◌-◌, ◌≤◌, length, take, drop};
ghost use Rattle.printing.specs.Printing.{held};
ghost use Rattle.records.specs.Input.{front_in, front_of, InBuffer, Refilled, cut_in};

use crate::lines::put_bad_record;
use crate::parts::field;
use console::U32_BYTES;
use printing::{Out, STDIN_FILENO};

// Holds the largest record that a letter may have: two slices of 98,304 u32, a text, and some fields. A larger one is passed over.
pub const INPUT_BYTES: usize = 1_048_576;

pub const OUT_BYTES: usize = 65_536;

// How far the input is answered.
#[derive(Clone, Copy)]
pub struct State {
    // The unread bytes of the input's buffer: from `from` on, before `have`.
    pub from: usize,
    pub have: usize,
    // How many of the unread bytes and of those that are still to come are to be passed over.
    pub skip: usize,
    // Whether there may be more to read.
    pub more: bool,
}

// What stands at the front of the unread bytes.
#[derive(Clone, Copy)]
pub enum Front {
    // A whole record: what follows its count, from the one place on, before the other.
    Whole(usize, usize),
    // A record that the buffer can't hold: how many of its bytes are still to come.
    TooLarge(usize),
    // Not yet a whole record.
    Cut,
}

fn front_in(input: &[u8], from: usize, to: usize) -> Front
    requires from_le_to { from ≤ to }
    requires to_in_bounds { to ≤ length input.now }
    ensures value { result ≡ front_in input.now from to }
    ensures in_buffer { InBuffer result (length input.now) }
{
    if to - from < U32_BYTES {
        return Front::Cut;
    }
    let start = from + U32_BYTES;
    let count = field(input, from);
    if input.len() - U32_BYTES < count {
        return Front::TooLarge(count - (to - start));
    }
    if to - start < count {
        return Front::Cut;
    }
    Front::Whole(start, start + count)
}

pub fn at_front(input: &[u8], s: State) -> Front
    ensures value { result ≡ front_of input.now s }
    ensures in_buffer { InBuffer result (length input.now) }
{
    let to = s.have.min(input.len());
    let from = s.from.min(to);
    front_in(input, from, to)
}

// Moves the bytes from `from` on, before `to`, to the front; a large record that comes by many reads stays there.
fn shift(bytes: &mut [u8], from: usize, to: usize)
    requires from_le_to { from ≤ to }
    requires to_in_bounds { to ≤ length bytes.old }
    ensures { take (to - from) bytes.new ≡ take (to - from) (drop from bytes.old) }
{
    if from == 0 {
        return;
    }
    bytes.copy_within(from..to, 0);
}

// Moves the unread bytes to the front, and fills the room behind them with what is still to be read. No byte comes where there
// is no room, or where the input has ended or can't be read.
pub fn refill(input: &mut [u8], mut s: State) -> State
    ensures { Refilled s input.old result input.new }
{
    let to = s.have.min(input.len());
    let from = s.from.min(to);
    shift(input, from, to);
    let left = to - from;
    let count = io::read_full(STDIN_FILENO, &mut input[left..]);
    let have = left + count;
    let passed = s.skip.min(have);
    s.from = passed;
    s.have = have;
    s.skip = s.skip - passed;
    s.more = 0 < count;
    s
}

// What is left unread when the input has ended is a record that was cut.
pub fn put_cut_record(out: &mut Out, s: State)
    ensures same_bytes { out.new.bytes.ghost_name ≡ out.old.bytes.ghost_name }
    ensures holds { held out.new ≡ cut_in s (held out.old) }
{
    if s.from < s.have {
        put_bad_record(out);
    }
}

// Answers the record at the front of the unread input if it is there whole, and else reads on.
fn turn<F: Fn(&[u8], &mut Out)>(input: &mut [u8], out: &mut Out, mut s: State, answer: &F) -> State
    requires { F.IsAlwaysCallable answer.now }
{
    match at_front(input, s) {
        Front::Whole(start, end) => {
            answer(&input[start..end], out);
            s.from = end;
            s
        },
        Front::TooLarge(skip) => {
            put_bad_record(out);
            s.from = s.have;
            s.skip = skip;
            s
        },
        Front::Cut => refill(input, s),
    }
}

// Answers the records on standard input one after the other, each given what follows its count, and writes the answers out.
// Nothing says that the input ends, so the turns are counted to a number that no run uses up.
pub fn answer_records<F: Fn(&[u8], &mut Out)>(
    input: &mut [u8; INPUT_BYTES],
    bytes: &mut [u8; OUT_BYTES],
    answer: F,
)
    requires { F.IsAlwaysCallable answer }
{
    let mut out = Out::new(bytes);
    let mut s = State {
        from: 0,
        have: 0,
        skip: 0,
        more: true,
    };
    for _turn in 0..u64::MAX {
        if !s.more {
            break;
        }
        s = turn(input, &mut out, s, &answer);
    }
    put_cut_record(&mut out, s);
    out.flush();
}
