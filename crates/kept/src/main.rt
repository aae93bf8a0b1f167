// Lists the tree whose stored bytes come on standard input, as `listing` lists one that is read from a text. Both versions are taken, by byte 3, and of both
// no more than 1,048,576 bytes, which is all that version 1 may have. A refusal is told on standard error, as
// `kept: refused 25 at byte 8: A field is cut, missing, extra or of wrong tag or length`, and nothing is listed.
#![tactic(auto)]

use expected::NO_EXPECTATION;
use messages::complain;
use printing::{Out, STDIN_FILENO};
use refusals::TEXT_TOO_LONG;
use row_lines::put_lines;
use store::{NODE_WIDTH, NUMBER_WIDTH, ReadAnswer};

const NAME: [u8; 4] = *b"kept";

// The most bytes that are taken.
const INPUT_LIMIT: usize = 1_048_576;

// And one more: what lies behind it is left unread.
const INPUT_BYTES: usize = 1_048_577;

// No stored bytes of that length tell of more: a node has 9 of them in version 2, and version 1 counts no further than 65,535; a number has 3 or more.
const NODE_PLACES: usize = 116_508 * NODE_WIDTH;

const NUMBER_PLACES: usize = 349_525 * NUMBER_WIDTH;

// Where stored bytes tell their version, and the second one.
const VERSION_AT: usize = 3;

const SECOND: u8 = 2;

const OUTPUT_BYTES: usize = 65_536;

fn is_second(bytes: &[u8]) -> bool {
    if bytes.len() <= VERSION_AT {
        return false;
    }
    bytes[VERSION_AT] == SECOND
}

// Bytes that don't say that they are of version 2 are read as those of version 1, which has the refusal for them.
fn read(bytes: &[u8], nodes: &mut [u32], numbers: &mut [u32]) -> ReadAnswer {
    if !is_second(bytes) {
        return stored::read_1(bytes, nodes, numbers);
    }
    if INPUT_LIMIT < bytes.len() {
        return store::refuse(nodes, numbers, TEXT_TOO_LONG, INPUT_LIMIT);
    }
    stored::read_2(bytes, nodes, numbers)
}

// Lists the tree of the stored bytes.
fn list_kept(bytes: &[u8], nodes: &mut [u32], numbers: &mut [u32], out: &mut Out) {
    let read = read(bytes, nodes, numbers);
    if read.number == 0 {
        put_lines(out, read, bytes, nodes, numbers);
    } else {
        complain(&NAME, read.number, read.place, NO_EXPECTATION);
    }
}

// The buffers come as arrays, whose types tell their lengths: lent as slices, the proof of `main` would have to count them out.
fn run(
    input: &mut [u8; INPUT_BYTES],
    nodes: &mut [u32; NODE_PLACES],
    numbers: &mut [u32; NUMBER_PLACES],
    bytes: &mut [u8; OUTPUT_BYTES],
) {
    let count = io::read_full(STDIN_FILENO, input);
    let mut out = Out::new(bytes);
    list_kept(&input[..count], nodes, numbers, &mut out);
    out.flush();
}

fn main() {
    let mut input = [0u8; INPUT_BYTES];
    let mut nodes = [0u32; NODE_PLACES];
    let mut numbers = [0u32; NUMBER_PLACES];
    let mut bytes = [0u8; OUTPUT_BYTES];
    run(&mut input, &mut nodes, &mut numbers, &mut bytes);
}
