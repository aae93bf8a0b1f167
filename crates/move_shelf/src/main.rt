// Moves the stored bytes on standard input to another version, and writes them to standard output: `move_shelf up` from version 1 to version 2, `move_shelf back` from version 2
// to version 1. A refusal is told on standard error, as `move_shelf: refused 26 at byte 3: The stored bytes are of another version`, and nothing is written; so is a word
// that is neither.
#![tactic(auto)]

use expected::NO_EXPECTATION;
use messages::complain;
use printing::{STDERR_FILENO, STDIN_FILENO, STDOUT_FILENO};
use refusals::TEXT_TOO_LONG;
use std::env::Env;
use store::{NODE_WIDTH, NUMBER_WIDTH};
use stored_moves::MoveAnswer;

const NAME: [u8; 10] = *b"move_shelf";

const USAGE: [u8; 76] =
    *b"move_shelf: say `up`, to version 2, or `back`, to version 1, after the name\n";

// The most bytes that version 1 may have are 1,048,576, and moved they are 4 more, and 2 for each of 65,535 nodes. Nothing longer fits version 1.
const INPUT_LIMIT: usize = 1_179_650;

// And one more: what lies behind it is left unread.
const INPUT_BYTES: usize = 1_179_651;

const OUTPUT_BYTES: usize = 1_179_650;

// No tree in so many bytes has more: in version 2 a node has 9 of them, and a number, which has a text, 4 or more. Version 1 counts no further than 65,535.
const NODE_PLACES: usize = 131_070 * NODE_WIDTH;

const NUMBER_PLACES: usize = 294_907 * NUMBER_WIDTH;

// Where to: to version 2, to version 1, or nowhere that there is.
#[derive(Drop)]
enum Way {
    Up,
    Back,
    Unknown,
}

// The word after the program's name; one that is missing or too long has no bytes.
fn word_after_name(rt: &HostRuntime) -> Way {
    let mut word = [0u8; 4];
    let count = rt.arg(1, &mut word).unwrap_or(0);
    if (count == 2) & (word[0] == b'u') & (word[1] == b'p') {
        return Way::Up;
    }
    if (count == 4)
        & (word[0] == b'b')
        & (word[1] == b'a')
        & (word[2] == b'c')
        & (word[3] == b'k')
    {
        return Way::Back;
    }
    Way::Unknown
}

// More bytes than the program takes are refused as the reader refuses more than its limit.
fn move_back(bytes: &[u8], nodes: &mut [u32], numbers: &mut [u32], moved: &mut [u8]) -> MoveAnswer {
    if INPUT_LIMIT < bytes.len() {
        return MoveAnswer {
            number: TEXT_TOO_LONG,
            place: INPUT_LIMIT,
            length: 0,
            nodes: 0,
            numbers: 0,
        };
    }
    stored::move_2_to_1(bytes, nodes, numbers, moved)
}

// Writes what was moved, or tells why nothing was.
fn tell(answer: MoveAnswer, moved: &[u8]) {
    if answer.number != 0 {
        complain(&NAME, answer.number, answer.place, NO_EXPECTATION);
        return;
    }
    let length = answer.length.min(moved.len());
    io::write_all(STDOUT_FILENO, &moved[0..length]);
}

// Moves the stored bytes by the word after the program's name.
fn move_bytes(
    rt: &HostRuntime,
    bytes: &[u8],
    nodes: &mut [u32],
    numbers: &mut [u32],
    moved: &mut [u8],
) {
    match word_after_name(rt) {
        Way::Up => {
            let answer = stored::move_1_to_2(bytes, nodes, numbers, moved);
            tell(answer, moved);
        }
        Way::Back => {
            let answer = move_back(bytes, nodes, numbers, moved);
            tell(answer, moved);
        }
        Way::Unknown => {
            io::write_all(STDERR_FILENO, &USAGE);
        }
    }
}

// The buffers come as arrays, whose types tell their lengths: lent as slices, the proof of `main` would have to count them out.
fn run(
    rt: &HostRuntime,
    input: &mut [u8; INPUT_BYTES],
    nodes: &mut [u32; NODE_PLACES],
    numbers: &mut [u32; NUMBER_PLACES],
    moved: &mut [u8; OUTPUT_BYTES],
) {
    let count = io::read_full(STDIN_FILENO, input);
    move_bytes(rt, &input[..count], nodes, numbers, moved);
}

fn main(rt: HostRuntime) {
    let mut input = [0u8; INPUT_BYTES];
    let mut nodes = [0u32; NODE_PLACES];
    let mut numbers = [0u32; NUMBER_PLACES];
    let mut moved = [0u8; OUTPUT_BYTES];
    run(&rt, &mut input, &mut nodes, &mut numbers, &mut moved);
}
