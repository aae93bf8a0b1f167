// Keeps the geometry that the text on standard input begins with: writes its tree to standard output as stored bytes of version 1 (the crate `stored`), which every tree of a text that a program takes fits. A refusal is
// told on standard error, as `keep: refused 13 at byte 8: Missing closing parenthesis for type`, and nothing is written.
#![tactic(auto)]

use console::{INPUT_BYTES, INPUT_LIMIT, is_over, read_input};
use expected::{NO_EXPECTATION, expected_of, number_of};
use messages::complain;
use printing::STDOUT_FILENO;
use refusals::TEXT_TOO_LONG;
use store::{NODE_WIDTH, NUMBER_WIDTH};

const NAME: [u8; 4] = *b"keep";

// No text that a program reads needs more: `rooms::enough_rows`.
const ENOUGH_ROWS: usize = 32_768;

const NODE_PLACES: usize = ENOUGH_ROWS * NODE_WIDTH;

const NUMBER_PLACES: usize = ENOUGH_ROWS * NUMBER_WIDTH;

// The head, a field of 7 bytes for each node, and the numbers' texts with 3 bytes before each.
const KEPT_BYTES: usize = 8 + ENOUGH_ROWS * 7 + ENOUGH_ROWS * 3 + INPUT_LIMIT;

// Writes the rows that were read as stored bytes.
fn keep_rows(text: &[u8], nodes: &[u32], numbers: &[u32], kept: &mut [u8]) {
    let wrote = stored::write_1(text, nodes, numbers, kept);
    if wrote.number != 0 {
        complain(&NAME, wrote.number, wrote.place, NO_EXPECTATION);
        return;
    }
    let length = wrote.length.min(kept.len());
    io::write_all(STDOUT_FILENO, &kept[0..length]);
}

fn keep_text(text: &[u8], nodes: &mut [u32], numbers: &mut [u32], kept: &mut [u8]) {
    let read = wkt::read(text, nodes, numbers);
    if read.number != 0 {
        let expected = number_of(expected_of(text, read.number, read.place));
        complain(&NAME, read.number, read.place, expected);
        return;
    }
    let node_places = store::node_places(nodes, read.nodes);
    let number_places = store::number_places(numbers, read.numbers);
    keep_rows(
        text,
        &nodes[0..node_places],
        &numbers[0..number_places],
        kept,
    );
}

// The buffers come as arrays, whose types tell their lengths.
fn keep(
    text: &[u8],
    nodes: &mut [u32; NODE_PLACES],
    numbers: &mut [u32; NUMBER_PLACES],
    kept: &mut [u8; KEPT_BYTES],
) {
    if is_over(text) {
        complain(&NAME, TEXT_TOO_LONG, INPUT_LIMIT, NO_EXPECTATION);
    } else {
        keep_text(text, nodes, numbers, kept);
    }
}

fn main() {
    let mut input = [0u8; INPUT_BYTES];
    let mut nodes = [0u32; NODE_PLACES];
    let mut numbers = [0u32; NUMBER_PLACES];
    let mut kept = [0u8; KEPT_BYTES];
    let count = read_input(&mut input);
    keep(&input[..count], &mut nodes, &mut numbers, &mut kept);
}
