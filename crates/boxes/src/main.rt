// Tells the boxes of the geometry that the text on standard input begins with, a line for each node: its row, the number of its kind as `listing` has it, and low X,
// high X, low Y and high Y as decimals with seven places, lows rounded down and highs up; `-` where a node has no coordinates; or the refusal's number and place.
// `POINT(1 -2.5)` is `0 1 1.0000000 1.0000000 -2.5000000 -2.5000000`, `POINT EMPTY` is `0 1 -`, and `POINT(1 +inf)` is `refused 30 9`. The crate `box_lines` has
// the lines.
#![tactic(auto)]

use bounds::BOX_WIDTH;
use box_lines::put_boxes;
use console::{
    INPUT_BYTES, NODE_PLACES, NODE_ROWS, NUMBER_PLACES, is_over, put_refusal, put_too_long,
    read_input,
};
use printing::Out;
use store::ReadAnswer;

// A row for each node that there is room for.
const TABLE_PLACES: usize = NODE_ROWS * BOX_WIDTH;

const OUTPUT_BYTES: usize = 65_536;

// The boxes of the rows that were read.
fn put_told(
    out: &mut Out,
    text: &[u8],
    nodes: &[u32],
    numbers: &[u32],
    read: ReadAnswer,
    table: &mut [i64],
) {
    let node_places = store::node_places(nodes, read.nodes);
    let number_places = store::number_places(numbers, read.numbers);
    let answer = node_boxes::boxes(
        text,
        &nodes[0..node_places],
        &numbers[0..number_places],
        table,
    );
    if answer.number == 0 {
        put_boxes(out, nodes, table, read.nodes);
    } else {
        put_refusal(out, answer.number, answer.place, b"\n");
    }
}

fn put_read(out: &mut Out, text: &[u8], nodes: &mut [u32], numbers: &mut [u32], table: &mut [i64]) {
    if is_over(text) {
        put_too_long(out);
        return;
    }
    let read = wkt::read(text, nodes, numbers);
    if read.number == 0 {
        put_told(out, text, nodes, numbers, read, table);
    } else {
        put_refusal(out, read.number, read.place, b"\n");
    }
}

// The buffers come as arrays, whose types tell their lengths.
fn print_boxes(
    text: &[u8],
    nodes: &mut [u32; NODE_PLACES],
    numbers: &mut [u32; NUMBER_PLACES],
    table: &mut [i64; TABLE_PLACES],
    bytes: &mut [u8; OUTPUT_BYTES],
) {
    let mut out = Out::new(bytes);
    put_read(&mut out, text, nodes, numbers, table);
    out.flush();
}

fn main() {
    let mut input = [0u8; INPUT_BYTES];
    let mut nodes = [0u32; NODE_PLACES];
    let mut numbers = [0u32; NUMBER_PLACES];
    let mut table = [0i64; TABLE_PLACES];
    let mut bytes = [0u8; OUTPUT_BYTES];
    let count = read_input(&mut input);
    print_boxes(
        &input[..count],
        &mut nodes,
        &mut numbers,
        &mut table,
        &mut bytes,
    );
}
