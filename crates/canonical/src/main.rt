// Writes the canonical text of the geometry that the text on standard input begins with, and a newline; or the
// refusal's number and place. `multipoint z(1 2 +inf, 3 4 ++5)` is written as `MULTIPOINT Z((1 2 +inf),(3 4 ++5))`,
// and `POINT(x 2)` is `refused 13 8`.
#![tactic(auto)]

use console::{
    INPUT_BYTES, INPUT_LIMIT, NODE_PLACES, NODE_ROWS, NUMBER_PLACES, NUMBER_ROWS, is_over,
    put_refusal, put_too_long, read_input,
};
use printing::Out;
use store::ReadAnswer;

// A canonical text has at most one byte more than its text for each number, `+`, and two for each node: the
// parentheses of a bare point, or a blank before the dimension.
const WRITTEN_BYTES: usize = INPUT_LIMIT + NUMBER_ROWS + 2 * NODE_ROWS;

const OUTPUT_BYTES: usize = 65_536;

// The canonical text of the rows that were read.
fn put_written(
    out: &mut Out,
    text: &[u8],
    nodes: &[u32],
    numbers: &[u32],
    read: ReadAnswer,
    written: &mut [u8],
) {
    let node_places = store::node_places(nodes, read.nodes);
    let number_places = store::number_places(numbers, read.numbers);
    let wrote = to_wkt::write(
        text,
        &nodes[0..node_places],
        &numbers[0..number_places],
        written,
    );
    if wrote.number != 0 {
        put_refusal(out, wrote.number, wrote.place, b"\n");
        return;
    }
    let length = wrote.length.min(written.len());
    out.put(&written[0..length]);
    out.put(b"\n");
}

fn put_canonical(
    out: &mut Out,
    text: &[u8],
    nodes: &mut [u32],
    numbers: &mut [u32],
    written: &mut [u8],
) {
    if is_over(text) {
        put_too_long(out);
        return;
    }
    let read = wkt::read(text, nodes, numbers);
    if read.number == 0 {
        put_written(out, text, nodes, numbers, read, written);
    } else {
        put_refusal(out, read.number, read.place, b"\n");
    }
}

// The buffers come as arrays, whose types tell their lengths.
fn print_canonical(
    text: &[u8],
    nodes: &mut [u32; NODE_PLACES],
    numbers: &mut [u32; NUMBER_PLACES],
    written: &mut [u8; WRITTEN_BYTES],
    bytes: &mut [u8; OUTPUT_BYTES],
) {
    let mut out = Out::new(bytes);
    put_canonical(&mut out, text, nodes, numbers, written);
    out.flush();
}

fn main() {
    let mut input = [0u8; INPUT_BYTES];
    let mut nodes = [0u32; NODE_PLACES];
    let mut numbers = [0u32; NUMBER_PLACES];
    let mut written = [0u8; WRITTEN_BYTES];
    let mut bytes = [0u8; OUTPUT_BYTES];
    let count = read_input(&mut input);
    print_canonical(
        &input[..count],
        &mut nodes,
        &mut numbers,
        &mut written,
        &mut bytes,
    );
}
