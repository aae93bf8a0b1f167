// Lists the geometry that the text on standard input begins with: its rows, a line each, or the refusal's number
// and place. The crate `row_lines` has the lines.
#![tactic(auto)]

use console::{INPUT_BYTES, NODE_PLACES, NUMBER_PLACES, read_input};
use printing::Out;
use row_lines::list;

const OUTPUT_BYTES: usize = 65_536;

// The buffers come as arrays, whose types tell their lengths.
fn print_lines(
    text: &[u8],
    nodes: &mut [u32; NODE_PLACES],
    numbers: &mut [u32; NUMBER_PLACES],
    bytes: &mut [u8; OUTPUT_BYTES],
) {
    let mut out = Out::new(bytes);
    list(text, nodes, numbers, &mut out);
    out.flush();
}

fn main() {
    let mut input = [0u8; INPUT_BYTES];
    let mut nodes = [0u32; NODE_PLACES];
    let mut numbers = [0u32; NUMBER_PLACES];
    let mut bytes = [0u8; OUTPUT_BYTES];
    let count = read_input(&mut input);
    print_lines(&input[..count], &mut nodes, &mut numbers, &mut bytes);
}
